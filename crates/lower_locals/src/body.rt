ghost use Rattle.std.specs.Prelude.{◌≡◌, ◌++◌, IfOk, OnOk, map};
ghost use Rattle.src_meaning.specs.Locals.OfBody as of_body;
ghost use Rattle.typed_tree.specs.View.{body_of, param_tree};
ghost use Rattle.lower_locals.specs.View.{entry_of, param_entry, inside_params};

use crate::parts::add_parts;
use crate::{Local, Locals};
use mir_base::{Key, List, NoMemory};
use mir_ty::Items;
use std::alloc::Global;
use typed_tree::{Param, TBody};

/// The locals of a body: that of its result, then its parameters, and then, in text order, those of the other nodes
/// whose values are made in a local of their own (the rustc development guide, "MIR data types").
///
/// A place makes none, nor what is made in the destination around it, as the tail of a block. Of a node of type `!`
/// only a call, a name and the use of a place make one. It costs and takes memory by the number of nodes, and for each
/// pattern of a literal by the number of `bool` among the types.
///
/// # Errors
///
/// [`NoMemory`] where memory is wanted, and where there are more locals than 32 bits count.
pub fn locals(alloc: Global, items: &Items, body: &TBody) -> Result<Locals, NoMemory>
    ensures { IfOk result (λ found. found ≡ of_body.locals items.now (body_of body.now)) }
{
    let mut found = List::new(alloc);
    found.push(Local {
        key: Key(body.block.id.0),
        ty: body.result,
    })?;
    add_params(body.params.as_slice(), &mut found)?;
    add_in_params(items, body.params.as_slice(), &mut found)?;
    add_parts(items, &body.block.form, &mut found)?;
    Locals::of(alloc, found)
}

/// The local of each parameter, whose key is the number of its pattern.
fn add_params(params: &[Param], found: &mut List<Local>) -> Result<(), NoMemory>
    ensures { OnOk result (map entry_of found.new ≡
        map entry_of found.old ++ map param_entry (map param_tree params.now)) }
{
    for param in params {
        found.push(Local {
            key: Key(param.pattern.id.0),
            ty: param.ty,
        })?;
    }
    Ok(())
}

/// The locals of the nodes in the pattern of each parameter.
fn add_in_params(items: &Items, params: &[Param], found: &mut List<Local>) -> Result<(), NoMemory>
    ensures { OnOk result (map entry_of found.new ≡
        map entry_of found.old ++ inside_params items.now (map param_tree params.now)) }
{
    for param in params {
        add_parts(items, &param.pattern.form, found)?;
    }
    Ok(())
}
