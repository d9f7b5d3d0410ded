//! The code of whole bodies.
ghost use Rattle.std.specs.Prelude.{◌≡◌, ◌∷◌, [], OnOk, IfOk, map};
ghost use Rattle.typed_tree.specs.View.{body_of, param_tree};
ghost use Rattle.src_meaning.specs.Locals.OfBody.{param_key};
ghost use Rattle.src_meaning.specs.Shape.{shape};
ghost use Rattle.store_model.specs.Places.Place as places;
ghost use Rattle.lower_code.specs.Forms as forms;
ghost use Rattle.lower_code.specs.Ops.{onto, params_onto};
ghost use Rattle.lower_code.specs.View.{ops_of};

use crate::forms::node_code;
use lower_code::{
    Category, Change, Code, CodeWord, Destination, Entry, LoopsAndGuards, ScopeAt, bind,
    is_one_name, place_under, scope_behind,
};
use mir_base::{Key, List, NoMemory};
use mir_ty::Items;
use pattern_lower::bindings;
use std::alloc::Global;
use typed_tree::{Param, TBody};

/// The names of a parameter's pattern; of one name the parameter's entry is its own.
fn names_of_param(
    alloc: Global,
    items: &Items,
    param: &Param,
    code: &mut Code,
) -> Result<(), NoMemory>
    ensures { OnOk result (ops_of code.new ≡ onto
        (forms.names_of_param items.now (shape items.now (param_tree param.now).pattern).is_binding
        ((shape items.now (param_tree param.now).pattern).bindings (places.whole_local (param_key (param_tree param.now)))))
        (ops_of code.old)) }
{
    if is_one_name(items, &param.pattern) {
        return code.push(CodeWord::Nothing);
    }
    let place = place_under(alloc, Key(param.pattern.id.0), &[])?;
    let names = bindings(alloc, &param.pattern, &place)?;
    bind(alloc, ScopeAt::Innermost, names.as_slice(), code)
}

/// Behind the names of parameters, each parameter is an entry from before its names on.
fn params_behind(params: &[Param], code: &mut Code) -> Result<(), NoMemory>
    ensures { OnOk result (ops_of code.new ≡ params_onto (map param_tree params.now) (ops_of code.old)) }
{
    code.push(CodeWord::Nothing)?;
    let mut left = params.len();
    while left > 0 {
        left -= 1;
        let param = &params[left];
        let entry = Entry {
            key: Key(param.pattern.id.0),
            ty: param.ty,
        };
        code.push(CodeWord::Then)?;
        code.push(CodeWord::From(Change::Enters(ScopeAt::Innermost, entry)))?;
    }
    Ok(())
}

/// Parameters in order: each an entry, before the names of its pattern.
fn params_entered(
    alloc: Global,
    items: &Items,
    params: &[Param],
    code: &mut Code,
) -> Result<(), NoMemory>
    ensures { OnOk result (ops_of code.new ≡
        onto (forms.params_entered items.now (map param_tree params.now)) (ops_of code.old)) }
{
    for param in params {
        names_of_param(alloc, items, param, code)?;
    }
    params_behind(params, code)
}

/// The code of a body, with the scope of its entire function: its parameters, and then its block, whose value is the
/// result. Room for so many words is made first; where there are more, they are moved as they come.
///
/// It takes memory and time by the nodes of the body, for each place by its length, for each loop by the loops around
/// it, and for the fields of a struct or a variant by the square of their count.
///
/// # Errors
///
/// [`NoMemory`] where memory is wanted.
pub fn body_code(alloc: Global, items: &Items, body: &TBody, room: usize) -> Result<Code, NoMemory>
    ensures code { IfOk result (λ made. ops_of made ≡ onto (forms.entire_function items.now (body_of body.now)) []) }
{
    let around = LoopsAndGuards {
        answer: Destination::Into(Key(body.block.id.0)),
        loops: &[],
        aliases: &[],
    };
    let mut code = Code {
        ops: List::from_vec(Vec::with_capacity(alloc, room)?),
    };
    params_entered(alloc, items, body.params.as_slice(), &mut code)?;
    node_code(
        alloc,
        items,
        &body.block,
        around,
        Category::UnderOwnKey,
        &mut code,
    )?;
    code.push(CodeWord::Then)?;
    scope_behind(body.block.id, &mut code)?;
    Ok(code)
}
