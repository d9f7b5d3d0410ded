//! Elements, borrows and assignments, behind the code of their parts.
ghost use Rattle.std.specs.Prelude.{◌≡◌, [], ◌∷◌, OnOk};
ghost use Rattle.cfg_graph.specs.Places.{named};
ghost use Rattle.store_model.specs.Effects as effects;
ghost use Rattle.src_meaning.specs.Forms as source;
ghost use Rattle.lower_code.specs.Forms as forms;
ghost use Rattle.lower_code.specs.Ops as ops;
ghost use Rattle.lower_code.specs.Ops.{onto, own_scope_onto};
ghost use Rattle.lower_code.specs.View.{ops_of, destination_of};

use crate::context::{Context, result_place};
use crate::loops_and_guards::whole;
use crate::operations::one_key;
use crate::parts::{moved_from, put_unit};
use crate::sequences::{delivers, in_own_scope};
use crate::{Action, Change, Code, CodeWord};
use cfg_graph::{Operand, Place, Stmt};
use mir_base::{Key, NoMemory, NodeId};
use std::alloc::Global;

/// A look at the whole array, and the check of an index, behind the base and the index.
pub fn element(
    alloc: Global,
    id: NodeId,
    index: NodeId,
    array: Place,
    length: u32,
    code: &mut Code,
) -> Result<(), NoMemory>
    ensures { OnOk result (ops_of code.new ≡ ops.Then ∷ ops.Then ∷ ops.Then
        ∷ ops.Acts index.0 (effects.Bounds (effects.Copied (source.site_of_key index.0)) length)
        ∷ ops.Acts id.0 (effects.Touch (record { node = id.0; place = named array })) ∷ ops_of code.old) }
{
    let action = Action::Stmt(Stmt::Touch(array));
    code.act(alloc, id, action)?;
    let action = Action::Bounds {
        index: Operand::Copied(whole(alloc, Key(index.0))),
        length,
    };
    code.act(alloc, index, action)?;
    code.push(CodeWord::Then)?;
    code.push(CodeWord::Then)?;
    code.push(CodeWord::Then)
}

/// A borrow of a place that has been reached; all of it stands at the node of its base.
pub fn borrowing(
    alloc: Global,
    at: Context,
    base: NodeId,
    unique: bool,
    place: Place,
    code: &mut Code,
) -> Result<(), NoMemory>
    ensures { OnOk result (ops_of code.new ≡ own_scope_onto at.entry.head.id.0 at.entry.own (ops.Then ∷
        onto (forms.deliver_at base.0 at.entry.head.id.0 (λ site. effects.Borrow (record site { node = base.0 }) unique
        (record { node = base.0; place = named place })) (destination_of at.entry.to)) (ops_of code.old))) }
{
    let action = Action::Stmt(Stmt::Borrow {
        to: result_place(alloc, at.to),
        unique,
        of: place,
    });
    delivers(alloc, base, at.head.id, action, at.to, code)?;
    code.push(CodeWord::Then)?;
    in_own_scope(at.head.id, at.own, code)
}

/// What stands under a key is stored at a place, whose old value is dropped first where it needs it.
fn replaces(
    alloc: Global,
    drops: bool,
    node: NodeId,
    place: Place,
    value: NodeId,
    code: &mut Code,
) -> Result<(), NoMemory>
    ensures { OnOk result (ops_of code.new ≡
        onto (forms.replaces drops (record { node = node.0; place = named place }) value.0) (ops_of code.old)) }
{
    if drops {
        let key = Key(value.0);
        return code.replace(alloc, node, place, key);
    }
    let action = Action::Stmt(Stmt::Put(place, moved_from(alloc, value)));
    code.act(alloc, node, action)?;
    code.push(CodeWord::From(Change::Takes(one_key(alloc, value)?)))
}

/// The store of an assignment, behind its value and its place.
pub fn assigning(
    alloc: Global,
    at: Context,
    drops: bool,
    node: NodeId,
    place: Place,
    value: NodeId,
    code: &mut Code,
) -> Result<(), NoMemory>
    ensures { OnOk result (ops_of code.new ≡ ops.InScope at.entry.head.id.0 at.entry.own ∷ ops.Then ∷ ops.Then ∷ ops.Then ∷
        onto (forms.put_unit at.entry.head.id.0 (destination_of at.entry.to))
        (onto (forms.replaces drops (record { node = node.0; place = named place }) value.0) (ops_of code.old))) }
{
    replaces(alloc, drops, node, place, value, code)?;
    put_unit(alloc, at.head.id, at.to, code)?;
    code.push(CodeWord::Then)?;
    code.push(CodeWord::Then)?;
    code.push(CodeWord::Then)?;
    code.push(CodeWord::InScope {
        node: at.head.id,
        for_temporaries: at.own,
    })
}
