//! The rules of evaluation of values, places and jumps.
ghost use Rattle.std.specs.Prelude.{◌≡◌, ◌∷◌, OnOk};
ghost use Rattle.cfg_graph.specs.Places.{named};
ghost use Rattle.cfg_meaning.specs.Actions.{operand_of};
ghost use Rattle.store_model.specs.Effects as effects;
ghost use Rattle.src_meaning.specs.Forms as source;
ghost use Rattle.src_meaning.specs.Shape.{head, shape, operand_at};
ghost use Rattle.typed_tree.specs.View.{tree_of};
ghost use Rattle.lower_code.specs.Code as plain;
ghost use Rattle.lower_code.specs.Forms as forms;
ghost use Rattle.lower_code.specs.Ops as ops;
ghost use Rattle.lower_code.specs.Ops.{onto, own_scope_onto, made_entry_onto};
ghost use Rattle.lower_code.specs.View.{ops_of, effect_of, destination_of, exit_of};

use crate::categories::is_made_in_destination;
use crate::context::{Context, result_place};
use crate::parts::{entry_at, put_unit};
use crate::sequences::{delivers, in_own_scope, made_entry};
use crate::{Action, Code, CodeWord, Destination, Exit, ScopeAt};
use cfg_graph::{Operand, Place, Stmt};
use mir_base::{NoMemory, NodeId};
use mir_ty::Items;
use std::alloc::Global;
use typed_tree::{Node, Use};

/// An effect of a node, in a scope of its own or not.
pub fn effect(alloc: Global, at: Context, action: Action, code: &mut Code) -> Result<(), NoMemory>
    ensures { OnOk result (ops_of code.new ≡ own_scope_onto at.entry.head.id.0 at.entry.own
        (onto (forms.delivers at.entry.head.id.0 at.entry.head.id.0 (effect_of at.entry.head.id.0 action) (destination_of at.entry.to))
        (ops_of code.old))) }
{
    delivers(alloc, at.head.id, at.head.id, action, at.to, code)?;
    in_own_scope(at.head.id, at.own, code)
}

/// A value without operands goes to the destination.
pub fn leaf(alloc: Global, at: Context, value: Operand, code: &mut Code) -> Result<(), NoMemory>
    ensures { OnOk result (ops_of code.new ≡ own_scope_onto at.entry.head.id.0 at.entry.own
        (onto (forms.deliver at.entry.head.id.0 (λ site. effects.Put site (operand_of at.entry.head.id.0 value)) (destination_of at.entry.to))
        (ops_of code.old))) }
{
    let action = Action::Stmt(Stmt::Put(result_place(alloc, at.to), value));
    effect(alloc, at, action, code)
}

/// What a node made is an entry of the innermost scope.
pub fn as_operand(items: &Items, node: &Node, code: &mut Code) -> Result<(), NoMemory>
    ensures { OnOk result (ops_of code.new ≡
        made_entry_onto (shape items.now (tree_of node.now)).in_destination plain.Innermost
        (source.entry_of (head node.now.id.0 node.now.ty node.now.by)) (ops_of code.old)) }
{
    let pends = is_made_in_destination(items, node);
    made_entry(pends, ScopeAt::Innermost, entry_at(node), code)
}

/// An action, and `()` behind it.
pub fn unit_after(
    alloc: Global,
    id: NodeId,
    action: Action,
    to: Destination,
    code: &mut Code,
) -> Result<(), NoMemory>
    ensures { OnOk result (ops_of code.new ≡
        onto (forms.unit_after id.0 (effect_of id.0 action) (destination_of to)) (ops_of code.old)) }
{
    code.act(alloc, id, action)?;
    put_unit(alloc, id, to, code)?;
    code.push(CodeWord::Then)
}

/// How a node uses its place: its value is moved out, or copied.
pub fn operand_from(node: &Node, place: Place) -> Operand
    ensures { operand_of node.now.id.0 result ≡
        operand_at (head node.now.id.0 node.now.ty node.now.by) (named place) }
{
    match node.by {
        Some(Use::Move) => Operand::Moved(place),
        _ => Operand::Copied(place),
    }
}

/// The value of a place that has been reached is used.
pub fn use_of_place(
    alloc: Global,
    node: &Node,
    own: bool,
    to: Destination,
    place: Place,
    code: &mut Code,
) -> Result<(), NoMemory>
    ensures { OnOk result (ops_of code.new ≡ own_scope_onto node.now.id.0 own
        (ops.Then ∷ onto (forms.deliver node.now.id.0
        (λ site. effects.Put site (operand_at (head node.now.id.0 node.now.ty node.now.by) (named place))) (destination_of to))
        (ops_of code.old))) }
{
    let stmt = Stmt::Put(result_place(alloc, to), operand_from(node, place));
    delivers(alloc, node.id, node.id, Action::Stmt(stmt), to, code)?;
    code.push(CodeWord::Then)?;
    in_own_scope(node.id, own, code)
}

/// A jump behind what it gives.
pub fn jump(id: NodeId, exit: Exit, code: &mut Code) -> Result<(), NoMemory>
    ensures { OnOk result (ops_of code.new ≡ ops.Then ∷ ops.Exits id.0 (exit_of exit) ∷ ops_of code.old) }
{
    code.push(CodeWord::Exits { node: id, exit })?;
    code.push(CodeWord::Then)
}

/// A place is read as a whole, if it is one.
pub fn touch_place(
    alloc: Global,
    is_place: bool,
    node: NodeId,
    place: Place,
    code: &mut Code,
) -> Result<(), NoMemory>
    ensures { OnOk result (ops_of code.new ≡
        onto (forms.touched is_place (record { node = node.0; place = named place })) (ops_of code.old)) }
{
    if is_place {
        let action = Action::Stmt(Stmt::Touch(place));
        code.act(alloc, node, action)
    } else {
        code.push(CodeWord::Nothing)
    }
}
