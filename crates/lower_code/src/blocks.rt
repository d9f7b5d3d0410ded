//! Statements, loops and jumps, behind the code of their parts.
ghost use Rattle.std.specs.Prelude.{◌≡◌, ◌∷◌, true, OnOk, map, ◌||◌, not};
ghost use Rattle.mir_ty.specs.Facts.{needs_drop};
ghost use Rattle.src_meaning.specs.Forms as source;
ghost use Rattle.src_meaning.specs.Shape.{head, shape};
ghost use Rattle.typed_tree.specs.View.{tree_of};
ghost use Rattle.pattern_lower.specs.Seen.{bound_of};
ghost use Rattle.lower_code.specs.Code as plain;
ghost use Rattle.lower_code.specs.Forms as forms;
ghost use Rattle.lower_code.specs.Ops as ops;
ghost use Rattle.lower_code.specs.Ops.{onto, made_entry_onto, pending_onto};
ghost use Rattle.lower_code.specs.View.{ops_of, destination_of};

use crate::bindings::{bind, enter_bindings};
use crate::categories::{is_made_in_destination, is_place};
use crate::context::NodeHead;
use crate::parts::{entry_at, is_never_ty, put_unit};
use crate::sequences::{from_pending, made_entry};
use crate::values::jump;
use crate::{Change, Code, CodeWord, Destination, Exit, ScopeAt};
use mir_base::{NoMemory, NodeId};
use mir_ty::Items;
use pattern_lower::Binding;
use std::alloc::Global;
use typed_tree::Node;

/// The value of a block without a tail: `()`, unless no run comes there.
pub fn unit_unless_never(
    alloc: Global,
    items: &Items,
    head: NodeHead,
    to: Destination,
    code: &mut Code,
) -> Result<(), NoMemory>
    ensures { OnOk result (ops_of code.new ≡
        onto (forms.put_unit_if (source.is_never items.now head.ty) head.id.0 (destination_of to)) (ops_of code.old)) }
{
    if is_never_ty(items, head.ty) {
        code.push(CodeWord::Nothing)
    } else {
        put_unit(alloc, head.id, to, code)
    }
}

/// A scope for temporaries around what stands before.
pub fn scope_behind(node: NodeId, code: &mut Code) -> Result<(), NoMemory>
    ensures { OnOk result (ops_of code.new ≡ ops.InScope node.0 true ∷ ops_of code.old) }
{
    code.push(CodeWord::InScope {
        node,
        for_temporaries: true,
    })
}

/// The value of an expression statement is an entry of the statement's scope.
pub fn enter_statement_value(id: NodeId, expression: &Node, code: &mut Code) -> Result<(), NoMemory>
    ensures { OnOk result (ops_of code.new ≡ ops.InScope id.0 true ∷
        made_entry_onto true plain.Innermost
        (source.entry_of (head expression.now.id.0 expression.now.ty expression.now.by)) (ops_of code.old)) }
{
    made_entry(true, ScopeAt::Innermost, entry_at(expression), code)?;
    scope_behind(id, code)
}

/// `let` of one name.
pub fn let_name(id: NodeId, name: &Node, code: &mut Code) -> Result<(), NoMemory>
    ensures { OnOk result (ops_of code.new ≡ ops.InScope id.0 true
        ∷ ops.From (plain.Pends plain.Innermost (source.entry_of (head name.now.id.0 name.now.ty name.now.by)))
        ∷ ops.Then ∷ ops.Changes (plain.Names (source.entry_of (head name.now.id.0 name.now.ty name.now.by)))
        ∷ ops_of code.old) }
{
    let entry = entry_at(name);
    code.push(CodeWord::Changes(Change::Names(entry)))?;
    code.push(CodeWord::Then)?;
    code.push(CodeWord::From(Change::Pends(ScopeAt::Innermost, entry)))?;
    scope_behind(id, code)
}

/// `let` of another pattern, whose names are entries of the block.
pub fn let_parts(
    alloc: Global,
    items: &Items,
    id: NodeId,
    value: &Node,
    bindings: &[Binding],
    code: &mut Code,
) -> Result<(), NoMemory>
    ensures { OnOk result (ops_of code.new ≡ ops.InScope id.0 true ∷ pending_onto
        (not ((shape items.now (tree_of value.now)).is_place || (shape items.now (tree_of value.now)).in_destination))
        plain.Innermost (source.entry_of (head value.now.id.0 value.now.ty value.now.by))
        (ops.Then ∷ onto (forms.bind plain.AroundInnermost (map bound_of bindings.now)) (ops_of code.old))) }
{
    bind(alloc, ScopeAt::AroundInnermost, bindings, code)?;
    code.push(CodeWord::Then)?;
    let pends = !(is_place(items, value) || is_made_in_destination(items, value));
    from_pending(pends, ScopeAt::Innermost, entry_at(value), code)?;
    scope_behind(id, code)
}

/// A name without a value may hold one of the turn of a loop before; one that needs dropping is gone already.
fn clear_binding(items: &Items, binding: &Binding, code: &mut Code) -> Result<(), NoMemory>
    ensures { OnOk result (ops_of code.new ≡
        onto (forms.emptied (needs_drop items.now binding.now.ty) binding.now.key.0) (ops_of code.old)) }
{
    if items.needs_drop(binding.ty) {
        code.push(CodeWord::Nothing)
    } else {
        code.push(CodeWord::Drops(binding.key))
    }
}

/// `let` without a value: its names are entries that are gone.
pub fn declare_bindings(
    items: &Items,
    bindings: &[Binding],
    code: &mut Code,
) -> Result<(), NoMemory>
    ensures { OnOk result (ops_of code.new ≡
        onto (forms.declared items.now (map bound_of bindings.now)) (ops_of code.old)) }
{
    for binding in bindings {
        clear_binding(items, binding, code)?;
    }
    enter_bindings(ScopeAt::Innermost, bindings, code)
}

/// The end of a loop with a condition.
pub fn ends_loop(
    alloc: Global,
    id: NodeId,
    to: Destination,
    code: &mut Code,
) -> Result<(), NoMemory>
    ensures { OnOk result (ops_of code.new ≡ onto (forms.ends_loop id.0 (destination_of to)) (ops_of code.old)) }
{
    put_unit(alloc, id, to, code)?;
    jump(id, Exit::Breaks(id), code)
}
