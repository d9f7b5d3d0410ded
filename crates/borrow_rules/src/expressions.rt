//! What is told of expressions, form by form.
ghost use Rattle.std.specs.Prelude.{◌≡◌, ◌++◌, ◌∷◌, [], OnOk, map, option_map};
ghost use Rattle.typed_tree.specs.View.{tree_of, form_of, field_of, maybe_of, nodes_from, fields_from};
ghost use Rattle.typing_rules.specs.Accesses as rules;
ghost use Rattle.typing_rules.specs.Accesses.{◌⊕◌};
ghost use Rattle.borrow_rules.specs.Forms.{argument_told, arm_told, borrow_access, branch_told, call_told, parts_told, reaching_told};
ghost use Rattle.borrow_rules.specs.AccessView.{access_in, aliases_in, argument_in, bound_in, place_if_any, told_in};

use crate::access::access_by;
use crate::arguments::{Argument, passed_together, refers_by};
use crate::bindings::{BoundPart, add_bound};
use crate::guards::{aliases_with, of_guard};
use crate::place::{place_of, root_of, with_end};
use crate::{Access, AccessPlace, Alias, CollectedAccesses};
use mir_base::{List, NoMemory, Pos};
use std::alloc::Global;
use typed_tree::{Form, Node, NumberedField};

/// An access to the place that a node is, if it is one.
fn collect_place(
    alloc: Global,
    aliases: &[Alias],
    access: Access,
    node: &Node,
    at: Pos,
    out: &mut CollectedAccesses,
) -> Result<(), NoMemory>
    ensures { OnOk result (told_in out.new ≡ told_in out.old ⊕
        rules.one (access_in access) (rules.place_of (aliases_in aliases.now) (tree_of node.now)) (rules.root_of (tree_of node.now)) at) }
{
    let place = place_of(alloc, aliases, node)?;
    out.push(access, place, root_of(node), at)
}

/// An index borrows the whole array.
fn collect_array(
    alloc: Global,
    aliases: &[Alias],
    array: &Node,
    at: Pos,
    out: &mut CollectedAccesses,
) -> Result<(), NoMemory>
    ensures { OnOk result (told_in out.new ≡ told_in out.old ⊕
        rules.one rules.Borrows (option_map rules.with_end (rules.place_of (aliases_in aliases.now) (tree_of array.now))) (rules.root_of (tree_of array.now)) at) }
{
    let place = with_end(place_of(alloc, aliases, array)?);
    out.push(Access::Borrows, place, root_of(array), at)
}

/// The use of a place by itself.
fn own_access(
    alloc: Global,
    aliases: &[Alias],
    node: &Node,
    out: &mut CollectedAccesses,
) -> Result<(), NoMemory>
    ensures { OnOk result (told_in out.new ≡ told_in out.old ⊕
        rules.own_access (rules.access_by node.now.by) (rules.place_of (aliases_in aliases.now) (tree_of node.now)) (rules.root_of (tree_of node.now)) node.now.at) }
{
    match access_by(node.by) {
        Some(access) => collect_place(alloc, aliases, access, node, node.at, out),
        None => Ok(()),
    }
}

/// The parts of a value that a pattern takes.
fn of_scrutinee(
    alloc: Global,
    aliases: &[Alias],
    pattern: &Node,
    value: &Node,
    out: &mut CollectedAccesses,
) -> Result<(), NoMemory>
    ensures { OnOk result (told_in out.new ≡ told_in out.old ⊕
        rules.of_scrutinee (aliases_in aliases.now) (tree_of pattern.now) (tree_of value.now)) }
{
    let place = place_of(alloc, aliases, value)?;
    let mut bounds = List::new(alloc);
    add_bound(alloc, &place, pattern, &mut bounds)?;
    out.append_bound(alloc, bounds.as_slice())
}

/// The parts of its initialiser that the pattern of a `let` takes; one name takes the whole value.
fn of_let(
    alloc: Global,
    aliases: &[Alias],
    pattern: &Node,
    value: &Node,
    out: &mut CollectedAccesses,
) -> Result<(), NoMemory>
    ensures { OnOk result (told_in out.new ≡ told_in out.old ⊕
        rules.of_let (aliases_in aliases.now) (tree_of pattern.now) (tree_of value.now)) }
{
    match &pattern.form {
        Form::Binding(_) => Ok(()),
        _ => of_scrutinee(alloc, aliases, pattern, value, out),
    }
}

/// The access of a borrow.
fn borrowing(is_unique: bool) -> Access
    ensures { access_in result ≡ borrow_access is_unique }
{
    if is_unique {
        Access::BorrowsUniquely
    } else {
        Access::Borrows
    }
}

/// What an expression does to places, and where it conflicts within itself, behind what was told before. Inside a
/// guard, aliases say what its bindings stand for.
#[cycle(told)]
pub fn collect_accesses(
    alloc: Global,
    aliases: &[Alias],
    node: &Node,
    out: &mut CollectedAccesses,
) -> Result<(), NoMemory>
    ensures { OnOk result (told_in out.new ≡ told_in out.old ⊕ rules.told (aliases_in aliases.now) (tree_of node.now)) }
{
    collect_inside(alloc, aliases, node, out)?;
    own_access(alloc, aliases, node, out)
}

/// What is inside a place, without its own use.
#[cycle(told)]
fn collect_inside(
    alloc: Global,
    aliases: &[Alias],
    node: &Node,
    out: &mut CollectedAccesses,
) -> Result<(), NoMemory>
    ensures { OnOk result (told_in out.new ≡ told_in out.old ⊕ rules.inside (aliases_in aliases.now) (tree_of node.now)) }
{
    collect_form(alloc, aliases, node.at, &node.form, out)
}

#[cycle(told)]
fn collect_form(
    alloc: Global,
    aliases: &[Alias],
    at: Pos,
    form: &Form,
    out: &mut CollectedAccesses,
) -> Result<(), NoMemory>
    ensures { OnOk result (told_in out.new ≡ told_in out.old ⊕ rules.told_form (aliases_in aliases.now) at (form_of form.now)) }
{
    match form {
        Form::Field { base: place, .. } | Form::Deref(place) => {
            collect_inside(alloc, aliases, place, out)
        }
        Form::Not(one)
        | Form::Negate(one)
        | Form::NewBox(one)
        | Form::Print(one)
        | Form::DropValue(one)
        | Form::Forget(one)
        | Form::Unsize { operand: one, .. }
        | Form::Evaluate(one)
        | Form::Loop(one) => collect_accesses(alloc, aliases, one, out),
        Form::Make { fields, .. } => collect_fields(alloc, aliases, fields.as_slice(), out),
        Form::Tuple(nodes)
        | Form::Array(nodes)
        | Form::Closure {
            captures: nodes,
            ..
        } => collect_all(alloc, aliases, nodes.as_slice(), out),
        Form::Break { value, .. } | Form::Return(value) => collect_if_any(
            alloc, aliases, value, out,
        ),
        Form::Index { .. } | Form::Assign { .. } | Form::Borrow { .. } => {
            collect_reaching(alloc, aliases, at, form, out)
        }
        Form::Call { .. }
        | Form::MethodCall { .. }
        | Form::VirtualCall { .. }
        | Form::ClosureCall { .. } => collect_call(alloc, aliases, form, out),
        Form::If { .. } | Form::IfLet { .. } | Form::WhileLet { .. } | Form::Match { .. } => {
            collect_branches(alloc, aliases, form, out)
        }
        Form::Arithmetic { .. }
        | Form::Comparison { .. }
        | Form::And { .. }
        | Form::Or { .. }
        | Form::While { .. }
        | Form::Block { .. }
        | Form::Let { .. } => collect_parts(alloc, aliases, at, form, out),
        Form::Number(_)
        | Form::Truth(_)
        | Form::UnitValue
        | Form::Variable(_)
        | Form::Captured { .. }
        | Form::Ask
        | Form::Panic
        | Form::Arm { .. }
        | Form::Continue { .. }
        | Form::Wildcard
        | Form::Binding(_)
        | Form::NumberPattern(_)
        | Form::TruthPattern(_)
        | Form::StructPattern(_)
        | Form::VariantPattern { .. }
        | Form::TuplePattern(_)
        | Form::ArrayPattern(_)
        | Form::OrPattern(_) => Ok(()),
    }
}

/// Of an element, whose index borrows the whole array; of an assignment; of a borrow.
#[cycle(told)]
fn collect_reaching(
    alloc: Global,
    aliases: &[Alias],
    at: Pos,
    form: &Form,
    out: &mut CollectedAccesses,
) -> Result<(), NoMemory>
    ensures { OnOk result (told_in out.new ≡ told_in out.old ⊕ reaching_told (aliases_in aliases.now) at (form_of form.now)) }
{
    match form {
        Form::Index { base, index, .. } => {
            let base: &Node = base;
            collect_inside(alloc, aliases, base, out)?;
            collect_accesses(alloc, aliases, index, out)?;
            collect_array(alloc, aliases, base, at, out)
        }
        Form::Assign { place, value } => {
            let place: &Node = place;
            collect_accesses(alloc, aliases, value, out)?;
            collect_inside(alloc, aliases, place, out)?;
            collect_place(alloc, aliases, Access::Stores, place, at, out)
        }
        Form::Borrow { unique, base } => {
            let base: &Node = base;
            collect_inside(alloc, aliases, base, out)?;
            collect_place(alloc, aliases, borrowing(*unique), base, at, out)
        }
        _ => Ok(()),
    }
}

/// Of a call, whose arguments are passed together, a receiver among them.
#[cycle(told)]
fn collect_call(
    alloc: Global,
    aliases: &[Alias],
    form: &Form,
    out: &mut CollectedAccesses,
) -> Result<(), NoMemory>
    ensures { OnOk result (told_in out.new ≡ told_in out.old ⊕ call_told (aliases_in aliases.now) (form_of form.now)) }
{
    let mut args = List::new(alloc);
    match form {
        Form::Call { args: nodes, .. } => {
            let nodes = nodes.as_slice();
            collect_arguments(alloc, aliases, nodes, &mut args)?;
            passed_together(alloc, args, out)
        }
        Form::MethodCall {
            receiver,
            args: nodes,
            ..
        }
        | Form::VirtualCall {
            receiver,
            args: nodes,
            ..
        } => {
            let receiver: &Node = receiver;
            let nodes = nodes.as_slice();
            collect_argument(alloc, aliases, true, receiver, &mut args)?;
            collect_arguments(alloc, aliases, nodes, &mut args)?;
            passed_together(alloc, args, out)
        }
        Form::ClosureCall {
            callee,
            args: nodes,
            ..
        } => {
            let callee: &Node = callee;
            let nodes = nodes.as_slice();
            collect_accesses(alloc, aliases, callee, out)?;
            collect_arguments(alloc, aliases, nodes, &mut args)?;
            passed_together(alloc, args, out)
        }
        _ => Ok(()),
    }
}

/// Of a branch or a loop on a pattern.
#[cycle(told)]
fn collect_branches(
    alloc: Global,
    aliases: &[Alias],
    form: &Form,
    out: &mut CollectedAccesses,
) -> Result<(), NoMemory>
    ensures { OnOk result (told_in out.new ≡ told_in out.old ⊕ branch_told (aliases_in aliases.now) (form_of form.now)) }
{
    match form {
        Form::If {
            condition,
            then,
            otherwise,
        } => {
            let condition: &Node = condition;
            let then: &Node = then;
            collect_accesses(alloc, aliases, condition, out)?;
            collect_accesses(alloc, aliases, then, out)?;
            collect_if_any(alloc, aliases, otherwise, out)
        }
        Form::IfLet {
            pattern,
            scrutinee,
            then,
            otherwise,
        } => {
            let pattern: &Node = pattern;
            let scrutinee: &Node = scrutinee;
            let then: &Node = then;
            collect_accesses(alloc, aliases, scrutinee, out)?;
            of_scrutinee(alloc, aliases, pattern, scrutinee, out)?;
            collect_accesses(alloc, aliases, then, out)?;
            collect_if_any(alloc, aliases, otherwise, out)
        }
        Form::WhileLet {
            pattern,
            scrutinee,
            body,
        } => {
            let pattern: &Node = pattern;
            let scrutinee: &Node = scrutinee;
            let body: &Node = body;
            collect_accesses(alloc, aliases, scrutinee, out)?;
            of_scrutinee(alloc, aliases, pattern, scrutinee, out)?;
            collect_accesses(alloc, aliases, body, out)
        }
        Form::Match { scrutinee, arms } => {
            let scrutinee: &Node = scrutinee;
            collect_accesses(alloc, aliases, scrutinee, out)?;
            let arms = arms.as_slice();
            let place = place_of(alloc, aliases, scrutinee)?;
            collect_arms(alloc, aliases, &place, arms, out)
        }
        _ => Ok(()),
    }
}

/// Of two operands, a loop with a condition, a block or a `let`: its parts in order.
#[cycle(told)]
fn collect_parts(
    alloc: Global,
    aliases: &[Alias],
    at: Pos,
    form: &Form,
    out: &mut CollectedAccesses,
) -> Result<(), NoMemory>
    ensures { OnOk result (told_in out.new ≡ told_in out.old ⊕ parts_told (aliases_in aliases.now) at (form_of form.now)) }
{
    match form {
        Form::Arithmetic { left, right, .. }
        | Form::Comparison { left, right, .. }
        | Form::And { left, right }
        | Form::Or { left, right }
        | Form::While {
            condition: left,
            body: right,
        } => {
            let left: &Node = left;
            let right: &Node = right;
            collect_accesses(alloc, aliases, left, out)?;
            collect_accesses(alloc, aliases, right, out)
        }
        Form::Block { statements, tail } => {
            collect_all(alloc, aliases, statements.as_slice(), out)?;
            collect_if_any(alloc, aliases, tail, out)
        }
        Form::Let {
            pattern,
            initialiser: Some(value),
        } => {
            let pattern: &Node = pattern;
            let value: &Node = value;
            collect_accesses(alloc, aliases, value, out)?;
            of_let(alloc, aliases, pattern, value, out)
        }
        _ => Ok(()),
    }
}

#[cycle(told)]
fn collect_if_any(
    alloc: Global,
    aliases: &[Alias],
    node: &Option<Box<Node, Global>>,
    out: &mut CollectedAccesses,
) -> Result<(), NoMemory>
    ensures { OnOk result (told_in out.new ≡ told_in out.old ⊕ rules.told_maybe (aliases_in aliases.now) (maybe_of node.now)) }
{
    match node {
        Some(node) => collect_accesses(alloc, aliases, node, out),
        None => Ok(()),
    }
}

#[cycle(told)]
fn collect_all(
    alloc: Global,
    aliases: &[Alias],
    nodes: &[Node],
    out: &mut CollectedAccesses,
) -> Result<(), NoMemory>
    ensures { OnOk result (told_in out.new ≡ told_in out.old ⊕ rules.told_all (aliases_in aliases.now) (nodes_from (map tree_of nodes.now))) }
{
    for node in nodes {
        collect_accesses(alloc, aliases, node, out)?;
    }
    Ok(())
}

#[cycle(told)]
fn collect_fields(
    alloc: Global,
    aliases: &[Alias],
    fields: &[NumberedField],
    out: &mut CollectedAccesses,
) -> Result<(), NoMemory>
    ensures { OnOk result (told_in out.new ≡ told_in out.old ⊕ rules.told_fields (aliases_in aliases.now) (fields_from (map field_of fields.now))) }
{
    for field in fields {
        collect_accesses(alloc, aliases, &field.value, out)?;
    }
    Ok(())
}

/// An argument by itself, behind those before it.
#[cycle(told)]
fn collect_argument(
    alloc: Global,
    aliases: &[Alias],
    is_receiver: bool,
    node: &Node,
    args: &mut List<Argument>,
) -> Result<(), NoMemory>
    ensures { OnOk result (map argument_in args.new ≡
        map argument_in args.old ++ argument_told (aliases_in aliases.now) is_receiver (tree_of node.now) ∷ []) }
{
    let refers = refers_by(alloc, aliases, &node.form)?;
    let mut own = CollectedAccesses::quiet(alloc);
    collect_accesses(alloc, aliases, node, &mut own)?;
    args.push(Argument {
        refers,
        is_receiver,
        at: node.at,
        told: own,
    })
}

#[cycle(told)]
fn collect_arguments(
    alloc: Global,
    aliases: &[Alias],
    nodes: &[Node],
    args: &mut List<Argument>,
) -> Result<(), NoMemory>
    ensures { OnOk result (map argument_in args.new ≡
        map argument_in args.old ++ rules.arguments (aliases_in aliases.now) (nodes_from (map tree_of nodes.now))) }
{
    for node in nodes {
        collect_argument(alloc, aliases, false, node, args)?;
    }
    Ok(())
}

#[cycle(told)]
fn collect_arms(
    alloc: Global,
    aliases: &[Alias],
    place: &Option<AccessPlace>,
    arms: &[Node],
    out: &mut CollectedAccesses,
) -> Result<(), NoMemory>
    ensures { OnOk result (told_in out.new ≡ told_in out.old ⊕
        rules.told_arms (aliases_in aliases.now) (place_if_any place.now) (nodes_from (map tree_of arms.now))) }
{
    for arm in arms {
        collect_arm(alloc, aliases, place, arm, out)?;
    }
    Ok(())
}

/// An arm of a match.
#[cycle(told)]
fn collect_arm(
    alloc: Global,
    aliases: &[Alias],
    place: &Option<AccessPlace>,
    arm: &Node,
    out: &mut CollectedAccesses,
) -> Result<(), NoMemory>
    ensures { OnOk result (told_in out.new ≡ told_in out.old ⊕
        rules.told_arm (aliases_in aliases.now) (place_if_any place.now) (tree_of arm.now)) }
{
    collect_guarded(alloc, aliases, place, &arm.form, out)
}

/// Of an arm: its guard, what its bindings take, and its body.
#[cycle(told)]
fn collect_guarded(
    alloc: Global,
    aliases: &[Alias],
    place: &Option<AccessPlace>,
    form: &Form,
    out: &mut CollectedAccesses,
) -> Result<(), NoMemory>
    ensures { OnOk result (told_in out.new ≡ told_in out.old ⊕
        arm_told (aliases_in aliases.now) (place_if_any place.now) (form_of form.now)) }
{
    match form {
        Form::Arm {
            pattern,
            guard,
            body,
        } => {
            let pattern: &Node = pattern;
            let body: &Node = body;
            let mut bounds = List::new(alloc);
            add_bound(alloc, place, pattern, &mut bounds)?;
            let bounds = bounds.as_slice();
            collect_guard(alloc, aliases, place, bounds, guard, out)?;
            out.append_bound(alloc, bounds)?;
            collect_accesses(alloc, aliases, body, out)
        }
        _ => Ok(()),
    }
}

#[cycle(told)]
fn collect_guard(
    alloc: Global,
    aliases: &[Alias],
    place: &Option<AccessPlace>,
    bounds: &[BoundPart],
    guard: &Option<Box<Node, Global>>,
    out: &mut CollectedAccesses,
) -> Result<(), NoMemory>
    ensures { OnOk result (told_in out.new ≡ told_in out.old ⊕
        rules.told_guard (aliases_in aliases.now) (place_if_any place.now) (map bound_in bounds.now) (maybe_of guard.now)) }
{
    match guard {
        Some(guard) => {
            let guard: &Node = guard;
            let aliases = aliases_with(alloc, bounds, aliases)?;
            let mut own = CollectedAccesses::quiet(alloc);
            collect_accesses(alloc, aliases.as_slice(), guard, &mut own)?;
            of_guard(alloc, place, bounds, own, out)
        }
        None => Ok(()),
    }
}
