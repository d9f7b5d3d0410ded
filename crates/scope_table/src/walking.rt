//! The rows of nodes, in the order in which they are complete.
ghost use Rattle.std.specs.Prelude.{◌≡◌, ◌++◌, OnOk, map};
ghost use Rattle.scope_table.specs.Table as table;
ghost use Rattle.typed_tree.specs.Tree.{present};
ghost use Rattle.typed_tree.specs.View.{tree_of, form_of, field_of, maybe_of, nodes_from, fields_from, param_tree};

use crate::forms::{
    both_in, entry_in, initial, inner, is_arm, is_idle, let_name, name_in, nothing, own_scope,
    pending_in, reached_in, temporary_of,
};
use crate::patterns::{add_in_pattern, add_other, add_pattern, add_where, row_of};
use crate::row::{MadeAround, ScopeRow, Within};
use mir_base::{List, NoMemory, NodeId};
use std::alloc::Global;
use typed_tree::{Form, Node, NumberedField, Param};

/// The rows of those below a node, and of the node, which makes this.
#[cycle(rows)]
pub fn add_node(
    alloc: Global,
    within: Within,
    made: MadeAround,
    node: &Node,
    rows: &mut List<ScopeRow>,
) -> Result<(), NoMemory>
    ensures { OnOk result (rows.new ≡ rows.old ++ table.rows within made (tree_of node.now)) }
{
    add_in_form(alloc, within, node.id, &node.form, rows)?;
    add_where(alloc, is_idle(&node.form), within.temporary, node, rows)?;
    let temporary = temporary_of(node.id, &node.form, within.temporary);
    rows.push(row_of(node.id, temporary, made))
}

/// Of an operand.
#[cycle(rows)]
fn add_operand(
    alloc: Global,
    within: Within,
    id: NodeId,
    node: &Node,
    rows: &mut List<ScopeRow>,
) -> Result<(), NoMemory>
    ensures { OnOk result (rows.new ≡ rows.old
        ++ table.rows (table.inner id within) (table.entry_in id (tree_of node.now)) (tree_of node.now)) }
{
    add_node(alloc, inner(id, within), entry_in(id, node), node, rows)
}

/// Of a place that is reached, or a temporary.
#[cycle(rows)]
fn add_reached(
    alloc: Global,
    within: Within,
    node: &Node,
    rows: &mut List<ScopeRow>,
) -> Result<(), NoMemory>
    ensures { OnOk result (rows.new ≡ rows.old
        ++ table.rows within (table.reached_in within.temporary (tree_of node.now)) (tree_of node.now)) }
{
    add_node(
        alloc,
        within,
        reached_in(within.temporary, node),
        node,
        rows,
    )
}

/// Of a node that is a temporary scope of its own.
#[cycle(rows)]
fn add_alone(alloc: Global, node: &Node, rows: &mut List<ScopeRow>) -> Result<(), NoMemory>
    ensures { OnOk result (rows.new ≡ rows.old ++ table.alone_rows (tree_of node.now)) }
{
    add_node(alloc, both_in(own_scope(node)), nothing(), node, rows)
}

#[cycle(rows)]
fn add_alone_if_any(
    alloc: Global,
    node: &Option<Box<Node, Global>>,
    rows: &mut List<ScopeRow>,
) -> Result<(), NoMemory>
    ensures { OnOk result (rows.new ≡ rows.old ++ table.alone_if_any (maybe_of node.now)) }
{
    match node {
        Some(node) => add_alone(alloc, node, rows),
        None => Ok(()),
    }
}

#[cycle(rows)]
fn add_if_any(
    alloc: Global,
    within: Within,
    node: &Option<Box<Node, Global>>,
    rows: &mut List<ScopeRow>,
) -> Result<(), NoMemory>
    ensures { OnOk result (rows.new ≡ rows.old ++ table.rows_if_any within (maybe_of node.now)) }
{
    match node {
        Some(node) => add_node(alloc, within, nothing(), node, rows),
        None => Ok(()),
    }
}

/// The rows of the nodes below a node.
#[cycle(rows)]
fn add_in_form(
    alloc: Global,
    within: Within,
    id: NodeId,
    form: &Form,
    rows: &mut List<ScopeRow>,
) -> Result<(), NoMemory>
    ensures { OnOk result (rows.new ≡ rows.old ++ table.rows_in within id (form_of form.now)) }
{
    match form {
        Form::Field { base, .. } | Form::Deref(base) | Form::Borrow { base, .. } => {
            add_reached(alloc, within, base, rows)
        }
        Form::Index { base, index, .. } => {
            add_reached(alloc, within, base, rows)?;
            add_node(alloc, within, nothing(), index, rows)
        }
        Form::Not(operand)
        | Form::Negate(operand)
        | Form::NewBox(operand)
        | Form::Print(operand)
        | Form::DropValue(operand)
        | Form::Forget(operand) => add_operand(alloc, within, id, operand, rows),
        Form::Arithmetic { left, right, .. } | Form::Comparison { left, right, .. } => {
            add_operand(alloc, within, id, left, rows)?;
            add_operand(alloc, within, id, right, rows)
        }
        Form::And { left, right }
        | Form::Or { left, right }
        | Form::While {
            condition: left,
            body: right,
        } => {
            add_alone(alloc, left, rows)?;
            add_alone(alloc, right, rows)
        }
        Form::Assign { place, value } => {
            add_operand(alloc, within, id, value, rows)?;
            add_reached(alloc, inner(id, within), place, rows)
        }
        Form::Call { args: nodes, .. }
        | Form::Tuple(nodes)
        | Form::Array(nodes)
        | Form::Closure {
            captures: nodes,
            ..
        } => add_operands(alloc, inner(id, within), id, nodes.as_slice(), rows),
        Form::MethodCall { receiver, args, .. }
        | Form::VirtualCall { receiver, args, .. }
        | Form::ClosureCall {
            callee: receiver,
            args,
            ..
        } => {
            add_operand(alloc, within, id, receiver, rows)?;
            add_operands(alloc, inner(id, within), id, args.as_slice(), rows)
        }
        Form::Make { fields, .. } => {
            add_fields(alloc, inner(id, within), id, fields.as_slice(), rows)
        }
        Form::Unsize { operand, .. } => add_node(alloc, within, nothing(), operand, rows),
        Form::Block { statements, tail } => {
            add_statements(alloc, inner(id, within), statements.as_slice(), rows)?;
            add_alone_if_any(alloc, tail, rows)
        }
        Form::Let {
            pattern,
            initialiser,
        } => add_let(alloc, within.innermost, id, initialiser, pattern, rows),
        Form::Evaluate(expression) => {
            add_node(alloc, both_in(id), pending_in(id), expression, rows)
        }
        Form::If {
            condition,
            then,
            otherwise,
        } => {
            add_alone(alloc, condition, rows)?;
            add_alone(alloc, then, rows)?;
            add_alone_if_any(alloc, otherwise, rows)
        }
        Form::IfLet {
            pattern,
            scrutinee,
            then,
            otherwise,
        } => {
            add_matched(alloc, id, scrutinee, pattern, rows)?;
            add_alone(alloc, then, rows)?;
            add_alone_if_any(alloc, otherwise, rows)
        }
        Form::Match { scrutinee, arms } => {
            add_reached(alloc, within, scrutinee, rows)?;
            add_arms(alloc, within.temporary, arms.as_slice(), rows)
        }
        Form::Loop(body) => add_alone(alloc, body, rows),
        Form::WhileLet {
            pattern,
            scrutinee,
            body,
        } => {
            add_matched(alloc, id, scrutinee, pattern, rows)?;
            add_alone(alloc, body, rows)
        }
        Form::Break { value, .. } | Form::Return(value) => {
            add_if_any(alloc, within, value, rows)
        }
        Form::Number(_)
        | Form::Truth(_)
        | Form::UnitValue
        | Form::Variable(_)
        | Form::Captured { .. }
        | Form::Ask
        | Form::Panic
        | Form::Continue { .. }
        | Form::Arm { .. }
        | Form::Wildcard
        | Form::Binding(_)
        | Form::NumberPattern(_)
        | Form::TruthPattern(_)
        | Form::StructPattern(_)
        | Form::VariantPattern { .. }
        | Form::TuplePattern(_)
        | Form::ArrayPattern(_)
        | Form::OrPattern(_) => Ok(()),
    }
}

/// Of a `let`: its value, and then its pattern, whose names are entries of a scope.
#[cycle(rows)]
fn add_let(
    alloc: Global,
    scope: NodeId,
    id: NodeId,
    value: &Option<Box<Node, Global>>,
    pattern: &Node,
    rows: &mut List<ScopeRow>,
) -> Result<(), NoMemory>
    ensures { OnOk result (rows.new ≡ rows.old
        ++ table.let_rows id scope (tree_of pattern.now) (maybe_of value.now)) }
{
    match value {
        Some(value) => add_valued(alloc, scope, id, value, pattern, rows),
        None => add_pattern(alloc, id, name_in(scope), pattern, rows),
    }
}

#[cycle(rows)]
fn add_valued(
    alloc: Global,
    scope: NodeId,
    id: NodeId,
    value: &Node,
    pattern: &Node,
    rows: &mut List<ScopeRow>,
) -> Result<(), NoMemory>
    ensures { OnOk result (rows.new ≡ rows.old
        ++ table.let_rows id scope (tree_of pattern.now) (present (tree_of value.now))) }
{
    add_initial(alloc, id, value, &pattern.form, rows)?;
    add_pattern(alloc, id, let_name(id, scope, &pattern.form), pattern, rows)
}

#[cycle(rows)]
fn add_initial(
    alloc: Global,
    id: NodeId,
    value: &Node,
    pattern: &Form,
    rows: &mut List<ScopeRow>,
) -> Result<(), NoMemory>
    ensures { OnOk result (rows.new ≡ rows.old
        ++ table.rows (table.both_in id) (table.initial id (form_of pattern.now) (tree_of value.now)) (tree_of value.now)) }
{
    add_node(alloc, both_in(id), initial(id, pattern, value), value, rows)
}

/// Of a scrutinee and its pattern, whose scope is that of the node.
#[cycle(rows)]
fn add_matched(
    alloc: Global,
    id: NodeId,
    scrutinee: &Node,
    pattern: &Node,
    rows: &mut List<ScopeRow>,
) -> Result<(), NoMemory>
    ensures { OnOk result (rows.new ≡ rows.old
        ++ table.matched_rows id (tree_of scrutinee.now) (tree_of pattern.now)) }
{
    add_reached(alloc, both_in(id), scrutinee, rows)?;
    add_pattern(alloc, id, name_in(id), pattern, rows)
}

#[cycle(rows)]
fn add_arm(
    alloc: Global,
    temporary: NodeId,
    arm: &Node,
    rows: &mut List<ScopeRow>,
) -> Result<(), NoMemory>
    ensures { OnOk result (rows.new ≡ rows.old ++ table.arm_rows temporary (tree_of arm.now)) }
{
    add_arm_of(alloc, temporary, arm.id, &arm.form, rows)?;
    add_other(alloc, is_arm(&arm.form), temporary, arm, rows)
}

#[cycle(rows)]
fn add_arm_of(
    alloc: Global,
    temporary: NodeId,
    id: NodeId,
    form: &Form,
    rows: &mut List<ScopeRow>,
) -> Result<(), NoMemory>
    ensures { OnOk result (rows.new ≡ rows.old ++ table.arm_rows_of temporary id (form_of form.now)) }
{
    match form {
        Form::Arm {
            pattern,
            guard,
            body,
        } => {
            rows.push(row_of(id, temporary, nothing()))?;
            add_alone_if_any(alloc, guard, rows)?;
            add_pattern(alloc, temporary, name_in(id), pattern, rows)?;
            add_alone(alloc, body, rows)
        }
        _ => Ok(()),
    }
}

#[cycle(rows)]
fn add_arms(
    alloc: Global,
    temporary: NodeId,
    arms: &[Node],
    rows: &mut List<ScopeRow>,
) -> Result<(), NoMemory>
    ensures { OnOk result (rows.new ≡ rows.old
        ++ table.rows_of_arms temporary (nodes_from (map tree_of arms.now))) }
{
    for arm in arms {
        add_arm(alloc, temporary, arm, rows)?;
    }
    Ok(())
}

#[cycle(rows)]
fn add_operands(
    alloc: Global,
    within: Within,
    id: NodeId,
    nodes: &[Node],
    rows: &mut List<ScopeRow>,
) -> Result<(), NoMemory>
    ensures { OnOk result (rows.new ≡ rows.old
        ++ table.operand_rows within id (nodes_from (map tree_of nodes.now))) }
{
    for node in nodes {
        add_node(alloc, within, entry_in(id, node), node, rows)?;
    }
    Ok(())
}

#[cycle(rows)]
fn add_fields(
    alloc: Global,
    within: Within,
    id: NodeId,
    fields: &[NumberedField],
    rows: &mut List<ScopeRow>,
) -> Result<(), NoMemory>
    ensures { OnOk result (rows.new ≡ rows.old
        ++ table.field_rows within id (fields_from (map field_of fields.now))) }
{
    for field in fields {
        add_node(
            alloc,
            within,
            entry_in(id, &field.value),
            &field.value,
            rows,
        )?;
    }
    Ok(())
}

#[cycle(rows)]
fn add_statements(
    alloc: Global,
    within: Within,
    nodes: &[Node],
    rows: &mut List<ScopeRow>,
) -> Result<(), NoMemory>
    ensures { OnOk result (rows.new ≡ rows.old
        ++ table.statement_rows within (nodes_from (map tree_of nodes.now))) }
{
    for node in nodes {
        add_node(alloc, within, nothing(), node, rows)?;
    }
    Ok(())
}

/// The rows of parameters, which are entries of the entire function, each before the names of its pattern.
pub fn add_params(
    alloc: Global,
    scope: NodeId,
    params: &[Param],
    rows: &mut List<ScopeRow>,
) -> Result<(), NoMemory>
    ensures { OnOk result (rows.new ≡ rows.old ++ table.rows_of_params scope (map param_tree params.now)) }
{
    for param in params {
        rows.push(row_of(param.pattern.id, scope, name_in(scope)))?;
        add_in_pattern(alloc, scope, name_in(scope), &param.pattern, rows)?;
    }
    Ok(())
}
