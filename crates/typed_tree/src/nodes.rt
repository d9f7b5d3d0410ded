ghost use Rattle.std.specs.Prelude.{◌≡◌, ◌++◌, IfOk, OnOk, map};
ghost use Rattle.typed_tree.specs.Nodes as below;
ghost use Rattle.typed_tree.specs.Nodes.{nodes_in, nodes_among, nodes_of_fields, nodes_if_any, param_nodes, body_nodes};
ghost use Rattle.typed_tree.specs.View.{tree_of, form_of, field_of, maybe_of, nodes_from, fields_from, param_tree, body_of};
ghost use Rattle.typed_tree.specs.Branches.{nodes_in_branches};
ghost use Rattle.typed_tree.specs.Listed.{trees};

use crate::{Form, Node, NumberedField, Param, TBody};
use mir_base::{List, NoMemory};
use std::alloc::Global;

/// A node, and then the nodes below it, are put behind those found before.
#[cycle(nodes)]
fn add_node<'a>(node: &'a Node, found: &mut List<&'a Node>) -> Result<(), NoMemory>
    ensures { OnOk result (trees found.new ≡ trees found.old ++ below.nodes_of (tree_of node.now)) }
{
    found.push(node)?;
    add_in_form(&node.form, found)
}

/// The nodes of the children of a form, in their written order.
#[cycle(nodes)]
fn add_in_form<'a>(form: &'a Form, found: &mut List<&'a Node>) -> Result<(), NoMemory>
    ensures { OnOk result (trees found.new ≡ trees found.old ++ nodes_in (form_of form.now)) }
{
    match form {
        Form::Number(_)
        | Form::Truth(_)
        | Form::UnitValue
        | Form::Variable(_)
        | Form::Captured { .. }
        | Form::Ask
        | Form::Panic
        | Form::Continue { .. }
        | Form::Wildcard
        | Form::Binding(_)
        | Form::NumberPattern(_)
        | Form::TruthPattern(_) => Ok(()),
        Form::Field { base: child, .. }
        | Form::Deref(child)
        | Form::Not(child)
        | Form::Negate(child)
        | Form::NewBox(child)
        | Form::Print(child)
        | Form::DropValue(child)
        | Form::Forget(child)
        | Form::Borrow { base: child, .. }
        | Form::Unsize { operand: child, .. }
        | Form::Evaluate(child)
        | Form::Loop(child) => add_node(child, found),
        Form::Index {
            base: left,
            index: right,
            ..
        }
        | Form::Arithmetic { left, right, .. }
        | Form::Comparison { left, right, .. }
        | Form::And { left, right }
        | Form::Or { left, right }
        | Form::Assign {
            place: left,
            value: right,
        }
        | Form::While {
            condition: left,
            body: right,
        } => {
            add_node(left, found)?;
            add_node(right, found)
        }
        Form::Call { args: nodes, .. }
        | Form::Tuple(nodes)
        | Form::Array(nodes)
        | Form::Closure {
            captures: nodes,
            ..
        }
        | Form::TuplePattern(nodes)
        | Form::ArrayPattern(nodes)
        | Form::OrPattern(nodes) => add_nodes(nodes.as_slice(), found),
        Form::MethodCall {
            receiver: first,
            args: rest,
            ..
        }
        | Form::VirtualCall {
            receiver: first,
            args: rest,
            ..
        }
        | Form::ClosureCall {
            callee: first,
            args: rest,
            ..
        }
        | Form::Match {
            scrutinee: first,
            arms: rest,
        } => {
            add_node(first, found)?;
            add_nodes(rest.as_slice(), found)
        }
        Form::Make { fields, .. }
        | Form::StructPattern(fields)
        | Form::VariantPattern { fields, .. } => add_fields(fields.as_slice(), found),
        Form::Block { statements, tail } => {
            add_nodes(statements.as_slice(), found)?;
            add_if_any(tail, found)
        }
        Form::Let {
            pattern,
            initialiser,
        } => {
            add_node(pattern, found)?;
            add_if_any(initialiser, found)
        }
        Form::If { .. } | Form::IfLet { .. } | Form::Arm { .. } | Form::WhileLet { .. } => {
            add_in_branches(form, found)
        }
        Form::Break { value, .. } | Form::Return(value) => add_if_any(value, found),
    }
}

/// The same of an `if`, of an arm of a match and of a loop on a pattern; of other forms nothing.
#[cycle(nodes)]
fn add_in_branches<'a>(form: &'a Form, found: &mut List<&'a Node>) -> Result<(), NoMemory>
    ensures { OnOk result (trees found.new ≡ trees found.old ++ nodes_in_branches (form_of form.now)) }
{
    match form {
        Form::If {
            condition,
            then,
            otherwise,
        } => {
            add_node(condition, found)?;
            add_node(then, found)?;
            add_if_any(otherwise, found)
        }
        Form::IfLet {
            pattern,
            scrutinee,
            then,
            otherwise,
        } => {
            add_node(pattern, found)?;
            add_node(scrutinee, found)?;
            add_node(then, found)?;
            add_if_any(otherwise, found)
        }
        Form::Arm {
            pattern,
            guard,
            body,
        } => {
            add_node(pattern, found)?;
            add_if_any(guard, found)?;
            add_node(body, found)
        }
        Form::WhileLet {
            pattern,
            scrutinee,
            body,
        } => {
            add_node(pattern, found)?;
            add_node(scrutinee, found)?;
            add_node(body, found)
        }
        _ => Ok(()),
    }
}

#[cycle(nodes)]
fn add_nodes<'a>(nodes: &'a [Node], found: &mut List<&'a Node>) -> Result<(), NoMemory>
    ensures { OnOk result (trees found.new ≡ trees found.old ++ nodes_among (nodes_from (map tree_of nodes.now))) }
{
    for node in nodes {
        add_node(node, found)?;
    }
    Ok(())
}

#[cycle(nodes)]
fn add_fields<'a>(fields: &'a [NumberedField], found: &mut List<&'a Node>) -> Result<(), NoMemory>
    ensures { OnOk result (trees found.new ≡ trees found.old ++ nodes_of_fields (fields_from (map field_of fields.now))) }
{
    for field in fields {
        add_node(&field.value, found)?;
    }
    Ok(())
}

#[cycle(nodes)]
fn add_if_any<'a>(
    node: &'a Option<Box<Node, Global>>,
    found: &mut List<&'a Node>,
) -> Result<(), NoMemory>
    ensures { OnOk result (trees found.new ≡ trees found.old ++ nodes_if_any (maybe_of node.now)) }
{
    match node {
        Some(node) => add_node(node, found),
        None => Ok(()),
    }
}

/// A node and the nodes below it, in text order. It costs, and takes memory, by their number.
///
/// # Errors
///
/// [`NoMemory`] where memory is wanted.
pub fn nodes_of<'a>(alloc: Global, node: &'a Node) -> Result<List<&'a Node>, NoMemory>
    ensures { IfOk result (λ found. trees found ≡ below.nodes_of (tree_of node.now)) }
{
    let mut found = List::new(alloc);
    add_node(node, &mut found)?;
    Ok(found)
}

fn add_params<'a>(params: &'a [Param], found: &mut List<&'a Node>) -> Result<(), NoMemory>
    ensures { OnOk result (trees found.new ≡ trees found.old ++ param_nodes (map param_tree params.now)) }
{
    for param in params {
        add_node(&param.pattern, found)?;
    }
    Ok(())
}

/// The nodes of a body in text order: those of the patterns of its parameters, and then its block and those below it. It
/// costs, and takes memory, by their number.
///
/// # Errors
///
/// [`NoMemory`] where memory is wanted.
pub fn all_nodes<'a>(alloc: Global, body: &'a TBody) -> Result<List<&'a Node>, NoMemory>
    ensures { IfOk result (λ found. trees found ≡ body_nodes (body_of body.now)) }
{
    let mut found = List::new(alloc);
    add_params(body.params.as_slice(), &mut found)?;
    add_node(&body.block, &mut found)?;
    Ok(found)
}
