//! Looking up a node of a body by its number.
ghost use Rattle.std.specs.Prelude.{◌≡◌, ◌↔◌, ℕ, IfSome, None, map};
ghost use Rattle.typed_tree.specs.Tree.{Node as NodeTree};
ghost use Rattle.typed_tree.specs.View.{tree_of, form_of, field_of, param_tree, body_of, nodes_from, fields_from, maybe_of, tree_found};
ghost use Rattle.typed_tree.specs.Nodes.{nodes_of, nodes_in, nodes_among, nodes_of_fields, nodes_if_any, param_nodes, body_nodes, first_with, HasDistinctNumbers, IsNodeWith};

use crate::{Form, Node, NumberedField, Param, TBody};
use mir_base::NodeId;
use std::alloc::Global;

/// The first node with a number: a node itself, or one below it.
#[cycle(search)]
fn find_in_node(node: &Node, id: NodeId) -> Option<&Node>
    ensures { tree_found result ≡ first_with id.0 (nodes_of (tree_of node.now)) }
{
    if node.id == id {
        Some(node)
    } else {
        find_in_form(&node.form, id)
    }
}

/// The first node with a number among the children of a form and below them, in their written order.
#[cycle(search)]
fn find_in_form(form: &Form, id: NodeId) -> Option<&Node>
    ensures { tree_found result ≡ first_with id.0 (nodes_in (form_of form.now)) }
{
    match form {
        Form::Number(_)
        | Form::Truth(_)
        | Form::UnitValue
        | Form::Variable(_)
        | Form::Captured { .. }
        | Form::Ask
        | Form::Panic
        | Form::Continue { .. }
        | Form::Wildcard
        | Form::Binding(_)
        | Form::NumberPattern(_)
        | Form::TruthPattern(_) => None,
        Form::Field { base: child, .. }
        | Form::Deref(child)
        | Form::Not(child)
        | Form::Negate(child)
        | Form::NewBox(child)
        | Form::Print(child)
        | Form::DropValue(child)
        | Form::Forget(child)
        | Form::Borrow { base: child, .. }
        | Form::Unsize { operand: child, .. }
        | Form::Evaluate(child)
        | Form::Loop(child) => find_in_node(child, id),
        Form::Index {
            base: left,
            index: right,
            ..
        }
        | Form::Arithmetic { left, right, .. }
        | Form::Comparison { left, right, .. }
        | Form::And { left, right }
        | Form::Or { left, right }
        | Form::Assign {
            place: left,
            value: right,
        }
        | Form::While {
            condition: left,
            body: right,
        } => find_in_node(left, id).or(find_in_node(right, id)),
        Form::Call { args: nodes, .. }
        | Form::Tuple(nodes)
        | Form::Array(nodes)
        | Form::Closure {
            captures: nodes,
            ..
        }
        | Form::TuplePattern(nodes)
        | Form::ArrayPattern(nodes)
        | Form::OrPattern(nodes) => find_in_nodes(nodes.as_slice(), id),
        Form::MethodCall {
            receiver: first,
            args: rest,
            ..
        }
        | Form::VirtualCall {
            receiver: first,
            args: rest,
            ..
        }
        | Form::ClosureCall {
            callee: first,
            args: rest,
            ..
        }
        | Form::Match {
            scrutinee: first,
            arms: rest,
        } => find_in_node(first, id).or(find_in_nodes(rest.as_slice(), id)),
        Form::Make { fields, .. }
        | Form::StructPattern(fields)
        | Form::VariantPattern { fields, .. } => find_in_fields(fields.as_slice(), id),
        Form::Block { statements, tail } => find_in_nodes(statements.as_slice(), id).or(find_if_any(
            tail, id,
        )),
        Form::Let {
            pattern,
            initialiser,
        } => find_in_node(pattern, id).or(find_if_any(initialiser, id)),
        Form::If {
            condition,
            then,
            otherwise,
        } => find_in_node(condition, id)
            .or(find_in_node(then, id))
            .or(find_if_any(otherwise, id)),
        Form::IfLet {
            pattern,
            scrutinee,
            then,
            otherwise,
        } => find_in_node(pattern, id)
            .or(find_in_node(scrutinee, id))
            .or(find_in_node(then, id))
            .or(find_if_any(otherwise, id)),
        Form::Arm {
            pattern,
            guard,
            body,
        } => find_in_node(pattern, id)
            .or(find_if_any(guard, id))
            .or(find_in_node(body, id)),
        Form::WhileLet {
            pattern,
            scrutinee,
            body,
        } => find_in_node(pattern, id)
            .or(find_in_node(scrutinee, id))
            .or(find_in_node(body, id)),
        Form::Break { value, .. } | Form::Return(value) => find_if_any(value, id),
    }
}

#[cycle(search)]
fn find_in_nodes(nodes: &[Node], id: NodeId) -> Option<&Node>
    ensures { tree_found result ≡ first_with id.0 (nodes_among (nodes_from (map tree_of nodes.now))) }
{
    for node in nodes {
        if let Some(found) = find_in_node(node, id) {
            return Some(found);
        }
    }
    None
}

#[cycle(search)]
fn find_in_fields(fields: &[NumberedField], id: NodeId) -> Option<&Node>
    ensures { tree_found result ≡ first_with id.0 (nodes_of_fields (fields_from (map field_of fields.now))) }
{
    for field in fields {
        if let Some(found) = find_in_node(&field.value, id) {
            return Some(found);
        }
    }
    None
}

#[cycle(search)]
fn find_if_any(node: &Option<Box<Node, Global>>, id: NodeId) -> Option<&Node>
    ensures { tree_found result ≡ first_with id.0 (nodes_if_any (maybe_of node.now)) }
{
    match node {
        Some(node) => find_in_node(node, id),
        None => None,
    }
}

fn find_in_params(params: &[Param], id: NodeId) -> Option<&Node>
    ensures { tree_found result ≡ first_with id.0 (param_nodes (map param_tree params.now)) }
{
    for param in params {
        if let Some(found) = find_in_node(&param.pattern, id) {
            return Some(found);
        }
    }
    None
}

/// The node of a body with a number, among the patterns of its parameters and in its block; `None` where
/// no node of the body has the number. The nodes of the body must have distinct numbers, as they have
/// where the numbers rise in text order. It takes no memory.
pub fn node_at(body: &TBody, id: NodeId) -> Option<&Node>
    requires { HasDistinctNumbers (body_of body.now) }
    ensures found { IfSome result (λ found. IsNodeWith (body_of body.now) id.0 (tree_of found.now)) }
    ensures only { IfSome result
        (λ found. (other : NodeTree) → IsNodeWith (body_of body.now) id.0 other → other ≡ tree_of found.now) }
    ensures absent { (result ≡ None) ↔ ((node : NodeTree) → ¬ IsNodeWith (body_of body.now) id.0 node) }
{
    find_in_params(body.params.as_slice(), id).or(find_in_node(&body.block, id))
}
