//! The locals of the nodes below a node, in text order.
ghost use Rattle.std.specs.Prelude.{◌≡◌, ◌++◌, OnOk, map};
ghost use Rattle.src_meaning.specs.Locals.OfBody.{cells_in, all_cells, cells_of_fields};
ghost use Rattle.typed_tree.specs.View.{tree_of, form_of, field_of, maybe_of, nodes_from, fields_from};
ghost use Rattle.lower_locals.specs.Groups as groups;
ghost use Rattle.lower_locals.specs.Own.{where_true};
ghost use Rattle.lower_locals.specs.View as view;
ghost use Rattle.lower_locals.specs.View.{entry_of, locals_of, locals_if_any};

use crate::Local;
use crate::own::{AskedAs, add_own};
use mir_base::{List, NoMemory};
use mir_ty::Items;
use std::alloc::Global;
use typed_tree::{Form, Node, NumberedField};

/// The locals of a node and of what is in it are put behind those found before.
#[cycle(parts)]
fn add_node(
    items: &Items,
    asked: AskedAs,
    node: &Node,
    found: &mut List<Local>,
) -> Result<(), NoMemory>
    ensures { OnOk result
        (map entry_of found.new ≡ map entry_of found.old ++ locals_of items.now asked (tree_of node.now)) }
{
    add_own(items, asked, node, found)?;
    add_parts(items, &node.form, found)
}

/// The locals of the parts of a form. A form is of one group at most, and the calls for the others find nothing.
#[cycle(parts)]
pub fn add_parts(items: &Items, form: &Form, found: &mut List<Local>) -> Result<(), NoMemory>
    ensures { OnOk result
        (map entry_of found.new ≡ map entry_of found.old ++ cells_in items.now (form_of form.now)) }
{
    add_operands(items, form, found)?;
    add_in_place(items, form, found)?;
    add_members(items, form, found)?;
    add_branches(items, form, found)?;
    add_statements(items, form, found)
}

/// Of a form with operands.
#[cycle(parts)]
fn add_operands(items: &Items, form: &Form, found: &mut List<Local>) -> Result<(), NoMemory>
    ensures { OnOk result (map entry_of found.new ≡ map entry_of found.old
        ++ where_true (groups.has_operands (form_of form.now)) (cells_in items.now (form_of form.now))) }
{
    match form {
        Form::Not(operand)
        | Form::Negate(operand)
        | Form::NewBox(operand)
        | Form::Print(operand)
        | Form::DropValue(operand)
        | Form::Forget(operand)
        | Form::Unsize { operand, .. } => add_node(items, AskedAs::Own, operand, found),
        Form::Arithmetic { left, right, .. } | Form::Comparison { left, right, .. } => {
            add_node(items, AskedAs::Own, left, found)?;
            add_node(items, AskedAs::Own, right, found)
        }
        Form::And { left, right } | Form::Or { left, right } => {
            add_node(items, AskedAs::Own, left, found)?;
            add_node(items, AskedAs::Around, right, found)
        }
        _ => Ok(()),
    }
}

/// Of a form that reaches a place.
#[cycle(parts)]
fn add_in_place(items: &Items, form: &Form, found: &mut List<Local>) -> Result<(), NoMemory>
    ensures { OnOk result (map entry_of found.new ≡ map entry_of found.old
        ++ where_true (groups.has_place (form_of form.now)) (cells_in items.now (form_of form.now))) }
{
    match form {
        Form::Field { base, .. } | Form::Deref(base) | Form::Borrow { base, .. } => {
            add_node(items, AskedAs::Reached, base, found)
        }
        Form::Index {
            base: place,
            index: value,
            ..
        }
        | Form::Assign { place, value } => {
            add_node(items, AskedAs::Reached, place, found)?;
            add_node(items, AskedAs::Own, value, found)
        }
        _ => Ok(()),
    }
}

/// Of a form with any number of nodes or fields.
#[cycle(parts)]
fn add_members(items: &Items, form: &Form, found: &mut List<Local>) -> Result<(), NoMemory>
    ensures { OnOk result (map entry_of found.new ≡ map entry_of found.old
        ++ where_true (groups.has_members (form_of form.now)) (cells_in items.now (form_of form.now))) }
{
    match form {
        Form::Call { args: nodes, .. }
        | Form::Tuple(nodes)
        | Form::Array(nodes)
        | Form::Closure {
            captures: nodes,
            ..
        }
        | Form::TuplePattern(nodes)
        | Form::ArrayPattern(nodes)
        | Form::OrPattern(nodes) => add_nodes(items, nodes.as_slice(), found),
        Form::MethodCall { receiver, args, .. }
        | Form::VirtualCall { receiver, args, .. }
        | Form::ClosureCall {
            callee: receiver,
            args,
            ..
        } => {
            add_node(items, AskedAs::Own, receiver, found)?;
            add_nodes(items, args.as_slice(), found)
        }
        Form::Make { fields, .. }
        | Form::StructPattern(fields)
        | Form::VariantPattern { fields, .. } => add_fields(items, fields.as_slice(), found),
        _ => Ok(()),
    }
}

/// Of a branch or an arm.
#[cycle(parts)]
fn add_branches(items: &Items, form: &Form, found: &mut List<Local>) -> Result<(), NoMemory>
    ensures { OnOk result (map entry_of found.new ≡ map entry_of found.old
        ++ where_true (groups.has_branches (form_of form.now)) (cells_in items.now (form_of form.now))) }
{
    match form {
        Form::If {
            condition,
            then,
            otherwise,
        } => {
            add_node(items, AskedAs::Own, condition, found)?;
            add_node(items, AskedAs::Around, then, found)?;
            add_if_any(items, AskedAs::Around, otherwise, found)
        }
        Form::IfLet {
            pattern,
            scrutinee,
            then,
            otherwise,
        } => {
            add_node(items, AskedAs::Own, pattern, found)?;
            add_node(items, AskedAs::Reached, scrutinee, found)?;
            add_node(items, AskedAs::Around, then, found)?;
            add_if_any(items, AskedAs::Around, otherwise, found)
        }
        Form::Match { scrutinee, arms } => {
            add_node(items, AskedAs::Reached, scrutinee, found)?;
            add_nodes(items, arms.as_slice(), found)
        }
        Form::Arm {
            pattern,
            guard,
            body,
        } => {
            add_node(items, AskedAs::Own, pattern, found)?;
            add_if_any(items, AskedAs::Own, guard, found)?;
            add_node(items, AskedAs::Around, body, found)
        }
        _ => Ok(()),
    }
}

/// Of a block, a statement, a loop or a jump.
#[cycle(parts)]
fn add_statements(items: &Items, form: &Form, found: &mut List<Local>) -> Result<(), NoMemory>
    ensures { OnOk result (map entry_of found.new ≡ map entry_of found.old
        ++ where_true (groups.has_statements (form_of form.now)) (cells_in items.now (form_of form.now))) }
{
    match form {
        Form::Block { statements, tail } => {
            add_nodes(items, statements.as_slice(), found)?;
            add_if_any(items, AskedAs::Around, tail, found)
        }
        Form::Let {
            pattern,
            initialiser,
        } => {
            add_node(items, AskedAs::Own, pattern, found)?;
            add_if_any(
                items,
                asked_of_initialiser(&pattern.form),
                initialiser,
                found,
            )
        }
        Form::Evaluate(expression) | Form::Loop(expression) => {
            add_node(items, AskedAs::Own, expression, found)
        }
        Form::While { condition, body } => {
            add_node(items, AskedAs::Own, condition, found)?;
            add_node(items, AskedAs::Own, body, found)
        }
        Form::WhileLet {
            pattern,
            scrutinee,
            body,
        } => {
            add_node(items, AskedAs::Own, pattern, found)?;
            add_node(items, AskedAs::Reached, scrutinee, found)?;
            add_node(items, AskedAs::Own, body, found)
        }
        Form::Break { value, .. } | Form::Return(value) => {
            add_if_any(items, AskedAs::Around, value, found)
        }
        _ => Ok(()),
    }
}

/// How the value of a `let` with this pattern is asked for: that of one name is made in the local of the name.
fn asked_of_initialiser(pattern: &Form) -> AskedAs
    ensures { result ≡ view.asked_of_initialiser (form_of pattern.now) }
{
    match pattern {
        Form::Binding(_) => AskedAs::Around,
        _ => AskedAs::Reached,
    }
}

#[cycle(parts)]
fn add_nodes(items: &Items, nodes: &[Node], found: &mut List<Local>) -> Result<(), NoMemory>
    ensures { OnOk result (map entry_of found.new ≡
        map entry_of found.old ++ all_cells items.now (nodes_from (map tree_of nodes.now))) }
{
    for node in nodes {
        add_node(items, AskedAs::Own, node, found)?;
    }
    Ok(())
}

#[cycle(parts)]
fn add_fields(
    items: &Items,
    fields: &[NumberedField],
    found: &mut List<Local>,
) -> Result<(), NoMemory>
    ensures { OnOk result (map entry_of found.new ≡
        map entry_of found.old ++ cells_of_fields items.now (fields_from (map field_of fields.now))) }
{
    for field in fields {
        add_node(items, AskedAs::Own, &field.value, found)?;
    }
    Ok(())
}

#[cycle(parts)]
fn add_if_any(
    items: &Items,
    asked: AskedAs,
    node: &Option<Box<Node, Global>>,
    found: &mut List<Local>,
) -> Result<(), NoMemory>
    ensures { OnOk result
        (map entry_of found.new ≡ map entry_of found.old ++ locals_if_any items.now asked (maybe_of node.now)) }
{
    match node {
        Some(node) => add_node(items, asked, node, found),
        None => Ok(()),
    }
}
