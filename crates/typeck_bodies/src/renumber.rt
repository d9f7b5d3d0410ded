//! Nodes under other numbers. A form is taken apart and put together again of the same boxes and lists, so nothing here
//! takes memory.
ghost use Rattle.std.specs.Prelude.{◌≡◌, map};
ghost use Rattle.typeck_bodies.specs.Places.{placed};
ghost use Rattle.typed_tree.specs.View.{field_of, fields_from, form_of, maybe_of, nodes_from, tree_of};
ghost use Rattle.typing_rules.specs.Numbered.{fields_renumbered, form_renumbered, maybe_renumbered, nodes_renumbered, renumbered};

use crate::places::NumberPlaces;
use mir_base::{Key, List, NodeId};
use std::alloc::Global;
use std::mem;
use typed_tree::{Form, Node, NumberedField, discard_form};

/// A node gets another number, and those below it, and so does what it names.
#[cycle(renumber)]
pub fn renumber(node: &mut Node, places: &NumberPlaces)
    ensures { tree_of node.new ≡ renumbered (placed places.now) (tree_of node.old) }
{
    let form = mem::replace(&mut node.form, Form::UnitValue);
    discard_form(mem::replace(&mut node.form, form_with(form, places)));
    node.id = NodeId(places.get(node.id.0));
}

#[cycle(renumber)]
fn child(node: Box<Node, Global>, places: &NumberPlaces) -> Box<Node, Global>
    ensures { tree_of result.value ≡ renumbered (placed places.now) (tree_of node.value) }
{
    let mut node = node;
    renumber(&mut node, places);
    node
}

#[cycle(renumber)]
fn child_if_any(node: Option<Box<Node, Global>>, places: &NumberPlaces) -> Option<Box<Node, Global>>
    ensures { maybe_of result ≡ maybe_renumbered (placed places.now) (maybe_of node) }
{
    match node {
        Some(node) => {
            let mut node = node;
            renumber(&mut node, places);
            Some(node)
        }
        None => None,
    }
}

#[cycle(renumber)]
fn children(nodes: List<Node>, places: &NumberPlaces) -> List<Node>
    ensures { nodes_from (map tree_of result) ≡ nodes_renumbered (placed places.now) (nodes_from (map tree_of nodes)) }
{
    let mut nodes = nodes.into_vec();
    for node in nodes.iter_mut() {
        renumber(node, places);
    }
    List::from_vec(nodes)
}

#[cycle(renumber)]
fn fields_with(fields: List<NumberedField>, places: &NumberPlaces) -> List<NumberedField>
    ensures { fields_from (map field_of result) ≡ fields_renumbered (placed places.now) (fields_from (map field_of fields)) }
{
    let mut fields = fields.into_vec();
    for field in fields.iter_mut() {
        renumber(&mut field.value, places);
    }
    List::from_vec(fields)
}

fn key(key: Key, places: &NumberPlaces) -> Key
    ensures { result.0 ≡ placed places.now key.0 }
{
    Key(places.get(key.0))
}

/// A form whose parts have other numbers.
#[cycle(renumber)]
fn form_with(form: Form, places: &NumberPlaces) -> Form
    ensures { form_of result ≡ form_renumbered (placed places.now) (form_of form) }
{
    match form {
        Form::Number(value) => Form::Number(value),
        Form::Truth(value) => Form::Truth(value),
        Form::UnitValue => Form::UnitValue,
        Form::Variable(named) => Form::Variable(key(named, places)),
        Form::Captured {
            closure,
            part,
            name,
        } => Form::Captured {
            closure: key(closure, places),
            part,
            name,
        },
        Form::Field { base, part } => Form::Field {
            base: child(base, places),
            part,
        },
        Form::Index {
            base,
            index,
            length,
        } => {
            Form::Index {
                base: child(base, places),
                index: child(index, places),
                length,
            }
        }
        Form::Deref(base) => Form::Deref(child(base, places)),
        Form::Not(operand) => Form::Not(child(operand, places)),
        Form::Negate(operand) => Form::Negate(child(operand, places)),
        Form::Arithmetic {
            operator,
            left,
            right,
        } => {
            Form::Arithmetic {
                operator,
                left: child(left, places),
                right: child(right, places),
            }
        }
        Form::Comparison {
            operator,
            left,
            right,
        } => {
            Form::Comparison {
                operator,
                left: child(left, places),
                right: child(right, places),
            }
        }
        Form::And { left, right } => Form::And {
            left: child(left, places),
            right: child(right, places),
        },
        Form::Or { left, right } => Form::Or {
            left: child(left, places),
            right: child(right, places),
        },
        Form::Assign { place, value } => Form::Assign {
            place: child(place, places),
            value: child(value, places),
        },
        Form::Call { body, args } => Form::Call {
            body,
            args: children(args, places),
        },
        Form::MethodCall {
            body,
            receiver,
            args,
        } => {
            Form::MethodCall {
                body,
                receiver: child(receiver, places),
                args: children(args, places),
            }
        }
        Form::VirtualCall {
            trait_no,
            method,
            receiver,
            args,
        } => {
            Form::VirtualCall {
                trait_no,
                method,
                receiver: child(receiver, places),
                args: children(args, places),
            }
        }
        Form::ClosureCall { body, callee, args } => {
            Form::ClosureCall {
                body,
                callee: child(callee, places),
                args: children(args, places),
            }
        }
        Form::Make {
            adt,
            variant,
            fields,
        } => Form::Make {
            adt,
            variant,
            fields: fields_with(fields, places),
        },
        Form::Tuple(parts) => Form::Tuple(children(parts, places)),
        Form::Array(elements) => Form::Array(children(elements, places)),
        Form::Closure { closure, captures } => Form::Closure {
            closure,
            captures: children(captures, places),
        },
        Form::NewBox(content) => Form::NewBox(child(content, places)),
        Form::Print(operand) => Form::Print(child(operand, places)),
        Form::Ask => Form::Ask,
        Form::DropValue(operand) => Form::DropValue(child(operand, places)),
        Form::Forget(operand) => Form::Forget(child(operand, places)),
        Form::Panic => Form::Panic,
        Form::Borrow { unique, base } => Form::Borrow {
            unique,
            base: child(base, places),
        },
        Form::Unsize { trait_no, operand } => Form::Unsize {
            trait_no,
            operand: child(operand, places),
        },
        Form::Block { statements, tail } => {
            Form::Block {
                statements: children(statements, places),
                tail: child_if_any(tail, places),
            }
        }
        Form::Let {
            pattern,
            initialiser,
        } => {
            Form::Let {
                pattern: child(pattern, places),
                initialiser: child_if_any(initialiser, places),
            }
        }
        Form::Evaluate(expression) => Form::Evaluate(child(expression, places)),
        Form::If {
            condition,
            then,
            otherwise,
        } => Form::If {
            condition: child(condition, places),
            then: child(then, places),
            otherwise: child_if_any(otherwise, places),
        },
        Form::IfLet {
            pattern,
            scrutinee,
            then,
            otherwise,
        } => Form::IfLet {
            pattern: child(pattern, places),
            scrutinee: child(scrutinee, places),
            then: child(then, places),
            otherwise: child_if_any(otherwise, places),
        },
        Form::Match { scrutinee, arms } => {
            Form::Match {
                scrutinee: child(scrutinee, places),
                arms: children(arms, places),
            }
        }
        Form::Arm {
            pattern,
            guard,
            body,
        } => Form::Arm {
            pattern: child(pattern, places),
            guard: child_if_any(guard, places),
            body: child(body, places),
        },
        Form::Loop(body) => Form::Loop(child(body, places)),
        Form::While { condition, body } => {
            Form::While {
                condition: child(condition, places),
                body: child(body, places),
            }
        }
        Form::WhileLet {
            pattern,
            scrutinee,
            body,
        } => Form::WhileLet {
            pattern: child(pattern, places),
            scrutinee: child(scrutinee, places),
            body: child(body, places),
        },
        Form::Break { from, value } => {
            Form::Break {
                from: NodeId(places.get(from.0)),
                value: child_if_any(value, places),
            }
        }
        Form::Continue { from } => Form::Continue {
            from: NodeId(places.get(from.0)),
        },
        Form::Return(value) => Form::Return(child_if_any(value, places)),
        Form::Wildcard => Form::Wildcard,
        Form::Binding(name) => Form::Binding(name),
        Form::NumberPattern(value) => Form::NumberPattern(value),
        Form::TruthPattern(value) => Form::TruthPattern(value),
        Form::StructPattern(fields) => Form::StructPattern(fields_with(fields, places)),
        Form::VariantPattern {
            variant,
            is_test,
            fields,
        } => {
            Form::VariantPattern {
                variant,
                is_test,
                fields: fields_with(fields, places),
            }
        }
        Form::TuplePattern(parts) => Form::TuplePattern(children(parts, places)),
        Form::ArrayPattern(elements) => Form::ArrayPattern(children(elements, places)),
        Form::OrPattern(alternatives) => Form::OrPattern(children(alternatives, places)),
    }
}
