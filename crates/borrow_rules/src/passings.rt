//! What a body stores into exactly what a variable names, and for which parameters it passes the variable on.
ghost use Rattle.std.specs.Prelude.{◌≡◌, ◌++◌, OnOk, IfOk, map};
ghost use Rattle.std.specs.List.{filter_map, flat_map};
ghost use Rattle.typed_tree.specs.View.{tree_of, form_of, nodes_from};
ghost use Rattle.typed_tree.specs.Tree.{a_node};
ghost use Rattle.typing_rules.specs.Replaced as rules;
ghost use Rattle.borrow_rules.specs.View.{callee_in, key_if_any, passing_in, tree_in, variable_key};

use mir_base::{Key, List, NoMemory, Pos};
use std::alloc::Global;
use typed_tree::{Form, Node};

/// What is called: a body, or a method of a trait.
#[derive(Clone, Copy)]
pub enum CalledBody {
    OfBody(u32),
    OfTrait { trait_no: u32, method: u32 },
}

/// A variable is passed on for a parameter, by its number, of what is called at a place.
#[derive(Clone, Copy)]
pub struct Passing {
    pub at: Pos,
    pub callee: CalledBody,
    pub number: u32,
}

fn variable_of(node: &Node) -> Option<Key>
    ensures { key_if_any result ≡ variable_key (tree_of node.now) }
{
    match &node.form {
        Form::Variable(key) => Some(*key),
        _ => None,
    }
}

/// The variable of which a node is exactly what it names.
fn content_of(node: &Node) -> Option<Key>
    ensures { key_if_any result ≡ rules.content_of (tree_of node.now) }
{
    match &node.form {
        Form::Deref(base) => variable_of(base),
        _ => None,
    }
}

/// The variable that a node passes on: `&mut *p`.
fn passes_key(node: &Node) -> Option<Key>
    ensures { key_if_any result ≡ rules.passes_key (tree_of node.now) }
{
    match &node.form {
        Form::Borrow { unique: true, base } => content_of(base),
        _ => None,
    }
}

fn is_key(key: Key, other: Option<Key>) -> bool
    ensures { result ≡ rules.is_key key.0 (key_if_any other) }
{
    match other {
        Some(other) => key.0 == other.0,
        None => false,
    }
}

/// Where a node stores into exactly what a variable names.
fn store_of(key: Key, node: &Node) -> Option<Pos>
    ensures { result ≡ rules.store_of key.0 (tree_of node.now) }
{
    match &node.form {
        Form::Assign { place, .. } => {
            if is_key(key, content_of(place)) {
                Some(node.at)
            } else {
                None
            }
        }
        _ => None,
    }
}

/// Where nodes store into exactly what a variable names.
pub fn stores(alloc: Global, key: Key, nodes: &[&Node]) -> Result<Vec<Pos>, NoMemory>
    ensures { IfOk result (λ stores. stores.items ≡ filter_map (rules.store_of key.0) (map tree_in nodes.now)) }
{
    let mut stores = Vec::new(alloc);
    for node in nodes {
        if let Some(at) = store_of(key, node) {
            stores.push(at)?;
        }
    }
    Ok(stores)
}

/// The parameters, from a number on, for which a variable is passed.
fn add_numbers(
    key: Key,
    at: Pos,
    callee: CalledBody,
    from: u32,
    nodes: &[Node],
    passings: &mut List<Passing>,
) -> Result<(), NoMemory>
    ensures { OnOk result (map passing_in passings.new ≡ map passing_in passings.old ++
        map (rules.passing at (callee_in callee)) (rules.numbers_for key.0 from (nodes_from (map tree_of nodes.now)))) }
{
    let mut number = from;
    for node in nodes {
        if is_key(key, passes_key(node)) {
            passings.push(Passing { at, callee, number })?;
        }
        let Some(next) = number.checked_add(1) else {
            return Err(NoMemory::past_32_bits());
        };
        number = next;
    }
    Ok(())
}

/// The same of a receiver and what is behind it.
fn add_receiver(
    key: Key,
    at: Pos,
    callee: CalledBody,
    receiver: &Node,
    nodes: &[Node],
    passings: &mut List<Passing>,
) -> Result<(), NoMemory>
    ensures { OnOk result (map passing_in passings.new ≡ map passing_in passings.old ++
        map (rules.passing at (callee_in callee)) (rules.numbers_for key.0 0 (a_node (tree_of receiver.now) (nodes_from (map tree_of nodes.now))))) }
{
    if is_key(key, passes_key(receiver)) {
        passings.push(Passing {
            at,
            callee,
            number: 0,
        })?;
    }
    add_numbers(key, at, callee, 1, nodes, passings)
}

/// What a node by itself passes a variable for.
fn add_passings(key: Key, node: &Node, passings: &mut List<Passing>) -> Result<(), NoMemory>
    ensures { OnOk result (map passing_in passings.new ≡
        map passing_in passings.old ++ rules.passings_of key.0 (tree_of node.now)) }
{
    match &node.form {
        Form::Call { body, args } => {
            add_numbers(
                key,
                node.at,
                CalledBody::OfBody(*body),
                0,
                args.as_slice(),
                passings,
            )
        }
        Form::MethodCall {
            body,
            receiver,
            args,
        } => {
            let callee = CalledBody::OfBody(*body);
            add_receiver(key, node.at, callee, receiver, args.as_slice(), passings)
        }
        Form::VirtualCall {
            trait_no,
            method,
            receiver,
            args,
        } => {
            let callee = CalledBody::OfTrait {
                trait_no: *trait_no,
                method: *method,
            };
            add_receiver(key, node.at, callee, receiver, args.as_slice(), passings)
        }
        _ => Ok(()),
    }
}

/// What nodes pass a variable for.
pub fn passings(alloc: Global, key: Key, nodes: &[&Node]) -> Result<List<Passing>, NoMemory>
    ensures { IfOk result (λ passings. map passing_in passings ≡ flat_map (rules.passings_of key.0) (map tree_in nodes.now)) }
{
    let mut passings = List::new(alloc);
    for node in nodes {
        add_passings(key, node, &mut passings)?;
    }
    Ok(passings)
}
