//! Places by the names of variables.
ghost use Rattle.std.specs.Prelude.{◌≡◌, ◌++◌, ◌≤◌, ℕ, true, Some, IfSome, IfOk, OnOk, map, option_map, slice_get};
ghost use Rattle.std.specs.Option.{option_copied};
ghost use Rattle.std.specs.String.{string_bytes};
ghost use Rattle.cfg_graph.specs.Places.{named, named_step};
ghost use Rattle.typed_tree.specs.Nodes.{first_with};
ghost use Rattle.typed_tree.specs.View.{tree_of, tree_found};
ghost use Rattle.lower_locals.specs.View.{entry_of, keys, tys};
ghost use Rattle.typed_tree.specs.Listed.{trees};
ghost use Rattle.cfg_build.specs.Told.{AreTold, rise_from};
ghost use Rattle.cfg_build.specs.Words as words;

use crate::steps::{put, put_steps};
use cfg_graph::{Place, Step, step_ty};
use lower_locals::Local;
use mir_base::{Key, Name, NoMemory};
use mir_ty::{Items, TyId};
use std::alloc::Global;
use typed_tree::{Form, Node};

/// What names of places are made of: the items of a program, the locals of a body in the order of their numbers, and
/// the nodes of the body in text order, and whether the numbers of these rise ([`rise`]).
#[derive(Clone, Copy)]
pub struct PlaceNames<'a> {
    pub items: &'a Items,
    pub locals: &'a [Local],
    pub nodes: &'a [&'a Node],
    pub rise: bool,
}

/// Whether the numbers of nodes rise.
pub fn rise(nodes: &[&Node]) -> bool
    ensures { result ≡ rise_from 0 (trees nodes.now) }
{
    let mut least: u64 = 0;
    for node in nodes {
        let number = node.id.0 as u64;
        if number < least {
            return false;
        }
        least = number + 1;
    }
    true
}

/// The key of a local.
fn key_of(locals: &[Local], local: u32) -> Option<Key>
    ensures { option_map (λ key. key.0) result ≡ slice_get (keys (map entry_of locals.now)) local }
{
    Some(locals.get(local as usize)?.key)
}

/// The type of a local.
fn ty_of(locals: &[Local], local: u32) -> Option<TyId>
    ensures { result ≡ slice_get (tys (map entry_of locals.now)) local }
{
    Some(locals.get(local as usize)?.ty)
}

/// Where to look for a node with a number, from a place on back to the first.
fn back_to(nodes: &[&Node], from: usize, number: u32) -> usize
    ensures { result ≤ from }
{
    let mut at = from;
    while at > 0 {
        match nodes.get(at) {
            Some(node) if node.id.0 <= number => return at,
            _ => at -= 1,
        }
    }
    at
}

/// The node with a number, where the numbers of nodes rise: as far behind the first as its number is above the first's,
/// or, where numbers are left out, before that.
fn node_near<'a>(nodes: &'a [&'a Node], number: u32) -> Option<&'a Node>
    ensures { IfSome result (λ node. rise_from 0 (trees nodes.now) ≡ true →
        first_with number (trees nodes.now) ≡ Some (tree_of node.now)) }
{
    let first = nodes.first()?;
    let guess = number.checked_sub(first.id.0)? as usize;
    let last = nodes.len().saturating_sub(1);
    let node = nodes.get(back_to(nodes, guess.min(last), number))?;
    if node.id.0 != number {
        return None;
    }
    Some(*node)
}

/// The first node with a number, looked for among all.
fn first_node<'a>(nodes: &'a [&'a Node], number: u32) -> Option<&'a Node>
    ensures { tree_found result ≡ first_with number (trees nodes.now) }
{
    for node in nodes {
        if node.id.0 == number {
            return Some(*node);
        }
    }
    None
}

/// The first node with a number. Where the numbers of nodes rise it costs a step, and one for each number that is left
/// out before it; else a step for each node at most.
pub fn node_with<'a>(names: PlaceNames<'a>, number: u32) -> Option<&'a Node>
    requires { AreTold names }
    ensures { tree_found result ≡ first_with number (trees names.entry.nodes.now) }
{
    if names.rise {
        if let Some(node) = node_near(names.nodes, number) {
            return Some(node);
        }
    }
    first_node(names.nodes, number)
}

/// The name that a node gives to a variable.
fn put_binding(out: &mut String, node: &Node) -> Result<(), NoMemory>
    ensures { OnOk result (string_bytes out.new ≡ string_bytes out.old ++ words.name_of_binding (tree_of node.now)) }
{
    match &node.form {
        Form::Binding(name) => put(out, name.as_str()),
        _ => Ok(()),
    }
}

/// The name of the variable whose local this is; nothing for a temporary.
fn put_local(out: &mut String, names: PlaceNames, local: u32) -> Result<(), NoMemory>
    requires { AreTold names }
    ensures { OnOk result (string_bytes out.new ≡ string_bytes out.old
        ++ words.local_name names.entry.items.now (map entry_of names.entry.locals.now) (trees names.entry.nodes.now) local) }
{
    let Some(key) = key_of(names.locals, local) else {
        return Ok(());
    };
    match node_with(names, key.0) {
        Some(node) => put_binding(out, node),
        None => Ok(()),
    }
}

/// The name of a captured variable, if a node is one.
fn capture_in<'a>(node: &'a Node, key: Key, part: u32) -> Option<&'a Name>
    ensures { option_copied result ≡ words.capture_in key.0 part (tree_of node.now) }
{
    match &node.form {
        Form::Captured {
            closure,
            part: own,
            name,
        } if *closure == key && *own == part => Some(name),
        _ => None,
    }
}

/// The name of a captured variable, by the first node that is one.
fn first_capture<'a>(nodes: &'a [&'a Node], key: Key, part: u32) -> Option<&'a Name>
    ensures { option_copied result ≡ words.first_capture key.0 part (trees nodes.now) }
{
    for node in nodes {
        if let Some(name) = capture_in(node, key, part) {
            return Some(name);
        }
    }
    None
}

/// The name of a captured variable, by the local of the closure's value and the part's number.
fn captured_name<'a>(names: PlaceNames<'a>, local: u32, part: u32) -> Option<&'a Name>
    ensures { option_copied result ≡ words.captured_name names.entry.items.now (map entry_of names.entry.locals.now)
        (trees names.entry.nodes.now) local part }
{
    first_capture(names.nodes, key_of(names.locals, local)?, part)
}

/// The name of a local, and steps.
fn put_whole(
    out: &mut String,
    names: PlaceNames,
    local: u32,
    steps: &[Step],
) -> Result<(), NoMemory>
    requires { AreTold names }
    ensures { OnOk result (string_bytes out.new ≡ string_bytes out.old
        ++ words.whole_words names.entry.items.now (map entry_of names.entry.locals.now) (trees names.entry.nodes.now) local
        (map named_step steps.now)) }
{
    put_local(out, names, local)?;
    put_steps(out, names.items, ty_of(names.locals, local), steps)
}

/// A place by its steps: the first part of a closure's value may be a captured variable.
fn put_place(
    out: &mut String,
    names: PlaceNames,
    local: u32,
    steps: &[Step],
) -> Result<(), NoMemory>
    requires { AreTold names }
    ensures { OnOk result (string_bytes out.new ≡ string_bytes out.old
        ++ words.words_from names.entry.items.now (map entry_of names.entry.locals.now) (trees names.entry.nodes.now) local
        (map named_step steps.now)) }
{
    let Some((Step::Part(part), rest)) = steps.split_first() else {
        return put_whole(out, names, local, steps);
    };
    let Some(name) = captured_name(names, local, *part) else {
        return put_whole(out, names, local, steps);
    };
    put(out, name.as_str())?;
    let ty = step_ty(names.items, Step::Part(*part), ty_of(names.locals, local));
    put_steps(out, names.items, ty, rest)
}

/// A place in words. It costs a step for each step of the place, and what [`node_with`] costs; where the first step is a
/// part, also a step for each node.
///
/// # Errors
///
/// [`NoMemory`] where memory is wanted.
pub fn place_name(alloc: Global, names: PlaceNames, place: &Place) -> Result<Name, NoMemory>
    requires { AreTold names }
    ensures { IfOk result (λ name. name ≡ words.place_words names.entry.items.now (map entry_of names.entry.locals.now)
        (trees names.entry.nodes.now) (named place.now)) }
{
    let mut out = String::new(alloc);
    put_place(&mut out, names, place.local, place.steps.as_slice())?;
    Ok(Name::from_string(out))
}
