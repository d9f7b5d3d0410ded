//! Places: a variable and steps inwards.
ghost use Rattle.std.specs.Prelude.{◌≡◌, IfOk, map, option_map};
ghost use Rattle.typed_tree.specs.View.{tree_of};
ghost use Rattle.typing_rules.specs.Accesses as rules;
ghost use Rattle.borrow_rules.specs.AccessView.{aliases_in, key_if_any, place_if_any, place_in, step_in};

use mir_base::{Key, List, NoMemory};
use std::alloc::Global;
use typed_tree::{Form, Node};

/// A step inwards.
#[derive(Clone, Copy)]
pub enum AccessStep {
    /// A part, by its number.
    Part(u32),
    /// The content of a box, or what a reference names.
    Content,
}

/// A variable by its key, and steps inwards. An index ends the steps: the whole array is meant, and nothing behind it.
#[derive(Drop)]
pub struct AccessPlace {
    pub key: Key,
    pub steps: List<AccessStep>,
    pub has_ended: bool,
}

/// A binding inside the guard of its arm stands for the matched part of the scrutinee, which may be a temporary.
#[derive(Drop)]
pub struct Alias {
    pub key: Key,
    pub place: Option<AccessPlace>,
}

/// The same steps once more.
fn copied_steps(alloc: Global, steps: &[AccessStep]) -> Result<List<AccessStep>, NoMemory>
    ensures { IfOk result (λ copy. copy ≡ steps.now) }
{
    let mut copy = List::new(alloc);
    for step in steps {
        copy.push(*step)?;
    }
    Ok(copy)
}

/// The same place once more, if it is one.
pub fn copy_place(
    alloc: Global,
    place: &Option<AccessPlace>,
) -> Result<Option<AccessPlace>, NoMemory>
    ensures { IfOk result (λ copy. copy ≡ place.now) }
{
    match place {
        Some(place) => {
            let steps = copied_steps(alloc, place.steps.as_slice())?;
            Ok(Some(AccessPlace {
                key: place.key,
                steps,
                has_ended: place.has_ended,
            }))
        }
        None => Ok(None),
    }
}

/// What a key stands for: the youngest alias of it, and else the variable.
fn place_of_key(alloc: Global, aliases: &[Alias], key: Key) -> Result<Option<AccessPlace>, NoMemory>
    ensures { IfOk result (λ place. place_if_any place ≡ rules.place_of_key (aliases_in aliases.now) key.0) }
{
    for alias in aliases {
        if alias.key.0 == key.0 {
            return copy_place(alloc, &alias.place);
        }
    }
    Ok(Some(AccessPlace {
        key,
        steps: List::new(alloc),
        has_ended: false,
    }))
}

/// One step further inwards, where the steps have not ended.
pub fn with_step(
    place: Option<AccessPlace>,
    step: AccessStep,
) -> Result<Option<AccessPlace>, NoMemory>
    ensures { IfOk result (λ further. place_if_any further ≡ option_map (rules.with_step (step_in step)) (place_if_any place)) }
{
    let Some(mut place) = place else {
        return Ok(None);
    };
    if !place.has_ended {
        place.steps.push(step)?;
    }
    Ok(Some(place))
}

/// The place with its steps ended.
pub fn with_end(place: Option<AccessPlace>) -> Option<AccessPlace>
    ensures { place_if_any result ≡ option_map rules.with_end (place_if_any place) }
{
    match place {
        Some(place) => Some(AccessPlace {
            key: place.key,
            steps: place.steps,
            has_ended: true,
        }),
        None => None,
    }
}

fn is_same_step(a: AccessStep, b: AccessStep) -> bool
    ensures { result ≡ rules.is_same_step (step_in a) (step_in b) }
{
    match (a, b) {
        (AccessStep::Part(a), AccessStep::Part(b)) => a == b,
        (AccessStep::Content, AccessStep::Content) => true,
        _ => false,
    }
}

/// Whether the one begins with the other.
fn begin_alike(a: &[AccessStep], b: &[AccessStep]) -> bool
    ensures { result ≡ rules.begin_alike (map step_in a.now) (map step_in b.now) }
{
    for n in 0..a.len().min(b.len()) {
        if !is_same_step(a[n], b[n]) {
            return false;
        }
    }
    true
}

/// Whether one of two places is in the other.
fn overlap(a: &AccessPlace, b: &AccessPlace) -> bool
    ensures { result ≡ rules.overlap (place_in a.now) (place_in b.now) }
{
    a.key.0 == b.key.0 && begin_alike(a.steps.as_slice(), b.steps.as_slice())
}

/// The same of what may be a temporary, which overlaps nothing.
pub fn overlap_if_any(a: &Option<AccessPlace>, b: &Option<AccessPlace>) -> bool
    ensures { result ≡ rules.overlap_if_any (place_if_any a.now) (place_if_any b.now) }
{
    match (a, b) {
        (Some(a), Some(b)) => overlap(a, b),
        _ => false,
    }
}

/// The place that a node is, if it is one of a variable.
pub fn place_of(
    alloc: Global,
    aliases: &[Alias],
    node: &Node,
) -> Result<Option<AccessPlace>, NoMemory>
    ensures { IfOk result (λ place. place_if_any place ≡ rules.place_of (aliases_in aliases.now) (tree_of node.now)) }
{
    match &node.form {
        Form::Variable(key) => place_of_key(alloc, aliases, *key),
        Form::Captured { closure, part, .. } => {
            with_step(
                place_of_key(alloc, aliases, *closure)?,
                AccessStep::Part(*part),
            )
        }
        Form::Field { base, part } => {
            with_step(place_of(alloc, aliases, base)?, AccessStep::Part(*part))
        }
        Form::Index { base, .. } => Ok(with_end(place_of(alloc, aliases, base)?)),
        Form::Deref(base) => with_step(place_of(alloc, aliases, base)?, AccessStep::Content),
        _ => Ok(None),
    }
}

/// The key of the variable at a place's root.
pub fn root_of(node: &Node) -> Option<Key>
    ensures { key_if_any result ≡ rules.root_of (tree_of node.now) }
{
    match &node.form {
        Form::Variable(key) => Some(*key),
        Form::Captured { closure, .. } => Some(*closure),
        Form::Field { base, .. } | Form::Index { base, .. } | Form::Deref(base) => root_of(base),
        _ => None,
    }
}
