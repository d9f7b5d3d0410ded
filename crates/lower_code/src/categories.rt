//! What a node is by its form: a place, code that is made in its destination, a name.
ghost use Rattle.std.specs.Prelude.{◌≡◌, IfOk, IsTrue, ◌↔◌};
ghost use Rattle.cfg_graph.specs.Places.{named, named_step};
ghost use Rattle.src_meaning.specs.Shape.{shape, extended};
ghost use Rattle.typed_tree.specs.View.{tree_of};
ghost use Rattle.lower_code.specs.View.{aliases_of};

use crate::Alias;
use crate::loops_and_guards::{place_under, whole};
use cfg_graph::{Place, Step};
use mir_base::{Key, NoMemory};
use mir_ty::Items;
use std::alloc::Global;
use typed_tree::{Form, Node};

/// The place of a node; that of its own entry where it is none.
#[cycle(placing)]
pub fn place_of(
    alloc: Global,
    items: &Items,
    node: &Node,
    aliases: &[Alias],
) -> Result<Place, NoMemory>
    ensures { IfOk result (λ place.
        named place ≡ (shape items.now (tree_of node.now)).place (aliases_of aliases.now)) }
{
    match &node.form {
        Form::Variable(key) => place_under(alloc, *key, aliases),
        Form::Captured { closure, part, .. } => {
            let place = place_under(alloc, *closure, aliases)?;
            with_step(place, Step::Part(*part))
        }
        Form::Field { base, part } => {
            let place = place_of(alloc, items, base, aliases)?;
            with_step(place, Step::Part(*part))
        }
        Form::Index { base, index, .. } => {
            let place = place_of(alloc, items, base, aliases)?;
            with_step(place, Step::Index(index.id.0))
        }
        Form::Deref(base) => {
            let place = place_of(alloc, items, base, aliases)?;
            with_step(place, Step::Inside)
        }
        _ => Ok(whole(alloc, Key(node.id.0))),
    }
}

/// A part of a place.
pub fn with_step(place: Place, step: Step) -> Result<Place, NoMemory>
    ensures { IfOk result (λ part. named part ≡ extended (named_step step) (named place)) }
{
    let Place { local, mut steps } = place;
    steps.push(step)?;
    Ok(Place { local, steps })
}

/// Whether a node is a place.
pub fn is_place(items: &Items, node: &Node) -> bool
    ensures { result ≡ (shape items.now (tree_of node.now)).is_place }
{
    matches!(
        &node.form,
        Form::Variable(_)
            | Form::Captured { .. }
            | Form::Field { .. }
            | Form::Index { .. }
            | Form::Deref(_)
    )
}

/// Whether the value of a node is made in a destination that is pending meanwhile.
pub fn is_made_in_destination(items: &Items, node: &Node) -> bool
    ensures { result ≡ (shape items.now (tree_of node.now)).in_destination }
{
    matches!(
        &node.form,
        Form::Block { .. }
            | Form::If { .. }
            | Form::IfLet { .. }
            | Form::Match { .. }
            | Form::Loop(_)
            | Form::While { .. }
            | Form::WhileLet { .. }
    )
}

/// Whether a pattern is one name.
pub fn is_one_name(items: &Items, pattern: &Node) -> bool
    ensures { result ≡ (shape items.now (tree_of pattern.now)).is_binding }
{
    matches!(&pattern.form, Form::Binding(_))
}
