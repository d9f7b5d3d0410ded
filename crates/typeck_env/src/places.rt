//! Places among typed nodes.
ghost use Rattle.std.specs.Prelude.{◌≡◌, ◌==◌};
ghost use Rattle.std.specs.List.{list_any};
ghost use Rattle.typed_tree.specs.View.{tree_of, form_of};
ghost use Rattle.typing_rules.specs.Places as places;
ghost use Rattle.typeck_env.specs.Scope.{keys_of};
ghost use Rattle.well_typed.specs.Places as forms;
ghost use Rattle.well_typed.specs.Types as types;

use crate::types::{is_reference, reference_of};
use mir_base::Key;
use mir_ty::{Items, TyId};
use std::alloc::Global;
use typed_tree::{Form, Node};

/// Whether a form is a place (The Rust Reference, "Place Expressions and Value Expressions").
pub fn is_place(form: &Form) -> bool
    ensures { result ≡ forms.is_place (form_of form.now) }
{
    match form {
        Form::Variable(_)
        | Form::Captured { .. }
        | Form::Field { .. }
        | Form::Index { .. }
        | Form::Deref(_) => true,
        _ => false,
    }
}

fn has_key(key: Key, keys: &[Key]) -> bool
    ensures { result ≡ list_any (λ k. key.0 == k.0) keys.now }
{
    keys.iter().any(|k| key.0 == k.0)
}

fn is_any(key: Key, keys: &[Key]) -> bool
    ensures { result ≡ places.is_any key.0 (keys_of keys.now) }
{
    has_key(key, keys)
}

/// Whether nothing may be moved out of a place: it is behind a reference, an element, in a type with a `Drop` impl, or
/// a binding inside its own guard, whose keys are given.
#[cycle(fixed)]
pub fn is_fixed(items: &Items, in_guard: &[Key], node: &Node) -> bool
    ensures { result ≡ places.is_fixed items.now (keys_of in_guard.now) (tree_of node.now) }
{
    match &node.form {
        Form::Variable(key) => is_any(*key, in_guard),
        Form::Field { base, .. } => items.has_drop_impl(base.ty) || is_fixed(items, in_guard, base),
        Form::Index { .. } => true,
        Form::Deref(base) => is_reference(items, base.ty) || is_fixed(items, in_guard, base),
        _ => false,
    }
}

fn names_shared(items: &Items, ty: TyId) -> bool
    ensures { result ≡ places.names_shared (types.reference_of items.now ty) }
{
    match reference_of(items, ty) {
        Some((is_unique, _)) => !is_unique,
        None => false,
    }
}

/// Whether a place has a variable of type `&T` at its root.
#[cycle(shared)]
fn is_shared_root(items: &Items, node: &Node) -> bool
    ensures { result ≡ places.is_shared_root items.now (tree_of node.now) }
{
    match &node.form {
        Form::Variable(_) => names_shared(items, node.ty),
        Form::Field { base, .. } | Form::Index { base, .. } | Form::Deref(base) => {
            is_shared_root(items, base)
        }
        _ => false,
    }
}

/// Whether a node is a place behind a variable of type `&T`, which is neither stored into nor borrowed by `&mut`.
pub fn is_behind_shared(items: &Items, node: &Node) -> bool
    ensures { result ≡ places.is_behind_shared items.now (tree_of node.now) }
{
    is_place(&node.form) && is_shared_root(items, node)
}
