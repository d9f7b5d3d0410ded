//! The local that a node has for its own value.
ghost use Rattle.std.specs.Prelude.{◌≡◌, ◌++◌, OnOk, map};
ghost use Rattle.src_meaning.specs.Forms as source;
ghost use Rattle.typed_tree.specs.View.{form_of};
ghost use Rattle.lower_locals.specs.Own as rules;
ghost use Rattle.lower_locals.specs.View.{entry_of};

use crate::Local;
use crate::bool_type::bool_ty;
use mir_base::{Key, List, NoMemory};
use mir_ty::{Items, Ty, TyId};
use typed_tree::{Form, Node};

/// How a node is asked for.
#[derive(Clone, Copy)]
pub enum AskedAs {
    /// For its value, in a local of its own.
    Own,
    /// For its value, in the destination of what is around it.
    Around,
    /// As a place; a value that is asked for so is a temporary.
    Reached,
}

/// What a form is for the local of its node.
#[derive(Clone, Copy)]
enum OwnKind {
    Place,
    /// A call or a name of a pattern, whose value has a local even of type `!`.
    Always,
    /// The pattern of a literal: what it finds, a `bool`, is its value.
    Test,
    /// A statement, an arm, or any other pattern.
    NoValue,
    Value,
}

/// What a form is for the local of its node.
fn kind_of(form: &Form) -> OwnKind
    ensures { result ≡ rules.kind (form_of form.now) }
{
    match form {
        Form::Variable(_)
        | Form::Captured { .. }
        | Form::Field { .. }
        | Form::Index { .. }
        | Form::Deref(_) => OwnKind::Place,
        Form::Call { .. }
        | Form::MethodCall { .. }
        | Form::VirtualCall { .. }
        | Form::ClosureCall { .. }
        | Form::Binding(_) => OwnKind::Always,
        Form::NumberPattern(_) | Form::TruthPattern(_) => OwnKind::Test,
        Form::Let { .. }
        | Form::Evaluate(_)
        | Form::Arm { .. }
        | Form::Wildcard
        | Form::StructPattern(_)
        | Form::VariantPattern { .. }
        | Form::TuplePattern(_)
        | Form::ArrayPattern(_)
        | Form::OrPattern(_) => OwnKind::NoValue,
        _ => OwnKind::Value,
    }
}

/// Whether a node has a local for its value.
fn has_local(kind: OwnKind, asked: AskedAs, is_never: bool) -> bool
    ensures { result ≡ rules.has_local kind asked is_never }
{
    match (kind, asked) {
        (OwnKind::NoValue, _) | (OwnKind::Place, AskedAs::Reached) => false,
        (OwnKind::Place | OwnKind::Always, AskedAs::Around) => is_never,
        (OwnKind::Place | OwnKind::Always, _) => true,
        (_, AskedAs::Around) => false,
        _ => !is_never,
    }
}

/// Whether a type is `!`.
fn is_never(items: &Items, ty: TyId) -> bool
    ensures { result ≡ source.is_never items.now ty }
{
    matches!(items.ty(ty), Some(Ty::Never))
}

/// The type of the local of a node of this type.
fn ty_of_local(items: &Items, kind: OwnKind, ty: TyId) -> TyId
    ensures { result ≡ rules.ty_of_local items.now kind ty }
{
    match kind {
        OwnKind::Test => bool_ty(items),
        _ => ty,
    }
}

/// Puts the local that a node has for its own value, where it has one, behind those found before.
pub fn add_own(
    items: &Items,
    asked: AskedAs,
    node: &Node,
    found: &mut List<Local>,
) -> Result<(), NoMemory>
    ensures { OnOk result (map entry_of found.new ≡ map entry_of found.old
        ++ rules.own_local items.now asked node.now.id.0 node.now.ty (form_of node.now.form)) }
{
    let kind = kind_of(&node.form);
    if has_local(kind, asked, is_never(items, node.ty)) {
        found.push(Local {
            key: Key(node.id.0),
            ty: ty_of_local(items, kind, node.ty),
        })
    } else {
        Ok(())
    }
}
