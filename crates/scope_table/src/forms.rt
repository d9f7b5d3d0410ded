//! What the form of a node says of its scopes.
ghost use Rattle.std.specs.Prelude.{◌≡◌, Some};
ghost use Rattle.scope_table.specs.Table as table;
ghost use Rattle.src_meaning.specs.Locals.OfBody.{is_place_form};
ghost use Rattle.typed_tree.specs.View.{tree_of, form_of};

use crate::row::{MadeAround, Within};
use mir_base::NodeId;
use typed_tree::{Form, Node};

/// A node that makes nothing.
pub fn nothing() -> MadeAround
    ensures { result ≡ table.nothing }
{
    MadeAround {
        destination: None,
        entry: None,
    }
}

/// In a scope that is the nearest for temporaries and the innermost.
pub fn both_in(scope: NodeId) -> Within
    ensures { result ≡ table.both_in scope }
{
    Within {
        temporary: scope,
        innermost: scope,
    }
}

/// In a scope that is the innermost.
pub fn inner(scope: NodeId, within: Within) -> Within
    ensures { result ≡ table.inner scope within }
{
    Within {
        temporary: within.temporary,
        innermost: scope,
    }
}

/// Whether a form makes its value in a destination that is pending until it is complete.
fn has_destination(form: &Form) -> bool
    ensures { result ≡ table.has_destination (form_of form.now) }
{
    matches!(
        form,
        Form::Block { .. }
            | Form::If { .. }
            | Form::IfLet { .. }
            | Form::Match { .. }
            | Form::Loop(_)
            | Form::While { .. }
            | Form::WhileLet { .. }
    )
}

/// Whether a form is a place.
fn is_place(form: &Form) -> bool
    ensures { result ≡ is_place_form (form_of form.now) }
{
    matches!(
        form,
        Form::Variable(_)
            | Form::Captured { .. }
            | Form::Field { .. }
            | Form::Index { .. }
            | Form::Deref(_)
    )
}

/// A scope where it is asked for.
fn if_true(asked: bool, scope: NodeId) -> Option<NodeId>
    ensures { result ≡ table.if_true asked scope }
{
    if asked { Some(scope) } else { None }
}

/// A value that becomes an entry of a scope.
pub fn entry_in(scope: NodeId, node: &Node) -> MadeAround
    ensures { result ≡ table.entry_in scope (tree_of node.now) }
{
    MadeAround {
        destination: if_true(has_destination(&node.form), scope),
        entry: Some(scope),
    }
}

/// A place that is reached, or a temporary of a scope.
pub fn reached_in(scope: NodeId, node: &Node) -> MadeAround
    ensures { result ≡ table.reached_in scope (tree_of node.now) }
{
    if is_place(&node.form) {
        nothing()
    } else {
        entry_in(scope, node)
    }
}

/// A value in a destination that is pending in any case.
pub fn pending_in(scope: NodeId) -> MadeAround
    ensures { result ≡ table.pending_in scope }
{
    MadeAround {
        destination: Some(scope),
        entry: Some(scope),
    }
}

/// A name of a pattern, which is an entry of a scope.
pub fn name_in(scope: NodeId) -> MadeAround
    ensures { result ≡ table.name_in scope }
{
    MadeAround {
        destination: None,
        entry: Some(scope),
    }
}

/// A value that is pending in one scope and becomes an entry of another.
fn pending_then(pending: NodeId, scope: NodeId) -> MadeAround
    ensures { result ≡ record { destination = Some pending; entry = Some scope } }
{
    MadeAround {
        destination: Some(pending),
        entry: Some(scope),
    }
}

/// The name of a `let` with a value: that of one name is pending in the statement first.
pub fn let_name(id: NodeId, scope: NodeId, pattern: &Form) -> MadeAround
    ensures { result ≡ table.let_name id scope (form_of pattern.now) }
{
    match pattern {
        Form::Binding(_) => pending_then(id, scope),
        _ => name_in(scope),
    }
}

/// A place makes nothing, and a value is pending in a scope.
fn place_or_pending(scope: NodeId, value: &Node) -> MadeAround
    ensures { result ≡ table.pending_if_value scope (tree_of value.now) }
{
    if is_place(&value.form) {
        nothing()
    } else {
        pending_in(scope)
    }
}

/// The value of a `let`: that of one name is made in the name; another is a place or a temporary of the statement.
pub fn initial(id: NodeId, pattern: &Form, value: &Node) -> MadeAround
    ensures { result ≡ table.initial id (form_of pattern.now) (tree_of value.now) }
{
    match pattern {
        Form::Binding(_) => nothing(),
        _ => place_or_pending(id, value),
    }
}

/// The scope of a node that is a temporary scope of its own: a coercion leaves it to its operand.
#[cycle(own)]
pub fn own_scope(node: &Node) -> NodeId
    ensures { result ≡ table.own_scope (tree_of node.now) }
{
    own_scope_of(node.id, &node.form)
}

#[cycle(own)]
fn own_scope_of(id: NodeId, form: &Form) -> NodeId
    ensures { result ≡ table.own_scope_of id (form_of form.now) }
{
    match form {
        Form::Unsize { operand, .. } => own_scope(operand),
        _ => id,
    }
}

/// Whether a form is a pattern with parts.
pub fn has_parts(form: &Form) -> bool
    ensures { result ≡ table.has_parts (form_of form.now) }
{
    matches!(
        form,
        Form::StructPattern(_)
            | Form::VariantPattern { .. }
            | Form::TuplePattern(_)
            | Form::ArrayPattern(_)
    )
}

/// Whether a form is an arm.
pub fn is_arm(form: &Form) -> bool
    ensures { result ≡ table.is_arm (form_of form.now) }
{
    matches!(form, Form::Arm { .. })
}

/// Whether a form is a pattern or an arm, which is not evaluated by itself.
pub fn is_idle(form: &Form) -> bool
    ensures { result ≡ table.is_idle (form_of form.now) }
{
    matches!(
        form,
        Form::Arm { .. }
            | Form::Wildcard
            | Form::Binding(_)
            | Form::NumberPattern(_)
            | Form::TruthPattern(_)
            | Form::StructPattern(_)
            | Form::VariantPattern { .. }
            | Form::TuplePattern(_)
            | Form::ArrayPattern(_)
            | Form::OrPattern(_)
    )
}

/// The temporary scope of a node in that of a scope: that of a statement is the statement.
pub fn temporary_of(id: NodeId, form: &Form, scope: NodeId) -> NodeId
    ensures { result ≡ table.temporary_of id (form_of form.now) scope }
{
    match form {
        Form::Let { .. } | Form::Evaluate(_) => id,
        _ => scope,
    }
}
