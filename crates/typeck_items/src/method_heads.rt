//! Whether a method has the head that its impl asks for (The Rust Reference, "Trait Implementations", "Destructors").
ghost use Rattle.std.specs.Prelude.{◌≡◌, ◌&&◌, not, IfErr, IfOk};
ghost use Rattle.mir_base.specs.declared.rule.RuleError.{RuleError};
ghost use Rattle.src_ast.specs.ItemForms.{name_seen};
ghost use Rattle.src_ast.specs.Seen.{nodes_of};
ghost use Rattle.typing_rules.specs.Program as rules;
ghost use Rattle.typeck_items.specs.Forms.{drop_head, impl_head, method_head};

use crate::receivers::{takes_reference, takes_unique};
use crate::trait_heads::is_called_drop;
use crate::{has_drop_head, has_trait_head};
use mir_base::RuleError;
use src_ast::{Nodes, name_of};
use src_tree::SyntaxNode;
use typeck_checker::Checker;

/// Whether a trait is `Drop`.
pub fn is_drop(name: &str) -> bool
    ensures { result ≡ rules.is_drop name.now }
{
    name == "Drop"
}

fn may_be_drop(name: &str, params: Nodes) -> bool
    ensures { result ≡ (rules.is_called_drop name.now && rules.takes_unique (nodes_of params.entry)) }
{
    is_called_drop(name) && takes_unique(params)
}

fn may_be_method(name: &str, params: Nodes) -> bool
    ensures { result ≡ (not (rules.is_called_drop name.now) && rules.takes_reference (nodes_of params.entry)) }
{
    !is_called_drop(name) && takes_reference(params)
}

/// Whether a method may stand in an impl of `Drop`.
fn is_drop_head(
    checker: &Checker,
    owner: &str,
    name: &str,
    params: Nodes,
) -> Result<bool, RuleError>
    ensures told { IfOk result (λ is. is ≡ drop_head checker.now.walk.items owner.now name.now (nodes_of params.entry)) }
    ensures short { IfErr result (λ e. e ≡ RuleError.Memory) }
{
    if may_be_drop(name, params) {
        has_drop_head(checker, owner, name)
    } else {
        Ok(false)
    }
}

/// Whether a method may stand in an impl of a trait that is not `Drop`.
fn is_method_head(
    checker: &Checker,
    trait_: &str,
    owner: &str,
    name: &str,
    params: Nodes,
) -> Result<bool, RuleError>
    ensures told { IfOk result (λ is. is ≡ method_head checker.now.walk.items trait_.now owner.now name.now (nodes_of params.entry)) }
    ensures short { IfErr result (λ e. e ≡ RuleError.Memory) }
{
    if may_be_method(name, params) {
        has_trait_head(checker, trait_, owner, name)
    } else {
        Ok(false)
    }
}

fn is_impl_head(
    checker: &Checker,
    trait_: &str,
    owner: &str,
    name: &str,
    params: Nodes,
) -> Result<bool, RuleError>
    ensures told { IfOk result (λ is. is ≡ impl_head checker.now.walk.items trait_.now owner.now name.now (nodes_of params.entry)) }
    ensures short { IfErr result (λ e. e ≡ RuleError.Memory) }
{
    if is_drop(trait_) {
        is_drop_head(checker, owner, name, params)
    } else {
        is_method_head(checker, trait_, owner, name, params)
    }
}

/// Whether a method has the head that its impl asks for, and no other method is called `drop`.
///
/// # Errors
///
/// [`RuleError::Memory`] alone, where memory is wanted.
pub fn has_head(
    checker: &Checker,
    trait_: Option<&SyntaxNode>,
    owner: &str,
    name: &str,
    params: Nodes,
) -> Result<bool, RuleError>
    ensures told { IfOk result (λ is. is ≡ rules.has_head checker.now.walk.items (name_seen trait_.entry) owner.now name.now (nodes_of params.entry)) }
    ensures short { IfErr result (λ e. e ≡ RuleError.Memory) }
{
    match trait_ {
        Some(trait_) => is_impl_head(checker, name_of(trait_), owner, name, params),
        None => Ok(!is_called_drop(name)),
    }
}
