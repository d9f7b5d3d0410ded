//! What an impl has to have (The Rust Reference, "Trait Implementations"): of each method of its trait one with the same
//! head.
ghost use Rattle.std.specs.Prelude.{◌≡◌, IfErr, IfOk};
ghost use Rattle.mir_base.specs.declared.rule.RuleError.{RuleError};
ghost use Rattle.typeck_checker.specs.Tables.{method_words};
ghost use Rattle.typing_rules.specs.Program as rules;
ghost use Rattle.well_typed.specs.Names.{is_among};

use crate::has_methods::{body_head, trait_method};
use crate::same_heads::{is_drop_sig, is_same_head};
use mir_base::RuleError;
use mir_ty::TraitDef;
use typeck_checker::Checker;
use typeck_heads::NameTable;

/// Whether the body of a method has the head that a trait asks for.
///
/// # Errors
///
/// [`RuleError::Memory`] alone, where memory is wanted.
pub fn has_trait_head(
    checker: &Checker,
    trait_: &str,
    owner: &str,
    name: &str,
) -> Result<bool, RuleError>
    ensures told { IfOk result (λ is. is ≡ rules.is_same_head checker.now.walk.items (rules.trait_method checker.now.walk.items trait_.now name.now) (rules.body_head checker.now.walk.items owner.now name.now)) }
    ensures short { IfErr result (λ e. e ≡ RuleError.Memory) }
{
    let sig = body_head(checker, owner, name)?;
    Ok(is_same_head(
        &checker.walk.items,
        trait_method(checker, trait_, name),
        sig,
    ))
}

/// Whether the body of a method has the head of `fn drop(&mut self)`.
///
/// # Errors
///
/// [`RuleError::Memory`] alone, where memory is wanted.
pub fn has_drop_head(checker: &Checker, owner: &str, name: &str) -> Result<bool, RuleError>
    ensures told { IfOk result (λ is. is ≡ rules.is_drop_sig checker.now.walk.items (rules.body_head checker.now.walk.items owner.now name.now)) }
    ensures short { IfErr result (λ e. e ≡ RuleError.Memory) }
{
    let sig = body_head(checker, owner, name)?;
    Ok(is_drop_sig(&checker.walk.items, sig))
}

#[tactic(auto, using(typeck_heads::proofs::Numbering::position_any))]
fn is_given(given: &NameTable, name: &str) -> bool
    ensures { result ≡ is_among name.now given.now }
{
    given.find(name).is_some()
}

/// Whether all methods of a trait are among those of an impl.
pub fn has_all(def: &TraitDef, given: &NameTable) -> bool
    ensures { result ≡ rules.has_all (method_words def.now) given.now }
{
    for sig in def.methods.as_slice() {
        if !is_given(given, sig.name.as_str()) {
            return false;
        }
    }
    true
}
