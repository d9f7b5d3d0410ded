//! Whether a method has the head that its impl asks for (The Rust Reference, "Trait Implementations"), and `main` its
//! own ("Main Functions").
ghost use Rattle.std.specs.Prelude.{◌≡◌, ◌&&◌};
ghost use Rattle.typing_rules.specs.Program as rules;
ghost use Rattle.well_typed.specs.Types.{are_same as are_same_by, is_same};
ghost use Rattle.std.specs.Option.{option_copied};

use mir_ty::{Items, Sig, TyId};
use typeck_env::{is_reference, is_unit, reference_of};

fn is_unique(items: &Items, ty: TyId) -> bool
    ensures { result ≡ rules.is_unique items.now ty }
{
    match reference_of(items, ty) {
        Some((is_unique, _)) => is_unique,
        None => false,
    }
}

fn is_same_truth(a: bool, b: bool) -> bool
    ensures { result ≡ rules.is_same_truth a b }
{
    if a { b } else { !b }
}

/// Whether two lists have the same types in the same order.
#[tactic(auto, using(crate::proofs::Lists::unequal))]
fn are_same(some: &[TyId], others: &[TyId]) -> bool
    ensures { result ≡ are_same_by some.now others.now }
{
    if some.len() != others.len() {
        return false;
    }
    for k in 0..some.len() {
        if some[k].0 != others[k].0 {
            return false;
        }
    }
    true
}

/// Whether the references that two heads begin with are both unique or both not.
fn is_same_self(items: &Items, asked: TyId, own: TyId) -> bool
    ensures { result ≡ rules.is_same_truth (rules.is_unique items.now asked) (rules.is_unique items.now own) }
{
    is_same_truth(is_unique(items, asked), is_unique(items, own))
}

/// Whether the parameters of a method are those that its trait asks for, where the struct or enum stands for `dyn` of the
/// trait.
fn are_same_params(items: &Items, asked: &[TyId], given: &[TyId]) -> bool
    ensures { result ≡ rules.are_same_params items.now asked.now given.now }
{
    match (asked, given) {
        ([asked, tys @ ..], [own, others @ ..]) => {
            is_reference(items, *own) && is_same_self(items, *asked, *own) && are_same(tys, others)
        }
        _ => false,
    }
}

fn has_same_types(items: &Items, method: &Sig, sig: &Sig) -> bool
    ensures { result ≡ (rules.are_same_params items.now method.now.params sig.now.params && is_same method.now.result sig.now.result) }
{
    are_same_params(items, method.params.as_slice(), sig.params.as_slice())
        && method.result.0 == sig.result.0
}

/// Whether a method has the head that its trait asks for.
pub fn is_same_head(items: &Items, method: Option<&Sig>, sig: Option<&Sig>) -> bool
    ensures { result ≡ rules.is_same_head items.now (option_copied method.entry) (option_copied sig.entry) }
{
    match (method, sig) {
        (Some(method), Some(sig)) => has_same_types(items, method, sig),
        _ => false,
    }
}

fn is_one_unique(items: &Items, params: &[TyId]) -> bool
    ensures { result ≡ rules.is_one_unique items.now params.now }
{
    match params {
        [ty] => is_unique(items, *ty),
        _ => false,
    }
}

/// Whether a head is that of `fn drop(&mut self)`.
pub fn is_drop_sig(items: &Items, sig: Option<&Sig>) -> bool
    ensures { result ≡ rules.is_drop_sig items.now (option_copied sig.entry) }
{
    match sig {
        Some(sig) => is_one_unique(items, sig.params.as_slice()) && is_unit(items, sig.result),
        None => false,
    }
}
