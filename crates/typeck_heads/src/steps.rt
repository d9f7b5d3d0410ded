//! The steps that a check is made of.
ghost use Rattle.std.specs.Prelude.{◌≡◌, ◌<◌, ◌≤◌, [], ◌∷◌, ◌++◌, length, IfOk, IfErr, OnOk, true, false};
ghost use Rattle.mir_base.specs.declared.rule.RuleError.{RuleError};
ghost use Rattle.mir_ty.specs.AreItems.{IsTy};
ghost use Rattle.typeck_heads.specs.Answers.{Answers, Refuses};
ghost use Rattle.typing_rules.specs.Check.{interned as interned_by, obeys as obeyed_by};
ghost use Rattle.typing_rules.specs.Collected.{starting_with};

use mir_base::{List, NoMemory, Pos, Rule, RuleError};
use mir_ty::{Items, Ty, TyId, UNIT};

#[tactic(auto, using(crate::proofs::Interning::interned_is))]
/// The number of a type, which gets the next one where it has none.
pub fn intern(items: &mut Items, ty: Ty) -> Result<TyId, RuleError>
    requires { IsTy items.old.types ty }
    ensures answers { Answers (interned_by ty (starting_with items.old)) result items.new }
    ensures grows { length items.old.types ≤ length items.new.types }
    ensures known { IfOk result (λ id. id.0 < length items.new.types) }
{
    let known = items.ty(UNIT).is_some();
    prove!(known || !known);
    match items.intern(ty) {
        Ok(id) => Ok(id),
        Err(NoMemory) => Err(RuleError::Memory),
    }
}

/// The rule holds there where this is true.
pub fn obeys(rule: Rule, at: Pos, holds: bool) -> Result<(), RuleError>
    ensures holds { OnOk result (holds ≡ true) }
    ensures broken { IfErr result (λ e. (e ≡ RuleError.Broken rule at) × (holds ≡ false)) }
{
    if holds {
        Ok(())
    } else {
        Err(RuleError::Broken { rule, at })
    }
}

/// A rule that is broken at a place.
pub fn broken_rule(rule: Rule, at: Pos) -> RuleError
    ensures { result ≡ RuleError.Broken rule at }
{
    RuleError::Broken { rule, at }
}

/// Makes an element the last one.
pub fn push_to<T: Drop>(list: &mut List<T>, element: T) -> Result<(), RuleError>
    ensures pushed { OnOk result (list.new ≡ list.old ++ element ∷ []) }
    ensures short { IfErr result (λ e. e ≡ RuleError.Memory) }
{
    match list.push(element) {
        Ok(()) => Ok(()),
        Err(NoMemory) => Err(RuleError::Memory),
    }
}
