//! Variables that come into scope, and go out of it.
ghost use Rattle.std.specs.Prelude.{◌≡◌, ◌≤◌, length, reverse, IfErr, IfOk, OnOk};
ghost use Rattle.mir_base.specs.declared.rule.RuleError.{RuleError};
ghost use Rattle.typeck_env.specs.Scope.{entry_of, meaning_of};
ghost use Rattle.typeck_checker.specs.Stand.{env};
ghost use Rattle.typeck_checker.specs.Scopes.{OnlyPlace, bound_in, entry_in_guard, meaning_in_guard, with_entry, with_only, without_youngest};
ghost use Rattle.typing_rules.specs.Scope.{with_variables};

use crate::Checker;
use crate::scopes::{enter_around, leave_around};
use mir_base::{NoMemory, RuleError};
use typeck_env::{Variable, VariableMeaning, Variables};

/// A variable comes into scope, and hides those of its name.
#[tactic(auto, unfolding(crate::specs::Stand::env_in))]
pub fn enter(checker: &mut Checker, variable: Variable) -> Result<(), RuleError>
    ensures entered { OnOk result (env checker.new ≡ with_entry (entry_of variable) (env checker.old)) }
    ensures others { OnlyPlace checker.old checker.new }
    ensures short { IfErr result (λ e. e ≡ RuleError.Memory) }
{
    match enter_around(&mut checker.around, checker.alloc, variable) {
        Ok(()) => Ok(()),
        Err(NoMemory) => Err(RuleError::Memory),
    }
}

/// The youngest variable goes out of scope.
#[tactic(auto, unfolding(crate::specs::Stand::env_in))]
fn leave_one(checker: &mut Checker)
    ensures left { env checker.new ≡ without_youngest (env checker.old) }
    ensures others { OnlyPlace checker.old checker.new }
{
    leave_around(&mut checker.around);
}

/// How many variables are in scope.
#[tactic(auto, unfolding(crate::specs::Stand::env_in))]
pub fn count(checker: &Checker) -> usize
    ensures { result ≡ length (env checker.now).variables }
{
    checker.around.variables.len()
}

/// The youngest variables go out of scope, until there are this many.
pub fn leave(checker: &mut Checker, to: usize)
    requires { to ≤ length (env checker.old).variables }
    ensures left { env checker.new ≡ with_only to (env checker.old) }
    ensures others { OnlyPlace checker.old checker.new }
{
    for _n in to..count(checker) {
        leave_one(checker);
    }
}

fn again(checker: &Checker, variable: &Variable, within_guard: bool) -> Result<Variable, RuleError>
    ensures made { IfOk result (λ v. entry_of v ≡ entry_in_guard within_guard (entry_of variable.now)) }
    ensures short { IfErr result (λ e. e ≡ RuleError.Memory) }
{
    let meaning = meaning_in_guard(variable.meaning, within_guard);
    match variable.name.copy(checker.alloc) {
        Ok(name) => Ok(Variable {
            name,
            ty: variable.ty,
            meaning,
        }),
        Err(NoMemory) => Err(RuleError::Memory),
    }
}

fn meaning_in_guard(meaning: VariableMeaning, within_guard: bool) -> VariableMeaning
    ensures { meaning_of result ≡ meaning_in_guard within_guard (meaning_of meaning) }
{
    match meaning {
        VariableMeaning::Local(key) => {
            if within_guard {
                VariableMeaning::InGuard(key)
            } else {
                meaning
            }
        }
        _ => meaning,
    }
}

/// A binding of a pattern comes into scope.
fn enter_again(
    checker: &mut Checker,
    variable: &Variable,
    within_guard: bool,
) -> Result<(), RuleError>
    ensures entered { OnOk result (env checker.new ≡ with_entry (entry_in_guard within_guard (entry_of variable.now)) (env checker.old)) }
    ensures others { OnlyPlace checker.old checker.new }
    ensures short { IfErr result (λ e. e ≡ RuleError.Memory) }
{
    let variable = again(checker, variable, within_guard)?;
    enter(checker, variable)
}

/// The bindings of a pattern come into scope, the last of them the youngest; inside the guard of an arm they stand for
/// the parts that they would bind.
pub fn enter_all(
    checker: &mut Checker,
    bound: &Variables,
    within_guard: bool,
) -> Result<(), RuleError>
    ensures entered { OnOk result (env checker.new ≡ with_variables (bound_in within_guard (reverse bound.now)) (env checker.old)) }
    ensures others { OnlyPlace checker.old checker.new }
    ensures short { IfErr result (λ e. e ≡ RuleError.Memory) }
{
    for n in 0..bound.len() {
        let Some(variable) = bound.at(n) else {
            unreachable!();
        };
        enter_again(checker, variable, within_guard)?;
    }
    Ok(())
}
