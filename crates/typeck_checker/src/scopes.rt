//! Variables around an expression that are entered and left, with the keys of those inside their own guard.
ghost use Rattle.std.specs.Prelude.{◌≡◌, ◌∷◌, drop, false, OnOk};
ghost use Rattle.typeck_env.specs.Scope.{entry_of, meaning_of};
ghost use Rattle.typeck_env.specs.declared.variables.VariableMeaning.{VariableMeaning};
ghost use Rattle.typeck_checker.specs.Scopes.{OnlyVariables, begins_in_guard, is_in_guard};

use crate::BodyScope;
use mir_base::{Key, NoMemory};
use std::alloc::Global;
use typeck_env::{Variable, VariableMeaning, Variables};

/// A binding inside its own guard comes into scope.
#[tactic(auto, using(crate::proofs::Guards::entered_guard))]
fn enter_guarded(
    around: &mut BodyScope,
    alloc: Global,
    variable: Variable,
    key: Key,
) -> Result<(), NoMemory>
    requires { variable.meaning ≡ VariableMeaning.InGuard key }
    ensures entered { OnOk result (around.new.variables ≡ entry_of variable ∷ around.old.variables) }
    ensures others { OnlyVariables around.old around.new }
{
    around.guards.push(key)?;
    match around.variables.enter(alloc, variable) {
        Ok(()) => Ok(()),
        Err(NoMemory) => {
            around.guards.pop();
            Err(NoMemory)
        }
    }
}

#[tactic(auto, using(crate::proofs::Guards::entered_plain))]
fn enter_plain(around: &mut BodyScope, alloc: Global, variable: Variable) -> Result<(), NoMemory>
    requires { is_in_guard (meaning_of variable.meaning) ≡ false }
    ensures entered { OnOk result (around.new.variables ≡ entry_of variable ∷ around.old.variables) }
    ensures others { OnlyVariables around.old around.new }
{
    match around.variables.enter(alloc, variable) {
        Ok(()) => Ok(()),
        Err(NoMemory) => Err(NoMemory),
    }
}

/// A variable comes into scope.
pub fn enter_around(
    around: &mut BodyScope,
    alloc: Global,
    variable: Variable,
) -> Result<(), NoMemory>
    ensures entered { OnOk result (around.new.variables ≡ entry_of variable ∷ around.old.variables) }
    ensures others { OnlyVariables around.old around.new }
{
    match variable.meaning {
        VariableMeaning::InGuard(key) => enter_guarded(around, alloc, variable, key),
        _ => enter_plain(around, alloc, variable),
    }
}

/// Whether the youngest variable is a binding inside its own guard.
#[tactic(auto, using(crate::proofs::Guards::youngest_some, crate::proofs::Guards::youngest_none))]
fn is_youngest_guarded(variables: &Variables) -> bool
    ensures { result ≡ begins_in_guard variables.now }
{
    let count = variables.len();
    if count == 0 {
        return false;
    }
    match variables.at(count - 1) {
        Some(variable) => match variable.meaning {
            VariableMeaning::InGuard(_) => true,
            _ => false,
        },
        None => false,
    }
}

/// The youngest variable goes out of scope.
#[tactic(auto, using(crate::proofs::Guards::left_plain, crate::proofs::Guards::left_guard, crate::proofs::Guards::left_none))]
pub fn leave_around(around: &mut BodyScope)
    ensures left { around.new.variables ≡ drop 1 around.old.variables }
    ensures others { OnlyVariables around.old around.new }
{
    let is_guarded = is_youngest_guarded(&around.variables);
    around.variables.leave_one();
    if is_guarded {
        around.guards.pop();
    }
}
