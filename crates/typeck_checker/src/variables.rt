//! Variables by their names.
ghost use Rattle.std.specs.Prelude.{◌≡◌, ℕ, List, option_map};
ghost use Rattle.typing_rules.specs.Places.{variable_place};
ghost use Rattle.typing_rules.specs.Scope as scope;
ghost use Rattle.typeck_checker.specs.Variables.{found_as};
ghost use Rattle.typeck_checker.specs.Stand.{Gives, KeepsStack, env, stack, state};

use crate::{Checker, Leaf};
use mir_base::{Key, Name, Pos, RuleError};
use mir_ty::TyId;
use typeck_env::VariableMeaning;
use typed_tree::Form;

/// A variable that was found by its name.
#[derive(Clone, Copy)]
pub struct FoundVariable {
    pub ty: TyId,
    pub meaning: VariableMeaning,
}

/// The youngest variable of a name; `None` where there is none.
#[tactic(auto, using(crate::proofs::Entries::found_some, crate::proofs::Entries::found_none))]
pub fn variable(checker: &Checker, name: &str) -> Option<FoundVariable>
    ensures { option_map (found_as name.now) result ≡ scope.variable (env checker.now).variables name.now }
{
    match checker.around.variables.find(name) {
        Some(variable) => Some(FoundVariable {
            ty: variable.ty,
            meaning: variable.meaning,
        }),
        None => None,
    }
}

fn put_captured(
    checker: &mut Checker,
    at: Pos,
    ty: TyId,
    closure: Key,
    part: u32,
    name: &str,
) -> Result<(), RuleError>
    ensures gives { Gives (variable_place at (record { name = name.now; ty = ty; meaning = scope.Capture closure.0 part }) (state checker.old)) result checker.new }
    ensures kept { KeepsStack (stack checker.old) checker.old result checker.new }
{
    let id = checker.number()?;
    let Ok(name) = Name::from_str(checker.alloc, name) else {
        return Err(RuleError::Memory);
    };
    checker.put(
        id,
        at,
        ty,
        Form::Captured {
            closure,
            part,
            name,
        },
    )
}

fn put_local(checker: &mut Checker, at: Pos, ty: TyId, key: Key) -> Result<(), RuleError>
    ensures gives { (name : List ℕ) → Gives (variable_place at (record { name = name; ty = ty; meaning = scope.Local key.0 }) (state checker.old)) result checker.new }
    ensures kept { KeepsStack (stack checker.old) checker.old result checker.new }
{
    let id = checker.number()?;
    checker.put_leaf(id, at, ty, Leaf::Variable(key))
}

/// A variable that was found by its name, as a place.
pub fn put_variable(
    checker: &mut Checker,
    at: Pos,
    name: &str,
    found: FoundVariable,
) -> Result<(), RuleError>
    ensures gives { Gives (variable_place at (found_as name.now found) (state checker.old)) result checker.new }
    ensures kept { KeepsStack (stack checker.old) checker.old result checker.new }
{
    match found.meaning {
        VariableMeaning::Local(key) | VariableMeaning::InGuard(key) => put_local(
            checker, at, found.ty, key,
        ),
        VariableMeaning::Capture { closure, part } => {
            put_captured(checker, at, found.ty, closure, part, name)
        }
    }
}
