//! Reference variables that are passed on (The Rust Reference, "Borrow operators").
ghost use Rattle.std.specs.Prelude.{◌≡◌};
ghost use Rattle.typeck_checker.specs.Variables.{found_as};
ghost use Rattle.typing_rules.specs.Rows as rows;
ghost use Rattle.typeck_checker.specs.Stand.{Gives, KeepsStack, stack, state};
ghost use Rattle.typing_rules.specs.Rows.{passed_on_end};

use crate::borrow_of;
use mir_base::{Pos, Rule, RuleError};
use mir_ty::TyId;
use typeck_checker::{Checker, FoundVariable, One, put_variable};
use typeck_env::reference_of;
use typeck_heads::obeys;

/// Whether a reference may be passed for a parameter that names this type.
fn passes(reference: Option<(bool, TyId)>, is_unique: bool, to: TyId) -> bool
    ensures { result ≡ rows.passes is_unique to reference }
{
    match reference {
        Some((unique, names)) => names.0 == to.0 && (unique || !is_unique),
        None => false,
    }
}

fn pass_variable(
    checker: &mut Checker,
    at: Pos,
    name: &str,
    found: FoundVariable,
    is_unique: bool,
    to: TyId,
) -> Result<(), RuleError>
    ensures gives { Gives (passed_on_end at (found_as name.now found) is_unique to (state checker.old)) result checker.new }
    ensures kept { KeepsStack (stack checker.old) checker.old result checker.new }
{
    let id = checker.number()?;
    let through = checker.number()?;
    put_variable(checker, at, name, found)?;
    checker.wrap_one(through, at, to, One::Deref)?;
    borrow_of(checker, id, at, is_unique)
}

/// A reference variable that is passed on borrows what it names, by `&mut` where the parameter is `&mut T`.
pub fn passed_on(
    checker: &mut Checker,
    at: Pos,
    name: &str,
    found: FoundVariable,
    is_unique: bool,
    to: TyId,
) -> Result<(), RuleError>
    ensures gives { Gives (rows.passed_on at (found_as name.now found) to is_unique to (state checker.old)) result checker.new }
    ensures kept { KeepsStack (stack checker.old) checker.old result checker.new }
{
    let may_pass = passes(reference_of(&checker.walk.items, found.ty), is_unique, to);
    obeys(Rule::T03, at, may_pass)?;
    pass_variable(checker, at, name, found, is_unique, to)
}
