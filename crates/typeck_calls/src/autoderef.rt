//! Going through boxes and references (The Rust Reference, "Method call expressions", "Field access expressions").
ghost use Rattle.std.specs.Prelude.{◌≡◌, ◌+◌};
ghost use Rattle.typeck_calls.specs.Going.{deref_of};
ghost use Rattle.typeck_checker.specs.Stand.{Gives, KeepsStack, below, stack, state, top};
ghost use Rattle.well_typed.specs.Places.{ty_of};

use mir_base::{Pos, RuleError};
use mir_ty::TyId;
use typeck_checker::{Checker, One};

/// What the last node, a box or a reference, leads to, which is of this type.
pub fn go_inside(checker: &mut Checker, at: Pos, inside: TyId) -> Result<(), RuleError>
    ensures gives { Gives (deref_of at inside (top (stack checker.old)) (state checker.old)) result checker.new }
    ensures kept { KeepsStack (below (stack checker.old)) checker.old result checker.new }
{
    let id = checker.number()?;
    checker.wrap_one(id, at, inside, One::Deref)
}

/// How many types are gone through at most: each stands in the table before the one that leads to it.
pub fn most_steps(checker: &Checker) -> u64
    ensures { result ≡ (ty_of (top (stack checker.now))).0 + 1 }
{
    checker.last_ty().0 as u64 + 1
}
