//! Assignment (The Rust Reference, "Assignment expressions").
ghost use Rattle.std.specs.Prelude.{◌≡◌, ◌&&◌, not};
ghost use Rattle.typing_rules.specs.Places as places;
ghost use Rattle.typing_rules.specs.Rows as rows;
ghost use Rattle.well_typed.specs.Places.{form_of, is_place};
ghost use Rattle.typeck_checker.specs.Stand.{Gives, KeepsStack, below, env, stack, state, top};
ghost use Rattle.typing_rules.specs.Rows.{store_end};

use mir_base::{NodeId, Pos, Rule, RuleError};
use mir_ty::{TyId, UNIT};
use typeck_checker::{Checker, TwoParts};
use typeck_env::is_dyn;
use typeck_heads::{broken_rule, obeys};

/// `p = e`: what is stored into is a place, and no binding inside its own guard.
pub fn store_end(
    checker: &mut Checker,
    id: NodeId,
    at: Pos,
    expected: Option<TyId>,
) -> Result<(), RuleError>
    ensures gives { Gives (store_end (env checker.old) id.0 at expected (top (below (stack checker.old))) (top (stack checker.old)) (state checker.old)) result checker.new }
    ensures kept { KeepsStack (below (below (stack checker.old))) checker.old result checker.new }
{
    let is_whole = !is_dyn(&checker.walk.items, checker.second_ty());
    let is_stored = checker.is_second_stored();
    let is_shared = checker.is_second_shared();
    let place_at = checker.second_at();
    obeys(Rule::T03, at, is_whole)?;
    checker.coerce_two(id, at, UNIT, TwoParts::Assign, expected)?;
    if !is_stored {
        return Err(broken_rule(Rule::T05, at));
    }
    obeys(Rule::T08, place_at, !is_shared)
}
