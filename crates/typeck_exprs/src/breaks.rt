//! Loops with a value (The Rust Reference, "break expressions and loop values").
ghost use Rattle.std.specs.Prelude.{◌≡◌, map, option_and_then};
ghost use Rattle.typing_rules.specs.Rows as rows;
ghost use Rattle.typeck_exprs.specs.Breaks.{carried_by};
ghost use Rattle.typeck_env.specs.Walked.{break_of};
ghost use Rattle.typeck_checker.specs.Stand.{Gives, KeepsStack, below, stack, state, top};
ghost use Rattle.typing_rules.specs.Rows.{loop_end};

use mir_base::{NodeId, Pos, Rule, RuleError};
use mir_ty::{Items, NEVER, TyId};
use typeck_checker::{Checker, One};
use typeck_env::{BreakOut, one_of_two};
use typeck_heads::broken_rule;

/// The one type of a break and of those behind it.
fn with_one(items: &Items, ty: TyId, others: Option<TyId>) -> Option<TyId>
    ensures { result ≡ option_and_then (rows.one_of_two items.now ty) others }
{
    match others {
        Some(other) => one_of_two(items, ty, other),
        None => None,
    }
}

/// The one type of the breaks out of a loop, `!` without any.
fn breaks_ty(items: &Items, breaks: &[BreakOut], from: NodeId) -> Option<TyId>
    ensures { result ≡ rows.one_type items.now (carried_by from.0 (map break_of breaks.now)) }
{
    let mut ty = Some(NEVER);
    for n in (0..breaks.len()).rev() {
        let out = breaks[n];
        if out.from.0 == from.0 {
            ty = with_one(items, out.ty, ty);
        }
    }
    ty
}

/// `loop`: it has the one type of its breaks.
#[tactic(auto, using(crate::proofs::LoopTypes::types_are))]
pub fn loop_end(
    checker: &mut Checker,
    id: NodeId,
    at: Pos,
    expected: Option<TyId>,
) -> Result<(), RuleError>
    ensures gives { Gives (loop_end id.0 at expected (top (stack checker.old)) (state checker.old)) result checker.new }
    ensures kept { KeepsStack (below (stack checker.old)) checker.old result checker.new }
{
    match breaks_ty(&checker.walk.items, checker.walk.breaks.as_slice(), id) {
        Some(ty) => checker.unify_one(id, at, ty, One::Loop, expected),
        None => Err(broken_rule(Rule::T03, at)),
    }
}
