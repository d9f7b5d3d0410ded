//! Places that are gone through (The Rust Reference, "Place Expressions and Value Expressions").
ghost use Rattle.std.specs.Prelude.{◌≡◌};
ghost use Rattle.typeck_checker.specs.Stand.{Gives, KeepsStack, below, stack, state, top};
ghost use Rattle.typing_rules.specs.Rows.{deref_end, element_end};

use mir_base::{NodeId, Pos, Rule, RuleError};
use typeck_checker::{Checker, One, TwoParts};
use typeck_env::{array_of, inside_of};
use typeck_heads::broken_rule;

/// `*e`.
pub fn deref_end(checker: &mut Checker, id: NodeId, at: Pos) -> Result<(), RuleError>
    ensures gives { Gives (deref_end id.0 at (top (stack checker.old)) (state checker.old)) result checker.new }
    ensures kept { KeepsStack (below (stack checker.old)) checker.old result checker.new }
{
    match inside_of(&checker.walk.items, checker.last_ty()) {
        Some(ty) => checker.wrap_one(id, at, ty, One::Deref),
        None => Err(broken_rule(Rule::T03, at)),
    }
}

/// `a[i]`.
pub fn element_end(checker: &mut Checker, id: NodeId, at: Pos) -> Result<(), RuleError>
    ensures gives { Gives (element_end id.0 at (top (below (stack checker.old))) (top (stack checker.old)) (state checker.old)) result checker.new }
    ensures kept { KeepsStack (below (below (stack checker.old))) checker.old result checker.new }
{
    match array_of(&checker.walk.items, checker.second_ty()) {
        Some((element, count)) => checker.wrap_two(id, at, element, TwoParts::Index(count)),
        None => Err(broken_rule(Rule::T03, at)),
    }
}
