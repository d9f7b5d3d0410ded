//! How an array ends, once its elements are checked (The Rust Reference, "Array expressions").
ghost use Rattle.std.specs.Prelude.{◌≡◌, ◌==◌, ◌||◌, is_some, not};
ghost use Rattle.typeck_checker.specs.Lists.{below_all, last_nodes, last_types};
ghost use Rattle.typing_rules.specs.Rows as rows;
ghost use Rattle.typeck_checker.specs.Stand.{Gives, KeepsStack, stack, state};
ghost use Rattle.typing_rules.specs.Rows.{array_end, counted_array_end, elements_end};

use crate::array_end;
use crate::counts::as_length;
use mir_base::{NodeId, Pos, Rule, RuleError};
use mir_ty::TyId;
use typeck_checker::{Checker, one_type_of};
use typeck_heads::{broken_rule, obeys};

/// The type of the elements: the one that is required, else their own.
fn element_ty(checker: &Checker, wanted: Option<TyId>, count: usize) -> Option<TyId>
    ensures { result ≡ rows.element_ty checker.now.walk.items wanted (last_types count (stack checker.now)) }
{
    match wanted {
        Some(ty) => Some(ty),
        None => one_type_of(checker, count),
    }
}

fn sized_array(
    checker: &mut Checker,
    id: NodeId,
    at: Pos,
    element: TyId,
    count: usize,
    expected: Option<TyId>,
) -> Result<(), RuleError>
    ensures gives { Gives (array_end id.0 at count element (last_nodes count (stack checker.old)) expected (state checker.old)) result checker.new }
    ensures kept { KeepsStack (below_all count (stack checker.old)) checker.old result checker.new }
{
    let length = as_length(count)?;
    array_end(checker, id, at, element, length, expected)
}

/// Whether the type of an array is known: it has elements, or one is required.
fn is_known(expected: Option<TyId>, count: usize) -> bool
    ensures { result ≡ (is_some expected || not (count == 0)) }
{
    expected.is_some() || count != 0
}

fn counted_array(
    checker: &mut Checker,
    id: NodeId,
    at: Pos,
    element: TyId,
    count: usize,
    expected: Option<TyId>,
) -> Result<(), RuleError>
    ensures gives { Gives (counted_array_end id.0 at count element (last_nodes count (stack checker.old)) expected (state checker.old)) result checker.new }
    ensures kept { KeepsStack (below_all count (stack checker.old)) checker.old result checker.new }
{
    obeys(Rule::T16, at, is_known(expected, count))?;
    sized_array(checker, id, at, element, count, expected)
}

/// `[a, b]`, whose elements are the last nodes, so many, each of the type that is required of it, if one is.
pub fn elements_end(
    checker: &mut Checker,
    id: NodeId,
    at: Pos,
    wanted: Option<TyId>,
    count: usize,
    expected: Option<TyId>,
) -> Result<(), RuleError>
    ensures gives { Gives (elements_end id.0 at count wanted (last_nodes count (stack checker.old)) (last_types count (stack checker.old)) expected (state checker.old)) result checker.new }
    ensures kept { KeepsStack (below_all count (stack checker.old)) checker.old result checker.new }
{
    match element_ty(checker, wanted, count) {
        Some(element) => counted_array(checker, id, at, element, count, expected),
        None => Err(broken_rule(Rule::T03, at)),
    }
}
