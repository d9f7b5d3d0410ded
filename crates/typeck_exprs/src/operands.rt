//! Two operands, of which either was checked first (The Rust Reference, "Operator expressions").
ghost use Rattle.std.specs.Prelude.{◌≡◌};
ghost use Rattle.typing_rules.specs.Rows as rows;
ghost use Rattle.typeck_exprs.specs.Pairs.{left_of, right_of};
ghost use Rattle.typeck_checker.specs.Stand.{Gives, KeepsStack, below, stack, state};
ghost use Rattle.typing_rules.specs.Rows.{arithmetic_end, comparison_end};

use crate::{arithmetic_end, arithmetic_last_end, comparison_end, comparison_last_end};
use mir_base::{Cmp, Math, NodeId, Pos, RuleError};
use mir_ty::{Items, TyId};
use typeck_checker::Checker;
use typeck_env::is_never;

/// The type that this is, unless it is `!`.
pub fn unless_never(items: &Items, ty: TyId) -> Option<TyId>
    ensures { result ≡ rows.unless_never items.now ty }
{
    if is_never(items, ty) { None } else { Some(ty) }
}

/// `+`, `-`, `*`, `/`, `%` of the last two nodes, whose right operand was checked first where they are swapped.
pub fn arithmetic_of(
    checker: &mut Checker,
    id: NodeId,
    at: Pos,
    operator: Math,
    swapped: bool,
    expected: Option<TyId>,
) -> Result<(), RuleError>
    ensures gives { Gives (arithmetic_end id.0 at operator expected (left_of swapped (stack checker.old)) (right_of swapped (stack checker.old)) (state checker.old)) result checker.new }
    ensures kept { KeepsStack (below (below (stack checker.old))) checker.old result checker.new }
{
    if swapped {
        arithmetic_last_end(checker, id, at, operator, expected)
    } else {
        arithmetic_end(checker, id, at, operator, expected)
    }
}

/// `==`, `<` and so on of the last two nodes, whose right operand was checked first where they are swapped.
pub fn comparison_of(
    checker: &mut Checker,
    id: NodeId,
    at: Pos,
    operator: Cmp,
    swapped: bool,
    expected: Option<TyId>,
) -> Result<(), RuleError>
    ensures gives { Gives (comparison_end id.0 at operator expected (left_of swapped (stack checker.old)) (right_of swapped (stack checker.old)) (state checker.old)) result checker.new }
    ensures kept { KeepsStack (below (below (stack checker.old))) checker.old result checker.new }
{
    if swapped {
        comparison_last_end(checker, id, at, operator, expected)
    } else {
        comparison_end(checker, id, at, operator, expected)
    }
}
