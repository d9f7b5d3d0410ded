//! Operators and assignment (The Rust Reference, "Operator expressions").
ghost use Rattle.std.specs.Prelude.{◌≡◌};
ghost use Rattle.src_ast.specs.Seen.{syn_of};
ghost use Rattle.typing_rules.specs.Rows as rows;
ghost use Rattle.typing_rules.specs.Typed as rules;
ghost use Rattle.typeck_exprs.specs.Pairs.{KeepsTwo, left_of, right_of};
ghost use Rattle.typeck_checker.specs.Forms.{two_form};
ghost use Rattle.typeck_checker.specs.Stand.{Gives, GivesValue, KeepsStack, below, env, stack, state, top};

use crate::expressions::{check_expr, check_plain_base};
use mir_base::{Cmp, Math, Pos, RuleError};
use mir_ty::TyId;
use src_tree::SyntaxNode;
use typeck_checker::{Checker, TwoParts};
use typeck_exprs::{
    arithmetic_of, comparison_of, if_int, is_plain, literal_in, logic_end, negate_end, not_end,
    store_end, unless_never, wanted_int,
};

/// `!e`.
#[cycle(check_expr)]
pub fn check_not(
    checker: &mut Checker,
    at: Pos,
    operand: &SyntaxNode,
    expected: Option<TyId>,
) -> Result<(), RuleError>
    ensures gives { Gives (rows.not_row at (rules.typed (env checker.old) (syn_of operand.now)) expected (state checker.old)) result checker.new }
    ensures kept { KeepsStack (stack checker.old) checker.old result checker.new }
{
    let id = checker.number()?;
    check_expr(checker, operand, None)?;
    not_end(checker, id, at, expected)
}

#[cycle(check_expr)]
fn negate(
    checker: &mut Checker,
    at: Pos,
    operand: &SyntaxNode,
    expected: Option<TyId>,
) -> Result<(), RuleError>
    ensures gives { Gives (rows.negate at (rules.typed (env checker.old) (syn_of operand.now)) expected (state checker.old)) result checker.new }
    ensures kept { KeepsStack (stack checker.old) checker.old result checker.new }
{
    let id = checker.number()?;
    let inner = wanted_int(&checker.walk.items, expected);
    check_expr(checker, operand, inner)?;
    negate_end(checker, id, at, expected)
}

/// `-e`: a `-` directly before a number belongs to it.
#[cycle(check_expr)]
pub fn check_minus(
    checker: &mut Checker,
    at: Pos,
    operand: &SyntaxNode,
    expected: Option<TyId>,
) -> Result<(), RuleError>
    ensures gives { Gives (rules.minus at (rules.literal_in (syn_of operand.now)) (rules.typed (env checker.old) (syn_of operand.now)) expected (state checker.old)) result checker.new }
    ensures kept { KeepsStack (stack checker.old) checker.old result checker.new }
{
    match literal_in(operand) {
        Some(digits) => checker.literal(at, true, digits.value, digits.suffix, expected),
        None => negate(checker, at, operand, expected),
    }
}

/// The type of the left operand, where it is an integer type, is required of the right one.
#[cycle(check_expr)]
fn left_first(
    checker: &mut Checker,
    left: &SyntaxNode,
    right: &SyntaxNode,
    expected: Option<TyId>,
) -> Result<(), RuleError>
    ensures gives { GivesValue (λ u. (top (below (stack checker.new)), top (stack checker.new)))
        (rows.left_first expected (rules.typed (env checker.old) (syn_of left.now)) (rules.typed (env checker.old) (syn_of right.now)) (state checker.old)) result checker.new }
    ensures kept { KeepsTwo (stack checker.old) checker.old result checker.new }
{
    check_expr(checker, left, expected)?;
    let inner = if_int(&checker.walk.items, checker.last_ty());
    check_expr(checker, right, inner)
}

/// The right operand is checked first, and its type is required of the left one.
#[cycle(check_expr)]
fn left_last(checker: &mut Checker, left: &SyntaxNode, right: &SyntaxNode) -> Result<(), RuleError>
    ensures gives { GivesValue (λ u. (top (stack checker.new), top (below (stack checker.new))))
        (rows.left_last (rules.typed (env checker.old) (syn_of left.now)) (rules.typed (env checker.old) (syn_of right.now)) (state checker.old)) result checker.new }
    ensures kept { KeepsTwo (stack checker.old) checker.old result checker.new }
{
    check_expr(checker, right, None)?;
    let inner = unless_never(&checker.walk.items, checker.last_ty());
    check_expr(checker, left, inner)
}

#[cycle(check_expr)]
fn swapped_operands(
    checker: &mut Checker,
    left: &SyntaxNode,
    right: &SyntaxNode,
) -> Result<bool, RuleError>
    ensures gives { GivesValue (λ swapped. (left_of swapped (stack checker.new), right_of swapped (stack checker.new)))
        (rows.left_last (rules.typed (env checker.old) (syn_of left.now)) (rules.typed (env checker.old) (syn_of right.now)) (state checker.old)) result checker.new }
    ensures kept { KeepsTwo (stack checker.old) checker.old result checker.new }
{
    left_last(checker, left, right)?;
    Ok(true)
}

#[cycle(check_expr)]
fn plain_operands(
    checker: &mut Checker,
    left: &SyntaxNode,
    right: &SyntaxNode,
    expected: Option<TyId>,
) -> Result<bool, RuleError>
    ensures gives { GivesValue (λ swapped. (left_of swapped (stack checker.new), right_of swapped (stack checker.new)))
        (rows.left_first expected (rules.typed (env checker.old) (syn_of left.now)) (rules.typed (env checker.old) (syn_of right.now)) (state checker.old)) result checker.new }
    ensures kept { KeepsTwo (stack checker.old) checker.old result checker.new }
{
    left_first(checker, left, right, expected)?;
    Ok(false)
}

/// Two operands: where the left one is a number without a suffix and no type is required of it, the right one is
/// checked first. Answers whether it was.
#[cycle(check_expr)]
fn check_operands(
    checker: &mut Checker,
    left: &SyntaxNode,
    right: &SyntaxNode,
    expected: Option<TyId>,
) -> Result<bool, RuleError>
    ensures gives { GivesValue (λ swapped. (left_of swapped (stack checker.new), right_of swapped (stack checker.new)))
        (rows.operands (rules.is_plain (syn_of left.now)) expected (rules.typed (env checker.old) (syn_of left.now)) (rules.typed (env checker.old) (syn_of right.now)) (state checker.old)) result checker.new }
    ensures kept { KeepsTwo (stack checker.old) checker.old result checker.new }
{
    match expected {
        Some(_) => plain_operands(checker, left, right, expected),
        None => {
            if is_plain(left) {
                swapped_operands(checker, left, right)
            } else {
                plain_operands(checker, left, right, expected)
            }
        }
    }
}

/// `+`, `-`, `*`, `/`, `%`.
#[cycle(check_expr)]
pub fn check_arithmetic(
    checker: &mut Checker,
    at: Pos,
    operator: Math,
    left: &SyntaxNode,
    right: &SyntaxNode,
    expected: Option<TyId>,
) -> Result<(), RuleError>
    ensures gives { Gives (rows.arithmetic at operator (rules.is_plain (syn_of left.now)) (rules.typed (env checker.old) (syn_of left.now)) (rules.typed (env checker.old) (syn_of right.now)) expected (state checker.old)) result checker.new }
    ensures kept { KeepsStack (stack checker.old) checker.old result checker.new }
{
    let id = checker.number()?;
    let inner = wanted_int(&checker.walk.items, expected);
    let swapped = check_operands(checker, left, right, inner)?;
    arithmetic_of(checker, id, at, operator, swapped, expected)
}

/// `==`, `<` and so on.
#[cycle(check_expr)]
pub fn check_comparison(
    checker: &mut Checker,
    at: Pos,
    operator: Cmp,
    left: &SyntaxNode,
    right: &SyntaxNode,
    expected: Option<TyId>,
) -> Result<(), RuleError>
    ensures gives { Gives (rows.comparison at operator (rules.is_plain (syn_of left.now)) (rules.typed (env checker.old) (syn_of left.now)) (rules.typed (env checker.old) (syn_of right.now)) expected (state checker.old)) result checker.new }
    ensures kept { KeepsStack (stack checker.old) checker.old result checker.new }
{
    let id = checker.number()?;
    let swapped = check_operands(checker, left, right, None)?;
    comparison_of(checker, id, at, operator, swapped, expected)
}

/// `&&`, `||`.
#[cycle(check_expr)]
pub fn check_logic(
    checker: &mut Checker,
    at: Pos,
    two: TwoParts,
    left: &SyntaxNode,
    right: &SyntaxNode,
    expected: Option<TyId>,
) -> Result<(), RuleError>
    ensures gives { Gives (rows.logic at (two_form two) (rules.typed (env checker.old) (syn_of left.now)) (rules.typed (env checker.old) (syn_of right.now)) expected (state checker.old)) result checker.new }
    ensures kept { KeepsStack (stack checker.old) checker.old result checker.new }
{
    let id = checker.number()?;
    check_expr(checker, left, None)?;
    check_expr(checker, right, None)?;
    logic_end(checker, id, at, two, expected)
}

/// `p = e`.
#[cycle(check_expr)]
pub fn check_assignment(
    checker: &mut Checker,
    at: Pos,
    place: &SyntaxNode,
    value: &SyntaxNode,
    expected: Option<TyId>,
) -> Result<(), RuleError>
    ensures gives { Gives (rows.store (env checker.old) at (rules.base_of (env checker.old) (syn_of place.now)) (rules.typed (env checker.old) (syn_of value.now)) expected (state checker.old)) result checker.new }
    ensures kept { KeepsStack (stack checker.old) checker.old result checker.new }
{
    let id = checker.number()?;
    check_plain_base(checker, place)?;
    let ty = checker.last_ty();
    check_expr(checker, value, Some(ty))?;
    store_end(checker, id, at, expected)
}
