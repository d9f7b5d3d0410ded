//! Operators (The Rust Reference, "Operator expressions").
ghost use Rattle.std.specs.Prelude.{◌≡◌, option_and_then};
ghost use Rattle.typing_rules.specs.Places as places;
ghost use Rattle.typing_rules.specs.Rows as rows;
ghost use Rattle.typeck_checker.specs.Forms.{two_form};
ghost use Rattle.typeck_checker.specs.Stand.{Gives, KeepsStack, below, stack, state, top};
ghost use Rattle.typing_rules.specs.Rows.{arithmetic_end, comparison_end, logic_end, negate_end, not_end};

use mir_base::{Cmp, Math, NodeId, Pos, Rule, RuleError};
use mir_ty::{BOOL, Items, TyId};
use typeck_checker::{Checker, One, TwoParts};
use typeck_env::{fits, is_bool, is_int, one_of_two};
use typeck_heads::{broken_rule, obeys};

/// The type that this is where it is an integer type.
pub fn if_int(items: &Items, ty: TyId) -> Option<TyId>
    ensures { result ≡ rows.if_int items.now ty }
{
    if is_int(items, ty) { Some(ty) } else { None }
}

/// An integer type that is required, if one is.
pub fn wanted_int(items: &Items, expected: Option<TyId>) -> Option<TyId>
    ensures { result ≡ places.wanted rows.if_int items.now expected }
{
    match expected {
        Some(expected) => if_int(items, expected),
        None => None,
    }
}

fn int_or_bool(items: &Items, ty: TyId) -> Option<TyId>
    ensures { result ≡ rows.int_or_bool items.now ty }
{
    if is_bool(items, ty) {
        Some(ty)
    } else {
        if_int(items, ty)
    }
}

/// The one integer type of two operands.
fn common_int(items: &Items, left: TyId, right: TyId) -> Option<TyId>
    ensures { result ≡ option_and_then (rows.if_int items.now) (rows.one_of_two items.now left right) }
{
    match one_of_two(items, left, right) {
        Some(ty) => if_int(items, ty),
        None => None,
    }
}

/// The one integer type of two operands, or `bool`.
fn common(items: &Items, left: TyId, right: TyId) -> Option<TyId>
    ensures { result ≡ option_and_then (rows.int_or_bool items.now) (rows.one_of_two items.now left right) }
{
    match one_of_two(items, left, right) {
        Some(ty) => int_or_bool(items, ty),
        None => None,
    }
}

/// `!e`.
pub fn not_end(
    checker: &mut Checker,
    id: NodeId,
    at: Pos,
    expected: Option<TyId>,
) -> Result<(), RuleError>
    ensures gives { Gives (not_end id.0 at expected (top (stack checker.old)) (state checker.old)) result checker.new }
    ensures kept { KeepsStack (below (stack checker.old)) checker.old result checker.new }
{
    let holds = fits(&checker.walk.items, BOOL, checker.last_ty());
    obeys(Rule::T03, at, holds)?;
    checker.coerce_one(id, at, BOOL, One::Not, expected)
}

/// `-e`.
pub fn negate_end(
    checker: &mut Checker,
    id: NodeId,
    at: Pos,
    expected: Option<TyId>,
) -> Result<(), RuleError>
    ensures gives { Gives (negate_end id.0 at expected (top (stack checker.old)) (state checker.old)) result checker.new }
    ensures kept { KeepsStack (below (stack checker.old)) checker.old result checker.new }
{
    let ty = checker.last_ty();
    obeys(Rule::T03, at, ty.is_signed())?;
    checker.coerce_one(id, at, ty, One::Negate, expected)
}

/// `+`, `-`, `*`, `/`, `%`.
pub fn arithmetic_end(
    checker: &mut Checker,
    id: NodeId,
    at: Pos,
    operator: Math,
    expected: Option<TyId>,
) -> Result<(), RuleError>
    ensures gives { Gives (arithmetic_end id.0 at operator expected (top (below (stack checker.old))) (top (stack checker.old)) (state checker.old)) result checker.new }
    ensures kept { KeepsStack (below (below (stack checker.old))) checker.old result checker.new }
{
    match common_int(&checker.walk.items, checker.second_ty(), checker.last_ty()) {
        Some(ty) => checker.coerce_two(id, at, ty, TwoParts::Arithmetic(operator), expected),
        None => Err(broken_rule(Rule::T03, at)),
    }
}

/// The same, where the right operand was typed first.
pub fn arithmetic_last_end(
    checker: &mut Checker,
    id: NodeId,
    at: Pos,
    operator: Math,
    expected: Option<TyId>,
) -> Result<(), RuleError>
    ensures gives { Gives (arithmetic_end id.0 at operator expected (top (stack checker.old)) (top (below (stack checker.old))) (state checker.old)) result checker.new }
    ensures kept { KeepsStack (below (below (stack checker.old))) checker.old result checker.new }
{
    match common_int(&checker.walk.items, checker.last_ty(), checker.second_ty()) {
        Some(ty) => checker.coerce_two(id, at, ty, TwoParts::ArithmeticLast(operator), expected),
        None => Err(broken_rule(Rule::T03, at)),
    }
}

/// `==`, `<` and so on.
pub fn comparison_end(
    checker: &mut Checker,
    id: NodeId,
    at: Pos,
    operator: Cmp,
    expected: Option<TyId>,
) -> Result<(), RuleError>
    ensures gives { Gives (comparison_end id.0 at operator expected (top (below (stack checker.old))) (top (stack checker.old)) (state checker.old)) result checker.new }
    ensures kept { KeepsStack (below (below (stack checker.old))) checker.old result checker.new }
{
    match common(&checker.walk.items, checker.second_ty(), checker.last_ty()) {
        Some(_) => checker.coerce_two(id, at, BOOL, TwoParts::Comparison(operator), expected),
        None => Err(broken_rule(Rule::T03, at)),
    }
}

/// The same, where the right operand was typed first.
pub fn comparison_last_end(
    checker: &mut Checker,
    id: NodeId,
    at: Pos,
    operator: Cmp,
    expected: Option<TyId>,
) -> Result<(), RuleError>
    ensures gives { Gives (comparison_end id.0 at operator expected (top (stack checker.old)) (top (below (stack checker.old))) (state checker.old)) result checker.new }
    ensures kept { KeepsStack (below (below (stack checker.old))) checker.old result checker.new }
{
    match common(&checker.walk.items, checker.last_ty(), checker.second_ty()) {
        Some(_) => checker.coerce_two(id, at, BOOL, TwoParts::ComparisonLast(operator), expected),
        None => Err(broken_rule(Rule::T03, at)),
    }
}

/// `&&`, `||`.
pub fn logic_end(
    checker: &mut Checker,
    id: NodeId,
    at: Pos,
    two: TwoParts,
    expected: Option<TyId>,
) -> Result<(), RuleError>
    ensures gives { Gives (logic_end id.0 at (two_form two) expected (top (below (stack checker.old))) (top (stack checker.old)) (state checker.old)) result checker.new }
    ensures kept { KeepsStack (below (below (stack checker.old))) checker.old result checker.new }
{
    let left = fits(&checker.walk.items, BOOL, checker.second_ty());
    let right = fits(&checker.walk.items, BOOL, checker.last_ty());
    obeys(Rule::T03, at, left && right)?;
    checker.coerce_two(id, at, BOOL, two, expected)
}
