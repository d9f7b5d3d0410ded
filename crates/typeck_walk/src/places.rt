//! Places that are gone through (The Rust Reference, "Place Expressions and Value Expressions").
ghost use Rattle.std.specs.Prelude.{◌≡◌};
ghost use Rattle.src_ast.specs.Seen.{syn_of};
ghost use Rattle.typing_rules.specs.Places as places;
ghost use Rattle.typing_rules.specs.Rows as rows;
ghost use Rattle.typing_rules.specs.Typed as rules;
ghost use Rattle.typeck_checker.specs.Stand.{Gives, KeepsStack, env, stack, state};

use crate::expressions::{check_expr, check_place_base, check_plain_base};
use mir_base::{Pos, RuleError};
use mir_ty::{TyId, USIZE};
use src_tree::SyntaxNode;
use typeck_calls::{field_end, part_end};
use typeck_checker::Checker;
use typeck_exprs::{borrow_alone_end, deref_end, element_end};

/// `a[i]`.
#[cycle(check_expr)]
pub fn check_index(
    checker: &mut Checker,
    at: Pos,
    base: &SyntaxNode,
    index: &SyntaxNode,
) -> Result<(), RuleError>
    ensures gives { Gives (rows.element at (rules.base_of (env checker.old) (syn_of base.now)) (rules.typed (env checker.old) (syn_of index.now)) (state checker.old)) result checker.new }
    ensures kept { KeepsStack (stack checker.old) checker.old result checker.new }
{
    let id = checker.number()?;
    check_plain_base(checker, base)?;
    check_expr(checker, index, Some(USIZE))?;
    element_end(checker, id, at)
}

/// `*e`.
#[cycle(check_expr)]
pub fn check_deref(checker: &mut Checker, at: Pos, base: &SyntaxNode) -> Result<(), RuleError>
    ensures gives { Gives (rows.deref at (rules.base_of (env checker.old) (syn_of base.now)) (state checker.old)) result checker.new }
    ensures kept { KeepsStack (stack checker.old) checker.old result checker.new }
{
    let id = checker.number()?;
    check_place_base(checker, base)?;
    deref_end(checker, id, at)
}

/// `e.f`.
#[cycle(check_expr)]
pub fn check_field(
    checker: &mut Checker,
    at: Pos,
    base: &SyntaxNode,
    name: &str,
) -> Result<(), RuleError>
    ensures gives { Gives (rows.field at (places.struct_field name.now) (rules.base_of (env checker.old) (syn_of base.now)) (state checker.old)) result checker.new }
    ensures kept { KeepsStack (stack checker.old) checker.old result checker.new }
{
    let id = checker.number()?;
    check_place_base(checker, base)?;
    field_end(checker, id, at, name)
}

/// `e.0`.
#[cycle(check_expr)]
pub fn check_part(
    checker: &mut Checker,
    at: Pos,
    base: &SyntaxNode,
    number: u64,
) -> Result<(), RuleError>
    ensures gives { Gives (rows.field at (places.numbered_part number) (rules.base_of (env checker.old) (syn_of base.now)) (state checker.old)) result checker.new }
    ensures kept { KeepsStack (stack checker.old) checker.old result checker.new }
{
    let id = checker.number()?;
    check_place_base(checker, base)?;
    part_end(checker, id, at, number)
}

/// `&e` and `&mut e` where it is no argument for a reference.
#[cycle(check_expr)]
pub fn check_borrow(
    checker: &mut Checker,
    at: Pos,
    unique: bool,
    operand: &SyntaxNode,
    expected: Option<TyId>,
) -> Result<(), RuleError>
    ensures gives { Gives (rows.borrow_alone at unique (rules.base_of (env checker.old) (syn_of operand.now)) expected (state checker.old)) result checker.new }
    ensures kept { KeepsStack (stack checker.old) checker.old result checker.new }
{
    check_plain_base(checker, operand)?;
    borrow_alone_end(checker, at, unique, expected)
}
