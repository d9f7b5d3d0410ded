//! Branches (The Rust Reference, "if expressions").
ghost use Rattle.std.specs.Prelude.{◌≡◌};
ghost use Rattle.src_ast.specs.Seen.{maybe_of, syn_of};
ghost use Rattle.src_ast.specs.Syntax.{IfElse};
ghost use Rattle.typing_rules.specs.Rows as rows;
ghost use Rattle.typing_rules.specs.Typed as rules;
ghost use Rattle.typeck_exprs.specs.Pairs.{KeepsTwo};
ghost use Rattle.typeck_checker.specs.Stand.{Gives, GivesValue, KeepsStack, below, env, stack, state, top};

use crate::expressions::check_expr;
use mir_base::{Pos, RuleError};
use mir_ty::{BOOL, TyId, UNIT};
use src_tree::SyntaxNode;
use typeck_checker::{Checker, TwoParts};
use typeck_exprs::if_else_end;

/// `if` without `else`.
#[cycle(check_expr)]
fn if_alone(
    checker: &mut Checker,
    at: Pos,
    condition: &SyntaxNode,
    body: &SyntaxNode,
    expected: Option<TyId>,
) -> Result<(), RuleError>
    ensures gives { Gives (rows.if_alone at (rules.typed (env checker.old) (syn_of condition.now)) (rules.typed (env checker.old) (syn_of body.now)) expected (state checker.old)) result checker.new }
    ensures kept { KeepsStack (stack checker.old) checker.old result checker.new }
{
    let id = checker.number()?;
    check_expr(checker, condition, Some(BOOL))?;
    check_expr(checker, body, Some(UNIT))?;
    checker.unify_two(id, at, UNIT, TwoParts::If, expected)
}

/// `if` with `else`.
#[cycle(check_expr)]
fn if_else(
    checker: &mut Checker,
    at: Pos,
    condition: &SyntaxNode,
    body: &SyntaxNode,
    otherwise: &SyntaxNode,
    expected: Option<TyId>,
) -> Result<(), RuleError>
    ensures gives { Gives (rows.if_else at (rules.typed (env checker.old) (syn_of condition.now)) (rules.typed (env checker.old) (syn_of body.now)) (rules.typed (env checker.old) (syn_of otherwise.now)) expected (state checker.old)) result checker.new }
    ensures kept { KeepsStack (stack checker.old) checker.old result checker.new }
{
    let id = checker.number()?;
    check_expr(checker, condition, Some(BOOL))?;
    check_expr(checker, body, expected)?;
    check_expr(checker, otherwise, expected)?;
    if_else_end(checker, id, at, expected)
}

/// `if`.
#[cycle(check_expr)]
pub fn check_if(
    checker: &mut Checker,
    at: Pos,
    condition: &SyntaxNode,
    body: &SyntaxNode,
    otherwise: Option<&SyntaxNode>,
    expected: Option<TyId>,
) -> Result<(), RuleError>
    ensures gives { Gives (rules.value (env checker.old) at (IfElse (syn_of condition.now) (syn_of body.now) (maybe_of otherwise.entry)) expected (state checker.old)) result checker.new }
    ensures kept { KeepsStack (stack checker.old) checker.old result checker.new }
{
    match otherwise {
        Some(otherwise) => if_else(checker, at, condition, body, otherwise, expected),
        None => if_alone(checker, at, condition, body, expected),
    }
}
