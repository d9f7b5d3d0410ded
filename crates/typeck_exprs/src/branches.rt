//! Branches (The Rust Reference, "if and if let expressions").
ghost use Rattle.typeck_checker.specs.Stand.{Gives, KeepsStack, below, stack, state, top};
ghost use Rattle.typing_rules.specs.Rows.{if_else_end, if_let_else_end};

use mir_base::{NodeId, Pos, Rule, RuleError};
use mir_ty::TyId;
use typeck_checker::{Checker, Four, Three};
use typeck_env::one_of_two;
use typeck_heads::broken_rule;

/// `if` with `else`: its branches have one type.
pub fn if_else_end(
    checker: &mut Checker,
    id: NodeId,
    at: Pos,
    expected: Option<TyId>,
) -> Result<(), RuleError>
    ensures gives { Gives (if_else_end id.0 at expected (top (below (below (stack checker.old)))) (top (below (stack checker.old))) (top (stack checker.old)) (state checker.old)) result checker.new }
    ensures kept { KeepsStack (below (below (below (stack checker.old)))) checker.old result checker.new }
{
    match one_of_two(&checker.walk.items, checker.second_ty(), checker.last_ty()) {
        Some(ty) => checker.unify_three(id, at, ty, Three::If, expected),
        None => Err(broken_rule(Rule::T03, at)),
    }
}

/// `if let` with `else`: its branches have one type.
pub fn if_let_else_end(
    checker: &mut Checker,
    id: NodeId,
    at: Pos,
    expected: Option<TyId>,
) -> Result<(), RuleError>
    ensures gives { Gives (if_let_else_end id.0 at expected (top (below (below (below (stack checker.old))))) (top (below (below (stack checker.old)))) (top (below (stack checker.old))) (top (stack checker.old)) (state checker.old)) result checker.new }
    ensures kept { KeepsStack (below (below (below (below (stack checker.old))))) checker.old result checker.new }
{
    match one_of_two(&checker.walk.items, checker.second_ty(), checker.last_ty()) {
        Some(ty) => checker.unify_four(id, at, ty, Four::IfLet, expected),
        None => Err(broken_rule(Rule::T03, at)),
    }
}
