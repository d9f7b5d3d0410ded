//! Loops and jumps (The Rust Reference, "Loops and other breakable expressions", "return expressions").
ghost use Rattle.std.specs.Prelude.{◌≡◌};
ghost use Rattle.src_ast.specs.Seen.{maybe_of, syn_of, word_of};
ghost use Rattle.src_ast.specs.Syntax.{BreakOf, ContinueOf, LoopOf, ReturnOf, WhileOf};
ghost use Rattle.typeck_env.specs.Scope.{word_in};
ghost use Rattle.typing_rules.specs.Rows as rows;
ghost use Rattle.typing_rules.specs.Rows.{loop_around};
ghost use Rattle.typing_rules.specs.Scope.{within_loop};
ghost use Rattle.typing_rules.specs.Typed as rules;
ghost use Rattle.typeck_checker.specs.Stand.{Gives, KeepsStack, env, stack, state};

use crate::expressions::check_expr;
use mir_base::{NodeId, Pos, RuleError};
use mir_ty::{BOOL, NEVER, TyId, UNIT};
use src_tree::SyntaxNode;
use typeck_checker::{Checker, One, TwoParts, enter_loop, leave_loop};
use typeck_exprs::{
    break_alone_end, break_end, carried_type, continue_end, jump_target, loop_end, return_alone_end,
};

/// An expression inside a loop.
#[cycle(check_expr)]
fn inside_loop(
    checker: &mut Checker,
    label: Option<&str>,
    id: NodeId,
    breaks_with: Breaks,
    node: &SyntaxNode,
    expected: Option<TyId>,
) -> Result<(), RuleError>
    ensures gives { Gives (rules.typed (within_loop (loop_around (word_in label.entry) id.0 breaks_with.has_value breaks_with.expected) (env checker.old)) (syn_of node.now) expected (state checker.old)) result checker.new }
    ensures kept { KeepsStack (stack checker.old) checker.old result checker.new }
{
    enter_loop(
        checker,
        label,
        id,
        breaks_with.has_value,
        breaks_with.expected,
    )?;
    check_expr(checker, node, expected)?;
    leave_loop(checker);
    Ok(())
}

/// What the breaks of a loop carry.
#[derive(Clone, Copy)]
pub struct Breaks {
    pub has_value: bool,
    pub expected: Option<TyId>,
}

/// `loop`.
#[cycle(check_expr)]
pub fn check_loop(
    checker: &mut Checker,
    at: Pos,
    label: Option<&str>,
    body: &SyntaxNode,
    expected: Option<TyId>,
) -> Result<(), RuleError>
    ensures gives { Gives (rules.value (env checker.old) at (LoopOf (word_of label.entry) (syn_of body.now)) expected (state checker.old)) result checker.new }
    ensures kept { KeepsStack (stack checker.old) checker.old result checker.new }
{
    let id = checker.number()?;
    let breaks = Breaks {
        has_value: true,
        expected,
    };
    inside_loop(checker, label, id, breaks, body, Some(UNIT))?;
    loop_end(checker, id, at, expected)
}

/// `while`.
#[cycle(check_expr)]
pub fn check_while(
    checker: &mut Checker,
    at: Pos,
    label: Option<&str>,
    condition: &SyntaxNode,
    body: &SyntaxNode,
    expected: Option<TyId>,
) -> Result<(), RuleError>
    ensures gives { Gives (rules.value (env checker.old) at (WhileOf (word_of label.entry) (syn_of condition.now) (syn_of body.now)) expected (state checker.old)) result checker.new }
    ensures kept { KeepsStack (stack checker.old) checker.old result checker.new }
{
    let id = checker.number()?;
    let breaks = Breaks {
        has_value: false,
        expected: None,
    };
    inside_loop(checker, label, id, breaks, condition, Some(BOOL))?;
    inside_loop(checker, label, id, breaks, body, Some(UNIT))?;
    checker.unify_two(id, at, UNIT, TwoParts::While, expected)
}

/// `break`.
#[cycle(check_expr)]
pub fn check_break(
    checker: &mut Checker,
    at: Pos,
    label: Option<&str>,
    value: Option<&SyntaxNode>,
    expected: Option<TyId>,
) -> Result<(), RuleError>
    ensures gives { Gives (rules.value (env checker.old) at (BreakOf (word_of label.entry) (maybe_of value.entry)) expected (state checker.old)) result checker.new }
    ensures kept { KeepsStack (stack checker.old) checker.old result checker.new }
{
    let id = checker.number()?;
    let target = jump_target(checker, label);
    match value {
        Some(value) => {
            check_expr(checker, value, carried_type(target))?;
            break_end(checker, id, at, target, expected)
        }
        None => break_alone_end(checker, id, at, target, expected),
    }
}

/// `continue`.
pub fn check_continue(
    checker: &mut Checker,
    at: Pos,
    label: Option<&str>,
    expected: Option<TyId>,
) -> Result<(), RuleError>
    ensures gives { Gives (rules.value (env checker.old) at (ContinueOf (word_of label.entry)) expected (state checker.old)) result checker.new }
    ensures kept { KeepsStack (stack checker.old) checker.old result checker.new }
{
    let id = checker.number()?;
    let target = jump_target(checker, label);
    continue_end(checker, id, at, target, expected)
}

#[tactic(auto, unfolding(typeck_checker::specs::Stand::env_in))]
fn answer(checker: &Checker) -> TyId
    ensures { result ≡ (env checker.now).answer }
{
    checker.around.answer
}

/// `return`.
#[cycle(check_expr)]
pub fn check_return(
    checker: &mut Checker,
    at: Pos,
    value: Option<&SyntaxNode>,
    expected: Option<TyId>,
) -> Result<(), RuleError>
    ensures gives { Gives (rules.value (env checker.old) at (ReturnOf (maybe_of value.entry)) expected (state checker.old)) result checker.new }
    ensures kept { KeepsStack (stack checker.old) checker.old result checker.new }
{
    let id = checker.number()?;
    match value {
        Some(value) => {
            check_expr(checker, value, Some(answer(checker)))?;
            checker.unify_one(id, at, NEVER, One::Return, expected)
        }
        None => return_alone_end(checker, id, at, expected),
    }
}
