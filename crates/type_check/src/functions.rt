//! Bodies of functions and methods (The Rust Reference, "Functions", "Methods").
ghost use Rattle.std.specs.Prelude.{◌≡◌, OnOk, Some};
ghost use Rattle.typeck_bodies.specs.Aside.{alone};
ghost use Rattle.typeck_bodies.specs.Heads.{unvalued};
ghost use Rattle.src_ast.specs.Seen.{maybe_of, nodes_of};
ghost use Rattle.typeck_checker.specs.Stand.{Gives, GivesValue, KeepsStack, ChangesNothing, env, stack, state};
ghost use Rattle.typing_rules.specs.Bodies as bodies;
ghost use Rattle.typing_rules.specs.Program as program;

use mir_base::{Pos, Rule, RuleError};
use mir_ty::TyId;
use src_ast::Nodes;
use src_tree::SyntaxNode;
use typeck_bodies::{body_end, fn_head};
use typeck_checker::Checker;
use typeck_heads::broken_rule;
use typeck_walk::check_expr;

/// The block of a function or a method, which has one.
fn block_of(
    checker: &mut Checker,
    at: Pos,
    block: Option<&SyntaxNode>,
    answer: TyId,
) -> Result<(), RuleError>
    ensures gives { Gives (program.block_of (maybe_of block.entry) at (env checker.old) (Some answer) (state checker.old)) result checker.new }
    ensures kept { KeepsStack (stack checker.old) checker.old result checker.new }
{
    match block {
        Some(block) => check_expr(checker, block, Some(answer)),
        None => Err(broken_rule(Rule::T20, at)),
    }
}

/// The body of a function or a method, which is at `at`: its parameters, the type of its result, and its block, outside
/// of which no variable is in scope. It stands among the bodies that are whole then, before those of the closures in it,
/// and its nodes are numbered in text order.
///
/// # Errors
///
/// The first rule that is broken, with its place: of a parameter, of the type of the result, of the block; T19 at the
/// place of the body where it has more than 2,048 nodes; [`RuleError::Memory`] where memory is wanted.
pub fn fn_body(
    checker: &mut Checker,
    at: Pos,
    params: Nodes,
    answer: Option<&SyntaxNode>,
    block: Option<&SyntaxNode>,
) -> Result<(), RuleError>
    ensures gives { GivesValue (λ u. u) (unvalued (bodies.fn_body (alone (env checker.old)) at (nodes_of params.entry) (maybe_of answer.entry) (program.block_of (maybe_of block.entry) at)) (state checker.old)) result checker.new }
    ensures same { OnOk result (ChangesNothing checker.old checker.new) }
{
    let head = fn_head(checker, at, params, answer)?;
    block_of(checker, at, block, head.answer)?;
    body_end(checker, head)
}
