//! Closures (The Rust Reference, "Closure expressions").
ghost use Rattle.std.specs.Prelude.{◌≡◌, OnOk, reverse};
ghost use Rattle.typeck_bodies.specs.Heads.{unvalued};
ghost use Rattle.src_ast.specs.Seen.{maybe_of, nodes_of, syn_of};
ghost use Rattle.src_ast.specs.Syntax.{MoveOf};
ghost use Rattle.src_ast.specs.View.{idents, syns_of};
ghost use Rattle.typing_rules.specs.Bodies as bodies;
ghost use Rattle.typing_rules.specs.Scope.{Env};
ghost use Rattle.typing_rules.specs.Typed as rules;
ghost use Rattle.typeck_checker.specs.Stand.{Gives, GivesValue, KeepsStack, ChangesNothing, env, stack, state};

use crate::expressions::check_expr;
use mir_base::{Pos, Rule, RuleError};
use mir_ty::TyId;
use src_ast::Nodes;
use src_tree::SyntaxNode;
use typeck_bodies::{
    ClosureBegun, body_end, closure_begin, closure_end, closure_head, too_many_rule,
};
use typeck_checker::Checker;

/// The body of a closure, which stands among the bodies that are whole then.
#[cycle(check_expr)]
fn check_closure_body(
    checker: &mut Checker,
    too_many: Rule,
    at: Pos,
    begun: &ClosureBegun,
    params: Nodes,
    answer: Option<&SyntaxNode>,
    block: &SyntaxNode,
) -> Result<(), RuleError>
    ensures gives { GivesValue (λ u. u) (unvalued (bodies.closure_body (env checker.old) too_many at begun.now.body begun.now.ty (reverse begun.now.captures) (nodes_of params.entry) (maybe_of answer.entry)
        (λ (inner : Env). rules.typed inner (syn_of block.now))) (state checker.old)) result checker.new }
    ensures same { OnOk result (ChangesNothing checker.old checker.new) }
{
    let head = closure_head(
        checker,
        too_many,
        at,
        begun.body,
        begun.ty,
        &begun.captures,
        params,
        answer,
    )?;
    check_expr(checker, block, Some(head.answer))?;
    body_end(checker, head)
}

/// A closure: its captures are typed outside of it, its block in a body of its own.
#[cycle(check_expr)]
pub fn check_closure(
    checker: &mut Checker,
    at: Pos,
    captures: Nodes,
    params: Nodes,
    answer: Option<&SyntaxNode>,
    block: &SyntaxNode,
    expected: Option<TyId>,
) -> Result<(), RuleError>
    ensures gives { Gives (rules.value (env checker.old) at (MoveOf (syns_of (idents (nodes_of captures.entry))) (nodes_of params.entry) (maybe_of answer.entry) (syn_of block.now)) expected (state checker.old)) result checker.new }
    ensures kept { KeepsStack (stack checker.old) checker.old result checker.new }
{
    let begun = closure_begin(checker, captures)?;
    let too_many = too_many_rule(checker, expected, begun.ty);
    check_closure_body(checker, too_many, at, &begun, params, answer, block)?;
    closure_end(checker, at, &begun, expected)
}
