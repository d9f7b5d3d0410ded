//! Bodies up to their blocks (The Rust Reference, "Functions", "Closure expressions").
ghost use Rattle.std.specs.Prelude.{◌≡◌, ◌∷◌, reverse, IfErr, IfOk, OnOk};
ghost use Rattle.mir_base.specs.declared.rule.RuleError.{RuleError};
ghost use Rattle.src_ast.specs.Seen.{maybe_of, nodes_of};
ghost use Rattle.typeck_checker.specs.Stand.{env, env_in, stack, state};
ghost use Rattle.typing_rules.specs.Bodies as bodies;
ghost use Rattle.typeck_bodies.specs.Aside.{alone, with_loops};
ghost use Rattle.typeck_bodies.specs.Heads.{GivesBlock, GivesHead, KeepsHead, closure_inside, numbered_fn};
ghost use Rattle.typeck_bodies.specs.Scoped.{KeepsSelf};

use crate::numbers::body_number;
use crate::scopes::{BegunBody, BodyHead, begin, block_scope};
use crate::{name_param, params_of};
use mir_base::{List, Pos, Rule, RuleError};
use mir_ty::TyId;
use src_ast::Nodes;
use src_tree::SyntaxNode;
use std::alloc::Global;
use typeck_checker::Checker;
use typeck_env::Variables;
use typeck_heads::push_to;
use typeck_patterns::enter_bound;

fn numbered_head(
    checker: &mut Checker,
    at: Pos,
    number: u32,
    params: Nodes,
    answer: Option<&SyntaxNode>,
) -> Result<BodyHead, RuleError>
    ensures gives { GivesHead (numbered_fn at number (alone (env checker.old)) (nodes_of params.entry) (maybe_of answer.entry)) (state checker.old) result checker.new }
    ensures kept { KeepsHead checker.old result checker.new }
{
    let begun = begin(checker);
    let mut bound = Variables::new(checker.alloc);
    let tys = params_of(checker, &mut bound, true, params)?;
    block_scope(checker, begun, Rule::T19, at, number, tys, &bound, answer)
}

/// The body of a function or a method up to its block, in whose scope the walk stands then: its number, its parameters
/// and the type of its result. The variables and loops around are put aside.
///
/// # Errors
///
/// The first rule that is broken, with its place, as in [`params_of`] and then in the type of the result;
/// [`RuleError::Memory`] where memory is wanted.
pub fn fn_head(
    checker: &mut Checker,
    at: Pos,
    params: Nodes,
    answer: Option<&SyntaxNode>,
) -> Result<BodyHead, RuleError>
    ensures gives { GivesHead (bodies.fn_body (alone (env checker.old)) at (nodes_of params.entry) (maybe_of answer.entry)) (state checker.old) result checker.new }
    ensures kept { KeepsHead checker.old result checker.new }
{
    let number = body_number(checker)?;
    numbered_head(checker, at, number, params, answer)
}

/// A type before others.
fn with_first(first: TyId, rest: List<TyId>, alloc: Global) -> Result<List<TyId>, RuleError>
    ensures all { IfOk result (λ all. all ≡ first ∷ rest) }
    ensures short { IfErr result (λ e. e ≡ RuleError.Memory) }
{
    let mut all = List::new(alloc);
    push_to(&mut all, first)?;
    let mut all = all.into_vec();
    let mut rest = rest.into_vec();
    match all.append(&mut rest) {
        Ok(()) => Ok(List::from_vec(all)),
        Err(_) => Err(RuleError::Memory),
    }
}

/// The body of a closure, from its value on, which is its first parameter.
fn closure_params(
    checker: &mut Checker,
    begun: BegunBody,
    too_many: Rule,
    at: Pos,
    number: u32,
    ty: TyId,
    params: Nodes,
    answer: Option<&SyntaxNode>,
) -> Result<BodyHead, RuleError>
    ensures gives { GivesBlock (closure_inside too_many at number ty (env checker.old) (nodes_of params.entry) (maybe_of answer.entry)) (state checker.old) result checker.new }
    ensures kept { KeepsSelf begun checker.old result checker.new }
{
    name_param(checker, at, "", ty)?;
    let mut bound = Variables::new(checker.alloc);
    let later = params_of(checker, &mut bound, false, params)?;
    let tys = with_first(ty, later, checker.alloc)?;
    block_scope(checker, begun, too_many, at, number, tys, &bound, answer)
}

/// The body of a closure up to its block, in whose scope the walk stands then. Its captures are in scope, and behind them
/// its parameters. The variables and loops around are put aside.
///
/// # Errors
///
/// As for [`fn_head`].
pub fn closure_head(
    checker: &mut Checker,
    too_many: Rule,
    at: Pos,
    number: u32,
    ty: TyId,
    captures: &Variables,
    params: Nodes,
    answer: Option<&SyntaxNode>,
) -> Result<BodyHead, RuleError>
    ensures gives { GivesHead (bodies.closure_body (env checker.old) too_many at number ty (reverse captures.now) (nodes_of params.entry) (maybe_of answer.entry)) (state checker.old) result checker.new }
    ensures kept { KeepsHead checker.old result checker.new }
{
    let begun = begin(checker);
    enter_bound(checker, captures)?;
    closure_params(checker, begun, too_many, at, number, ty, params, answer)
}
