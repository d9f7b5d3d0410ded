//! `match`, `if let` and `while let`, with the scopes of what their patterns bind (The Rust Reference, "match
//! expressions", "if let expressions", "Predicate pattern loops").
ghost use Rattle.std.specs.Prelude.{◌≡◌, None, Some, false, reverse};
ghost use Rattle.src_ast.specs.Seen.{maybe_of, nodes_of, syn_of, word_of};
ghost use Rattle.src_ast.specs.Syntax.{IfLetElse, MatchOn, WhileLetOf};
ghost use Rattle.src_ast.specs.Expressions.{arm_of};
ghost use Rattle.typeck_env.specs.Scope.{word_in};
ghost use Rattle.typeck_patterns.specs.PatternContext.{pattern_context_of};
ghost use Rattle.typing_rules.specs.Places as places;
ghost use Rattle.typing_rules.specs.Rows as rows;
ghost use Rattle.typing_rules.specs.Rows.{loop_around};
ghost use Rattle.typing_rules.specs.Scope.{in_guard, with_variables, within_loop};
ghost use Rattle.typing_rules.specs.Typed as rules;
ghost use Rattle.typeck_walk.specs.Matches.{arm_check, arm_of_syn, arm_parts, arms_rest, if_let_parts, if_let_rest, while_let_rest};
ghost use Rattle.typeck_exprs.specs.Lists.{GivesTyped, KeepsBelow};
ghost use Rattle.typeck_checker.specs.Stand.{Gives, KeepsStack, below, env, stack, state, top};

use crate::expressions::{check_expr, check_place_base};
use mir_base::{NodeId, Pos, Rule, RuleError};
use mir_ty::{BOOL, TyId, UNIT};
use src_ast::{ArmForm, Nodes, arm_form};
use src_tree::SyntaxNode;
use typeck_checker::{Checker, Three, count, enter_loop, leave, leave_loop};
use typeck_env::Variables;
use typeck_exprs::{if_let_else_end, match_end, one_more};
use typeck_heads::broken_rule;
use typeck_patterns::{
    PatternContext, arm_end, bindings, enter_bound, enter_guard, finish_scrutinee, guarded_arm_end,
    pattern_context_of_last,
};

/// An expression inside the scope of bindings.
#[cycle(check_expr)]
fn inside_scope(
    checker: &mut Checker,
    bound: &Variables,
    node: &SyntaxNode,
    expected: Option<TyId>,
) -> Result<(), RuleError>
    ensures gives { Gives (rules.typed (with_variables (reverse bound.now) (env checker.old)) (syn_of node.now) expected (state checker.old)) result checker.new }
    ensures kept { KeepsStack (stack checker.old) checker.old result checker.new }
{
    let outer = count(checker);
    enter_bound(checker, bound)?;
    check_expr(checker, node, expected)?;
    leave(checker, outer);
    Ok(())
}

/// A guard, inside which bindings stand for the parts that they would bind.
#[cycle(check_expr)]
fn inside_guard(
    checker: &mut Checker,
    bound: &Variables,
    guard: &SyntaxNode,
) -> Result<(), RuleError>
    ensures gives { Gives (rules.typed (with_variables (in_guard (reverse bound.now)) (env checker.old)) (syn_of guard.now) (Some places.bool) (state checker.old)) result checker.new }
    ensures kept { KeepsStack (stack checker.old) checker.old result checker.new }
{
    let outer = count(checker);
    enter_guard(checker, bound)?;
    check_expr(checker, guard, Some(BOOL))?;
    leave(checker, outer);
    Ok(())
}

/// The guard and the body of an arm, whose pattern is the last node.
#[cycle(check_expr)]
fn check_arm_body(
    checker: &mut Checker,
    id: NodeId,
    bound: &Variables,
    guard: Option<&SyntaxNode>,
    body: &SyntaxNode,
    expected: Option<TyId>,
) -> Result<(), RuleError>
    ensures gives { Gives (arm_parts (env checker.old) id.0 (top (stack checker.old)) (reverse bound.now) (maybe_of guard.entry) (syn_of body.now) expected (state checker.old)) result checker.new }
    ensures kept { KeepsStack (below (stack checker.old)) checker.old result checker.new }
{
    match guard {
        Some(guard) => {
            inside_guard(checker, bound, guard)?;
            inside_scope(checker, bound, body, expected)?;
            guarded_arm_end(checker, id)
        }
        None => {
            inside_scope(checker, bound, body, expected)?;
            arm_end(checker, id)
        }
    }
}

/// An arm.
#[cycle(check_expr)]
fn check_arm(
    checker: &mut Checker,
    at: Pos,
    e: PatternContext,
    ty: TyId,
    form: ArmForm,
    expected: Option<TyId>,
) -> Result<(), RuleError>
    ensures gives { Gives (arm_check (env checker.old) (pattern_context_of e) ty expected at (Some (arm_of form.entry)) (state checker.old)) result checker.new }
    ensures kept { KeepsStack (stack checker.old) checker.old result checker.new }
{
    let id = checker.number()?;
    let bound = bindings(checker, e, ty, form.pattern)?;
    check_arm_body(checker, id, &bound, form.guard, form.body, expected)
}

/// A node as an arm.
#[cycle(check_expr)]
#[tactic(auto, using(crate::proofs::Arms::arm_seen))]
fn arm_of_node(
    checker: &mut Checker,
    e: PatternContext,
    ty: TyId,
    node: &SyntaxNode,
    expected: Option<TyId>,
) -> Result<(), RuleError>
    ensures gives { Gives (arm_of_syn (env checker.old) (pattern_context_of e) ty expected (syn_of node.now) (state checker.old)) result checker.new }
    ensures kept { KeepsStack (stack checker.old) checker.old result checker.new }
{
    match arm_form(node) {
        Some(form) => check_arm(checker, node.at, e, ty, form, expected),
        None => Err(broken_rule(Rule::T20, node.at)),
    }
}

/// Arms for a scrutinee of this type; answers how many there are.
#[cycle(check_expr)]
fn check_each_arm(
    checker: &mut Checker,
    e: PatternContext,
    ty: TyId,
    expected: Option<TyId>,
    arms: Nodes,
) -> Result<usize, RuleError>
    ensures gives { GivesTyped (rules.typed_arms (env checker.old) (pattern_context_of e) ty expected (nodes_of arms.entry) (state checker.old)) result checker.new }
    ensures kept { KeepsBelow (stack checker.old) checker.old result checker.new }
{
    let mut count: usize = 0;
    let mut rest = arms;
    while let Some(split) = rest.split_first() {
        arm_of_node(checker, e, ty, split.first, expected)?;
        count = one_more(count)?;
        rest = split.rest;
    }
    Ok(count)
}

/// The arms of a `match`, whose scrutinee is the last node.
#[cycle(check_expr)]
fn check_arms(
    checker: &mut Checker,
    id: NodeId,
    at: Pos,
    arms: Nodes,
    expected: Option<TyId>,
) -> Result<(), RuleError>
    ensures gives { Gives (arms_rest (env checker.old) id.0 at (top (stack checker.old)) (nodes_of arms.entry) expected (state checker.old)) result checker.new }
    ensures kept { KeepsStack (below (stack checker.old)) checker.old result checker.new }
{
    let e = pattern_context_of_last(checker, false);
    let ty = checker.last_ty();
    let count = check_each_arm(checker, e, ty, expected, arms)?;
    match_end(checker, id, at, count, expected)
}

/// What a pattern looks at.
#[cycle(check_expr)]
fn check_scrutinee(checker: &mut Checker, scrutinee: &SyntaxNode) -> Result<(), RuleError>
    ensures gives { Gives (rows.scrutinised (rules.base_of (env checker.old) (syn_of scrutinee.now)) (state checker.old)) result checker.new }
    ensures kept { KeepsStack (stack checker.old) checker.old result checker.new }
{
    check_place_base(checker, scrutinee)?;
    finish_scrutinee(checker)
}

#[cycle(check_expr)]
fn check_match_parts(
    checker: &mut Checker,
    at: Pos,
    scrutinee: &SyntaxNode,
    arms: Nodes,
    expected: Option<TyId>,
) -> Result<(), RuleError>
    ensures gives { Gives (rows.match_row (env checker.old) at (rules.base_of (env checker.old) (syn_of scrutinee.now)) (λ e ty expected. rules.typed_arms (env checker.old) e ty expected (nodes_of arms.entry)) expected (state checker.old)) result checker.new }
    ensures kept { KeepsStack (stack checker.old) checker.old result checker.new }
{
    let id = checker.number()?;
    check_scrutinee(checker, scrutinee)?;
    check_arms(checker, id, at, arms, expected)
}

/// `match`.
#[cycle(check_expr)]
#[tactic(auto, using(crate::proofs::Arms::some_arms, crate::proofs::Arms::no_arms))]
pub fn check_match(
    checker: &mut Checker,
    at: Pos,
    scrutinee: &SyntaxNode,
    arms: Nodes,
    expected: Option<TyId>,
) -> Result<(), RuleError>
    ensures gives { Gives (rules.value (env checker.old) at (MatchOn (syn_of scrutinee.now) (nodes_of arms.entry)) expected (state checker.old)) result checker.new }
    ensures kept { KeepsStack (stack checker.old) checker.old result checker.new }
{
    if arms.is_empty() {
        return Err(broken_rule(Rule::T20, at));
    }
    check_match_parts(checker, at, scrutinee, arms, expected)
}

/// The branches of an `if let`, whose scrutinee and pattern are the last nodes.
#[cycle(check_expr)]
fn if_let_branches(
    checker: &mut Checker,
    id: NodeId,
    at: Pos,
    bound: &Variables,
    body: &SyntaxNode,
    otherwise: Option<&SyntaxNode>,
    expected: Option<TyId>,
) -> Result<(), RuleError>
    ensures gives { Gives (if_let_parts (env checker.old) id.0 at (top (below (stack checker.old))) (top (stack checker.old)) (reverse bound.now) (syn_of body.now) (maybe_of otherwise.entry) expected (state checker.old)) result checker.new }
    ensures kept { KeepsStack (below (below (stack checker.old))) checker.old result checker.new }
{
    match otherwise {
        Some(otherwise) => {
            inside_scope(checker, bound, body, expected)?;
            check_expr(checker, otherwise, expected)?;
            if_let_else_end(checker, id, at, expected)
        }
        None => {
            inside_scope(checker, bound, body, Some(UNIT))?;
            checker.unify_three(id, at, UNIT, Three::IfLet, expected)
        }
    }
}

/// The pattern and the branches of an `if let`, whose scrutinee is the last node.
#[cycle(check_expr)]
fn if_let_behind(
    checker: &mut Checker,
    id: NodeId,
    at: Pos,
    pattern: &SyntaxNode,
    body: &SyntaxNode,
    otherwise: Option<&SyntaxNode>,
    expected: Option<TyId>,
) -> Result<(), RuleError>
    ensures gives { Gives (if_let_rest (env checker.old) id.0 at (top (stack checker.old)) (syn_of pattern.now) (syn_of body.now) (maybe_of otherwise.entry) expected (state checker.old)) result checker.new }
    ensures kept { KeepsStack (below (stack checker.old)) checker.old result checker.new }
{
    let e = pattern_context_of_last(checker, false);
    let ty = checker.last_ty();
    let bound = bindings(checker, e, ty, pattern)?;
    if_let_branches(checker, id, at, &bound, body, otherwise, expected)
}

/// `if let`.
#[cycle(check_expr)]
pub fn check_if_let(
    checker: &mut Checker,
    at: Pos,
    pattern: &SyntaxNode,
    scrutinee: &SyntaxNode,
    body: &SyntaxNode,
    otherwise: Option<&SyntaxNode>,
    expected: Option<TyId>,
) -> Result<(), RuleError>
    ensures gives { Gives (rules.value (env checker.old) at (IfLetElse (syn_of pattern.now) (syn_of scrutinee.now) (syn_of body.now) (maybe_of otherwise.entry)) expected (state checker.old)) result checker.new }
    ensures kept { KeepsStack (stack checker.old) checker.old result checker.new }
{
    let id = checker.number()?;
    check_scrutinee(checker, scrutinee)?;
    if_let_behind(checker, id, at, pattern, body, otherwise, expected)
}

/// The body of a `while let`.
#[cycle(check_expr)]
fn body_inside_loop(
    checker: &mut Checker,
    label: Option<&str>,
    id: NodeId,
    bound: &Variables,
    body: &SyntaxNode,
) -> Result<(), RuleError>
    ensures gives { Gives (rules.typed (with_variables (reverse bound.now) (within_loop (loop_around (word_in label.entry) id.0 false None) (env checker.old))) (syn_of body.now) (Some places.unit) (state checker.old)) result checker.new }
    ensures kept { KeepsStack (stack checker.old) checker.old result checker.new }
{
    enter_loop(checker, label, id, false, None)?;
    inside_scope(checker, bound, body, Some(UNIT))?;
    leave_loop(checker);
    Ok(())
}

/// What a `while let` looks at, which counts as inside the loop.
#[cycle(check_expr)]
fn base_inside_loop(
    checker: &mut Checker,
    label: Option<&str>,
    id: NodeId,
    scrutinee: &SyntaxNode,
) -> Result<(), RuleError>
    ensures gives { Gives (rules.base_of (within_loop (loop_around (word_in label.entry) id.0 false None) (env checker.old)) (syn_of scrutinee.now) (state checker.old)) result checker.new }
    ensures kept { KeepsStack (stack checker.old) checker.old result checker.new }
{
    enter_loop(checker, label, id, false, None)?;
    check_place_base(checker, scrutinee)?;
    leave_loop(checker);
    Ok(())
}

/// The pattern and the body of a `while let`, whose scrutinee is the last node.
#[cycle(check_expr)]
fn while_let_behind(
    checker: &mut Checker,
    id: NodeId,
    at: Pos,
    label: Option<&str>,
    pattern: &SyntaxNode,
    body: &SyntaxNode,
    expected: Option<TyId>,
) -> Result<(), RuleError>
    ensures gives { Gives (while_let_rest (env checker.old) id.0 at (word_in label.entry) (top (stack checker.old)) (syn_of pattern.now) (syn_of body.now) expected (state checker.old)) result checker.new }
    ensures kept { KeepsStack (below (stack checker.old)) checker.old result checker.new }
{
    let e = pattern_context_of_last(checker, false);
    let ty = checker.last_ty();
    let bound = bindings(checker, e, ty, pattern)?;
    body_inside_loop(checker, label, id, &bound, body)?;
    checker.unify_three(id, at, UNIT, Three::WhileLet, expected)
}

/// `while let`.
#[cycle(check_expr)]
#[tactic(auto, using(crate::proofs::Jumps::words_are))]
pub fn check_while_let(
    checker: &mut Checker,
    at: Pos,
    label: Option<&str>,
    pattern: &SyntaxNode,
    scrutinee: &SyntaxNode,
    body: &SyntaxNode,
    expected: Option<TyId>,
) -> Result<(), RuleError>
    ensures gives { Gives (rules.value (env checker.old) at (WhileLetOf (word_of label.entry) (syn_of pattern.now) (syn_of scrutinee.now) (syn_of body.now)) expected (state checker.old)) result checker.new }
    ensures kept { KeepsStack (stack checker.old) checker.old result checker.new }
{
    let id = checker.number()?;
    base_inside_loop(checker, label, id, scrutinee)?;
    finish_scrutinee(checker)?;
    while_let_behind(checker, id, at, label, pattern, body, expected)
}
