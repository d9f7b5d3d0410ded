//! Blocks and their statements (The Rust Reference, "Block expressions", "Statements").
ghost use Rattle.std.specs.Prelude.{◌≡◌, IfErr, IfOk};
ghost use Rattle.mir_base.specs.declared.rule.RuleError.{RuleError};
ghost use Rattle.src_ast.specs.Seen.{maybe_of, nodes_of, syn_of};
ghost use Rattle.src_ast.specs.Syntax.{Braces, LetOf};
ghost use Rattle.typing_rules.specs.Typed as rules;
ghost use Rattle.typeck_patterns.specs.LetAnswers.{value_if};
ghost use Rattle.typeck_checker.specs.Lists.{below_all, last_nodes};
ghost use Rattle.typeck_walk.specs.Blocks.{GivesStatement, GivesStatements, KeepsGrown, KeepsStatement, KeepsStatements, KeepsValue, block_rest, evaluated, initialiser_of, more_if};
ghost use Rattle.typeck_checker.specs.Stand.{Gives, GivesValue, KeepsStack, env, stack, state};

use crate::expressions::{check_expr, check_for_parts};
use mir_base::{NodeId, Pos, RuleError};
use mir_ty::TyId;
use src_ast::{Nodes, StatementForm, statement_form};
use src_tree::SyntaxNode;
use typeck_checker::{Checker, count, leave, resolve_type_if};
use typeck_exprs::{block_end, evaluate_end, one_more, tail_end};
use typeck_patterns::{is_one_name, let_end, takes_any};

/// What a statement gives: whether it has a node, and whether its expression or initialiser has the type `!`.
#[derive(Clone, Copy)]
pub struct StatementNode {
    pub is_made: bool,
    pub ends: bool,
}

/// What statements give: how many nodes, and whether one of them ends.
#[derive(Clone, Copy)]
pub struct Statements {
    pub count: usize,
    pub ends: bool,
}

/// An expression as a statement.
#[cycle(check_expr)]
fn evaluate(
    checker: &mut Checker,
    at: Pos,
    expression: &SyntaxNode,
    has_semicolon: bool,
) -> Result<StatementNode, RuleError>
    ensures gives { GivesStatement (evaluated at (env checker.old) has_semicolon (rules.typed (env checker.old) (syn_of expression.now)) (state checker.old)) result checker.new }
    ensures kept { KeepsStatement (stack checker.old) checker.old result checker.new }
{
    let id = checker.number()?;
    check_expr(checker, expression, None)?;
    let ends = evaluate_end(checker, id, at, has_semicolon)?;
    Ok(StatementNode {
        is_made: true,
        ends,
    })
}

#[cycle(check_expr)]
fn initialiser(
    checker: &mut Checker,
    is_one_name: bool,
    any: bool,
    value: &SyntaxNode,
    expected: Option<TyId>,
) -> Result<(), RuleError>
    ensures gives { Gives (initialiser_of (env checker.old) is_one_name any expected (syn_of value.now) (state checker.old)) result checker.new }
    ensures kept { KeepsStack (stack checker.old) checker.old result checker.new }
{
    if is_one_name {
        check_expr(checker, value, expected)
    } else {
        check_for_parts(checker, any, value, expected)
    }
}

/// The initialiser of a `let`, whose pattern is one name, or `_`, or another; answers whether it has one.
#[cycle(check_expr)]
fn check_let_value(
    checker: &mut Checker,
    is_one_name: bool,
    any: bool,
    value: Option<&SyntaxNode>,
    expected: Option<TyId>,
) -> Result<bool, RuleError>
    ensures gives { GivesValue (λ has_value. value_if has_value (stack checker.new)) (rules.initialised (env checker.old) is_one_name any (maybe_of value.entry) expected (state checker.old)) result checker.new }
    ensures kept { KeepsValue (stack checker.old) checker.old result checker.new }
{
    match value {
        Some(value) => {
            initialiser(checker, is_one_name, any, value, expected)?;
            Ok(true)
        }
        None => Ok(false),
    }
}

/// A `let`.
#[cycle(check_expr)]
fn check_let(
    checker: &mut Checker,
    at: Pos,
    pattern: &SyntaxNode,
    ty: Option<&SyntaxNode>,
    value: Option<&SyntaxNode>,
) -> Result<StatementNode, RuleError>
    ensures gives { GivesStatement (rules.other_statement (env checker.old) at (LetOf (syn_of pattern.now) (maybe_of ty.entry) (maybe_of value.entry)) (state checker.old)) result checker.new }
    ensures kept { KeepsStatement (stack checker.old) checker.old result checker.new }
{
    let is_one = is_one_name(checker, pattern);
    let any = takes_any(pattern);
    let id = checker.number()?;
    let declared = resolve_type_if(checker, ty)?;
    let has_value = check_let_value(checker, is_one, any, value, declared)?;
    let ends = let_end(checker, id, at, is_one, declared, has_value, pattern)?;
    Ok(StatementNode {
        is_made: true,
        ends,
    })
}

/// A statement.
#[cycle(check_expr)]
#[tactic(auto, using(crate::proofs::Statements::statement_seen))]
fn check_statement(checker: &mut Checker, node: &SyntaxNode) -> Result<StatementNode, RuleError>
    ensures gives { GivesStatement (rules.statement (env checker.old) (syn_of node.now) (state checker.old)) result checker.new }
    ensures kept { KeepsStatement (stack checker.old) checker.old result checker.new }
{
    match statement_form(node) {
        StatementForm::Let { pattern, ty, value } => {
            check_let(checker, node.at, pattern, ty, value)
        }
        StatementForm::Empty => Ok(StatementNode {
            is_made: false,
            ends: false,
        }),
        StatementForm::Semi(expression) => evaluate(checker, node.at, expression, true),
        StatementForm::Other => evaluate(checker, node.at, node, false),
    }
}

/// Statements; what stands behind them sees the variables that they bring.
#[cycle(check_expr)]
fn check_statements(checker: &mut Checker, statements: Nodes) -> Result<Statements, RuleError>
    ensures gives { GivesStatements (rules.typed_all (env checker.old) (nodes_of statements.entry) (state checker.old)) result checker.new }
    ensures kept { KeepsStatements (stack checker.old) checker.old result checker.new }
{
    let mut count: usize = 0;
    let mut ends = false;
    let mut rest = statements;
    while let Some(split) = rest.split_first() {
        let one = check_statement(checker, split.first)?;
        count = one_if(count, one.is_made)?;
        ends |= one.ends;
        rest = split.rest;
    }
    Ok(Statements { count, ends })
}

fn one_if(count: usize, is_made: bool) -> Result<usize, RuleError>
    ensures counted { IfOk result (λ more. more ≡ more_if is_made count) }
    ensures short { IfErr result (λ e. e ≡ RuleError.Memory) }
{
    if is_made { one_more(count) } else { Ok(count) }
}

/// The tail of a block behind its statements.
#[cycle(check_expr)]
fn block_behind(
    checker: &mut Checker,
    id: NodeId,
    at: Pos,
    done: Statements,
    tail: Option<&SyntaxNode>,
    expected: Option<TyId>,
) -> Result<(), RuleError>
    ensures gives { Gives (block_rest id.0 at (last_nodes done.count (stack checker.old)) done.ends (rules.typed_maybe (env checker.old) (maybe_of tail.entry)) expected (state checker.old)) result checker.new }
    ensures kept { KeepsStack (below_all done.count (stack checker.old)) checker.old result checker.new }
{
    match tail {
        Some(tail) => {
            check_expr(checker, tail, expected)?;
            tail_end(checker, id, at, done.count, expected)
        }
        None => block_end(checker, id, at, done.count, done.ends, expected),
    }
}

#[cycle(check_expr)]
fn block_inside(
    checker: &mut Checker,
    at: Pos,
    statements: Nodes,
    tail: Option<&SyntaxNode>,
    expected: Option<TyId>,
) -> Result<(), RuleError>
    ensures gives { Gives (rules.value (env checker.old) at (Braces (nodes_of statements.entry) (maybe_of tail.entry)) expected (state checker.old)) result checker.new }
    ensures kept { KeepsGrown (stack checker.old) checker.old result checker.new }
{
    let id = checker.number()?;
    let done = check_statements(checker, statements)?;
    block_behind(checker, id, at, done, tail, expected)
}

/// A block: the variables that its statements bring end with it.
#[cycle(check_expr)]
pub fn check_block(
    checker: &mut Checker,
    at: Pos,
    statements: Nodes,
    tail: Option<&SyntaxNode>,
    expected: Option<TyId>,
) -> Result<(), RuleError>
    ensures gives { Gives (rules.value (env checker.old) at (Braces (nodes_of statements.entry) (maybe_of tail.entry)) expected (state checker.old)) result checker.new }
    ensures kept { KeepsStack (stack checker.old) checker.old result checker.new }
{
    let outer = count(checker);
    block_inside(checker, at, statements, tail, expected)?;
    leave(checker, outer);
    Ok(())
}
