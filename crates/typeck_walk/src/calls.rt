//! Calls (The Rust Reference, "Call expressions", "Method-call expressions").
ghost use Rattle.std.specs.Prelude.{◌≡◌};
ghost use Rattle.typeck_calls.specs.Callees.{callee_seen};
ghost use Rattle.src_ast.specs.Seen.{nodes_of, syn_of};
ghost use Rattle.typed_tree.specs.Tree as tree;
ghost use Rattle.typing_rules.specs.Check.{Check};
ghost use Rattle.typing_rules.specs.Named as named;
ghost use Rattle.typing_rules.specs.Patterns.{count_of};
ghost use Rattle.typing_rules.specs.Rows as rows;
ghost use Rattle.typing_rules.specs.Typed as rules;
ghost use Rattle.typeck_checker.specs.Stand.{Gives, KeepsStack, below, env, stack, state, top};
ghost use Rattle.typing_rules.specs.Rows.{closure_end, method_end};

use crate::arguments::check_arguments;
use crate::expressions::{check_expr, check_place_base};
use mir_base::{NodeId, Pos, RuleError};
use mir_ty::TyId;
use src_ast::Nodes;
use src_tree::SyntaxNode;
use typeck_calls::{
    Callee, begin, call_end, call_place, callee_of, closure_callee, closure_end, method_end,
    method_receiver,
};
use typeck_checker::Checker;

/// A call of what is no value.
#[cycle(check_expr)]
fn call_of(
    checker: &mut Checker,
    at: Pos,
    callee: Callee,
    args: Nodes,
    expected: Option<TyId>,
) -> Result<(), RuleError>
    ensures gives { (value : Check tree.Node) → Gives (rules.called_by at (count_of (nodes_of args.entry)) value (λ params. rules.typed_args (env checker.old) params (nodes_of args.entry)) (callee_seen checker.old.walk.items callee) expected (state checker.old)) result checker.new }
    ensures kept { KeepsStack (stack checker.old) checker.old result checker.new }
{
    let begun = begin(checker, at, callee, expected)?;
    let count = check_arguments(checker, begun.params.as_slice(), args)?;
    call_end(checker, at, &begun, count, expected)
}

/// The arguments of a value that is called, which is the last node.
#[cycle(check_expr)]
fn closure_behind(
    checker: &mut Checker,
    id: NodeId,
    at: Pos,
    args: Nodes,
    expected: Option<TyId>,
) -> Result<(), RuleError>
    ensures gives { Gives (closure_end id.0 at expected (top (stack checker.old)) (count_of (nodes_of args.entry)) (λ params. rules.typed_args (env checker.old) params (nodes_of args.entry)) (state checker.old)) result checker.new }
    ensures kept { KeepsStack (below (stack checker.old)) checker.old result checker.new }
{
    let callee = closure_callee(checker)?;
    let count = check_arguments(checker, callee.params.as_slice(), args)?;
    closure_end(checker, id, at, &callee, count, expected)
}

/// A call of a value, which has to be a closure.
#[cycle(check_expr)]
fn closure_call(
    checker: &mut Checker,
    at: Pos,
    callee: &SyntaxNode,
    args: Nodes,
    expected: Option<TyId>,
) -> Result<(), RuleError>
    ensures gives { Gives (rows.closure_call at (count_of (nodes_of args.entry)) (rules.typed (env checker.old) (syn_of callee.now) None) (λ params. rules.typed_args (env checker.old) params (nodes_of args.entry)) expected (state checker.old)) result checker.new }
    ensures kept { KeepsStack (stack checker.old) checker.old result checker.new }
{
    let id = checker.number()?;
    check_expr(checker, callee, None)?;
    closure_behind(checker, id, at, args, expected)
}

/// A call of what was found.
#[cycle(check_expr)]
fn found_call(
    checker: &mut Checker,
    at: Pos,
    found: Callee,
    callee: &SyntaxNode,
    args: Nodes,
    expected: Option<TyId>,
) -> Result<(), RuleError>
    ensures gives { Gives (rules.called_by at (count_of (nodes_of args.entry)) (rules.typed (env checker.old) (syn_of callee.now) None) (λ params. rules.typed_args (env checker.old) params (nodes_of args.entry)) (callee_seen checker.old.walk.items found) expected (state checker.old)) result checker.new }
    ensures kept { KeepsStack (stack checker.old) checker.old result checker.new }
{
    match found {
        Callee::Value => closure_call(checker, at, callee, args, expected),
        _ => call_of(checker, at, found, args, expected),
    }
}

/// A call.
#[cycle(check_expr)]
pub fn check_call(
    checker: &mut Checker,
    at: Pos,
    callee: &SyntaxNode,
    args: Nodes,
    expected: Option<TyId>,
) -> Result<(), RuleError>
    ensures gives { Gives (rules.called (env checker.old) at (syn_of callee.now) (count_of (nodes_of args.entry)) (rules.typed (env checker.old) (syn_of callee.now) None) (λ params. rules.typed_args (env checker.old) params (nodes_of args.entry)) expected (state checker.old)) result checker.new }
    ensures kept { KeepsStack (stack checker.old) checker.old result checker.new }
{
    let found = callee_of(checker, callee)?;
    let at = call_place(at, callee, found);
    found_call(checker, at, found, callee, args, expected)
}

/// The arguments of a method, of which the last node is the receiver.
#[cycle(check_expr)]
fn method_behind(
    checker: &mut Checker,
    id: NodeId,
    at: Pos,
    name: &str,
    args: Nodes,
    expected: Option<TyId>,
) -> Result<(), RuleError>
    ensures gives { Gives (method_end (env checker.old) id.0 at (named.method_named name.now) expected (top (stack checker.old)) (count_of (nodes_of args.entry)) (λ params. rules.typed_args (env checker.old) params (nodes_of args.entry)) (state checker.old)) result checker.new }
    ensures kept { KeepsStack (below (stack checker.old)) checker.old result checker.new }
{
    let receiver = method_receiver(checker, name)?;
    let count = check_arguments(checker, receiver.params.as_slice(), args)?;
    method_end(checker, id, at, &receiver, count, expected)
}

/// A call of a method.
#[cycle(check_expr)]
pub fn check_method_call(
    checker: &mut Checker,
    at: Pos,
    receiver: &SyntaxNode,
    name: &str,
    args: Nodes,
    expected: Option<TyId>,
) -> Result<(), RuleError>
    ensures gives { Gives (rows.method_call (env checker.old) at (named.method_named name.now) (count_of (nodes_of args.entry)) (rules.base_of (env checker.old) (syn_of receiver.now)) (λ params. rules.typed_args (env checker.old) params (nodes_of args.entry)) expected (state checker.old)) result checker.new }
    ensures kept { KeepsStack (stack checker.old) checker.old result checker.new }
{
    let id = checker.number()?;
    check_place_base(checker, receiver)?;
    method_behind(checker, id, at, name, args, expected)
}
