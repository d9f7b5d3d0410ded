//! Calls of closures (The Rust Reference, "Call expressions"): the value is checked, then the arguments, and then the call
//! ends.
ghost use Rattle.std.specs.Prelude.{◌≡◌, ℕ, Option, drop, slice_get, IfErr, IfOk};
ghost use Rattle.mir_base.specs.declared.place_in_text.Pos.{Pos};
ghost use Rattle.mir_base.specs.declared.rule.RuleError.{RuleError};
ghost use Rattle.mir_ty.specs.declared.ty.TyId.{TyId};
ghost use Rattle.typeck_checker.specs.Lists.{below_all, last_nodes};
ghost use Rattle.typeck_calls.specs.Closures.{body_seen, closure_seen};
ghost use Rattle.typeck_calls.specs.Closures.{callee_end};
ghost use Rattle.typeck_calls.specs.Calls.{GivesCall};
ghost use Rattle.typeck_checker.specs.Stand.{Gives, KeepsStack, below, stack, state, top};
ghost use Rattle.typing_rules.specs.Rows.{closure_end};

use crate::copy_types;
use mir_base::{List, NodeId, Pos, Rule, RuleError};
use mir_ty::{Items, TyId};
use typeck_checker::{Behind, Checker};
use typeck_env::closure_of;
use typeck_exprs::counted_end;
use typeck_heads::broken_rule;

/// A closure that is called: its body, and the type that it answers.
#[derive(Clone, Copy)]
pub struct CalledClosure {
    pub body: u32,
    pub answer: TyId,
}

/// A value that is called.
#[derive(Drop)]
pub struct ClosureCallee {
    /// `None` where it is no closure.
    pub called: Option<CalledClosure>,
    /// The types of its parameters, behind the closure itself.
    pub params: List<TyId>,
}

/// The body of the closure whose type this is.
fn body_of(items: &Items, ty: TyId) -> Option<u32>
    ensures { result ≡ body_seen items.now ty }
{
    match closure_of(items, ty) {
        Some(closure) => match items.closure_def(closure) {
            Some(def) => Some(def.body),
            None => None,
        },
        None => None,
    }
}

fn no_closure(checker: &Checker) -> ClosureCallee
    ensures { (body : ℕ) → result ≡ closure_seen body None }
{
    ClosureCallee {
        called: None,
        params: List::new(checker.alloc),
    }
}

fn behind_first(types: &[TyId]) -> &[TyId]
    ensures { result.now ≡ drop 1 types.now }
{
    match types {
        [_, rest @ ..] => rest,
        [] => types,
    }
}

fn with_body(checker: &Checker, body: u32) -> Result<ClosureCallee, RuleError>
    ensures callee { IfOk result (λ callee. callee ≡ closure_seen body (slice_get checker.now.walk.items.bodies body)) }
    ensures short { IfErr result (λ e. e ≡ RuleError.Memory) }
{
    match checker.walk.items.body_sig(body) {
        Some(sig) => {
            let params = copy_types(checker.alloc, behind_first(sig.params.as_slice()))?;
            let answer = sig.result;
            Ok(ClosureCallee {
                called: Some(CalledClosure { body, answer }),
                params,
            })
        }
        None => Ok(no_closure(checker)),
    }
}

/// The last node as a value that is called. The arguments are checked behind it, and then [`closure_end`] ends the call.
pub fn closure_callee(checker: &Checker) -> Result<ClosureCallee, RuleError>
    ensures gives { (id : ℕ) (at : Pos) (expected : Option TyId) → GivesCall (closure_end id at expected (top (stack checker.now))) (state checker.now) (λ callee. callee.params) (callee_end id at expected) result checker.now }
{
    match body_of(&checker.walk.items, checker.last_ty()) {
        Some(body) => {
            let callee = with_body(checker, body)?;
            Ok(callee)
        }
        None => Ok(no_closure(checker)),
    }
}

/// A call of a closure, which is the node before its arguments, so many.
pub fn closure_end(
    checker: &mut Checker,
    id: NodeId,
    at: Pos,
    callee: &ClosureCallee,
    count: usize,
    expected: Option<TyId>,
) -> Result<(), RuleError>
    ensures gives { Gives (callee_end id.0 at expected callee.now (top (below_all count (stack checker.old))) count (last_nodes count (stack checker.old)) (state checker.old)) result checker.new }
    ensures kept { KeepsStack (below (below_all count (stack checker.old))) checker.old result checker.new }
{
    let is_count = count == callee.params.len();
    match callee.called {
        Some(called) => {
            let behind = Behind::ClosureCall(called.body);
            counted_end(
                checker,
                id,
                at,
                called.answer,
                behind,
                count,
                is_count,
                expected,
            )
        }
        None => Err(broken_rule(Rule::T13, at)),
    }
}
