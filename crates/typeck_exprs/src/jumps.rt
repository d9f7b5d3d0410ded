//! Jumps (The Rust Reference, "break expressions", "continue expressions", "return expressions").

ghost use Rattle.std.specs.Prelude.{◌≡◌, option_map};
ghost use Rattle.typed_tree.specs.Tree.{absent, present};
ghost use Rattle.typing_rules.specs.Rows as rows;
ghost use Rattle.typing_rules.specs.Scope.{jumps_to};
ghost use Rattle.typeck_exprs.specs.Jumps.{target_of, unlabelled};
ghost use Rattle.typeck_env.specs.Scope.{word_in};
ghost use Rattle.typeck_checker.specs.Stand.{Gives, KeepsStack, below, env, stack, state, top};
ghost use Rattle.typing_rules.specs.Rows.{break_end, break_out_end, continue_end, return_end};

use mir_base::{NodeId, Pos, Rule, RuleError};
use mir_ty::{NEVER, TyId, UNIT};
use typeck_checker::{Checker, Leaf, One};
use typeck_env::{is_unit, loop_left};
use typeck_heads::{broken_rule, obeys};

/// The loop that a jump leaves.
#[derive(Clone, Copy)]
pub struct JumpTarget {
    pub id: NodeId,
    /// A `break` may carry a value.
    pub has_value: bool,
    /// The type that is required of it.
    pub expected: Option<TyId>,
}

/// The loop that a `break` or `continue` leaves: the innermost, or the innermost of its label.
#[tactic(auto, using(crate::proofs::Targets::loops_are))]
pub fn jump_target(checker: &Checker, label: Option<&str>) -> Option<JumpTarget>
    ensures { option_map target_of result ≡ option_map unlabelled (jumps_to (env checker.now).loops (word_in label.entry)) }
{
    match loop_left(checker.around.loops.as_slice(), label) {
        Some(around) => Some(JumpTarget {
            id: around.id,
            has_value: around.has_value,
            expected: around.expected,
        }),
        None => None,
    }
}

/// What is required of the value of a `break`.
pub fn carried_type(target: Option<JumpTarget>) -> Option<TyId>
    ensures { result ≡ rows.carried (option_map target_of target) }
{
    match target {
        Some(target) => target.expected,
        None => None,
    }
}

/// `continue` of a loop.
pub fn continue_end(
    checker: &mut Checker,
    id: NodeId,
    at: Pos,
    target: Option<JumpTarget>,
    expected: Option<TyId>,
) -> Result<(), RuleError>
    ensures gives { Gives (continue_end id.0 at expected (option_map target_of target) (state checker.old)) result checker.new }
    ensures kept { KeepsStack (stack checker.old) checker.old result checker.new }
{
    match target {
        Some(target) => checker.unify_leaf(id, at, NEVER, Leaf::Continue(target.id), expected),
        None => Err(broken_rule(Rule::T06, at)),
    }
}

/// `break` without a value out of a loop.
pub fn break_alone_end(
    checker: &mut Checker,
    id: NodeId,
    at: Pos,
    target: Option<JumpTarget>,
    expected: Option<TyId>,
) -> Result<(), RuleError>
    ensures gives { Gives (break_end id.0 at expected (option_map target_of target) absent (state checker.old)) result checker.new }
    ensures kept { KeepsStack (stack checker.old) checker.old result checker.new }
{
    match target {
        Some(target) => break_out_alone(checker, id, at, target.id, expected),
        None => Err(broken_rule(Rule::T06, at)),
    }
}

fn break_out_alone(
    checker: &mut Checker,
    id: NodeId,
    at: Pos,
    from: NodeId,
    expected: Option<TyId>,
) -> Result<(), RuleError>
    ensures gives { Gives (break_out_end id.0 at expected from.0 absent (state checker.old)) result checker.new }
    ensures kept { KeepsStack (stack checker.old) checker.old result checker.new }
{
    checker.breaks_out(from, UNIT)?;
    checker.unify_leaf(id, at, NEVER, Leaf::Break(from), expected)
}

/// `break` out of a loop with the last node as its value.
pub fn break_end(
    checker: &mut Checker,
    id: NodeId,
    at: Pos,
    target: Option<JumpTarget>,
    expected: Option<TyId>,
) -> Result<(), RuleError>
    ensures gives { Gives (break_end id.0 at expected (option_map target_of target) (present (top (stack checker.old))) (state checker.old)) result checker.new }
    ensures kept { KeepsStack (below (stack checker.old)) checker.old result checker.new }
{
    match target {
        Some(target) => {
            obeys(Rule::T06, at, target.has_value)?;
            break_out(checker, id, at, target.id, expected)
        }
        None => Err(broken_rule(Rule::T06, at)),
    }
}

fn break_out(
    checker: &mut Checker,
    id: NodeId,
    at: Pos,
    from: NodeId,
    expected: Option<TyId>,
) -> Result<(), RuleError>
    ensures gives { Gives (break_out_end id.0 at expected from.0 (present (top (stack checker.old))) (state checker.old)) result checker.new }
    ensures kept { KeepsStack (below (stack checker.old)) checker.old result checker.new }
{
    checker.breaks_out(from, checker.last_ty())?;
    checker.unify_one(id, at, NEVER, One::Break(from), expected)
}

/// `return` without a value.
#[tactic(auto, unfolding(typeck_checker::specs::Stand::env_in))]
pub fn return_alone_end(
    checker: &mut Checker,
    id: NodeId,
    at: Pos,
    expected: Option<TyId>,
) -> Result<(), RuleError>
    ensures gives { Gives (return_end id.0 at (env checker.old).answer expected absent (state checker.old)) result checker.new }
    ensures kept { KeepsStack (stack checker.old) checker.old result checker.new }
{
    let is_nothing = is_unit(&checker.walk.items, checker.around.answer);
    obeys(Rule::T03, at, is_nothing)?;
    checker.unify_leaf(id, at, NEVER, Leaf::Return, expected)
}
