//! Arms of a `match` (The Rust Reference, "Match expressions").
ghost use Rattle.std.specs.Prelude.{◌≡◌};
ghost use Rattle.typeck_checker.specs.Stand.{Gives, KeepsStack, below, stack, state, top};
ghost use Rattle.typed_tree.specs.Tree.{absent, present};
ghost use Rattle.typing_rules.specs.Places.{place_in_text};
ghost use Rattle.typing_rules.specs.Rows.{arm_end};

use mir_base::{NodeId, Pos, RuleError};
use typeck_checker::{Checker, Three, TwoParts};

/// An arm without a guard, whose pattern and body are the last nodes.
pub fn arm_end(checker: &mut Checker, id: NodeId) -> Result<(), RuleError>
    ensures gives { Gives (arm_end id.0 (top (below (stack checker.old))) absent (top (stack checker.old)) (state checker.old)) result checker.new }
    ensures kept { KeepsStack (below (below (stack checker.old))) checker.old result checker.new }
{
    let at = checker.second_at();
    let ty = checker.last_ty();
    checker.wrap_two(id, at, ty, TwoParts::Arm)
}

/// Where the last node but two stands.
fn third_at(checker: &Checker) -> Pos
    ensures { result ≡ place_in_text (top (below (below (stack checker.now)))) }
{
    match checker.made_at(2) {
        Some(node) => node.at,
        None => Pos { line: 0, col: 0 },
    }
}

/// An arm whose pattern, guard and body are the last nodes.
pub fn guarded_arm_end(checker: &mut Checker, id: NodeId) -> Result<(), RuleError>
    ensures gives { Gives (arm_end id.0 (top (below (below (stack checker.old)))) (present (top (below (stack checker.old)))) (top (stack checker.old)) (state checker.old)) result checker.new }
    ensures kept { KeepsStack (below (below (below (stack checker.old)))) checker.old result checker.new }
{
    let at = third_at(checker);
    let ty = checker.last_ty();
    checker.wrap_three(id, at, ty, Three::Arm)
}
