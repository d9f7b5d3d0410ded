//! The loops around an expression.
ghost use Rattle.std.specs.Prelude.{◌≡◌, map, option_copied, option_map, reverse};
ghost use Rattle.typeck_env.specs.Scope.{around_of, is_left, is_word, word_in};
ghost use Rattle.typing_rules.specs.Scope.{jumps_to};

use mir_base::{Name, NodeId};
use mir_ty::TyId;

/// A loop around an expression.
#[derive(Drop)]
pub struct LoopAround {
    pub label: Option<Name>,
    pub id: NodeId,
    /// A `break` may carry a value: it is a `loop`.
    pub has_value: bool,
    /// The type that is required of its value.
    pub expected: Option<TyId>,
}

fn has_label(around: &LoopAround, label: &str) -> bool
    ensures { result ≡ is_word around.now.label label.now }
{
    match &around.label {
        Some(own) => own.as_str() == label,
        None => false,
    }
}

/// Whether a loop may be the one that is left.
fn may_be_left(around: &LoopAround, label: Option<&str>) -> bool
    ensures { result ≡ is_left around.now.label (word_in label.entry) }
{
    match label {
        Some(label) => has_label(around, label),
        None => true,
    }
}

/// The loop that a `break` or `continue` leaves, among loops of which the innermost is the last: that one, or the
/// innermost of its label; `None` where there is none (The Rust Reference, "Loop labels").
pub fn loop_left<'a>(loops: &'a [LoopAround], label: Option<&str>) -> Option<&'a LoopAround>
    ensures { option_map around_of (option_copied result) ≡ jumps_to (reverse (map around_of loops.now)) (word_in label.entry) }
{
    for n in (0..loops.len()).rev() {
        let around = &loops[n];
        if may_be_left(around, label) {
            return Some(around);
        }
    }
    None
}
