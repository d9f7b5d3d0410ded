//! Arms among the words of a body.
ghost use Rattle.std.specs.Prelude.{◌≡◌, ◌≤◌, ◌<◌, ℕ, IfSome, Some, map, slice_get};
ghost use Rattle.lower_rules.specs.Build.{LoweringFrame};
ghost use Rattle.lower_code.specs.Code as plain;
ghost use Rattle.lower_code.specs.View.{op_of};
ghost use Rattle.lower_passes.specs.declared.marks.CodeMark as declared;
ghost use Rattle.lower_blocks.specs.Builds as builds;
ghost use Rattle.lower_blocks.specs.Builds.{ArmsStand, IsLast};

use lower_code::CodeWord;
use lower_passes::{Spans, word_at};

/// Where an arm begins, and the word with which it ends.
#[derive(Clone, Copy)]
pub struct ArmSpan {
    pub start: usize,
    pub end: usize,
}

/// Whether an arm ends with a word.
fn ends_arm(word: &CodeWord) -> bool
    ensures { result ≡ builds.ends_arm (op_of word.now) }
{
    matches!(word, CodeWord::Arm { .. } | CodeWord::EmptyArm)
}

/// The first word of what ends with a word.
fn start_of(code: Spans, end: usize) -> usize
    ensures within { result ≤ end }
    ensures start { (mark : declared.CodeMark) → slice_get code.entry.marks.now end ≡ Some mark → mark.start ≤ end →
        result ≡ mark.start }
{
    match code.marks.get(end) {
        Some(mark) if mark.start <= end => mark.start,
        _ => end,
    }
}

/// Where the last arm stands that ends just before a word; `None` where the word before all arms stands there.
pub fn arm_before(code: Spans, end: usize) -> Option<ArmSpan>
    ensures below { IfSome result (λ last. (last.start ≤ last.end) × (last.end < end)) }
    ensures last { (f : LoweringFrame) (arms : plain.Arms) (begin : ℕ) →
        ArmsStand f (map op_of code.entry.words.now) code.entry.marks.now arms begin end →
        IsLast f (map op_of code.entry.words.now) code.entry.marks.now arms begin result }
{
    let last = end.checked_sub(1)?;
    let word = word_at(code, last)?;
    if !ends_arm(word) {
        return None;
    }
    Some(ArmSpan {
        start: start_of(code, last),
        end: last,
    })
}
