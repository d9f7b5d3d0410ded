//! Codes among the words of a body.
ghost use Rattle.std.specs.Prelude.{◌≡◌, ◌<◌, ℕ, suc, IfSome, Some, map, option_copied, slice_get};
ghost use Rattle.lower_rules.specs.Build.{LoweringFrame};
ghost use Rattle.lower_rules.specs.Codes.{lowers};
ghost use Rattle.lower_code.specs.Code as plain;
ghost use Rattle.lower_code.specs.View.{op_of};
ghost use Rattle.lower_passes.specs.Spans.{Stands, TwoBefore};

use crate::CodeMark;
use crate::mark_pass::mark_at;
use lower_code::CodeWord;

/// The words of a body, and what is marked at each.
#[derive(Clone, Copy)]
pub struct Spans<'a> {
    pub words: &'a [CodeWord],
    pub marks: &'a [CodeMark],
}

/// Where two codes end, of which the other stands directly behind the one.
#[derive(Clone, Copy)]
pub struct TwoCodes {
    pub one: usize,
    pub another: usize,
}

/// The word with a number; `None` past the last.
pub fn word_at<'a>(code: Spans<'a>, number: usize) -> Option<&'a CodeWord>
    ensures { option_copied result ≡ slice_get code.entry.words.now number }
{
    code.words.get(number)
}

/// Where the two codes end that stand directly before a word; `None` where no two codes do.
pub fn two_before(code: Spans, end: usize) -> Option<TwoCodes>
    ensures below { IfSome result (λ two. (two.one < two.another) × (two.another < end)) }
    ensures two { (f : LoweringFrame) (one another : plain.Code) (start : ℕ) →
        TwoBefore f (map op_of code.entry.words.now) code.entry.marks.now
        (Stands f (map op_of code.entry.words.now) code.entry.marks.now one)
        (Stands f (map op_of code.entry.words.now) code.entry.marks.now another) start end →
        (two : TwoCodes) × ((result ≡ Some two)
        × (Stands f (map op_of code.entry.words.now) code.entry.marks.now one start two.one
        × Stands f (map op_of code.entry.words.now) code.entry.marks.now another (suc two.one) two.another)) }
{
    let another = end.checked_sub(1)?;
    let one = mark_at(code.marks, another).start.checked_sub(1)?;
    if one < another {
        Some(TwoCodes { one, another })
    } else {
        None
    }
}

/// Whether a run comes behind the code that ends with a word.
pub fn has_end(code: Spans, end: usize) -> bool
    ensures { (f : LoweringFrame) (c : plain.Code) (start : ℕ) →
        Stands f (map op_of code.entry.words.now) code.entry.marks.now c start end → result ≡ (lowers f c).has_end }
{
    mark_at(code.marks, end).has_end
}
