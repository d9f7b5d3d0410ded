//! How many of the innermost scopes code may change.
#![tactic(auto, using(crate::proofs::Lists::entries_last))]

ghost use Rattle.std.specs.Prelude.{◌≡◌, ℕ, Bool, List, IfOk, IsTrue, Some, map};
ghost use Rattle.lower_rules.specs.Build.{LoweringFrame, outer};
ghost use Rattle.lower_rules.specs.Codes.{lowers};
ghost use Rattle.lower_code.specs.Code as plain;
ghost use Rattle.lower_code.specs.Ops as ops;
ghost use Rattle.lower_code.specs.View.{at_of, change_of, op_of};
ghost use Rattle.src_meaning.specs.Scopes.{Scope, Scopes, with_scope};
ghost use Rattle.lower_passes.specs.Spans.{Stands, OneBefore, TwoBefore};
ghost use Rattle.lower_passes.specs.declared.marks.CodeMark.{CodeMark};
ghost use Rattle.lower_passes.specs.Reaching as seen;
ghost use Rattle.lower_passes.specs.Reaching.{AreReaches, Keeps};

use crate::{Spans, two_before, word_at};
use lower_code::{Change, CodeWord, ScopeAt};
use mir_base::{List, NoMemory};
use std::alloc::Global;

/// How many scopes one of two may change.
fn wider(one: Option<u32>, another: Option<u32>) -> Option<u32>
    ensures one { (g : Scopes → Scopes) → Keeps one g → Keeps result g }
    ensures another { (g : Scopes → Scopes) → Keeps another g → Keeps result g }
{
    let one = one?;
    let another = another?;
    if one < another {
        Some(another)
    } else {
        Some(one)
    }
}

/// By code in a scope of its own, which is left behind it.
fn around_scope(inner: Option<u32>) -> Option<u32>
    ensures { (f : LoweringFrame) (g : Scopes → Scopes) (node : ℕ) (t : Bool) → Keeps inner g →
        Keeps result (λ S. outer f (g (with_scope node t S))) }
{
    Some(inner?.saturating_sub(1))
}

/// By a change of a scope.
fn reach_of_place(at: ScopeAt) -> Option<u32>
    ensures { (change : Scope → Scope) → Keeps result (plain.change_in (at_of at) change) }
{
    match at {
        ScopeAt::Innermost => Some(1),
        ScopeAt::AroundInnermost => Some(2),
        ScopeAt::NearestTemporary => None,
    }
}

/// By a change.
fn reach_of_change(by: &Change) -> Option<u32>
    ensures { Keeps result (plain.changed_by (change_of by.now)) }
{
    match by {
        Change::NewScope { .. } => None,
        Change::Pends(at, _) => reach_of_place(*at),
        Change::Completes(at, _) => reach_of_place(*at),
        Change::Enters(at, _) => reach_of_place(*at),
        Change::Names(_) => Some(2),
        Change::Takes(_) => Some(1),
    }
}

/// By the code that ends with a word, as far as it is known.
pub fn reach_at(reaches: &[Option<u32>], end: usize) -> Option<u32>
    ensures { result ≡ seen.reach_at reaches.now end }
{
    match reaches.get(end) {
        Some(reach) => *reach,
        None => None,
    }
}

/// Whether the code that ends with a word leaves all scopes as they are.
pub fn stays(reaches: &[Option<u32>], end: usize) -> bool
    ensures { IsTrue result → seen.reach_at reaches.now end ≡ Some 0 }
{
    match reach_at(reaches, end) {
        Some(reach) => reach == 0,
        None => false,
    }
}

/// By the code that ends with the word before.
fn reach_of_one(reaches: &[Option<u32>], end: usize) -> Option<u32>
    ensures { (f : LoweringFrame) (words : List ops.CodeWord) (marks : List CodeMark) (c : plain.Code) (start : ℕ) →
        AreReaches f words marks reaches.now → OneBefore f words marks (Stands f words marks c) start end →
        Keeps result (lowers f c).after }
{
    match end.checked_sub(1) {
        Some(inner) => reach_at(reaches, inner),
        None => None,
    }
}

/// By the two codes before.
fn reach_of_two(code: Spans, reaches: &[Option<u32>], end: usize) -> Option<u32>
    ensures { (f : LoweringFrame) (one another : plain.Code) (start : ℕ) →
        AreReaches f (map op_of code.entry.words.now) code.entry.marks.now reaches.now →
        TwoBefore f (map op_of code.entry.words.now) code.entry.marks.now
        (Stands f (map op_of code.entry.words.now) code.entry.marks.now one)
        (Stands f (map op_of code.entry.words.now) code.entry.marks.now another) start end →
        Keeps result (lowers f one).after × Keeps result (lowers f another).after }
{
    match two_before(code, end) {
        Some(two) => wider(reach_at(reaches, two.one), reach_at(reaches, two.another)),
        None => None,
    }
}

/// By the code that ends with a word, from what is known of those before.
fn reach_of(code: Spans, reaches: &[Option<u32>], end: usize) -> Option<u32>
    ensures { (f : LoweringFrame) (c : plain.Code) (start : ℕ) →
        AreReaches f (map op_of code.entry.words.now) code.entry.marks.now reaches.now →
        Stands f (map op_of code.entry.words.now) code.entry.marks.now c start end →
        Keeps result (lowers f c).after }
{
    let Some(word) = word_at(code, end) else {
        return None;
    };
    match word {
        CodeWord::Changes(by) => reach_of_change(by),
        CodeWord::Leaves => None,
        CodeWord::Replaces { .. } => Some(1),
        CodeWord::From(by) => wider(reach_of_change(by), reach_of_one(reaches, end)),
        CodeWord::InScope { .. } => around_scope(reach_of_one(reaches, end)),
        CodeWord::Then => reach_of_two(code, reaches, end),
        CodeWord::Branches { .. } => reach_of_two(code, reaches, end),
        _ => Some(0),
    }
}

/// At each word, how many of the innermost scopes the code may change that ends there, so that all others stay as they
/// are; `None` where that is not known. A scope of its own is not among them.
///
/// # Errors
///
/// [`NoMemory`] where memory is wanted.
pub fn reaches_of(alloc: Global, code: Spans) -> Result<List<Option<u32>>, NoMemory>
    ensures { IfOk result (λ reaches. (f : LoweringFrame) →
        AreReaches f (map op_of code.entry.words.now) code.entry.marks.now reaches) }
{
    let mut reaches = List::from_vec(Vec::with_capacity(alloc, code.words.len())?);
    for end in 0..code.words.len() {
        let reach = reach_of(code, reaches.as_slice(), end);
        reaches.push(reach)?;
    }
    Ok(reaches)
}
