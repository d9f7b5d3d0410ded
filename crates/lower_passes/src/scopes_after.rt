//! The scopes behind code.
#![tactic(auto, using(crate::proofs::Lists::entries_last))]

ghost use Rattle.std.specs.Prelude.{◌≡◌, ℕ, IfOk, map};
ghost use Rattle.lower_rules.specs.Build as build;
ghost use Rattle.lower_rules.specs.Build.{LoweringFrame};
ghost use Rattle.lower_rules.specs.Codes.{lowers};
ghost use Rattle.lower_code.specs.Code as plain;
ghost use Rattle.lower_code.specs.View.{op_of};
ghost use Rattle.lower_passes.specs.Spans.{Stands, OneBefore, TwoBefore};
ghost use Rattle.lower_passes.specs.Reaching.{AreReaches};
ghost use Rattle.lower_passes.specs.Scoped.{scopes_of};

use crate::reach::stays;
use crate::scope::Scopes;
use crate::scope_changes::{change, enter, leave, take};
use crate::{Spans, has_end, two_before, word_at};
use bumpalo::Bump;
use lower_code::CodeWord;
use mir_base::NoMemory;

/// The scopes behind the code that ends with a word, from those before it, given how many scopes the code at each word
/// may change. It costs as many steps as the code has words outside codes that change no scope, and for each what a
/// change costs.
///
/// # Errors
///
/// [`NoMemory`] where memory is wanted.
#[cycle(after)]
pub fn after<'a>(
    bump: &'a Bump,
    code: Spans,
    reaches: &[Option<u32>],
    end: usize,
    scopes: &'a Scopes<'a>,
) -> Result<&'a Scopes<'a>, NoMemory>
    requires { (f : LoweringFrame) → AreReaches f (map op_of code.words.now) code.marks.now reaches.now }
    ensures { IfOk result (λ behind. (f : LoweringFrame) (c : plain.Code) (start : ℕ) →
        Stands f (map op_of code.entry.words.now) code.entry.marks.now c start end →
        scopes_of behind.now ≡ (lowers f c).after (scopes_of scopes.entry.now)) }
{
    if stays(reaches, end) {
        return Ok(scopes);
    }
    let Some(word) = word_at(code, end) else {
        return Ok(scopes);
    };
    match word {
        CodeWord::Changes(by) => change(bump, by, scopes),
        CodeWord::Leaves => Ok(leave(scopes)),
        CodeWord::Replaces { key, .. } => take(bump, &[*key], scopes),
        CodeWord::From(by) => {
            let changed = change(bump, by, scopes)?;
            after_one(bump, code, reaches, end, changed)
        }
        CodeWord::InScope {
            node,
            for_temporaries,
        } => {
            let inner = enter(bump, *node, *for_temporaries, scopes)?;
            let behind = after_one(bump, code, reaches, end, inner)?;
            Ok(leave(behind))
        }
        CodeWord::Then => after_both(bump, code, reaches, end, scopes),
        CodeWord::Branches { .. } => after_either(bump, code, reaches, end, scopes),
        _ => Ok(scopes),
    }
}

/// Behind the code that ends with the word before.
#[cycle(after)]
fn after_one<'a>(
    bump: &'a Bump,
    code: Spans,
    reaches: &[Option<u32>],
    end: usize,
    scopes: &'a Scopes<'a>,
) -> Result<&'a Scopes<'a>, NoMemory>
    requires { (f : LoweringFrame) → AreReaches f (map op_of code.words.now) code.marks.now reaches.now }
    ensures { IfOk result (λ behind. (f : LoweringFrame) (c : plain.Code) (start : ℕ) →
        OneBefore f (map op_of code.entry.words.now) code.entry.marks.now
        (Stands f (map op_of code.entry.words.now) code.entry.marks.now c) start end →
        scopes_of behind.now ≡ (lowers f c).after (scopes_of scopes.entry.now)) }
{
    match end.checked_sub(1) {
        Some(inner) => after(bump, code, reaches, inner, scopes),
        None => Ok(scopes),
    }
}

/// Behind the two codes before.
#[cycle(after)]
fn after_both<'a>(
    bump: &'a Bump,
    code: Spans,
    reaches: &[Option<u32>],
    end: usize,
    scopes: &'a Scopes<'a>,
) -> Result<&'a Scopes<'a>, NoMemory>
    requires { (f : LoweringFrame) → AreReaches f (map op_of code.words.now) code.marks.now reaches.now }
    ensures { IfOk result (λ behind. (f : LoweringFrame) (one another : plain.Code) (start : ℕ) →
        TwoBefore f (map op_of code.entry.words.now) code.entry.marks.now
        (Stands f (map op_of code.entry.words.now) code.entry.marks.now one)
        (Stands f (map op_of code.entry.words.now) code.entry.marks.now another) start end →
        scopes_of behind.now ≡ (lowers f another).after ((lowers f one).after (scopes_of scopes.entry.now))) }
{
    match two_before(code, end) {
        Some(two) => {
            let between = after(bump, code, reaches, two.one, scopes)?;
            after(bump, code, reaches, two.another, between)
        }
        None => Ok(scopes),
    }
}

/// Behind one of the two codes before: the first, if it has an end.
#[cycle(after)]
fn after_either<'a>(
    bump: &'a Bump,
    code: Spans,
    reaches: &[Option<u32>],
    end: usize,
    scopes: &'a Scopes<'a>,
) -> Result<&'a Scopes<'a>, NoMemory>
    requires { (f : LoweringFrame) → AreReaches f (map op_of code.words.now) code.marks.now reaches.now }
    ensures { IfOk result (λ behind. (f : LoweringFrame) (one another : plain.Code) (start : ℕ) →
        TwoBefore f (map op_of code.entry.words.now) code.entry.marks.now
        (Stands f (map op_of code.entry.words.now) code.entry.marks.now one)
        (Stands f (map op_of code.entry.words.now) code.entry.marks.now another) start end →
        scopes_of behind.now ≡
        build.after_either (lowers f one).has_end (lowers f one) (lowers f another) (scopes_of scopes.entry.now)) }
{
    match two_before(code, end) {
        Some(two) => {
            if has_end(code, two.one) {
                after(bump, code, reaches, two.one, scopes)
            } else {
                after(bump, code, reaches, two.another, scopes)
            }
        }
        None => Ok(scopes),
    }
}
