//! Union and difference of words: vectors of lanes, and a plain loop for the rest.
ghost use Rattle.std.specs.Prelude.{◌≡◌, ◌≢◌, ◌==◌, ◌<◌, ◌^◌, ◌↔◌, ℕ, length, slice_set, slice_index_or, replicate, IfOk, IsFalse, bit_or};
ghost use Rattle.std.specs.Int.{bit_at};
ghost use Rattle.std.specs.Simd.Lanes.{zip2};
ghost use Rattle.bit_rows.specs.Words.{share, without};

use mir_base::NoMemory;
use std::alloc::Global;
use std::simd::prelude::*;

/// How many words a vector holds.
const LANES: usize = 8;

/// Turns on in eight words what is on in eight others, and says whether that changed any.
fn or_lanes(from: &[u64], into: &mut [u64]) -> bool
    requires { (length from.now ≡ 8) × (length into.old ≡ 8) }
    ensures words { into.new ≡ zip2 bit_or from.now into.old }
    ensures change { IsFalse result ↔ (into.new ≡ into.old) }
{
    let old = u64x8::from_slice(into);
    let new = u64x8::from_slice(from) | old;
    new.copy_to_slice(into);
    new != old
}

/// Turns off in eight words what is on in eight others, and says whether that changed any.
fn and_not_lanes(from: &[u64], into: &mut [u64]) -> bool
    requires { (length from.now ≡ 8) × (length into.old ≡ 8) }
    ensures words { into.new ≡ zip2 without from.now into.old }
    ensures change { IsFalse result ↔ (into.new ≡ into.old) }
{
    let old = u64x8::from_slice(into);
    let new = !u64x8::from_slice(from) & old;
    new.copy_to_slice(into);
    new != old
}

/// So many words without a bit.
pub fn empty_words(alloc: Global, count: usize) -> Result<Vec<u64>, NoMemory>
    ensures { IfOk result (λ words. words.items ≡ replicate count 0) }
{
    Ok(vec![in alloc; 0u64; count]?)
}

/// A word with one of its bits on or off.
fn with_bit(word: u64, k: u32, on: bool) -> u64
    requires { k < 64 }
    ensures same { (bit_at result k == 1) ≡ on }
    ensures others { (j : ℕ) → j < 64 → j ≢ k → bit_at result j ≡ bit_at word j }
{
    if on {
        word | (1 << k)
    } else {
        word & !(1 << k)
    }
}

fn or_word(from: u64, into: &mut u64) -> bool
    ensures word { into.new ≡ bit_or from into.old }
    ensures change { IsFalse result ↔ (into.new ≡ into.old) }
{
    let old = *into;
    *into = from | old;
    *into != old
}

fn and_not_word(from: u64, into: &mut u64) -> bool
    ensures word { into.new ≡ without from into.old }
    ensures change { IsFalse result ↔ (into.new ≡ into.old) }
{
    let old = *into;
    *into = !from & old;
    *into != old
}

/// Turns on in words what is on in as many others, and says whether that changed any.
fn or_words(from: &[u64], into: &mut [u64]) -> bool
    requires { length from.now ≡ length into.old }
    ensures words { into.new ≡ zip2 bit_or from.now into.old }
    ensures change { IsFalse result ↔ (into.new ≡ into.old) }
{
    let mut changed = false;
    let whole = into.len() / LANES;
    for n in 0..whole {
        let at = n * LANES;
        changed |= or_lanes(&from[at..at + LANES], &mut into[at..at + LANES]);
    }
    for at in whole * LANES..into.len() {
        changed |= or_word(from[at], &mut into[at]);
    }
    changed
}

/// Turns off in words what is on in as many others, and says whether that changed any.
fn and_not_words(from: &[u64], into: &mut [u64]) -> bool
    requires { length from.now ≡ length into.old }
    ensures words { into.new ≡ zip2 without from.now into.old }
    ensures change { IsFalse result ↔ (into.new ≡ into.old) }
{
    let mut changed = false;
    let whole = into.len() / LANES;
    for n in 0..whole {
        let at = n * LANES;
        changed |= and_not_lanes(&from[at..at + LANES], &mut into[at..at + LANES]);
    }
    for at in whole * LANES..into.len() {
        changed |= and_not_word(from[at], &mut into[at]);
    }
    changed
}

/// The same of words that are owned.
pub fn or_all(from: &[u64], into: &mut Vec<u64>) -> bool
    requires { length from.now ≡ length into.old.items }
    ensures words { into.new.items ≡ zip2 bit_or from.now into.old.items }
    ensures change { IsFalse result ↔ (into.new.items ≡ into.old.items) }
{
    or_words(from, into.as_mut_slice())
}

/// The same of words that are owned.
pub fn and_not_all(from: &[u64], into: &mut Vec<u64>) -> bool
    requires { length from.now ≡ length into.old.items }
    ensures words { into.new.items ≡ zip2 without from.now into.old.items }
    ensures change { IsFalse result ↔ (into.new.items ≡ into.old.items) }
{
    and_not_words(from, into.as_mut_slice())
}

/// Whether a bit is on in both of two words with one number.
pub fn words_share(one: &[u64], other: &[u64]) -> bool
    requires { length one.now ≡ length other.now }
    ensures { result ≡ share one.now other.now }
{
    for at in 0..one.len() {
        if one[at] & other[at] != 0 {
            return true;
        }
    }
    false
}

/// The same words in the place of as many others.
pub fn copy_all(from: &[u64], into: &mut Vec<u64>)
    requires { length from.now ≡ length into.old.items }
    ensures { into.new.items ≡ from.now }
{
    into.as_mut_slice().copy_from_slice(from);
}

/// Turns a bit of words on or off.
pub fn set_bit(words: &mut Vec<u64>, at: usize, k: u32, on: bool)
    requires { (at < length words.old.items) × (k < 64) }
    ensures { (word : ℕ) × (word < 2 ^ 64) × (words.new.items ≡ slice_set words.old.items at word) × ((bit_at word k == 1) ≡ on)
        × ((j : ℕ) → j < 64 → j ≢ k → bit_at word j ≡ bit_at (slice_index_or words.old.items at 0) j) }
{
    words[at] = with_bit(words[at], k, on);
}
