ghost use Rattle.std.specs.Prelude.{◌≡◌, ◌<◌, false, length, replicate, slice_index_or, slice_set, IfOk, IsFalse, ◌↔◌};
ghost use Rattle.bit_rows.specs.Words.{any_both, union, difference};

use crate::words::{and_not_all, copy_all, empty_words, or_all, set_bit, words_share};
use mir_base::NoMemory;
use std::alloc::Global;
use std::marker::Model;

/// A row of bits.
#[derive(Drop)]
pub struct BitRow {
    len: u32,
    words: Vec<u64>,
}

impl Model for BitRow {
    ghost use Rattle.std.specs.Prelude.{List, Bool};
    ghost use Rattle.bit_rows.specs.Words.{bits, IsRow};

    ghost Value = { List Bool };

    ghost view = { λ row. bits row.len row.words.items };

    ghost invariant = { IsRow };
}

impl BitRow {
    /// A row of so many bits, all of them off.
    pub fn new(alloc: Global, len: u32) -> Result<BitRow, NoMemory>
        ensures { IfOk result (λ row. row ≡ replicate len false) }
    {
        let words = empty_words(alloc, len.div_ceil(64) as usize)?;
        Ok(BitRow { len, words })
    }

    /// How many bits there are.
    pub fn len(&self) -> u32
        ensures { result ≡ length self.now }
    {
        self.len
    }

    /// Whether a bit is on.
    pub fn get(&self, i: u32) -> bool
        requires { i < length self.now }
        ensures { result ≡ slice_index_or self.now i false }
    {
        let word = self.words[(i / 64) as usize];
        (word >> (i % 64)) & 1 == 1
    }

    /// Turns a bit on or off.
    pub fn set(&mut self, i: u32, on: bool)
        requires { i < length self.old }
        ensures { self.new ≡ slice_set self.old i on }
    {
        set_bit(&mut self.words, (i / 64) as usize, i % 64, on);
    }

    /// Turns on in another row of as many bits what is on in this one, and says whether that changed it.
    pub fn or_into(&self, into: &mut BitRow) -> bool
        requires { length self.now ≡ length into.old }
        ensures bits { into.new ≡ union self.now into.old }
        ensures change { IsFalse result ↔ (into.new ≡ into.old) }
    {
        or_all(self.words.as_slice(), &mut into.words)
    }

    /// Turns off in another row of as many bits what is on in this one, and says whether that changed it.
    pub fn and_not_into(&self, into: &mut BitRow) -> bool
        requires { length self.now ≡ length into.old }
        ensures bits { into.new ≡ difference self.now into.old }
        ensures change { IsFalse result ↔ (into.new ≡ into.old) }
    {
        and_not_all(self.words.as_slice(), &mut into.words)
    }

    /// Makes another row of as many bits the same as this one.
    pub fn copy_into(&self, into: &mut BitRow)
        requires { length self.now ≡ length into.old }
        ensures { into.new ≡ self.now }
    {
        copy_all(self.words.as_slice(), &mut into.words);
    }

    /// Whether a bit is on in this row and in another of as many bits.
    pub fn meets(&self, other: &BitRow) -> bool
        requires { length self.now ≡ length other.now }
        ensures { result ≡ any_both self.now other.now }
    {
        words_share(self.words.as_slice(), other.words.as_slice())
    }
}
