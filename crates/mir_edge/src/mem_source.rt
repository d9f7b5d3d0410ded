ghost use Rattle.std.specs.Prelude.{◌≡◌, ◌↔◌, ◌<◌, ◌≤◌, length, min, take, Some, IfOk, OnErr, IsErr, IsTrue, Contains};
ghost use Rattle.mir_edge.specs.Faults.{HasRisen};
ghost use Rattle.mir_edge.specs.MemSource.{count_given, after_giving, after_failing};
ghost use Rattle.mir_edge.specs.Source.{IsRead};

use crate::{Fault, Source};
use mir_base::List;
use std::marker::Model;

/// A source over bytes in memory, for tests: it gives them in pieces, and fails the calls that it is
/// told to fail.
///
/// Contracts see it as a `MemSourceState`: the bytes that are left, how many a call gives at most,
/// the numbers of the calls that fail, how many calls there were, and the count of faults. Calls and
/// faults are counted up to the greatest `u64` and stay there. A call past that number is no listed
/// one, since the listed numbers are `u32`.
#[derive(Drop)]
pub struct MemSource {
    bytes: List<u8>,
    at: usize,
    piece: usize,
    failing: List<u32>,
    calls: u64,
    faults: u64,
}

impl Model for MemSource {
    ghost use Rattle.std.specs.Prelude.{◌<◌, ◌≤◌, length, drop};
    ghost use Rattle.mir_edge.specs.MemSource.{MemSourceState};

    ghost Value = { MemSourceState };

    ghost view = { λ source. record {
      unread = drop source.at source.bytes;
      piece = source.piece;
      failing = source.failing;
      calls = source.calls;
      faults = source.faults;
    } };

    ghost invariant = { λ source. (source.at ≤ length source.bytes) × (0 < source.piece) };
}

impl MemSource {
    /// A source that has these bytes left, gives at most `piece` of them per call, which is at least
    /// 1, and fails the calls whose numbers, counted from 0, are listed.
    pub fn new(bytes: List<u8>, piece: usize, failing: List<u32>) -> MemSource
        requires { 0 < piece }
        ensures { result ≡ record {
          unread = bytes;
          piece = piece;
          failing = failing;
          calls = 0;
          faults = 0;
        } }
    {
        MemSource {
            bytes,
            at: 0,
            piece,
            failing,
            calls: 0,
            faults: 0,
        }
    }
}

impl Source for MemSource {
    ghost left = { λ source. Some source.unread };

    ghost faults = { λ source. source.faults };

    fn read(&mut self, into: &mut [u8]) -> Result<usize, Fault>
        requires { 0 < length into.old }

        // As at any source.
        ensures within { IfOk result (λ n. n ≤ length into.new) }
        ensures counts { self.old.faults ≤ self.new.faults }
        ensures fault { OnErr result (HasRisen self.old.faults self.new.faults) }
        ensures bytes { IsRead (Some self.old.unread) (Some self.new.unread) into.new result }

        // Which calls fail, how many bytes the others give, and what is left then.
        ensures fails { IsErr result ↔ Contains self.old.failing self.old.calls }
        ensures count { IfOk result (λ n. n ≡ count_given self.old (length into.old)) }
        ensures given { IfOk result (λ n. self.new ≡ after_giving n self.old) }
        ensures failed { OnErr result (self.new ≡ after_failing self.old) }
    {
        let is_failing = is_listed(self.failing.as_slice(), self.calls);
        self.calls = self.calls.saturating_add(1);
        if is_failing {
            self.faults = self.faults.saturating_add(1);
            return Err(Fault);
        }
        let count = copy_front(&self.bytes.as_slice()[self.at..], self.piece, into);
        self.at += count;
        Ok(count)
    }
}

// Whether the number of a call is among the listed ones.
pub(crate) fn is_listed(listed: &[u32], call: u64) -> bool
    ensures { IsTrue result ↔ Contains listed.now call }
{
    listed.iter().any(|number| u64::from(*number) == call)
}

// Copies bytes to the front of a piece, at most so many, and answers how many.
fn copy_front(bytes: &[u8], most: usize, into: &mut [u8]) -> usize
    ensures count { result ≡ min (min most (length into.old)) (length bytes.now) }
    ensures moved { take result into.new ≡ take result bytes.now }
{
    let count = most.min(into.len()).min(bytes.len());
    into[..count].copy_from_slice(&bytes[..count]);
    count
}
