ghost use Rattle.std.specs.Prelude.{◌≡◌, ◌↔◌, [], ◌<◌, ◌≤◌, length, max, Some, IfOk, OnOk, OnErr, IsOk, IsErr};
ghost use Rattle.mir_edge.specs.Faults.{HasRisen};
ghost use Rattle.mir_edge.specs.MemSink.{count_taken, Refuses, after_taking, after_failing};
ghost use Rattle.mir_edge.specs.Sink.{IsWrite};

use crate::mem_source::is_listed;
use crate::{Fault, Sink};
use mir_base::{List, NoMemory};
use std::alloc::Global;
use std::marker::Model;

/// A sink over memory, for tests: it takes bytes in pieces, as far as there is room, and fails the
/// calls that it is told to fail.
///
/// Contracts see it as a `MemSinkState`: the bytes that it took, for how many more there is room, how
/// many a call takes at most, the numbers of the calls that fail, how many calls there were, and the
/// count of faults. Calls and faults are counted up to the greatest `u64` and stay there. A call past
/// that number is no listed one, since the listed numbers are `u32`.
#[derive(Drop)]
pub struct MemSink {
    bytes: Vec<u8>,
    room: usize,
    piece: usize,
    failing: List<u32>,
    calls: u64,
    faults: u64,
}

impl Model for MemSink {
    ghost use Rattle.std.specs.Prelude.{◌<◌, ◌≤◌, ◌+◌, vec_len, vec_capacity};
    ghost use Rattle.mir_edge.specs.MemSink.{MemSinkState};

    ghost Value = { MemSinkState };

    ghost view = { λ sink. record {
      taken = sink.bytes.items;
      room = sink.room;
      piece = sink.piece;
      failing = sink.failing;
      calls = sink.calls;
      faults = sink.faults;
    } };

    ghost invariant = { λ sink.
        (vec_len sink.bytes + sink.room ≤ vec_capacity sink.bytes) × (0 < sink.piece) };
}

impl MemSink {
    /// A sink that has taken nothing and has no room yet, takes at most `piece` bytes per call, which
    /// is at least 1, and fails the calls whose numbers, counted from 0, are listed.
    pub fn new(alloc: Global, piece: usize, failing: List<u32>) -> MemSink
        requires { 0 < piece }
        ensures { result ≡ record {
          taken = [];
          room = 0;
          piece = piece;
          failing = failing;
          calls = 0;
          faults = 0;
        } }
    {
        MemSink {
            bytes: Vec::new(alloc),
            room: 0,
            piece,
            failing,
            calls: 0,
            faults: 0,
        }
    }

    /// The bytes that it took.
    pub fn bytes(&self) -> &[u8]
        ensures { result.now ≡ self.now.taken }
    {
        self.bytes.as_slice()
    }

    /// Makes room for `n` bytes, where there is less; [`NoMemory`] comes only then, and the sink is as
    /// it was. Each byte that is taken lowers the room by one, and a write for which there is too
    /// little room fails.
    pub fn reserve(&mut self, n: usize) -> Result<(), NoMemory>
        ensures ok { OnOk result (self.new ≡ record self.old { room = max self.old.room n }) }
        ensures enough { n ≤ self.old.room → IsOk result }
        ensures refused { OnErr result (self.new ≡ self.old) }
    {
        if self.room < n {
            self.bytes.reserve(n)?;
            self.room = n;
        }
        Ok(())
    }
}

impl Sink for MemSink {
    ghost taken = { λ sink. Some sink.taken };

    ghost faults = { λ sink. sink.faults };

    fn write(&mut self, from: &[u8]) -> Result<usize, Fault>
        // As at any sink.
        ensures within { IfOk result (λ n. n ≤ length from.now) }
        ensures some { IfOk result (λ n. 0 < length from.now → 0 < n) }
        ensures counts { self.old.faults ≤ self.new.faults }
        ensures fault { OnErr result (HasRisen self.old.faults self.new.faults) }
        ensures bytes { IsWrite (Some self.old.taken) (Some self.new.taken) from.now result }

        // Which calls fail, how many bytes the others take, and what it holds then.
        ensures fails { IsErr result ↔ Refuses self.old (length from.now) }
        ensures count { IfOk result (λ n. n ≡ count_taken self.old (length from.now)) }
        ensures written { IfOk result (λ n. self.new ≡ after_taking n from.now self.old) }
        ensures failed { OnErr result (self.new ≡ after_failing self.old) }
    {
        let is_failing = is_listed(self.failing.as_slice(), self.calls);
        self.calls = self.calls.saturating_add(1);
        let count = self.piece.min(from.len());
        if is_failing || self.room < count {
            self.faults = self.faults.saturating_add(1);
            return Err(Fault);
        }
        self.bytes.extend_from_slice(&from[..count]).unwrap();
        self.room -= count;
        Ok(count)
    }
}
