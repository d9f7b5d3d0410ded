ghost use Rattle.std.specs.Prelude.{◌≡◌, ◌<◌, ◌≤◌, [], length, Some, IfOk, OnErr};
ghost use Rattle.mir_edge.specs.Faults.{HasRisen};
ghost use Rattle.mir_edge.specs.Sink.{IsWrite};

use mir_edge::{Fault, Sink};
use std::alloc::Global;

/// A sink that keeps all bytes. It fails where memory is wanted, and then counts a fault.
#[derive(Drop)]
pub struct Gathered {
    pub bytes: Vec<u8>,
    pub faults: u64,
}

impl Gathered {
    /// A sink that has taken nothing.
    pub fn new(alloc: Global) -> Gathered
        ensures bytes { result.bytes.items ≡ [] }
        ensures faults { result.faults ≡ 0 }
    {
        Gathered {
            bytes: Vec::new(alloc),
            faults: 0,
        }
    }

    /// The bytes that it took.
    pub fn into_bytes(self) -> Vec<u8>
        ensures { result.items ≡ self.bytes.items }
    {
        let Gathered { bytes, .. } = self;
        bytes
    }
}

impl Sink for Gathered {
    ghost taken = { λ sink. Some sink.bytes.items };

    ghost faults = { λ sink. sink.faults };

    fn write(&mut self, from: &[u8]) -> Result<usize, Fault>
        ensures within { IfOk result (λ n. n ≤ length from.now) }
        ensures some { IfOk result (λ n. 0 < length from.now → 0 < n) }
        ensures counts { self.old.faults ≤ self.new.faults }
        ensures fault { OnErr result (HasRisen self.old.faults self.new.faults) }
        ensures bytes { IsWrite (Some self.old.bytes.items) (Some self.new.bytes.items) from.now result }
    {
        match self.bytes.extend_from_slice(from) {
            Ok(()) => Ok(from.len()),
            Err(_) => {
                self.faults = self.faults.saturating_add(1);
                Err(Fault)
            }
        }
    }
}
