ghost use Rattle.std.specs.Prelude.{◌≡◌, ℕ, ◌<◌, ◌≤◌, List, ◌++◌, length, take, Option, Some, IfOk, IfErr, OnOk, OnErr};
ghost use Rattle.mir_edge.specs.Faults.{HasRisen};
ghost use Rattle.mir_edge.specs.Sink.{IsWrite};
ghost use Rattle.mir_edge.specs.Told.{WhereTold};

use crate::Fault;
use thiserror::Error;

/// Where bytes go.
///
/// Contracts see two things of it: the bytes that it has taken, where it tells them, and a count of
/// faults. The count is a `u64`. Where it stands at the greatest `u64` it cannot be seen to rise,
/// and counts as risen.
pub trait Sink {
    ghost taken: { Self → Option (List ℕ) };

    ghost faults: { Self → ℕ };

    /// Takes bytes from the front of `from`, and answers how many; 0 comes only where `from` is
    /// empty. [`Fault`] comes only where the count of faults rose in the call, and then no byte was
    /// taken.
    fn write(&mut self, from: &[u8]) -> Result<usize, Fault>
        ensures within { IfOk result (λ n. n ≤ length from.now) }
        ensures some { IfOk result (λ n. 0 < length from.now → 0 < n) }
        ensures counts { faults self.old ≤ faults self.new }
        ensures fault { OnErr result (HasRisen (faults self.old) (faults self.new)) }
        ensures bytes { IsWrite (taken self.old) (taken self.new) from.now result };
}

/// A write failed: the sink's count of faults rose, and exactly the first `written` bytes of the
/// text were taken.
#[derive(Clone, Copy, Debug, PartialEq, Eq, Error)]
#[error("a write failed after {written} bytes")]
pub struct WriteFault {
    pub written: usize,
}

/// Writes a whole text. It takes no memory.
pub fn write_whole<K: Sink>(sink: &mut K, text: &[u8]) -> Result<(), WriteFault>
    // At any sink.
    ensures counts { K.faults sink.old ≤ K.faults sink.new }
    ensures fault { OnErr result (HasRisen (K.faults sink.old) (K.faults sink.new)) }
    ensures within { IfErr result (λ error. error.written ≤ length text.now) }

    // Where the sink tells what it has taken.
    ensures whole { OnOk result (WhereTold (K.taken sink.old) (λ taken.
        K.taken sink.new ≡ Some (taken ++ text.now))) }
    ensures part { IfErr result (λ error. WhereTold (K.taken sink.old) (λ taken.
        K.taken sink.new ≡ Some (taken ++ take error.written text.now))) }
{
    let mut written = 0;
    while written < text.len() {
        match sink.write(&text[written..]) {
            Ok(count) => written += count,
            Err(Fault) => return Err(WriteFault { written }),
        }
    }
    Ok(())
}
