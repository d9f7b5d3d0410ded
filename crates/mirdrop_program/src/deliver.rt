//! Texts that are handed to a sink.
ghost use Rattle.std.specs.Prelude.{◌≡◌, ◌≤◌};
ghost use Rattle.mir_edge.specs.Faults.{HasRisen};
ghost use Rattle.mirdrop_program.specs.TopCall.{Delivered};
ghost use Rattle.mirdrop_program.specs.Written.{HandedOn};

use crate::answers::Answer;
use mir_base::NoMemory;
use mir_edge::{Sink, write_whole};

/// Writes all that goes with a status, and answers the status, or 4 where the sink fails.
pub fn deliver<K: Sink>(sink: &mut K, status: u8, text: &[u8]) -> u8
    ensures counts { K.faults sink.old ≤ K.faults sink.new }
    ensures done { Delivered status text.now (K.taken sink.old) (K.taken sink.new) (HasRisen (K.faults sink.old) (K.faults sink.new)) result }
{
    match write_whole(sink, text) {
        Ok(()) => status,
        Err(_) => 4,
    }
}

/// Hands an answer to the sink; where there is none, memory was wanted.
pub fn hand_on<K: Sink>(sink: &mut K, answer: Result<Answer, NoMemory>) -> u8
    ensures counts { K.faults sink.old ≤ K.faults sink.new }
    ensures done { HandedOn answer (K.taken sink.old) (K.taken sink.new) (HasRisen (K.faults sink.old) (K.faults sink.new)) result }
{
    match answer {
        Ok(answer) => deliver(sink, answer.status, answer.text.as_slice()),
        Err(NoMemory) => 5,
    }
}
