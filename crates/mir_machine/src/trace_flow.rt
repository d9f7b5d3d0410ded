//! The text of a run on its way to a sink.
ghost use Rattle.std.specs.Prelude.{◌≡◌, ◌≤◌, [], map, IfOk, IfErr, OnOk, OnErr, ◌++◌, string_bytes};
ghost use Rattle.mir_base.specs.Lines.{end_line, event_line, event_lines};
ghost use Rattle.mir_edge.specs.Faults.{HasRisen};
ghost use Rattle.mir_machine.specs.Flows.{FlowsOn, StopsIn};
ghost use Rattle.mir_machine.specs.Errors.{IsWriteFault};
ghost use Rattle.machine_steps.specs.Worlds.{event_of};
ghost use Rattle.mir_ty.specs.Named.{adt_name, body_name};

use crate::RunError;
use crate::text::{last_line, line_of};
use machine_steps::ToldEvents;
use mir_base::{End, NoMemory};
use mir_edge::{Sink, WriteFault, write_whole};
use mir_ty::Items;
use std::alloc::Global;

/// How many bytes wait at most, unless one line is longer.
const PIECE: usize = 8192;

/// The text of a run on its way to a sink.
#[derive(Drop)]
pub struct TextFlow {
    /// How many bytes the sink took.
    pub sent: u64,
    /// What waits to be sent.
    pub piece: String,
}

impl TextFlow {
    /// Nothing was sent, and nothing waits.
    pub fn new(alloc: Global) -> TextFlow
        ensures sent { result.sent ≡ 0 }
        ensures waits { string_bytes result.piece ≡ [] }
    {
        TextFlow {
            sent: 0,
            piece: String::new(alloc),
        }
    }

    /// Sends what waits.
    fn send<K: Sink>(&mut self, out: &mut K) -> Result<(), RunError>
        ensures counts { K.faults out.old ≤ K.faults out.new }
        ensures fault { IfErr result (λ error. IsWriteFault error → HasRisen (K.faults out.old) (K.faults out.new)) }
        ensures sent { OnOk result (FlowsOn (K.taken out.old) (K.taken out.new) self.old self.new []) }
        ensures all { OnOk result (string_bytes self.new.piece ≡ []) }
        ensures stops { IfErr result (StopsIn (K.taken out.old) (K.taken out.new) self.old []) }
    {
        let Some(sent) = self.sent.checked_add(self.piece.len() as u64) else {
            // A text of 2^64 bytes: no run comes so far.
            return Err(RunError::Memory);
        };
        match write_whole(out, self.piece.as_bytes()) {
            Ok(()) => {
                self.sent = sent;
                self.piece.clear();
                Ok(())
            }
            Err(WriteFault { written }) => Err(RunError::WriteFault {
                written: self.sent + written as u64,
            }),
        }
    }

    /// Some more of the text waits.
    fn keep(&mut self, more: &str) -> Result<(), NoMemory>
        ensures kept { OnOk result ((self.new.sent ≡ self.old.sent)
            × (string_bytes self.new.piece ≡ string_bytes self.old.piece ++ more.now)) }
    {
        self.piece.push_str(more)?;
        Ok(())
    }

    /// Sends what waits where it would be too long with so many bytes more.
    #[tactic(auto, using(crate::proofs::FlowsOnward::flows_same))]
    fn make_room<K: Sink>(&mut self, length: usize, out: &mut K) -> Result<(), RunError>
        ensures counts { K.faults out.old ≤ K.faults out.new }
        ensures fault { IfErr result (λ error. IsWriteFault error → HasRisen (K.faults out.old) (K.faults out.new)) }
        ensures sent { OnOk result (FlowsOn (K.taken out.old) (K.taken out.new) self.old self.new []) }
        ensures stops { IfErr result (StopsIn (K.taken out.old) (K.taken out.new) self.old []) }
    {
        if self.piece.len().saturating_add(length) > PIECE {
            return self.send(out);
        }
        Ok(())
    }

    /// A line more of the text. What waits is sent first where it would be too long with the line.
    fn add<K: Sink>(&mut self, line: &str, out: &mut K) -> Result<(), RunError>
        ensures counts { K.faults out.old ≤ K.faults out.new }
        ensures fault { IfErr result (λ error. IsWriteFault error → HasRisen (K.faults out.old) (K.faults out.new)) }
        ensures flows { OnOk result (FlowsOn (K.taken out.old) (K.taken out.new) self.old self.new line.now) }
        ensures stops { IfErr result (StopsIn (K.taken out.old) (K.taken out.new) self.old line.now) }
    {
        if let Err(error) = self.make_room(line.len(), out) {
            return Err(error);
        }
        match self.keep(line) {
            Ok(()) => Ok(()),
            Err(NoMemory) => Err(RunError::Memory),
        }
    }

    /// The line of one event.
    fn tell_one<K: Sink>(
        &mut self,
        alloc: Global,
        items: &Items,
        told: &ToldEvents,
        out: &mut K,
    ) -> Result<(), RunError>
        ensures counts { K.faults out.old ≤ K.faults out.new }
        ensures fault { IfErr result (λ error. IsWriteFault error → HasRisen (K.faults out.old) (K.faults out.new)) }
        ensures flows { OnOk result (FlowsOn (K.taken out.old) (K.taken out.new) self.old self.new
            (event_line (body_name items.now) (adt_name items.now) (event_of told.now))) }
        ensures stops { IfErr result (StopsIn (K.taken out.old) (K.taken out.new) self.old
            (event_line (body_name items.now) (adt_name items.now) (event_of told.now))) }
    {
        match line_of(alloc, items, told) {
            Ok(line) => self.add(line.as_str(), out),
            Err(NoMemory) => Err(RunError::Memory),
        }
    }

    /// The lines of events.
    pub fn tell<K: Sink>(
        &mut self,
        alloc: Global,
        items: &Items,
        told: &[ToldEvents],
        out: &mut K,
    ) -> Result<(), RunError>
        ensures counts { K.faults out.old ≤ K.faults out.new }
        ensures fault { IfErr result (λ error. IsWriteFault error → HasRisen (K.faults out.old) (K.faults out.new)) }
        ensures flows { OnOk result (FlowsOn (K.taken out.old) (K.taken out.new) self.old self.new
            (event_lines (body_name items.now) (adt_name items.now) (map event_of told.now))) }
        ensures stops { IfErr result (StopsIn (K.taken out.old) (K.taken out.new) self.old
            (event_lines (body_name items.now) (adt_name items.now) (map event_of told.now))) }
    {
        for one in told {
            if let Err(error) = self.tell_one(alloc, items, one, out) {
                return Err(error);
            }
        }
        Ok(())
    }

    /// The last of the text, and then all is sent.
    fn add_last<K: Sink>(&mut self, line: &str, out: &mut K) -> Result<(), RunError>
        ensures counts { K.faults out.old ≤ K.faults out.new }
        ensures fault { IfErr result (λ error. IsWriteFault error → HasRisen (K.faults out.old) (K.faults out.new)) }
        ensures flows { OnOk result (FlowsOn (K.taken out.old) (K.taken out.new) self.old self.new line.now) }
        ensures all { OnOk result (string_bytes self.new.piece ≡ []) }
        ensures stops { IfErr result (StopsIn (K.taken out.old) (K.taken out.new) self.old line.now) }
    {
        match self.add(line, out) {
            Ok(()) => self.send(out),
            Err(error) => Err(error),
        }
    }

    /// The last line, and then all is sent.
    pub fn end<K: Sink>(&mut self, alloc: Global, end: &End, out: &mut K) -> Result<(), RunError>
        ensures counts { K.faults out.old ≤ K.faults out.new }
        ensures fault { IfErr result (λ error. IsWriteFault error → HasRisen (K.faults out.old) (K.faults out.new)) }
        ensures flows { OnOk result (FlowsOn (K.taken out.old) (K.taken out.new) self.old self.new (end_line end.now)) }
        ensures all { OnOk result (string_bytes self.new.piece ≡ []) }
        ensures stops { IfErr result (StopsIn (K.taken out.old) (K.taken out.new) self.old (end_line end.now)) }
    {
        match last_line(alloc, end) {
            Ok(line) => self.add_last(line.as_str(), out),
            Err(NoMemory) => Err(RunError::Memory),
        }
    }
}
