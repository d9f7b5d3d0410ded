//! The command `run`.
ghost use Rattle.std.specs.Prelude.{◌≡◌, ◌≤◌, length};
ghost use Rattle.cfg_graph.specs.WellFormed.Faults.{IsWellFormed};
ghost use Rattle.cfg_meaning.specs.Programs.{graph_run};
ghost use Rattle.mir_edge.specs.Faults.{HasRisen};
ghost use Rattle.mir_machine.specs.Runs.{run_text};
ghost use Rattle.mirdrop_program.specs.Owed.{end_status};
ghost use Rattle.mirdrop_program.specs.TopCall.{Responded};
ghost use Rattle.mirdrop_program.specs.Written.{Ran, error_status};
ghost use Rattle.mirdrop_program.specs.declared.request.Command.{Command as a_command};

use crate::Request;
use crate::deliver::hand_on;
use crate::refusals::refused_answer;
use cfg_graph::Graph;
use mir_base::End;
use mir_edge::Sink;
use mir_machine::{RunError, run};
use mir_pipeline::build;
use std::alloc::Global;

/// The status of a run, by its end.
pub fn status_by(end: End) -> u8
    ensures { result ≡ end_status end }
{
    match end {
        End::Returned => 0,
        End::Panicked => 10,
        End::Aborted => 11,
        End::OutOfTicks => 12,
        End::Stuck { .. } => 13,
    }
}

/// The status of a run that was not written to its end.
pub fn status_without(error: RunError) -> u8
    ensures { result ≡ error_status error }
{
    match error {
        RunError::WriteFault { .. } => 4,
        RunError::Memory => 5,
    }
}

/// Runs a graph by strict steps, and writes its trace as it comes.
pub fn run_graph<K: Sink>(alloc: Global, request: &Request, graph: &Graph, sink: &mut K) -> u8
    requires well_formed { IsWellFormed graph.now }
    requires ticks { request.now.ticks ≤ 1000000000 }
    ensures counts { K.faults sink.old ≤ K.faults sink.new }
    ensures done { Ran (end_status (graph_run graph.now request.now.asks request.now.ticks).1)
        (run_text graph.now (graph_run graph.now request.now.asks request.now.ticks))
        (K.taken sink.old) (K.taken sink.new) (HasRisen (K.faults sink.old) (K.faults sink.new)) result }
{
    match run(alloc, graph, request.asks.as_slice(), request.ticks, sink) {
        Ok(end) => status_by(end),
        Err(error) => status_without(error),
    }
}

/// Runs the program of a text, if it is accepted.
pub fn run_program<K: Sink>(alloc: Global, request: &Request, text: &[u8], sink: &mut K) -> u8
    requires short { length text.now ≤ 131072 }
    requires ticks { request.now.ticks ≤ 1000000000 }
    requires command { request.now.command ≡ a_command.Run }
    ensures counts { K.faults sink.old ≤ K.faults sink.new }
    ensures done { Responded request.now text.now (K.taken sink.old) (K.taken sink.new) (HasRisen (K.faults sink.old) (K.faults sink.new)) result }
{
    match build(alloc, text) {
        Ok(done) => {
            let status = run_graph(alloc, request, &done.graph, sink);
            done.discard();
            status
        }
        Err(refusal) => hand_on(sink, refused_answer(alloc, &refusal)),
    }
}
