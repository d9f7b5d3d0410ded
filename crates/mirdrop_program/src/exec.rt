//! The command `exec`.
ghost use Rattle.std.specs.Prelude.{◌≡◌, ◌≤◌, length};
ghost use Rattle.mir_edge.specs.Faults.{HasRisen};
ghost use Rattle.mirdrop_program.specs.TopCall.{Responded};
ghost use Rattle.mirdrop_program.specs.declared.request.Command.{Command as a_command};

use crate::Request;
use crate::deliver::hand_on;
use crate::refusals::refused_listing;
use crate::run::run_graph;
use mir_edge::Sink;
use mir_text::read_listing;
use std::alloc::Global;

/// Runs the graph that a text lists.
pub fn run_listing<K: Sink>(alloc: Global, request: &Request, text: &[u8], sink: &mut K) -> u8
    requires short { length text.now ≤ 131072 }
    requires ticks { request.now.ticks ≤ 1000000000 }
    requires command { request.now.command ≡ a_command.Exec }
    ensures counts { K.faults sink.old ≤ K.faults sink.new }
    ensures done { Responded request.now text.now (K.taken sink.old) (K.taken sink.new) (HasRisen (K.faults sink.old) (K.faults sink.new)) result }
{
    match read_listing(alloc, text) {
        Ok(graph) => {
            let status = run_graph(alloc, request, &graph, sink);
            graph.discard();
            status
        }
        Err(error) => hand_on(sink, refused_listing(alloc, error)),
    }
}
