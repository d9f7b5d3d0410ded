//! The graph with exact drops of a text, by the calls of its parts.
ghost use Rattle.std.specs.Prelude.{◌<◌, ◌-◌, ◌^◌, length};
ghost use Rattle.cfg_graph.specs.WellFormed.Faults.{IsCounted};

use cfg_graph::Graph;
use drop_graphs::elaborate;
use listing_write::write_listing;
use mir_base::{List, NoMemory};
use mir_pipeline::{Refusal, build_raw, checked_uses};
use std::alloc::Global;

/// The listing of a graph.
#[tactic(auto, using(crate::proofs::Elaborated::short_graph))]
fn listed(alloc: Global, graph: &Graph) -> Result<List<u8>, NoMemory>
    requires { IsCounted graph.now }
{
    write_listing(alloc, graph)
}

/// The listing of the graph that is elaborated of the raw graph of a text, which is accepted.
fn elaborated(alloc: Global, text: &[u8]) -> Result<List<u8>, Refusal>
    requires { length text.now < 2 ^ 32 - 1 }
{
    let lowered = build_raw(alloc, text)?;
    checked_uses(alloc, &lowered)?;
    let done = match elaborate(alloc, &lowered.graph) {
        Ok(done) => done,
        Err(NoMemory) => return Err(Refusal::Memory),
    };
    match listed(alloc, &done.graph) {
        Ok(listing) => Ok(listing),
        Err(NoMemory) => Err(Refusal::Memory),
    }
}

/// Whether this is the listing of the graph that is elaborated of the raw graph of a text.
pub fn is_elaborated(alloc: Global, text: &[u8], listing: &[u8]) -> bool {
    if text.len() > 131_072 {
        return false;
    }
    match elaborated(alloc, text) {
        Ok(own) => own.as_slice() == listing,
        Err(_) => false,
    }
}
