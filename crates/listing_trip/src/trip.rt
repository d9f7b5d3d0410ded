//! The listing of a graph, and the graph that is read of it.
ghost use Rattle.std.specs.Prelude.{◌≡◌, IfOk, length};
ghost use Rattle.cfg_graph.specs.WellFormed.Faults.{IsCounted, IsWellFormed};
ghost use Rattle.listing_write.specs.Listing.{listing};
ghost use Rattle.listing_trip.specs.Trip.{ReadsBack, RunsAs};
ghost use Rattle.mir_text.specs.declared.error.ListingError.{ListingError as an_error};

use crate::numbers::numbers_fit;
use cfg_graph::Graph;
use listing_write::write_listing;
use mir_base::{List, NoMemory};
use mir_text::{ListingError, read_listing};
use mir_ty::TyId;
use std::alloc::Global;

/// The listing of a well formed graph whose lists are short, with a signature for each body and for nothing else. What a
/// reader answers to that listing is a graph that runs alike by strict steps, with the same text of each run, or that memory
/// is wanted.
#[tactic(auto, using(crate::proofs::ReadBack::short_graph, crate::proofs::ReadBack::reads_back))]
pub fn list_graph(alloc: Global, graph: &Graph) -> Result<List<u8>, NoMemory>
    requires well_formed { IsWellFormed graph.now }
    requires counted { IsCounted graph.now }
    requires signed { length graph.now.items.bodies ≡ length graph.now.bodies }
    ensures listed { IfOk result (λ text. text ≡ listing graph.now) }
    ensures reads_back { IfOk result (λ _. ReadsBack graph.now) }
{
    numbers_fit(graph);
    let _first = graph.items.ty(TyId(0));
    write_listing(alloc, graph)
}

/// The one reason for which such a listing is not read.
fn want_of(error: &ListingError) -> NoMemory
    requires { error.now ≡ an_error.Memory }
{
    NoMemory
}

/// The graph that is read of the listing of a graph; it runs as that does.
pub fn read_back(alloc: Global, graph: &Graph) -> Result<Graph, NoMemory>
    requires well_formed { IsWellFormed graph.now }
    requires counted { IsCounted graph.now }
    requires signed { length graph.now.items.bodies ≡ length graph.now.bodies }
    ensures well_formed { IfOk result IsWellFormed }
    ensures runs { IfOk result (λ read. RunsAs graph.now read) }
{
    let text = list_graph(alloc, graph)?;
    match read_listing(alloc, text.as_slice()) {
        Ok(read) => Ok(read),
        Err(error) => Err(want_of(&error)),
    }
}
