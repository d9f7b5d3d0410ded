//! The command `build`.
ghost use Rattle.std.specs.Prelude.{◌≡◌, ◌≤◌, IfOk, length};
ghost use Rattle.cfg_graph.specs.WellFormed.Faults.{IsCounted, IsWellFormed};
ghost use Rattle.listing_trip.specs.Trip.{ReadsBack};
ghost use Rattle.listing_write.specs.Listing.{listing};
ghost use Rattle.mirdrop_program.specs.Owed.{OwedByBuild};

use crate::answers::Answer;
use crate::refusals::refused_answer;
use cfg_graph::Graph;
use listing_trip::list_graph;
use mir_base::NoMemory;
use mir_pipeline::build;
use std::alloc::Global;

/// The listing of a graph that is built, as an answer.
fn built_answer(alloc: Global, graph: &Graph) -> Result<Answer, NoMemory>
    requires well_formed { IsWellFormed graph.now }
    requires counted { IsCounted graph.now }
    requires signed { length graph.now.items.bodies ≡ length graph.now.bodies }
    ensures status { IfOk result (λ answer. answer.status ≡ 0) }
    ensures text { IfOk result (λ answer. answer.text.items ≡ listing graph.now) }
    ensures reads_back { IfOk result (λ _. ReadsBack graph.now) }
{
    let text = list_graph(alloc, graph)?;
    Ok(Answer {
        status: 0,
        text: text.into_vec(),
    })
}

/// The listing of the graph of a text, with exact drops.
pub fn build_answer(alloc: Global, text: &[u8]) -> Result<Answer, NoMemory>
    requires { length text.now ≤ 131072 }
    ensures { IfOk result (λ answer. OwedByBuild text.now answer.status answer.text.items) }
{
    match build(alloc, text) {
        Ok(done) => {
            let answer = built_answer(alloc, &done.graph);
            done.discard();
            answer
        }
        Err(refusal) => refused_answer(alloc, &refusal),
    }
}
