//! The command `raw`.
ghost use Rattle.std.specs.Prelude.{◌≡◌, ◌≤◌, ◌++◌, ℕ, List as Listed, IfOk, IsTrue, ◌↔◌, length};
ghost use Rattle.cfg_graph.specs.WellFormed.Faults.{IsCounted, IsWellFormed};
ghost use Rattle.mir_pipeline.specs.Graphs.{AreSited, IsLoweredOf, RefusesUses};
ghost use Rattle.listing_write.specs.Listing.{listing};
ghost use Rattle.mirdrop_program.specs.Owed.{IsOfUse, OwedByRaw};
ghost use Rattle.mirdrop_program.specs.Refusals.{refusal_lines};

use crate::answers::Answer;
use crate::refusals::{lines_of, refused_answer};
use cfg_build::Lowered;
use cfg_graph::Graph;
use listing_write::write_listing;
use mir_base::NoMemory;
use mir_pipeline::{Refusal, build_raw, checked_uses};
use std::alloc::Global;

/// The listing of a graph, as an answer.
#[tactic(auto, using(crate::proofs::Owing::short_graph))]
pub fn listing_of(alloc: Global, graph: &Graph) -> Result<Answer, NoMemory>
    requires { IsCounted graph.now }
    ensures status { IfOk result (λ answer. answer.status ≡ 0) }
    ensures text { IfOk result (λ answer. answer.text.items ≡ listing graph.now) }
{
    let text = write_listing(alloc, graph)?;
    Ok(Answer {
        status: 0,
        text: text.into_vec(),
    })
}

/// The listing of a graph, with the lines of a refusal behind it.
fn listing_with(alloc: Global, graph: &Graph, refusal: &Refusal) -> Result<Answer, NoMemory>
    requires { IsCounted graph.now }
    ensures status { IfOk result (λ answer. answer.status ≡ 0) }
    ensures text { IfOk result (λ answer. answer.text.items ≡ listing graph.now ++ refusal_lines refusal.now) }
{
    let lines = lines_of(alloc, refusal)?;
    let mut answer = listing_of(alloc, graph)?;
    answer.text.extend_from_slice(lines.as_bytes())?;
    Ok(answer)
}

/// Whether a refusal is one of a use.
fn is_of_use(refusal: &Refusal) -> bool
    ensures { IsTrue result ↔ IsOfUse refusal.now }
{
    matches!(refusal, Refusal::U1 { .. } | Refusal::U2 { .. })
}

/// The answer to a text whose graph has uses that are refused.
fn with_refusal(alloc: Global, lowered: &Lowered, refusal: &Refusal) -> Result<Answer, NoMemory>
    requires counted { IsCounted lowered.now.graph }
    requires refused { RefusesUses lowered.now refusal.now }
    ensures { IfOk result (λ answer. (text : Listed ℕ) → IsLoweredOf text lowered.now →
        OwedByRaw text answer.status answer.text.items) }
{
    if is_of_use(refusal) {
        listing_with(alloc, &lowered.graph, refusal)
    } else {
        Err(NoMemory::cannot_be())
    }
}

/// The answer to a text that has this graph.
fn graph_answer(alloc: Global, lowered: &Lowered) -> Result<Answer, NoMemory>
    requires well_formed { IsWellFormed lowered.now.graph }
    requires counted { IsCounted lowered.now.graph }
    requires sited { AreSited lowered.now }
    ensures { IfOk result (λ answer. (text : Listed ℕ) → IsLoweredOf text lowered.now →
        OwedByRaw text answer.status answer.text.items) }
{
    match checked_uses(alloc, lowered) {
        Ok(()) => listing_of(alloc, &lowered.graph),
        Err(refusal) => with_refusal(alloc, lowered, &refusal),
    }
}

/// The listing of the raw graph of a text, with its first bad use behind it.
pub fn raw_answer(alloc: Global, text: &[u8]) -> Result<Answer, NoMemory>
    requires { length text.now ≤ 131072 }
    ensures { IfOk result (λ answer. OwedByRaw text.now answer.status answer.text.items) }
{
    match build_raw(alloc, text) {
        Ok(lowered) => {
            let answer = graph_answer(alloc, &lowered);
            lowered.discard();
            answer
        }
        Err(refusal) => refused_answer(alloc, &refusal),
    }
}
