//! The command `soak`.
ghost use Rattle.std.specs.Prelude.{◌≡◌, ◌≤◌, IfOk};
ghost use Rattle.cfg_graph.specs.WellFormed.Faults.{IsWellFormed};
ghost use Rattle.mir_pipeline.specs.Built.{IsBuiltOf};
ghost use Rattle.mir_pipeline.specs.declared.refusal.Refusal.{Refusal as a_refusal};
ghost use Rattle.mirdrop_program.specs.Owed.{OwedBySoak, end_status};
ghost use Rattle.mirdrop_program.specs.Written.{IsSoaked};
ghost use Rattle.soak_text.specs.Text as text;
ghost use Rattle.trace_summary.specs.Summary.{summary_of};

use crate::answers::Answer;
use crate::run::status_by;
use cfg_graph::Graph;
use drop_graphs::Elaborated;
use listing_trip::read_back;
use mir_base::{End, NoMemory};
use mir_machine::run_counted;
use mir_pipeline::{Refusal, build};
use soak_text::soak_text;
use std::alloc::Global;
use trace_summary::{Counts, summary};

/// What is asked.
const ZEROS: [i32; 64] = [0; 64];

/// The one reason for which the text of that program is refused.
fn want_of(refusal: &Refusal) -> NoMemory
    requires { refusal.now ≡ a_refusal.Memory }
{
    NoMemory
}

/// The graph with exact drops of the program that `soak` runs, which is refused for want of memory alone.
fn soak_graph(alloc: Global, functions: u32) -> Result<Elaborated, NoMemory>
    requires some { 1 ≤ functions }
    requires few { functions ≤ 1500 }
    ensures { IfOk result (λ done. IsBuiltOf (text.soak_text functions) done) }
{
    let text = soak_text(alloc, functions)?;
    match build(alloc, text.as_slice()) {
        Ok(done) => Ok(done),
        Err(refusal) => Err(want_of(&refusal)),
    }
}

/// The summary of a run, as an answer.
fn summary_answer(
    alloc: Global,
    functions: u32,
    end: End,
    counts: &Counts,
) -> Result<Answer, NoMemory>
    ensures status { IfOk result (λ answer. answer.status ≡ end_status end) }
    ensures text { IfOk result (λ answer. answer.text.items ≡ summary_of functions counts.now end) }
{
    let text = summary(alloc, functions, counts, &end)?;
    Ok(Answer {
        status: status_by(end),
        text: text.into_bytes(),
    })
}

/// The graph that is read back of the listing of the graph of that program; it runs as the program does.
fn listed_graph(alloc: Global, functions: u32) -> Result<Graph, NoMemory>
    requires some { 1 ≤ functions }
    requires few { functions ≤ 1500 }
    ensures well_formed { IfOk result IsWellFormed }
    ensures runs { IfOk result (IsSoaked functions) }
{
    let done = soak_graph(alloc, functions)?;
    let read = read_back(alloc, &done.graph);
    done.discard();
    read
}

/// The summary of the run of the program with so many functions, where 64 zeros are asked: it is built, its graph is
/// listed, and the graph that is read of the listing is run. The events of the run are counted as they come, and no trace
/// is kept.
pub fn soak_answer(alloc: Global, functions: u32, ticks: u64) -> Result<Answer, NoMemory>
    requires some { 1 ≤ functions }
    requires few { functions ≤ 1500 }
    requires ticks { ticks ≤ 1000000000 }
    ensures { IfOk result (λ answer. OwedBySoak functions ticks answer.status answer.text.items) }
{
    let graph = listed_graph(alloc, functions)?;
    let ran = run_counted(alloc, &graph, &ZEROS, ticks);
    graph.discard();
    match ran {
        Ok((end, counts)) => summary_answer(alloc, functions, end, &counts),
        Err(NoMemory) => Err(NoMemory),
    }
}
