//! Runs that are told to people.
ghost use Rattle.std.specs.Prelude.{◌≡◌, ◌≤◌, IfOk, length};
ghost use Rattle.cfg_graph.specs.WellFormed.Faults.{IsWellFormed};
ghost use Rattle.mir_pipeline.specs.Graphs.{IsLoweredOf};
ghost use Rattle.typed_tree.specs.View.{program_of};
ghost use Rattle.look_marked.specs.Marked as marks;
ghost use Rattle.look_program.specs.Traces as traces;
ghost use Rattle.look_program.specs.Traces.{HasAcceptedGraph};

use crate::Answer;
use crate::answers::{refused_answer, use_answer};
use cfg_build::Lowered;
use cfg_graph::Graph;
use look_lines::{Gathered, tell};
use look_marked::with_numbers;
use look_places::program_places;
use mir_base::NoMemory;
use mir_machine::run_raw;
use mir_pipeline::{build_raw, checked_uses, read_typed};
use std::alloc::Global;
use typed_tree::Typed;

/// The text of a run of a raw graph.
fn run_text(alloc: Global, graph: &Graph, asks: &[i32], ticks: u64) -> Result<Vec<u8>, NoMemory>
    requires well_formed { IsWellFormed graph.now }
    requires within { ticks ≤ 1000000000 }
    ensures { IfOk result (λ text. text.items ≡ traces.run_text graph.now asks.now ticks) }
{
    let mut sink = Gathered::new(alloc);
    match run_raw(alloc, graph, asks, ticks, &mut sink) {
        Ok(_) => Ok(sink.into_bytes()),
        Err(_) => Err(NoMemory),
    }
}

/// The text of a run in which each line of a raw graph tells its number.
fn marked_run(alloc: Global, graph: Graph, asks: &[i32], ticks: u64) -> Result<Vec<u8>, NoMemory>
    requires well_formed { IsWellFormed graph }
    requires within { ticks ≤ 1000000000 }
    ensures { IfOk result (λ text. text.items ≡ traces.run_text (marks.marked graph) asks.now ticks) }
{
    let told = with_numbers(alloc, graph)?;
    let run = run_text(alloc, &told, asks, ticks);
    told.discard();
    run
}

/// The run of a program whose raw graph this is.
fn trace(
    alloc: Global,
    text: &[u8],
    typed: &Typed,
    graph: Graph,
    asks: &[i32],
    ticks: u64,
) -> Result<Answer, NoMemory>
    requires well_formed { IsWellFormed graph }
    requires within { ticks ≤ 1000000000 }
    ensures status { IfOk result (λ answer. answer.status ≡ 0) }
    ensures text { IfOk result (λ answer. answer.text.items
        ≡ traces.trace_of text.now (program_of typed.now) graph asks.now ticks) }
{
    let run = marked_run(alloc, graph, asks, ticks)?;
    let places = program_places(alloc, typed)?;
    Ok(Answer {
        status: 0,
        text: tell(alloc, text, places.as_slice(), run.as_slice())?,
    })
}

/// The run of an accepted text, whose raw graph this is.
fn trace_accepted(
    alloc: Global,
    text: &[u8],
    graph: Graph,
    asks: &[i32],
    ticks: u64,
) -> Result<Answer, NoMemory>
    requires length { length text.now ≤ 131072 }
    requires within { ticks ≤ 1000000000 }
    requires accepted { HasAcceptedGraph text.now graph }
    ensures { IfOk result (λ answer. traces.OwedTrace text.now asks.now ticks answer.status answer.text.items) }
{
    match read_typed(alloc, text) {
        Ok(typed) => {
            let answer = trace(alloc, text, &typed, graph, asks, ticks);
            typed.discard();
            answer
        }
        Err(refusal) => {
            graph.discard();
            refused_answer(alloc, text, &refusal)
        }
    }
}

/// The run of a text that has this raw graph, or the refusal of a use.
fn trace_lowered(
    alloc: Global,
    text: &[u8],
    lowered: Lowered,
    asks: &[i32],
    ticks: u64,
) -> Result<Answer, NoMemory>
    requires length { length text.now ≤ 131072 }
    requires within { ticks ≤ 1000000000 }
    requires lowered { IsLoweredOf text.now lowered }
    ensures { IfOk result (λ answer. traces.OwedTrace text.now asks.now ticks answer.status answer.text.items) }
{
    match checked_uses(alloc, &lowered) {
        Ok(()) => {
            let Lowered { graph, sites } = lowered;
            drop(sites);
            trace_accepted(alloc, text, graph, asks, ticks)
        }
        Err(refusal) => {
            let answer = use_answer(alloc, text, &lowered, &refusal);
            lowered.discard();
            answer
        }
    }
}

/// A run of the program of a text of at most 131,072 bytes, by its raw graph, with these numbers to be asked and at most
/// 1,000,000,000 ticks: each line of the trace with the place in the text of the line of the graph that made it, the
/// serial numbers that are alive then, and that line of the text. Where the text is not accepted, its refusal is
/// explained, and the status is 1.
///
/// # Errors
///
/// [`NoMemory`] where memory is wanted.
pub fn trace_text(alloc: Global, asks: &[i32], ticks: u64, text: &[u8]) -> Result<Answer, NoMemory>
    requires length { length text.now ≤ 131072 }
    requires within { ticks ≤ 1000000000 }
    ensures { IfOk result (λ answer. traces.OwedTrace text.now asks.now ticks answer.status answer.text.items) }
{
    match build_raw(alloc, text) {
        Ok(lowered) => trace_lowered(alloc, text, lowered, asks, ticks),
        Err(refusal) => refused_answer(alloc, text, &refusal),
    }
}
