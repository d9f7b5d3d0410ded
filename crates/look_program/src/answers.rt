//! What a text is answered.
ghost use Rattle.std.specs.Prelude.{◌≡◌, ◌≤◌, IfOk, length};
ghost use Rattle.listing_write.specs.Listing.{IsShortGraph};
ghost use Rattle.mir_pipeline.specs.Built.{IsBuiltOf};
ghost use Rattle.mir_pipeline.specs.Graphs.{IsLoweredOf};
ghost use Rattle.mirdrop_program.specs.Owed.{accepted_line};
ghost use Rattle.mirdrop_program.specs.Refusals.{IsTold, IsToldError};
ghost use Rattle.look_program.specs.Answered.{graph_text, is_listing, Owed, OwedToListing, OwedToProgram};
ghost use Rattle.look_draw.specs.Drawings.{drawing};
ghost use Rattle.look_places.specs.Names.{program_names};
ghost use Rattle.typed_tree.specs.View.{program_of};
ghost use Rattle.look_program.specs.Explanations as explanations;
ghost use Rattle.look_program.specs.declared.look.Look.{Look as a_look};

use crate::Look;
use crate::explanations::{explanation, explanation_of_use, listing_explanation};
use cfg_build::{Lowered, Site};
use cfg_graph::Graph;
use drop_graphs::Elaborated;
use look_draw::draw;
use look_places::{BodyNames, program_names as names_of};
use mir_base::NoMemory;
use mir_pipeline::{Refusal, build, build_raw, checked_uses, read_typed};
use mir_text::{ListingError, read_listing};
use std::alloc::Global;
use typed_tree::Typed;

/// An answer that is made whole before its first byte is written.
#[derive(Drop)]
pub struct Answer {
    pub status: u8,
    pub text: Vec<u8>,
}

fn accepted_answer(alloc: Global) -> Result<Answer, NoMemory>
    ensures status { IfOk result (λ answer. answer.status ≡ 0) }
    ensures text { IfOk result (λ answer. answer.text.items ≡ accepted_line) }
{
    let text = String::from_str(alloc, "accepted\n")?;
    Ok(Answer {
        status: 0,
        text: text.into_bytes(),
    })
}

/// The answer to a program that is refused so.
pub fn refused_answer(alloc: Global, text: &[u8], refusal: &Refusal) -> Result<Answer, NoMemory>
    ensures told { IfOk result (λ answer. IsTold refusal.now) }
    ensures status { IfOk result (λ answer. answer.status ≡ 1) }
    ensures text { IfOk result (λ answer. answer.text.items ≡ explanations.explanation text.now refusal.now) }
{
    if matches!(refusal, Refusal::Memory) {
        return Err(NoMemory);
    }
    Ok(Answer {
        status: 1,
        text: explanation(alloc, text, refusal)?,
    })
}

/// The answer to a listing that is refused so.
fn refused_listing(alloc: Global, text: &[u8], error: ListingError) -> Result<Answer, NoMemory>
    ensures told { IfOk result (λ answer. IsToldError error) }
    ensures status { IfOk result (λ answer. answer.status ≡ 1) }
    ensures text { IfOk result (λ answer. answer.text.items ≡ explanations.listing_explanation text.now error) }
{
    if matches!(error, ListingError::Memory) {
        return Err(NoMemory);
    }
    Ok(Answer {
        status: 1,
        text: listing_explanation(alloc, text, error)?,
    })
}

/// The drawing of a graph with these sites and names beside the raw graph that it was made from, as an answer.
fn drawn_answer(
    alloc: Global,
    sites: &[Site],
    names: &[BodyNames],
    raw: &Graph,
    graph: &Graph,
) -> Result<Answer, NoMemory>
    requires { IsShortGraph graph.now }
    ensures status { IfOk result (λ answer. answer.status ≡ 0) }
    ensures text { IfOk result (λ answer. answer.text.items ≡ drawing sites.now names.now raw.now graph.now) }
{
    Ok(Answer {
        status: 0,
        text: draw(alloc, sites, names, raw, graph)?,
    })
}

/// The same with the names of a typed program.
fn drawn_with_names(
    alloc: Global,
    typed: &Typed,
    sites: &[Site],
    raw: &Graph,
    graph: &Graph,
) -> Result<Answer, NoMemory>
    requires { IsShortGraph graph.now }
    ensures status { IfOk result (λ answer. answer.status ≡ 0) }
    ensures text { IfOk result (λ answer. answer.text.items
        ≡ drawing sites.now (program_names (program_of typed.now)) raw.now graph.now) }
{
    let found = names_of(alloc, typed)?;
    drawn_answer(alloc, sites, found.as_slice(), raw, graph)
}

/// The answer to a program of whose graph a use is refused so.
pub fn use_answer(
    alloc: Global,
    text: &[u8],
    lowered: &Lowered,
    refusal: &Refusal,
) -> Result<Answer, NoMemory>
    ensures told { IfOk result (λ answer. IsTold refusal.now) }
    ensures status { IfOk result (λ answer. answer.status ≡ 1) }
    ensures text { IfOk result (λ answer. answer.text.items
        ≡ explanations.explanation_of_use text.now lowered.now refusal.now) }
{
    if matches!(refusal, Refusal::Memory) {
        return Err(NoMemory);
    }
    Ok(Answer {
        status: 1,
        text: explanation_of_use(alloc, text, lowered, refusal)?,
    })
}

/// Whether the uses of a program's graph stand, or the refusal of one.
fn explain_uses(alloc: Global, text: &[u8], lowered: &Lowered) -> Result<Answer, NoMemory>
    requires { IsLoweredOf text.now lowered.now }
    ensures { IfOk result (λ answer. OwedToProgram text.now a_look.Explain answer.status answer.text.items) }
{
    match checked_uses(alloc, lowered) {
        Ok(()) => accepted_answer(alloc),
        Err(refusal) => use_answer(alloc, text, lowered, &refusal),
    }
}

fn explain_program(alloc: Global, text: &[u8]) -> Result<Answer, NoMemory>
    requires { length text.now ≤ 131072 }
    ensures { IfOk result (λ answer. OwedToProgram text.now a_look.Explain answer.status answer.text.items) }
{
    match build_raw(alloc, text) {
        Ok(lowered) => {
            let answer = explain_uses(alloc, text, &lowered);
            lowered.discard();
            answer
        }
        Err(refusal) => refused_answer(alloc, text, &refusal),
    }
}

/// The drawing of the raw graph of a text.
fn draw_raw(alloc: Global, text: &[u8], lowered: &Lowered) -> Result<Answer, NoMemory>
    requires length { length text.now ≤ 131072 }
    requires lowered { IsLoweredOf text.now lowered.now }
    ensures { IfOk result (λ answer. OwedToProgram text.now a_look.Dot answer.status answer.text.items) }
{
    match read_typed(alloc, text) {
        Ok(typed) => {
            let graph = &lowered.graph;
            let answer = drawn_with_names(alloc, &typed, lowered.sites.as_slice(), graph, graph);
            typed.discard();
            answer
        }
        Err(refusal) => refused_answer(alloc, text, &refusal),
    }
}

fn draw_program(alloc: Global, text: &[u8]) -> Result<Answer, NoMemory>
    requires { length text.now ≤ 131072 }
    ensures { IfOk result (λ answer. OwedToProgram text.now a_look.Dot answer.status answer.text.items) }
{
    match build_raw(alloc, text) {
        Ok(lowered) => {
            let answer = draw_raw(alloc, text, &lowered);
            lowered.discard();
            answer
        }
        Err(refusal) => refused_answer(alloc, text, &refusal),
    }
}

/// The drawing of the graph with exact drops of a text beside its raw graph.
fn draw_exact(
    alloc: Global,
    text: &[u8],
    lowered: &Lowered,
    done: &Elaborated,
) -> Result<Answer, NoMemory>
    requires length { length text.now ≤ 131072 }
    requires lowered { IsLoweredOf text.now lowered.now }
    requires built { IsBuiltOf text.now done.now }
    ensures { IfOk result (λ answer. OwedToProgram text.now a_look.Built answer.status answer.text.items) }
{
    match read_typed(alloc, text) {
        Ok(typed) => {
            let answer = drawn_with_names(alloc, &typed, &[], &lowered.graph, &done.graph);
            typed.discard();
            answer
        }
        Err(refusal) => refused_answer(alloc, text, &refusal),
    }
}

/// The drawing of the graph with exact drops of a text whose raw graph this is.
fn draw_beside(alloc: Global, text: &[u8], lowered: &Lowered) -> Result<Answer, NoMemory>
    requires length { length text.now ≤ 131072 }
    requires lowered { IsLoweredOf text.now lowered.now }
    ensures { IfOk result (λ answer. OwedToProgram text.now a_look.Built answer.status answer.text.items) }
{
    match build(alloc, text) {
        Ok(done) => {
            let answer = draw_exact(alloc, text, lowered, &done);
            done.discard();
            answer
        }
        Err(refusal) => refused_answer(alloc, text, &refusal),
    }
}

fn draw_built(alloc: Global, text: &[u8]) -> Result<Answer, NoMemory>
    requires { length text.now ≤ 131072 }
    ensures { IfOk result (λ answer. OwedToProgram text.now a_look.Built answer.status answer.text.items) }
{
    match build_raw(alloc, text) {
        Ok(lowered) => {
            let answer = draw_beside(alloc, text, &lowered);
            lowered.discard();
            answer
        }
        Err(refusal) => refused_answer(alloc, text, &refusal),
    }
}

fn program_answer(alloc: Global, look: Look, text: &[u8]) -> Result<Answer, NoMemory>
    requires { length text.now ≤ 131072 }
    ensures { IfOk result (λ answer. OwedToProgram text.now look answer.status answer.text.items) }
{
    match look {
        Look::Explain => explain_program(alloc, text),
        Look::Dot => draw_program(alloc, text),
        Look::Built => draw_built(alloc, text),
    }
}

/// The answer to a listing of this graph.
fn graph_answer(alloc: Global, look: Look, graph: &Graph) -> Result<Answer, NoMemory>
    requires { IsShortGraph graph.now }
    ensures status { IfOk result (λ answer. answer.status ≡ 0) }
    ensures text { IfOk result (λ answer. answer.text.items ≡ graph_text look graph.now) }
{
    match look {
        Look::Explain => accepted_answer(alloc),
        Look::Dot | Look::Built => drawn_answer(alloc, &[], &[], graph, graph),
    }
}

fn listing_answer(alloc: Global, look: Look, text: &[u8]) -> Result<Answer, NoMemory>
    requires { length text.now ≤ 131072 }
    ensures { IfOk result (λ answer. OwedToListing text.now look answer.status answer.text.items) }
{
    match read_listing(alloc, text) {
        Ok(graph) => {
            let answer = graph_answer(alloc, look, &graph);
            graph.discard();
            answer
        }
        Err(error) => refused_listing(alloc, text, error),
    }
}

fn begins_as_listing(text: &[u8]) -> bool
    ensures { result ≡ is_listing text.now }
{
    text.starts_with(b"mirdrop ")
}

/// What a text of at most 131,072 bytes is answered. A text that begins with `mirdrop ` is read as a listing, any other as
/// a program.
///
/// The status is 0 where the text is accepted (`explain`, `dot-built`) or has a graph (`dot`), and 1 where it is refused.
///
/// # Errors
///
/// [`NoMemory`] where memory is wanted.
pub fn answer_text(alloc: Global, look: Look, text: &[u8]) -> Result<Answer, NoMemory>
    requires { length text.now ≤ 131072 }
    ensures { IfOk result (λ answer. Owed text.now look answer.status answer.text.items) }
{
    if begins_as_listing(text) {
        listing_answer(alloc, look, text)
    } else {
        program_answer(alloc, look, text)
    }
}
