//! The way to a refused use in words.
ghost use Rattle.std.specs.Prelude.{◌≡◌, ◌++◌, OnOk, Some};
ghost use Rattle.std.specs.Option.{option_copied};
ghost use Rattle.look_draw.specs.Steps as steps;

use crate::drawings::{put_place, site_at};
use cfg_graph::{Block, Graph, Term, Unwind};
use look_lines::{put, put_line_feed};
use lower_rules::Site;
use mir_base::NoMemory;
use std::alloc::Global;

/// Whether a panic goes on in a block.
fn unwinds_to(unwind: Unwind, to: u32) -> bool
    ensures { result ≡ steps.unwinds_to unwind to }
{
    match unwind {
        Unwind::Block(block) => block == to,
        Unwind::Resume | Unwind::Abort => false,
    }
}

fn either(holds: bool, words: &'static [u8], others: &'static [u8]) -> &'static [u8]
    ensures { result.now ≡ steps.either holds words.now others.now }
{
    if holds { words } else { others }
}

/// What decides at the end of a block.
fn decider(term: &Term) -> &'static [u8]
    ensures { result.now ≡ steps.decider term.now }
{
    match term {
        Term::If { .. } => b"the condition",
        Term::Case { .. } => b"the value",
        Term::Call { .. } | Term::Virtual { .. } => b"the call",
        Term::Math { .. } | Term::Negate { .. } => b"the operation",
        Term::Bounds { .. } => b"the index",
        Term::Ask { .. } => b"the question",
        Term::DropAt { .. } => b"the destructor",
        Term::Panic { .. } => b"the panic",
        Term::Goto(_) | Term::Return | Term::Resume => b"",
    }
}

/// What it decides, where its body goes on in a block.
fn decision(term: &Term, to: u32) -> &'static [u8]
    ensures { result.now ≡ steps.decision term.now to }
{
    match term {
        Term::If { yes, .. } => either(to == *yes, b" holds", b" does not hold"),
        Term::Case { yes, .. } => {
            either(to == *yes, b" is of the variant", b" is of another variant")
        }
        Term::Call { unwind, .. } | Term::Virtual { unwind, .. } => {
            either(unwinds_to(*unwind, to), b" unwinds", b" returns")
        }
        Term::Math { unwind, .. } | Term::Negate { unwind, .. } => {
            either(unwinds_to(*unwind, to), b" panics", b"")
        }
        Term::Bounds { unwind, .. } => either(unwinds_to(*unwind, to), b" is past the end", b""),
        Term::Ask { unwind, .. } => either(unwinds_to(*unwind, to), b" finds no number", b""),
        Term::DropAt { unwind, .. } => either(unwinds_to(*unwind, to), b" unwinds", b""),
        Term::Panic { .. } => b" unwinds",
        Term::Goto(_) | Term::Return | Term::Resume => b"",
    }
}

/// Puts the place of a site, if there is one.
pub fn put_site(alloc: Global, out: &mut Vec<u8>, site: Option<&Site>) -> Result<(), NoMemory>
    ensures { OnOk result (out.new.items ≡ out.old.items ++ steps.site_words (option_copied site.entry)) }
{
    match site {
        Some(site) => {
            put(out, b" at ")?;
            put_place(alloc, out, site.at)
        }
        None => Ok(()),
    }
}

/// Puts what is decided in a block, where the path goes on in another.
#[tactic(auto, using(crate::proofs::StepsTold::told_none, crate::proofs::StepsTold::told_some))]
fn put_block_step(
    alloc: Global,
    out: &mut Vec<u8>,
    sites: &[Site],
    body: u32,
    from: u32,
    to: u32,
    block: &Block,
) -> Result<(), NoMemory>
    ensures { OnOk result (out.new.items ≡ out.old.items ++ steps.block_told sites.now body from to (Some block.now)) }
{
    let decided = decision(&block.term, to);
    if decided.is_empty() {
        return Ok(());
    }
    put(out, decider(&block.term))?;
    put_site(alloc, out, site_at(sites, body, from, block.stmts.len()))?;
    put(out, decided)?;
    put_line_feed(out)
}

/// Puts a step of a path.
fn put_step(
    alloc: Global,
    out: &mut Vec<u8>,
    graph: &Graph,
    sites: &[Site],
    body: u32,
    from: u32,
    to: u32,
) -> Result<(), NoMemory>
    ensures { OnOk result (out.new.items ≡ out.old.items ++ steps.step_told graph.now sites.now body from to) }
{
    let Some(found) = graph.bodies.get(body as usize) else {
        return Ok(());
    };
    match found.blocks.get(from as usize) {
        Some(block) => put_block_step(alloc, out, sites, body, from, to, block),
        None => Ok(()),
    }
}

/// Puts the steps of a path from a block on.
fn put_steps_from(
    alloc: Global,
    out: &mut Vec<u8>,
    graph: &Graph,
    sites: &[Site],
    body: u32,
    first: u32,
    path: &[u32],
) -> Result<(), NoMemory>
    ensures { OnOk result (out.new.items ≡ out.old.items ++ steps.steps_from graph.now sites.now body first path.now) }
{
    let mut from = first;
    for to in path {
        put_step(alloc, out, graph, sites, body, from, *to)?;
        from = *to;
    }
    Ok(())
}

/// Puts what is decided in each block of a path of a body.
///
/// # Errors
///
/// [`NoMemory`] where memory is wanted.
pub fn put_steps(
    alloc: Global,
    out: &mut Vec<u8>,
    graph: &Graph,
    sites: &[Site],
    body: u32,
    path: &[u32],
) -> Result<(), NoMemory>
    ensures { OnOk result (out.new.items ≡ out.old.items ++ steps.steps_told graph.now sites.now body path.now) }
{
    match path.split_first() {
        Some((first, rest)) => put_steps_from(alloc, out, graph, sites, body, *first, rest),
        None => Ok(()),
    }
}
