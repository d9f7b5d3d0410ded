//! The uses of a graph that are refused.
ghost use Rattle.std.specs.Prelude.{◌≡◌, ◌<◌, ◌-◌, ◌^◌, Some, true, is_some, IfOk, IfErr, OnOk, find, length};
ghost use Rattle.std.specs.Option.{option_copied};
ghost use Rattle.cfg_graph.specs.WellFormed.Faults.{IsCounted, IsWellFormed};
ghost use Rattle.mir_pipeline.specs.Graphs as graphs;
ghost use Rattle.mir_pipeline.specs.Graphs.{AreSited, IsAcceptedOf, IsFirstBad, IsNotAccepted, RefusesUses, UsesStand};
ghost use Rattle.mir_pipeline.specs.Programs.{HasAcceptedProgram};
ghost use Rattle.drop_graphs.specs.GoneIn.{AreGoneIn};
ghost use Rattle.mir_pipeline.specs.Building.{HasFirstBad};
ghost use Rattle.cfg_graph.specs.Moves.BadUses.{U1, U2};

use crate::graphs::build_raw;
use crate::refusal::Refusal;
use cfg_build::Lowered;
use cfg_graph::{Block, Graph, Term};
use drop_plans::Gone;
use lower_rules::Site;
use mir_base::{List, NoMemory};
use move_errors::{BadUse, GoneMoves, UseError, check_uses, checked_moves};
use move_paths::Use;
use std::alloc::Global;

/// The first body with a bad use, in the order of numbers, and that use.
fn first_bad(alloc: Global, graph: &Graph) -> Result<(), UseError>
    requires well_formed { IsWellFormed graph.now }
    requires counted { IsCounted graph.now }
    ensures accepted { OnOk result (UsesStand graph.now) }
    ensures refused { IfErr result (HasFirstBad graph.now) }
{
    for number in 0..graph.bodies.len() as u32 {
        if let Err(error) = check_uses(alloc, graph, number) {
            return Err(error);
        }
    }
    Ok(())
}

/// A line of a body, by its block.
#[derive(Clone, Copy)]
pub struct LineOfUse {
    pub block: u32,
    pub line: u32,
}

/// The line of the store behind a block that ends by a drop, and otherwise the line itself.
fn behind_drop(block: &Block, own: LineOfUse) -> LineOfUse
    ensures { result ≡ graphs.behind_drop block.now.term own }
{
    match &block.term {
        Term::DropAt { then, .. } => LineOfUse {
            block: *then,
            line: 0,
        },
        _ => own,
    }
}

fn block_of(graph: &Graph, body: u32, block: u32) -> Option<&Block>
    ensures { option_copied result ≡ graphs.block_of graph.now body block }
{
    graph.bodies.get(body as usize)?.blocks.get(block as usize)
}

fn is_drop(by: Use) -> bool
    ensures { result ≡ graphs.is_drop by }
{
    matches!(by, Use::Drops)
}

/// The line whose site a bad use is told by.
fn line_told(graph: &Graph, bad: &BadUse) -> LineOfUse
    ensures { result ≡ graphs.line_told graph.now bad.now }
{
    let own = LineOfUse {
        block: bad.block,
        line: bad.line,
    };
    if !is_drop(bad.by) {
        return own;
    }
    match block_of(graph, bad.body, bad.block) {
        Some(block) => behind_drop(block, own),
        None => own,
    }
}

fn stands_at(site: &Site, body: u32, at: LineOfUse) -> bool
    ensures { result ≡ graphs.stands_at body at site.now }
{
    site.body == body && (site.block == at.block && site.line == at.line)
}

fn copy_of(alloc: Global, site: &Site) -> Result<Site, NoMemory>
    ensures { IfOk result (λ copy. copy ≡ site.now) }
{
    let name = site.name.copy(alloc)?;
    Ok(Site {
        body: site.body,
        block: site.block,
        line: site.line,
        at: site.at,
        by: site.by,
        name,
    })
}

/// The site of a line, if it has one.
fn site_at(sites: &[Site], body: u32, at: LineOfUse) -> Option<&Site>
    ensures { option_copied result ≡ find (graphs.stands_at body at) sites.now }
{
    for site in sites {
        if stands_at(site, body, at) {
            return Some(site);
        }
    }
    None
}

/// The site of a bad use that has one.
fn site_of(alloc: Global, lowered: &Lowered, bad: &BadUse) -> Result<Site, NoMemory>
    requires { is_some (graphs.site_of lowered.now bad.now) ≡ true }
    ensures { IfOk result (λ site. graphs.site_of lowered.now bad.now ≡ Some site) }
{
    let at = line_told(&lowered.graph, bad);
    match site_at(lowered.sites.as_slice(), bad.body, at) {
        Some(site) => copy_of(alloc, site),
        None => unreachable!(),
    }
}

/// The refusal of a use of what is gone.
fn of_use(alloc: Global, lowered: &Lowered, bad: BadUse) -> Refusal
    requires sited { is_some (graphs.site_of lowered.now bad) ≡ true }
    ensures { IsFirstBad lowered.now.graph U1 bad → RefusesUses lowered.now result }
{
    match site_of(alloc, lowered, &bad) {
        Ok(site) => Refusal::U1 { bad, site },
        Err(NoMemory) => Refusal::Memory,
    }
}

/// The refusal of a store into a part of what is gone.
fn of_store(alloc: Global, lowered: &Lowered, bad: BadUse) -> Refusal
    requires sited { is_some (graphs.site_of lowered.now bad) ≡ true }
    ensures { IsFirstBad lowered.now.graph U2 bad → RefusesUses lowered.now result }
{
    match site_of(alloc, lowered, &bad) {
        Ok(site) => Refusal::U2 { bad, site },
        Err(NoMemory) => Refusal::Memory,
    }
}

fn refusal_of_use(alloc: Global, lowered: &Lowered, error: UseError) -> Refusal
    requires sited { AreSited lowered.now }
    requires first { HasFirstBad lowered.now.graph error }
    ensures { RefusesUses lowered.now result }
{
    match error {
        UseError::U1(bad) => of_use(alloc, lowered, bad),
        UseError::U2(bad) => of_store(alloc, lowered, bad),
        UseError::Memory => Refusal::Memory,
    }
}

/// Whether all uses of a graph that has no fault stand: no path of a body meets a use of what is gone.
///
/// # Errors
///
/// [`Refusal::U1`] and [`Refusal::U2`] of the first body, in the order of numbers, of which a path meets a bad use: that
/// which the least of the shortest lists of choices reaches, with its site in the text. [`Refusal::Memory`] where memory
/// is wanted.
pub fn checked_uses(alloc: Global, lowered: &Lowered) -> Result<(), Refusal>
    requires well_formed { IsWellFormed lowered.now.graph }
    requires counted { IsCounted lowered.now.graph }
    requires sited { AreSited lowered.now }
    ensures accepted { OnOk result (UsesStand lowered.now.graph) }
    ensures refused { IfErr result (λ refusal. RefusesUses lowered.now refusal) }
{
    match first_bad(alloc, &lowered.graph) {
        Ok(()) => Ok(()),
        Err(error) => Err(refusal_of_use(alloc, lowered, error)),
    }
}

/// What may be gone in a body, as the check of its uses tells.
fn gone_of(moves: GoneMoves) -> Gone
    ensures { result ≡ record { forest = moves.forest; switches = moves.switches; rows = moves.rows } }
{
    let GoneMoves {
        forest,
        switches,
        rows,
    } = moves;
    Gone {
        forest,
        switches,
        rows,
    }
}

/// What may be gone in each body, if all uses stand.
fn gone_moves(alloc: Global, graph: &Graph) -> Result<List<Gone>, UseError>
    requires well_formed { IsWellFormed graph.now }
    requires counted { IsCounted graph.now }
    ensures accepted { OnOk result (UsesStand graph.now) }
    ensures gone { IfOk result (λ gone. AreGoneIn graph.now gone) }
    ensures refused { IfErr result (HasFirstBad graph.now) }
{
    let count = graph.bodies.len() as u32;
    let mut all = List::new(alloc);
    for number in 0..count {
        match checked_moves(alloc, graph, number) {
            Ok(moves) => all.push(gone_of(moves))?,
            Err(error) => return Err(error),
        }
    }
    Ok(all)
}

/// A raw graph, and what may be gone in each of its bodies.
#[derive(Drop)]
pub struct Watched {
    pub lowered: Lowered,
    pub gone: List<Gone>,
}

/// The graph, if all its uses stand, and what may be gone in each of its bodies.
fn accept_moves(alloc: Global, lowered: Lowered) -> Result<Watched, Refusal>
    requires well_formed { IsWellFormed lowered.graph }
    requires counted { IsCounted lowered.graph }
    requires sited { AreSited lowered }
    ensures accepted { IfOk result (λ watched. (watched.lowered ≡ lowered) × UsesStand lowered.graph) }
    ensures gone { IfOk result (λ watched. AreGoneIn watched.lowered.graph watched.gone) }
    ensures refused { IfErr result (λ refusal. RefusesUses lowered refusal) }
{
    match gone_moves(alloc, &lowered.graph) {
        Ok(gone) => Ok(Watched { lowered, gone }),
        Err(error) => {
            let refusal = refusal_of_use(alloc, &lowered, error);
            lowered.discard();
            Err(refusal)
        }
    }
}

/// Checks that the program of a text of at most 4,294,967,294 bytes is accepted.
///
/// # Errors
///
/// As [`build_raw`] where the text has no graph, and otherwise as [`checked_uses`]: then the program is not accepted,
/// since with the same choices the free run of that body is refused.
#[tactic(auto, using(crate::proofs::Accepted::has_no_program, crate::proofs::Accepted::has_bad_use, crate::proofs::Accepted::has_accepted_program))]
pub fn check(alloc: Global, text: &[u8]) -> Result<(), Refusal>
    requires { length text.now < 2 ^ 32 - 1 }
    ensures accepted { OnOk result (HasAcceptedProgram text.now) }
    ensures refused { IfErr result (λ refusal. IsNotAccepted text.now refusal) }
{
    let lowered = build_raw(alloc, text)?;
    match checked_uses(alloc, &lowered) {
        Ok(()) => {
            lowered.discard();
            Ok(())
        }
        Err(refusal) => {
            lowered.discard();
            Err(refusal)
        }
    }
}

/// The raw graph of an accepted text of at most 4,294,967,294 bytes, with scheduled drops and the sites of its uses, and what
/// may be gone in each of its bodies.
///
/// # Errors
///
/// As [`check`].
#[tactic(auto, using(crate::proofs::Accepted::has_no_program, crate::proofs::Accepted::has_bad_use))]
pub fn checked_moves_of(alloc: Global, text: &[u8]) -> Result<Watched, Refusal>
    requires { length text.now < 2 ^ 32 - 1 }
    ensures accepted { IfOk result (λ watched. IsAcceptedOf text.now watched.lowered) }
    ensures gone { IfOk result (λ watched. AreGoneIn watched.lowered.graph watched.gone) }
    ensures refused { IfErr result (λ refusal. IsNotAccepted text.now refusal) }
{
    let lowered = build_raw(alloc, text)?;
    accept_moves(alloc, lowered)
}
