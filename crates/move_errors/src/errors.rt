//! Bad uses, and the call that finds one.
ghost use Rattle.std.specs.Prelude.{◌≡◌, ◌<◌, [], IfOk, IfErr, IfSome, OnOk, Some, None, length, slice_get, true};
ghost use Rattle.cfg_graph.specs.declared.graph.Body.{Body as GraphBody};
ghost use Rattle.cfg_graph.specs.WellFormed.Faults.{IsWellFormed};
ghost use Rattle.init_flow.specs.Fits.{AreSwitches};
ghost use Rattle.move_paths.specs.Uses.{use_of};
ghost use Rattle.move_errors.specs.Locals.{has_locals};
ghost use Rattle.move_errors.specs.Reaches.{MeetsNone, rule_of};
ghost use Rattle.move_errors.specs.Refusal.{IsRefusal, refused_by};
ghost use Rattle.move_errors.specs.Rows.{IsWatched, state};
ghost use Rattle.move_errors.specs.Runs.{problem};
ghost use Rattle.move_errors.specs.Shown.{AreSolved};
ghost use Rattle.move_errors.specs.GoneRows.{AreGone};
ghost use Rattle.move_errors.specs.Stands.{IsFound, MeetsNoBad};

use crate::Watch;
use crate::decide::rows_show;
use crate::search::{Trace, least_bad};
use crate::trail::trail;
use bit_rows::BitRow;
use cfg_graph::{Graph, Place};
use init_flow::{BlockSwitches, MaybeGone, Solution, Switches, solve};
use mir_base::{List, NoMemory};
use move_paths::{Forest, Use, paths};
use std::alloc::Global;

/// A bad use of a body: what is used is gone there on a path.
#[derive(Drop)]
pub struct BadUse {
    /// The body, by its number.
    pub body: u32,
    /// The block of the use, the last one of `path`.
    pub block: u32,
    /// The line of the use in its block: the number of its statement, or of the statements for the terminator.
    pub line: u32,
    /// The place that is used.
    pub place: Place,
    /// How it is used.
    pub by: Use,
    /// The choices by which the path comes to the use, each 0 or 1.
    pub answers: List<u8>,
    /// The blocks of the path, from block 0.
    pub path: List<u32>,
}

/// Why the uses of a body are refused, or were not looked at.
#[derive(Drop)]
pub enum UseError {
    /// A place is copied, moved, borrowed, touched or tested that is gone there, or a container or a part of it.
    U1(BadUse),
    /// A place is stored into or dropped of which a container is gone there.
    U2(BadUse),
    /// There was no memory.
    Memory,
}

impl From<NoMemory> for UseError {
    ghost use Rattle.move_errors.specs.declared.errors.UseError.TheVariants.{Memory};

    ghost from_gives = { λ want error. error ≡ Memory };

    fn from(_want: NoMemory) -> UseError {
        UseError::Memory
    }
}

/// The body of a graph as the search watches it, what is gone before it does anything, what its blocks switch, and the
/// rows of its solution.
#[derive(Drop)]
struct Solved<'a> {
    watch: Watch<'a>,
    first: BitRow,
    blocks: List<BlockSwitches>,
    rows: Solution,
}

fn solution<'a>(alloc: Global, graph: &'a Graph, body: u32) -> Result<Solved<'a>, NoMemory>
    requires locals { (found : GraphBody) → slice_get graph.now.bodies body ≡ Some found → has_locals found ≡ true }
    requires body { body < length graph.now.bodies }
    ensures items { IfOk result (λ solved. solved.watch.items.now ≡ graph.now.items) }
    ensures body { IfOk result (λ solved. slice_get graph.now.bodies body ≡ Some solved.watch.body.now) }
    ensures watched { IfOk result (λ solved. IsWatched solved.watch.items.now solved.watch.body.now solved.watch.forest solved.watch.below) }
    ensures first { IfOk result (λ solved. solved.first ≡ state solved.watch.items.now solved.watch.body.now solved.watch.forest.paths []) }
    ensures switches { IfOk result (λ solved. AreSwitches solved.watch.forest.paths (record { first = solved.first; below = solved.watch.below; blocks = solved.blocks }) solved.watch.body.now) }
    ensures rows { IfOk result (λ solved. AreSolved solved.watch.items.now solved.watch.body.now solved.watch.forest.paths solved.rows) }
{
    let forest = paths(alloc, graph, body)?;
    let gone = match MaybeGone::new(alloc, graph, body, &forest) {
        Ok(gone) => gone,
        Err(error) => {
            drop(forest);
            return Err(error);
        }
    };
    let found = &graph.bodies.as_slice()[body as usize];
    let rows = match solve(alloc, &gone, &graph.items, found) {
        Ok(rows) => rows,
        Err(error) => {
            drop(gone);
            drop(forest);
            return Err(error);
        }
    };
    let switches = gone.into_switches();
    let Switches {
        first,
        below,
        blocks,
    } = switches;
    Ok(Solved {
        watch: Watch {
            items: &graph.items,
            body: found,
            forest,
            below,
        },
        first,
        blocks,
        rows,
    })
}

/// Whether the rows of a body show no bad use, so that no path meets one.
fn is_plain(alloc: Global, solved: &Solved<'_>) -> Result<bool, NoMemory>
    requires watched { IsWatched solved.now.watch.items.now solved.now.watch.body.now solved.now.watch.forest solved.now.watch.below }
    requires rows { AreSolved solved.now.watch.items.now solved.now.watch.body.now solved.now.watch.forest.paths solved.now.rows }
    ensures { IfOk result (λ plain. plain ≡ true → MeetsNoBad (problem solved.now.watch.items.now solved.now.watch.body.now solved.now.watch.forest.paths)) }
{
    Ok(!rows_show(alloc, &solved.watch, &solved.rows)?)
}

fn copy_of(alloc: Global, place: &Place) -> Result<Place, NoMemory>
    ensures { IfOk result (λ copy. copy ≡ place.now) }
{
    Ok(Place {
        local: place.local,
        steps: place.steps.copy(alloc)?,
    })
}

fn by_rule(bad: BadUse) -> UseError
    ensures { result ≡ refused_by (rule_of (use_of bad.by)) bad }
{
    match bad.by {
        Use::Stores | Use::Drops => UseError::U2(bad),
        _ => UseError::U1(bad),
    }
}

/// The refusal of a bad use that was found.
fn refusal(
    alloc: Global,
    watch: &Watch<'_>,
    body: u32,
    trace: &Trace<'_>,
) -> Result<UseError, NoMemory>
    requires watched { IsWatched watch.now.items.now watch.now.body.now watch.now.forest watch.now.below }
    requires found { IsFound watch.now.items.now watch.now.body.now watch.now.forest.paths trace.now.visits trace.now.found }
    ensures { IfOk result (λ error. IsRefusal watch.now.items.now watch.now.body.now body error) }
{
    let way = trail(alloc, trace.visits.as_slice(), trace.found.visit)?;
    let act = trace.found.act;
    let bad = BadUse {
        body,
        block: trace.visits.as_slice()[trace.found.visit as usize].at.block,
        line: act.line,
        place: copy_of(alloc, act.place)?,
        by: act.how,
        answers: way.answers,
        path: way.path,
    };
    Ok(by_rule(bad))
}

/// The refusal of the bad use that a search finds, if it finds one.
fn search_error(
    alloc: Global,
    watch: &Watch<'_>,
    first: BitRow,
    body: u32,
) -> Result<Option<UseError>, NoMemory>
    requires watched { IsWatched watch.now.items.now watch.now.body.now watch.now.forest watch.now.below }
    requires row { first ≡ state watch.now.items.now watch.now.body.now watch.now.forest.paths [] }
    ensures none { IfOk result (λ error. error ≡ None → MeetsNoBad (problem watch.now.items.now watch.now.body.now watch.now.forest.paths)) }
    ensures refused { IfOk result (λ error. IfSome error (λ why. IsRefusal watch.now.items.now watch.now.body.now body why)) }
{
    let Some(trace) = least_bad(alloc, watch, first)? else {
        return Ok(None);
    };
    let error = refusal(alloc, watch, body, &trace);
    drop(trace);
    Ok(Some(error?))
}

/// A row once more.
fn row_again(alloc: Global, row: &BitRow) -> Result<BitRow, NoMemory>
    ensures { IfOk result (λ copy. copy ≡ row.now) }
{
    let mut copy = BitRow::new(alloc, row.len())?;
    row.copy_into(&mut copy);
    Ok(copy)
}

/// Why a body is refused, if it is. Only one whose rows show a bad use is searched.
fn refuse_body(alloc: Global, solved: &Solved<'_>, body: u32) -> Result<Option<UseError>, NoMemory>
    requires watched { IsWatched solved.now.watch.items.now solved.now.watch.body.now solved.now.watch.forest solved.now.watch.below }
    requires first { solved.now.first ≡ state solved.now.watch.items.now solved.now.watch.body.now solved.now.watch.forest.paths [] }
    requires rows { AreSolved solved.now.watch.items.now solved.now.watch.body.now solved.now.watch.forest.paths solved.now.rows }
    ensures none { IfOk result (λ error. error ≡ None → MeetsNoBad (problem solved.now.watch.items.now solved.now.watch.body.now solved.now.watch.forest.paths)) }
    ensures refused { IfOk result (λ error. IfSome error (λ why. IsRefusal solved.now.watch.items.now solved.now.watch.body.now body why)) }
{
    if is_plain(alloc, solved)? {
        return Ok(None);
    }
    let first = row_again(alloc, &solved.first)?;
    search_error(alloc, &solved.watch, first, body)
}

/// What the check of a body leaves: its move paths, what its blocks switch, and which paths may be gone as each block
/// begins.
#[derive(Drop)]
pub struct GoneMoves {
    pub forest: Forest,
    pub switches: Switches,
    pub rows: Solution,
}

fn handed_on(solved: Solved<'_>) -> GoneMoves
    ensures { result ≡ record { forest = solved.entry.watch.forest; switches = record { first = solved.entry.first; below = solved.entry.watch.below; blocks = solved.entry.blocks }; rows = solved.entry.rows } }
{
    let Solved {
        watch,
        first,
        blocks,
        rows,
    } = solved;
    let Watch { forest, below, .. } = watch;
    let switches = Switches {
        first,
        below,
        blocks,
    };
    GoneMoves {
        forest,
        switches,
        rows,
    }
}

/// The same as [`check_body`]. What may be gone in a body whose uses stand is handed on.
pub fn checked_body(alloc: Global, graph: &Graph, body: u32) -> Result<GoneMoves, UseError>
    requires locals { (found : GraphBody) → slice_get graph.now.bodies body ≡ Some found → has_locals found ≡ true }
    requires body { body < length graph.now.bodies }
    ensures accepted { IfOk result (λ gone. (found : GraphBody) → slice_get graph.now.bodies body ≡ Some found → MeetsNone graph.now.items found) }
    ensures gone { IfOk result (λ gone. (found : GraphBody) → slice_get graph.now.bodies body ≡ Some found → AreGone graph.now.items found gone) }
    ensures refused { IfErr result (λ error. (found : GraphBody) → slice_get graph.now.bodies body ≡ Some found → IsRefusal graph.now.items found body error) }
{
    let solved = solution(alloc, graph, body)?;
    match refuse_body(alloc, &solved, body) {
        Ok(None) => Ok(handed_on(solved)),
        Ok(Some(error)) => {
            drop(solved);
            Err(error)
        }
        Err(NoMemory) => {
            drop(solved);
            Err(UseError::Memory)
        }
    }
}

/// The same as [`check_uses`], of a body of which only this is known: it has a block, and the locals that its uses name, as
/// each body of a well formed graph has.
pub fn check_body(alloc: Global, graph: &Graph, body: u32) -> Result<(), UseError>
    requires locals { (found : GraphBody) → slice_get graph.now.bodies body ≡ Some found → has_locals found ≡ true }
    requires body { body < length graph.now.bodies }
    ensures accepted { OnOk result ((found : GraphBody) → slice_get graph.now.bodies body ≡ Some found → MeetsNone graph.now.items found) }
    ensures refused { IfErr result (λ error. (found : GraphBody) → slice_get graph.now.bodies body ≡ Some found → IsRefusal graph.now.items found body error) }
{
    checked_body(alloc, graph, body)?;
    Ok(())
}

/// Whether no path of a body meets a bad use. The refusal names the use that the least of the shortest lists of choices
/// reaches, 0 before 1, with that list and its path. The graph is well formed and has the body.
///
/// A body whose rows show no bad use is decided by the solver alone; only another one is searched.
///
/// Errors: [`UseError::U1`] and [`UseError::U2`] exactly where a path of the body meets a bad use, by the rule by which
/// this one is bad; [`UseError::Memory`] where there is no memory.
pub fn check_uses(alloc: Global, graph: &Graph, body: u32) -> Result<(), UseError>
    requires well_formed { IsWellFormed graph.now }
    requires body { body < length graph.now.bodies }
    ensures accepted { OnOk result ((found : GraphBody) → slice_get graph.now.bodies body ≡ Some found → MeetsNone graph.now.items found) }
    ensures refused { IfErr result (λ error. (found : GraphBody) → slice_get graph.now.bodies body ≡ Some found → IsRefusal graph.now.items found body error) }
{
    check_body(alloc, graph, body)
}

/// The same as [`check_uses`]. What may be gone in a body whose uses stand is handed on.
pub fn checked_moves(alloc: Global, graph: &Graph, body: u32) -> Result<GoneMoves, UseError>
    requires well_formed { IsWellFormed graph.now }
    requires body { body < length graph.now.bodies }
    ensures accepted { IfOk result (λ gone. (found : GraphBody) → slice_get graph.now.bodies body ≡ Some found → MeetsNone graph.now.items found) }
    ensures gone { IfOk result (λ gone. (found : GraphBody) → slice_get graph.now.bodies body ≡ Some found → AreGone graph.now.items found gone) }
    ensures refused { IfErr result (λ error. (found : GraphBody) → slice_get graph.now.bodies body ≡ Some found → IsRefusal graph.now.items found body error) }
{
    checked_body(alloc, graph, body)
}
