//! The points of a body between which a run goes.
ghost use Rattle.std.specs.Prelude.{◌≡◌, false, slice_get, length};
ghost use Rattle.std.specs.Option.{option_map_or};
ghost use Rattle.mir_ty.specs.Facts.{needs_drop as needs_drop_by};
ghost use Rattle.cfg_graph.specs.Places.{place_id};
ghost use Rattle.move_errors.specs.Runs as runs;

use cfg_graph::{Body, Kind, Place, Term, place_ty};
use init_flow::target;
use mir_ty::Items;

/// Where a run stands: before the entry to a block, within it, or on its first or second way out.
#[derive(Clone, Copy)]
pub enum Stage {
    Entry,
    Inside,
    Leaving(bool),
}

/// A point of a body.
#[derive(Clone, Copy)]
pub struct Point {
    pub block: u32,
    pub stage: Stage,
}

/// Where a run goes on: nowhere, to a point without a choice, or to the points of the choices 0 and 1.
#[derive(Clone, Copy)]
pub enum Onward {
    Nowhere,
    Silent(Point),
    Choices(Option<Point>, Option<Point>),
}

fn stage_number(stage: Stage) -> usize
    ensures { result ≡ runs.stage_number stage }
{
    match stage {
        Stage::Entry => 0,
        Stage::Inside => 1,
        Stage::Leaving(false) => 2,
        Stage::Leaving(true) => 3,
    }
}

impl Point {
    /// The number of a point among those of its body.
    pub fn index(self) -> usize
        ensures { result ≡ runs.index_of self }
    {
        self.block as usize * 4 + stage_number(self.stage)
    }
}

fn needs_drop(items: &Items, body: &Body, place: &Place) -> bool
    ensures { result ≡ option_map_or (needs_drop_by items.now) (place_id items.now body.now.locals place.now) false }
{
    match place_ty(items, body.locals.as_slice(), place) {
        Some(id) => items.needs_drop(id),
        None => false,
    }
}

/// Whether the first way out of a terminator gives no choice.
fn is_silent(items: &Items, body: &Body, term: &Term) -> bool
    ensures { result ≡ runs.is_silent items.now body.now term.now }
{
    match term {
        Term::Goto(_) | Term::Panic { .. } => true,
        Term::DropAt { place, .. } => !needs_drop(items, body, place),
        _ => false,
    }
}

/// From the entry to a block into it.
fn enter_block(body: &Body, block: u32) -> Onward
    ensures { result ≡ runs.entered block (slice_get body.now.blocks block) }
{
    let inside = Point {
        block,
        stage: Stage::Inside,
    };
    match body.blocks.get(block as usize) {
        None => Onward::Nowhere,
        Some(found) if found.kind == Kind::Turn => Onward::Choices(Some(inside), None),
        Some(_) => Onward::Silent(inside),
    }
}

/// A way out of a block that leads to a block.
fn leaving(items: &Items, body: &Body, block: u32, way: bool) -> Option<Point>
    ensures { result ≡ runs.leaving items.now body.now block way }
{
    target(items, body, block, way as u32)?;
    Some(Point {
        block,
        stage: Stage::Leaving(way),
    })
}

/// From within a block out of it.
fn leave_block(items: &Items, body: &Body, block: u32) -> Onward
    ensures { result ≡ runs.left_block items.now body.now block (slice_get body.now.blocks block) }
{
    let Some(found) = body.blocks.get(block as usize) else {
        return Onward::Nowhere;
    };
    if !is_silent(items, body, &found.term) {
        return Onward::Choices(
            leaving(items, body, block, false),
            leaving(items, body, block, true),
        );
    }
    match leaving(items, body, block, false) {
        Some(to) => Onward::Silent(to),
        None => Onward::Nowhere,
    }
}

/// To the entry of the block to which a way out leads, if there is that block.
fn arrive_at(body: &Body, to: Option<u32>) -> Onward
    ensures { result ≡ runs.arrived (length body.now.blocks) to }
{
    match to {
        Some(block) if (block as usize) < body.blocks.len() => Onward::Silent(Point {
            block,
            stage: Stage::Entry,
        }),
        _ => Onward::Nowhere,
    }
}

/// Where a run goes on from a point.
pub fn goes_on(items: &Items, body: &Body, at: Point) -> Onward
    ensures { result ≡ runs.onward_from items.now body.now at.block at.stage }
{
    match at.stage {
        Stage::Entry => enter_block(body, at.block),
        Stage::Inside => leave_block(items, body, at.block),
        Stage::Leaving(way) => { arrive_at(body, target(items, body, at.block, way as u32)) }
    }
}
