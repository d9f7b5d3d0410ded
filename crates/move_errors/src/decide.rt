//! Whether the rows of a solution show a bad use.
ghost use Rattle.std.specs.Prelude.{◌≡◌, ◌<◌, ℕ, [], false, IfOk, length, slice_index_or};
ghost use Rattle.move_errors.specs.Rows.{IsWatched};
ghost use Rattle.move_errors.specs.Runs.{problem};
ghost use Rattle.move_errors.specs.Shown.{ShowsNone};

use crate::{Acts, Point, Stage, Watch, first_bad};
use bit_rows::BitRow;
use init_flow::Solution;
use mir_base::NoMemory;
use std::alloc::Global;

/// Whether a use at a point is bad by a row. Where none is, the row becomes the one past the point.
fn point_shows<'a>(
    watch: &Watch<'a>,
    at: Point,
    acts: &mut Acts<'a>,
    row: &mut BitRow,
) -> Result<bool, NoMemory>
    requires watched { IsWatched watch.now.items.now watch.now.body.now watch.now.forest watch.now.below }
    requires row { length row.old ≡ length watch.now.forest.paths }
    ensures shown { IfOk result (λ shown. shown ≡ (problem watch.now.items.now watch.now.body.now watch.now.forest.paths).bad at row.old) }
    ensures row { IfOk result (λ shown. shown ≡ false → row.new ≡ (problem watch.now.items.now watch.now.body.now watch.now.forest.paths).pass at row.old) }
{
    acts.fill(watch.items, watch.body, at)?;
    match first_bad(watch, acts.acts.as_slice(), row) {
        Some(_) => Ok(true),
        None => Ok(false),
    }
}

fn point(block: u32, stage: Stage) -> Point
    ensures { result ≡ record { block = block; stage = stage } }
{
    Point { block, stage }
}

/// Whether the store of a result on a way out of a block is bad by a row. Most ways have none, and then the row is not
/// copied.
fn way_shows<'a>(
    alloc: Global,
    watch: &Watch<'a>,
    at: Point,
    acts: &mut Acts<'a>,
    row: &BitRow,
) -> Result<bool, NoMemory>
    requires watched { IsWatched watch.now.items.now watch.now.body.now watch.now.forest watch.now.below }
    requires row { length row.now ≡ length watch.now.forest.paths }
    ensures { IfOk result (λ shown. shown ≡ (problem watch.now.items.now watch.now.body.now watch.now.forest.paths).bad at row.now) }
{
    acts.fill(watch.items, watch.body, at)?;
    if acts.acts.is_empty() {
        return Ok(false);
    }
    let mut left = BitRow::new(alloc, row.len())?;
    row.copy_into(&mut left);
    match first_bad(watch, acts.acts.as_slice(), &mut left) {
        Some(_) => Ok(true),
        None => Ok(false),
    }
}

/// Whether a use within a block, or the store of its result, is bad by a row at its start. It is looked for in a row of
/// as many bits.
fn block_shows<'a>(
    alloc: Global,
    watch: &Watch<'a>,
    row: &BitRow,
    block: u32,
    acts: &mut Acts<'a>,
    inside: &mut BitRow,
) -> Result<bool, NoMemory>
    requires watched { IsWatched watch.now.items.now watch.now.body.now watch.now.forest watch.now.below }
    requires row { length row.now ≡ length watch.now.forest.paths }
    requires inside { length inside.old ≡ length watch.now.forest.paths }
    ensures shown { IfOk result (λ shown. shown ≡ false → ShowsNone (problem watch.now.items.now watch.now.body.now watch.now.forest.paths) block row.now) }
    ensures inside { IfOk result (λ shown. shown ≡ false → length inside.new ≡ length watch.now.forest.paths) }
{
    row.copy_into(inside);
    if point_shows(watch, point(block, Stage::Inside), acts, inside)? {
        return Ok(true);
    }
    if way_shows(
        alloc,
        watch,
        point(block, Stage::Leaving(true)),
        acts,
        inside,
    )? {
        return Ok(true);
    }
    point_shows(watch, point(block, Stage::Leaving(false)), acts, inside)
}

/// The same by the row of a block among those of all blocks.
fn row_shows<'a>(
    alloc: Global,
    watch: &Watch<'a>,
    rows: &Solution,
    block: u32,
    acts: &mut Acts<'a>,
    inside: &mut BitRow,
) -> Result<bool, NoMemory>
    requires watched { IsWatched watch.now.items.now watch.now.body.now watch.now.forest watch.now.below }
    requires row { length (slice_index_or rows.now block []) ≡ length watch.now.forest.paths }
    requires inside { length inside.old ≡ length watch.now.forest.paths }
    ensures shown { IfOk result (λ shown. shown ≡ false → ShowsNone (problem watch.now.items.now watch.now.body.now watch.now.forest.paths) block (slice_index_or rows.now block [])) }
    ensures inside { IfOk result (λ shown. shown ≡ false → length inside.new ≡ length watch.now.forest.paths) }
{
    match rows.at(block) {
        Some(row) => block_shows(alloc, watch, row, block, acts, inside),
        None => Ok(true),
    }
}

/// Whether a use in some block is bad by the row at its start. Where none is, no path meets a bad use; a block that no
/// path reaches may show one all the same.
pub fn rows_show(alloc: Global, watch: &Watch<'_>, rows: &Solution) -> Result<bool, NoMemory>
    requires watched { IsWatched watch.now.items.now watch.now.body.now watch.now.forest watch.now.below }
    requires rows { length rows.now ≡ length watch.now.body.now.blocks }
    requires widths { (block : ℕ) → block < length watch.now.body.now.blocks → length (slice_index_or rows.now block []) ≡ length watch.now.forest.paths }
    ensures { IfOk result (λ shown. shown ≡ false → (block : ℕ) → block < length watch.now.body.now.blocks → ShowsNone (problem watch.now.items.now watch.now.body.now watch.now.forest.paths) block (slice_index_or rows.now block [])) }
{
    let Ok(count) = u32::try_from(watch.body.blocks.len()) else {
        return Err(NoMemory::past_32_bits());
    };
    let mut acts = Acts::new(alloc);
    let mut inside = BitRow::new(alloc, watch.forest.len())?;
    for block in 0..count {
        if row_shows(alloc, watch, rows, block, &mut acts, &mut inside)? {
            return Ok(true);
        }
    }
    Ok(false)
}
