ghost use Rattle.std.specs.Prelude.{◌≡◌, ◌<◌, ◌+◌, ℕ, [], length, slice_get, slice_index_or, IfOk, OnOk, true};
ghost use Rattle.std.specs.Option.{option_copied};
ghost use Rattle.init_flow.specs.Ways.{target as target_of};
ghost use Rattle.init_flow.specs.Carried.{AreCarried};
ghost use Rattle.init_flow.specs.WorkList.{Good, Started, Turns, problem, state_of, blocks_in, bit, untouched, is_reached};

use crate::analysis::Analysis;
use crate::flow::Flow;
use crate::ways::target;
use bit_rows::BitRow;
use cfg_graph::Body;
use mir_base::{List, NoMemory};
use mir_ty::Items;
use std::alloc::Global;
use std::marker::Model;

/// What an analysis knows at the start of each block.
#[derive(Drop)]
pub struct Solution {
    rows: List<BitRow>,
}

impl Model for Solution {
    ghost use Rattle.std.specs.Prelude.{List as Listed, Bool};

    ghost Value = { Listed (Listed Bool) };

    ghost view = { λ solution. solution.rows };
}

impl Solution {
    /// The row at the start of a block; `None` exactly where there is no such block.
    pub fn at(&self, block: u32) -> Option<&BitRow>
        ensures { option_copied result ≡ slice_get self.now block }
    {
        self.rows.get(block as usize)
    }
}

/// Reaches block 0 with the row that an analysis starts with, which is made in a row of as many bits.
fn begin<A: Analysis>(
    analysis: &A,
    items: &Items,
    body: &Body,
    flow: &mut Flow,
    row: &mut BitRow,
) -> Result<(), NoMemory>
    requires row { length row.old ≡ A.width analysis.now }
    requires state { state_of flow.old ≡ untouched (A.width analysis.now) (length body.now.blocks) }
    requires heap { blocks_in flow.old ≡ [] }
    ensures good { OnOk result (Good (problem (A.width analysis.now) (A.first analysis.now) (A.passed analysis.now) items.now body.now) (state_of flow.new) (blocks_in flow.new) 0 2) }
    ensures started { OnOk result (Started (problem (A.width analysis.now) (A.first analysis.now) (A.passed analysis.now) items.now body.now) (state_of flow.new)) }
    ensures row { length row.new ≡ A.width analysis.now }
{
    if body.blocks.is_empty() {
        return Ok(());
    }
    analysis.start(row);
    flow.arrive(0, row)
}

/// Takes what a block has along a way to the next block. It is made in a row of as many bits.
fn turn<A: Analysis>(
    analysis: &A,
    items: &Items,
    body: &Body,
    flow: &mut Flow,
    row: &mut BitRow,
    block: u32,
    way: bool,
) -> Result<(), NoMemory>
    requires row { length row.old ≡ A.width analysis.now }
    requires is_for { A.IsFor analysis.now body.now }
    requires good { Good (problem (A.width analysis.now) (A.first analysis.now) (A.passed analysis.now) items.now body.now) (state_of flow.old) (blocks_in flow.old) block (bit way) }
    requires block { block < length body.now.blocks }
    requires reached { is_reached (state_of flow.old) block ≡ true }
    ensures turns { OnOk result (Turns (problem (A.width analysis.now) (A.first analysis.now) (A.passed analysis.now) items.now body.now) flow.old flow.new block (bit way + 1)) }
    ensures row { length row.new ≡ A.width analysis.now }
{
    let Some(to) = target(items, body, block, way as u32) else {
        return Ok(());
    };
    if to as usize >= flow.rows.len() {
        return Ok(());
    }
    flow.row_of(block as usize).copy_into(row);
    analysis.pass(body, block, way as u32, row);
    flow.arrive(to, row)
}

/// Takes what a block has along both its ways.
fn turn_block<A: Analysis>(
    analysis: &A,
    items: &Items,
    body: &Body,
    flow: &mut Flow,
    row: &mut BitRow,
    block: u32,
) -> Result<(), NoMemory>
    requires row { length row.old ≡ A.width analysis.now }
    requires is_for { A.IsFor analysis.now body.now }
    requires good { Good (problem (A.width analysis.now) (A.first analysis.now) (A.passed analysis.now) items.now body.now) (state_of flow.old) (blocks_in flow.old) block 0 }
    requires block { block < length body.now.blocks }
    requires reached { is_reached (state_of flow.old) block ≡ true }
    ensures turns { OnOk result (Turns (problem (A.width analysis.now) (A.first analysis.now) (A.passed analysis.now) items.now body.now) flow.old flow.new 0 2) }
    ensures row { length row.new ≡ A.width analysis.now }
{
    turn(analysis, items, body, flow, row, block, false)?;
    turn(analysis, items, body, flow, row, block, true)
}

/// The rows that an analysis has at the start of each block of a body, at its fixed point: exactly the bits that some
/// path from block 0 carries there.
///
/// The ways out of a block are passed once and again only after the row of the block changed; a block of a greater number
/// goes first, so a lowered body without loops is gone over once. Time is in proportion to these passes, each with the words of
/// a row, and a logarithm of the number of blocks; memory to the blocks times the words of a row.
pub fn solve<A: Analysis>(
    alloc: Global,
    analysis: &A,
    items: &Items,
    body: &Body,
) -> Result<Solution, NoMemory>
    requires { A.IsFor analysis.now body.now }
    ensures blocks { IfOk result (λ rows. length rows ≡ length body.now.blocks) }
    ensures widths { IfOk result (λ rows. (block : ℕ) → block < length body.now.blocks → length (slice_index_or rows block []) ≡ A.width analysis.now) }
    ensures carried { IfOk result (λ rows. AreCarried (length body.now.blocks) (target_of items.now body.now) (A.passed analysis.now body.now) (A.first analysis.now) rows) }
{
    let bits = analysis.bits();
    let mut flow = Flow::new(alloc, bits, body.blocks.len())?;
    let mut row = BitRow::new(alloc, bits)?;
    begin(analysis, items, body, &mut flow, &mut row)?;
    while let Some(block) = flow.take() {
        turn_block(analysis, items, body, &mut flow, &mut row, block)?;
    }
    Ok(Solution { rows: flow.rows })
}
