//! The rows of blocks, and the work list: the blocks whose row changed, the one of the greatest number first. Lowering
//! numbers the blocks of a body from its end, and a turn block before the blocks of its loop, so a block is met when the
//! blocks before it are done, and a loop is gone over once more when all ways back to its turn block are.
ghost use Rattle.std.specs.Prelude.{◌≡◌, ◌<◌, ◌↔◌, IsFalse, ℕ, Contains, IfOk, OnOk, IfSome, IfNone, [], length, replicate, slice_set, slice_index_or, false, true};
ghost use Rattle.init_flow.specs.WorkList.{state_of, blocks_in, untouched, row_at, Waits, Taken, Arrives};
ghost use Rattle.bit_rows.specs.Words.{union};

use bit_rows::BitRow;
use mir_base::{List, NoMemory};
use std::alloc::Global;
use std::collections::BinaryHeap;

/// The row of each block, whether it was reached, whether it waits, and those that do as a heap.
#[derive(Drop)]
pub struct Flow {
    pub rows: List<BitRow>,
    pub reached: List<bool>,
    pub waiting: List<bool>,
    pub heap: BinaryHeap<u32>,
}

fn empty_rows(alloc: Global, bits: u32, count: usize) -> Result<List<BitRow>, NoMemory>
    ensures { IfOk result (λ rows. rows ≡ replicate count (replicate bits false)) }
{
    let mut rows = List::from_vec(Vec::with_capacity(alloc, count)?);
    for _ in 0..count {
        rows.push(BitRow::new(alloc, bits)?)?;
    }
    Ok(rows)
}

fn no_flags(alloc: Global, count: usize) -> Result<List<bool>, NoMemory>
    ensures { IfOk result (λ flags. flags ≡ replicate count false) }
{
    Ok(List::from_vec(vec![in alloc; false; count]?))
}

impl Flow {
    /// Rows of so many bits for so many blocks, of which none was reached.
    pub fn new(alloc: Global, bits: u32, count: usize) -> Result<Flow, NoMemory>
        ensures state { IfOk result (λ flow. state_of flow ≡ untouched bits count) }
        ensures heap { IfOk result (λ flow. blocks_in flow ≡ []) }
    {
        Ok(Flow {
            rows: empty_rows(alloc, bits, count)?,
            reached: no_flags(alloc, count)?,
            waiting: no_flags(alloc, count)?,
            heap: BinaryHeap::new(alloc),
        })
    }

    fn waits(&self, block: usize) -> bool
        requires { block < length self.now.waiting }
        ensures { result ≡ slice_index_or self.now.waiting block false }
    {
        self.waiting.as_slice()[block]
    }

    /// Lets a block wait, unless it does.
    fn wait(&mut self, block: u32) -> Result<(), NoMemory>
        requires { block < length self.old.waiting }
        ensures { OnOk result (Waits self.old self.new block) }
    {
        if !self.waits(block as usize) {
            self.heap.push(block)?;
            self.waiting.set(block as usize, true);
        }
        Ok(())
    }

    /// Takes up a block that waits.
    pub fn take(&mut self) -> Option<u32>
        requires { (n : ℕ) → Contains (blocks_in self.old) n → n < length self.old.waiting }
        ensures some { IfSome result (Taken self.old self.new) }
        ensures none { IfNone result (blocks_in self.old ≡ []) }
        ensures same { IfNone result (state_of self.new ≡ state_of self.old) }
    {
        let block = self.heap.pop()?;
        self.waiting.set(block as usize, false);
        Some(block)
    }

    /// Unites the row of a block with one that comes there. The block waits where that changed the row, or the block was
    /// not reached before.
    pub fn arrive(&mut self, block: u32, row: &BitRow) -> Result<(), NoMemory>
        requires rows { block < length self.old.rows }
        requires reached { block < length self.old.reached }
        requires waiting { block < length self.old.waiting }
        requires row { length row.now ≡ length (row_at (state_of self.old) block) }
        ensures { OnOk result (Arrives self.old self.new block row.now) }
    {
        let changed = self.unite(block as usize, row);
        if !changed && self.was_reached(block as usize) {
            return Ok(());
        }
        self.reached.set(block as usize, true);
        self.wait(block)
    }

    /// The row of a block.
    pub fn row_of(&self, block: usize) -> &BitRow
        requires { block < length self.now.rows }
        ensures { result.now ≡ row_at (state_of self.now) block }
    {
        &self.rows.as_slice()[block]
    }

    fn was_reached(&self, block: usize) -> bool
        requires { block < length self.now.reached }
        ensures { result ≡ slice_index_or self.now.reached block false }
    {
        self.reached.as_slice()[block]
    }

    fn unite(&mut self, block: usize, row: &BitRow) -> bool
        requires rows { block < length self.old.rows }
        requires row { length row.now ≡ length (row_at (state_of self.old) block) }
        ensures rows { self.new.rows ≡ slice_set self.old.rows block (union row.now (row_at (state_of self.old) block)) }
        ensures change { IsFalse result ↔ (union row.now (row_at (state_of self.old) block) ≡ row_at (state_of self.old) block) }
        ensures reached { self.new.reached ≡ self.old.reached }
        ensures waiting { self.new.waiting ≡ self.old.waiting }
        ensures heap { self.new.heap ≡ self.old.heap }
    {
        row.or_into(self.rows.element_mut(block))
    }
}
