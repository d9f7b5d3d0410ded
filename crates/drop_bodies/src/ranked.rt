//! Blocks with new ranks.
ghost use Rattle.std.specs.Prelude.{◌≡◌, ◌++◌, ◌<◌, ◌^◌, IfOk, OnOk, length, map};
ghost use Rattle.drop_laws.specs.Ranked as laws;
ghost use Rattle.drop_bodies.specs.Laid.{IsRankedBy};

use cfg_graph::{Block, Body};
use drop_ranks::{lower_ranks, tops};
use mir_base::{List, NoMemory};
use std::alloc::Global;

/// The ranks of the blocks of a body.
pub fn ranks_of(alloc: Global, body: &Body) -> Result<List<u32>, NoMemory>
    ensures { IfOk result (λ ranks. ranks ≡ map (λ block. block.rank) body.now.blocks) }
{
    let mut ranks = List::from_vec(Vec::with_capacity(alloc, body.blocks.len())?);
    for block in body.blocks.as_slice() {
        ranks.push(block.rank)?;
    }
    Ok(ranks)
}

fn append(ranks: &mut List<u32>, more: &[u32]) -> Result<(), NoMemory>
    ensures { OnOk result (ranks.new ≡ ranks.old ++ more.now) }
{
    for rank in more {
        ranks.push(*rank)?;
    }
    Ok(())
}

/// New ranks for blocks with these ranks and then for what is made for them, so many for each.
pub fn new_ranks(alloc: Global, before: &[u32], sizes: &[u32]) -> Result<List<u32>, NoMemory>
    requires count { length before.now < 2 ^ 32 }
    requires sizes { length sizes.now ≡ length before.now }
    ensures { IfOk result (IsRankedBy before.now sizes.now) }
{
    let mut ranks = tops(alloc, before, sizes)?;
    let lower = lower_ranks(alloc, ranks.as_slice(), sizes)?;
    append(&mut ranks, lower.as_slice())?;
    Ok(ranks)
}

/// Gives each block its rank.
fn set_ranks(blocks: &mut List<Block>, ranks: &[u32])
    requires { length ranks.now ≡ length blocks.old }
    ensures { blocks.new ≡ laws.ranked_with blocks.old ranks.now }
{
    for n in 0..blocks.len() {
        blocks.element_mut(n).rank = ranks[n];
    }
}

/// Blocks, and others behind them, with these ranks.
pub fn with_ranks(
    blocks: List<Block>,
    more: List<Block>,
    ranks: &[u32],
) -> Result<List<Block>, NoMemory>
    requires { length ranks.now ≡ length (blocks ++ more) }
    ensures { IfOk result (λ ranked. ranked ≡ laws.ranked_with (blocks ++ more) ranks.now) }
{
    let mut all = blocks.into_vec();
    all.append(&mut more.into_vec())?;
    let mut ranked = List::from_vec(all);
    set_ranks(&mut ranked, ranks);
    Ok(ranked)
}
