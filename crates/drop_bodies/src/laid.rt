//! The blocks of a body with exact drops, and how many are made for each.
ghost use Rattle.std.specs.Prelude.{◌≡◌, IfOk, length};
ghost use Rattle.mir_ty.specs.ItemTable.{ItemTable};
ghost use Rattle.drop_flags.specs.Flags.{AreFlags, HasRoom, paths_of};
ghost use Rattle.drop_blocks.specs.Ladders.{made_of};
ghost use Rattle.drop_laws.specs.Ranked.{AreLaid};
ghost use Rattle.drop_bodies.specs.Done.{AreDone};
ghost use Rattle.drop_bodies.specs.Ended.{AreEnded};

use cfg_graph::{Block, Body};
use drop_blocks::NewBlocks;
use drop_ends::{Decided, block_of};
use drop_flags::Flags;
use mir_base::{List, NoMemory};
use std::alloc::Global;

/// The blocks of a body, what is made for them, and how many for each.
#[derive(Drop)]
pub struct Laid {
    pub blocks: List<Block>,
    pub new: NewBlocks,
    pub sizes: List<u32>,
}

fn count_of(body: &Body) -> Result<u32, NoMemory>
    ensures { IfOk result (λ count. count ≡ length body.now.blocks) }
{
    let count = body.blocks.len();
    if count > u32::MAX as usize {
        return Err(NoMemory::past_32_bits());
    }
    Ok(count as u32)
}

/// The blocks of a body with flags and exact drops, by what is decided of the drop of each.
///
/// # Errors
///
/// [`NoMemory`] where memory is wanted, and where there are more blocks than 32 bits count.
pub fn laid_blocks(
    alloc: Global,
    flags: &Flags,
    decided: &[Decided],
    body: Body,
) -> Result<Laid, NoMemory>
    requires room { HasRoom flags.now }
    requires flags { (items : ItemTable) × AreFlags items body flags.now }
    requires count { length decided.now ≡ length body.blocks }
    ensures done { IfOk result (λ laid. (items : ItemTable) → AreFlags items body flags.now →
        AreDone items body (paths_of flags.now) decided.now (length body.blocks) laid.blocks (made_of laid.new)) }
    ensures ended { IfOk result (λ laid. (items : ItemTable) → AreFlags items body flags.now →
        AreEnded items body (paths_of flags.now) decided.now (length body.blocks) laid.blocks (made_of laid.new)) }
    ensures laid { IfOk result (λ laid. AreLaid body laid.blocks laid.new.made laid.sizes) }
{
    let mut new = NewBlocks::new(alloc, count_of(&body)?);
    let count = body.blocks.len();
    let mut blocks = List::from_vec(Vec::with_capacity(alloc, count)?);
    let mut sizes = List::from_vec(Vec::with_capacity(alloc, count)?);
    let mut number: u32 = 0;
    for block in body.blocks.into_vec() {
        let before = new.next_number()?;
        let how = &decided[number as usize];
        blocks.push(block_of(alloc, flags, how, number, block, &mut new)?)?;
        let after = new.next_number()?;
        sizes.push(after - before)?;
        number += 1;
    }
    Ok(Laid { blocks, new, sizes })
}
