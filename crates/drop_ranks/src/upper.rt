//! New ranks of blocks.
ghost use Rattle.std.specs.Prelude.{◌≡◌, ◌+◌, ◌<◌, ◌^◌, IfOk, length, replicate};
ghost use Rattle.drop_ranks.specs.Ranks.{AreTops};

use crate::order::in_order;
use mir_base::{List, NoMemory};
use std::alloc::Global;

/// The sum; one that 32 bits do not count wants more memory than there is.
fn past(one: u32, other: u32) -> Result<u32, NoMemory>
    ensures { IfOk result (λ sum. sum ≡ one + other) }
{
    one.checked_add(other).ok_or(NoMemory::past_32_bits())
}

fn zeros(alloc: Global, count: usize) -> Result<List<u32>, NoMemory>
    ensures { IfOk result (λ zeros. zeros ≡ replicate count 0) }
{
    let zero: u32 = 0;
    Ok(List::from_vec(vec![in alloc; zero; count]?))
}

/// New ranks of blocks, by their old ones and by how many blocks are made for each.
///
/// # Errors
///
/// [`NoMemory`] where memory is wanted, and where there are more blocks than 32 bits count.
pub fn tops(alloc: Global, ranks: &[u32], sizes: &[u32]) -> Result<List<u32>, NoMemory>
    requires count { length ranks.now < 2 ^ 32 }
    requires sizes { length sizes.now ≡ length ranks.now }
    ensures { IfOk result (AreTops ranks.now sizes.now) }
{
    let order = in_order(alloc, ranks)?;
    let mut tops = zeros(alloc, ranks.len())?;
    let mut next: u32 = 0;
    for (_, number) in order.as_slice() {
        let top = past(next, sizes[*number as usize])?;
        tops.set(*number as usize, top);
        next = past(top, 1)?;
    }
    Ok(tops)
}
