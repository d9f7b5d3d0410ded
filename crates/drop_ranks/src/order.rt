//! Blocks in the order of their ranks.
ghost use Rattle.std.specs.Prelude.{◌≡◌, ◌<◌, ◌^◌, IfOk, length};
ghost use Rattle.drop_ranks.specs.Ranks.{IsOrder, numbered_from};

use mir_base::NoMemory;
use std::alloc::Global;

/// Each rank with the number of its block.
fn numbered(alloc: Global, ranks: &[u32]) -> Result<Vec<(u32, u32)>, NoMemory>
    requires { length ranks.now < 2 ^ 32 }
    ensures { IfOk result (λ entries. entries.items ≡ numbered_from 0 ranks.now) }
{
    let mut entries = Vec::with_capacity(alloc, ranks.len())?;
    let mut number: u32 = 0;
    for rank in ranks {
        entries.push((*rank, number))?;
        number += 1;
    }
    Ok(entries)
}

/// The blocks from the lowest rank to the highest.
pub fn in_order(alloc: Global, ranks: &[u32]) -> Result<Vec<(u32, u32)>, NoMemory>
    requires { length ranks.now < 2 ^ 32 }
    ensures { IfOk result (λ order. IsOrder ranks.now order.items) }
{
    let mut order = numbered(alloc, ranks)?;
    order.sort_unstable_by_key(|entry| entry.0);
    Ok(order)
}
