//! The ranks of what is made for blocks.
ghost use Rattle.std.specs.Prelude.{◌≡◌, ◌++◌, ◌-◌, ◌<◌, ◌≤◌, ℕ, IfOk, OnOk, length, slice_index};
ghost use Rattle.std.specs.List.{range_with_len};
ghost use Rattle.drop_ranks.specs.Ranks as ranks;

use mir_base::{List, NoMemory};
use std::alloc::Global;

/// Adds ranks from one on, up to another.
fn add_from(first: u32, end: u32, ranks: &mut List<u32>) -> Result<(), NoMemory>
    requires { first ≤ end }
    ensures { OnOk result (ranks.new ≡ ranks.old ++ range_with_len first (end - first)) }
{
    for rank in first..end {
        ranks.push(rank)?;
    }
    Ok(())
}

/// The ranks of what is made for blocks, in order: just below each block, so many.
///
/// # Errors
///
/// [`NoMemory`] where memory is wanted.
pub fn lower_ranks(alloc: Global, tops: &[u32], sizes: &[u32]) -> Result<List<u32>, NoMemory>
    requires sizes { length sizes.now ≡ length tops.now }
    requires room { (n : ℕ) → n < length tops.now → slice_index sizes.now n ≤ slice_index tops.now n }
    ensures { IfOk result (λ lower. lower ≡ ranks.lower_ranks tops.now sizes.now) }
{
    let mut lower = List::new(alloc);
    let mut n: usize = 0;
    for top in tops {
        add_from(*top - sizes[n], *top, &mut lower)?;
        n += 1;
    }
    Ok(lower)
}
