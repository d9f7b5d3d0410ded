//! Flags of paths, by the numbers of these.
ghost use Rattle.std.specs.Prelude.{◌≡◌, ◌+◌, ◌<◌, ◌^◌, IfOk, None, length, map, replicate};
ghost use Rattle.cfg_graph.specs.Places.{named};
ghost use Rattle.move_paths.specs.Trie.{AreOnce};
ghost use Rattle.drop_plans.specs.Tables.{AreTable, IsMarked};

use cfg_graph::Place;
use mir_base::{List, NoMemory};
use move_paths::Forest;
use std::alloc::Global;

fn no_flags(alloc: Global, count: u32) -> Result<List<Option<u32>>, NoMemory>
    ensures { IfOk result (λ table. table ≡ replicate count None) }
{
    let none: Option<u32> = None;
    Ok(List::from_vec(vec![in alloc; none; count as usize]?))
}

/// Notes the flag of a place, if it is a path.
fn mark(forest: &Forest, place: &Place, flag: u32, table: &mut List<Option<u32>>)
    requires { length table.old ≡ length forest.now.paths }
    ensures { IsMarked forest.now.paths (named place.now) flag table.old table.new }
{
    if let Some(number) = forest.exact(place) {
        table.set(number as usize, Some(flag));
    }
}

/// The flag of each path of a forest, by its number: flags are numbers from a first one on, in the order of the paths
/// that have one.
///
/// # Errors
///
/// [`NoMemory`] where memory is wanted.
pub fn flag_table(
    alloc: Global,
    forest: &Forest,
    flagged: &[Place],
    first: u32,
) -> Result<List<Option<u32>>, NoMemory>
    requires forest { AreOnce forest.now.paths }
    requires flagged { AreOnce (map named flagged.now) }
    requires room { first + length flagged.now < 2 ^ 32 }
    ensures { IfOk result (AreTable forest.now.paths (map named flagged.now) first) }
{
    let mut table = no_flags(alloc, forest.len())?;
    let mut flag = first;
    for place in flagged {
        mark(forest, place, flag, &mut table);
        flag += 1;
    }
    Ok(table)
}
