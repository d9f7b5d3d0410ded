//! The paths of a body that need a flag.
ghost use Rattle.std.specs.Prelude.{◌≡◌, IfOk, length, map, Some, true};
ghost use Rattle.std.specs.List.{range_with_len};
ghost use Rattle.cfg_graph.specs.Places.{named};
ghost use Rattle.drop_elaborate.specs.Kinds.{AreFlagged};
ghost use Rattle.drop_kinds.specs.Decided.{AreDecided};
ghost use Rattle.drop_plans.specs.Analysed.{AreAnalyses};
ghost use Rattle.drop_plans.specs.Plans.{flag_of};
ghost use Rattle.drop_laws.specs.Ready.{IsReadyBody};
ghost use Rattle.drop_wants.specs.Marks as marks;

use crate::marks::wanted;
use bit_rows::BitRow;
use cfg_graph::{Body, Place};
use drop_ends::Decided;
use drop_plans::Analyses;
use mir_base::{List, NoMemory};
use mir_ty::Items;
use move_paths::Forest;
use std::alloc::Global;

/// For each path itself as the number of its flag.
///
/// # Errors
///
/// [`NoMemory`] where memory is wanted.
pub fn own_numbers(alloc: Global, count: u32) -> Result<List<Option<u32>>, NoMemory>
    ensures { IfOk result (λ numbers. numbers ≡ map Some (range_with_len 0 count)) }
{
    let mut numbers = List::from_vec(Vec::with_capacity(alloc, count as usize)?);
    for path in 0..count {
        numbers.push(Some(path))?;
    }
    Ok(numbers)
}

/// Whether no bit is on.
fn is_off(row: &BitRow) -> bool
    ensures { result ≡ true → marks.AllOff row.now }
{
    for path in 0..row.len() {
        if row.get(path) {
            return false;
        }
    }
    true
}

/// The places of the paths whose bits are on.
fn chosen(alloc: Global, row: &BitRow, forest: &Forest) -> Result<List<Place>, NoMemory>
    requires { length row.now ≡ length forest.now.paths }
    ensures { IfOk result (λ some. map named some ≡ marks.chosen row.now forest.now.paths) }
{
    let mut some = List::new(alloc);
    for n in 0..row.len() {
        if row.get(n) {
            some.push(forest.place(alloc, n)?)?;
        }
    }
    Ok(some)
}

/// The paths that need a flag, in the order of their numbers: those whose flag the plan of some drop reads, by what
/// becomes of the drops where each path itself is the number of its flag.
///
/// # Errors
///
/// [`NoMemory`] where memory is wanted.
pub fn flagged(
    alloc: Global,
    items: &Items,
    body: &Body,
    told: &Analyses,
    decided: &[Decided],
) -> Result<List<Place>, NoMemory>
    requires ready { IsReadyBody items.now body.now }
    requires told { AreAnalyses items.now body.now told.now }
    requires decided { AreDecided items.now body.now told.now.forest.paths
        (flag_of (map Some (range_with_len 0 (length told.now.forest.paths)))) (length body.now.blocks) decided.now }
    ensures { IfOk result (λ places. AreFlagged items.now body.now told.now.forest.paths (map named places)) }
{
    let row = wanted(alloc, told.forest.len(), decided)?;
    if is_off(&row) {
        return Ok(List::new(alloc));
    }
    chosen(alloc, &row, &told.forest)
}
