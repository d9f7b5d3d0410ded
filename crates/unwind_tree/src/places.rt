//! Places once more.
ghost use Rattle.std.specs.Prelude.{◌≡◌, ◌++◌, IfOk, OnOk};
ghost use Rattle.unwind_tree.specs.Trees.{dropped, awaiting};

use crate::Scheduled;
use crate::scope::Pending;
use cfg_graph::Place;
use mir_base::{List, NoMemory};
use std::alloc::Global;

/// A place once more.
fn copy_place(alloc: Global, place: &Place) -> Result<Place, NoMemory>
    ensures { IfOk result (λ copy. copy ≡ place.now) }
{
    Ok(Place {
        local: place.local,
        steps: place.steps.copy(alloc)?,
    })
}

/// The places of entries are put behind others, that of the youngest first.
pub fn add_entries(
    alloc: Global,
    entries: &[Scheduled],
    places: &mut List<Place>,
) -> Result<(), NoMemory>
    ensures { OnOk result (places.new ≡ places.old ++ dropped entries.now) }
{
    for number in (0..entries.len()).rev() {
        places.push(copy_place(alloc, &entries[number].place)?)?;
    }
    Ok(())
}

/// The places of destinations that are pending are put behind others, that of the youngest first.
pub fn add_pending(
    alloc: Global,
    pending: &[Pending],
    places: &mut List<Place>,
) -> Result<(), NoMemory>
    ensures { OnOk result (places.new ≡ places.old ++ dropped (awaiting pending.now)) }
{
    for number in (0..pending.len()).rev() {
        places.push(copy_place(alloc, &pending[number].scheduled.place)?)?;
    }
    Ok(())
}
