//! Places.
ghost use Rattle.std.specs.Prelude.{◌≡◌, IfOk};
ghost use Rattle.drop_elaborate.specs.Ladder as ladder;

use cfg_graph::{Place, Step};
use mir_base::NoMemory;
use std::alloc::Global;
use store_model::Path;

/// A place once more.
pub fn copy_place(alloc: Global, place: &Place) -> Result<Place, NoMemory>
    ensures { IfOk result (λ copy. copy ≡ place.now) }
{
    Ok(Place {
        local: place.local,
        steps: place.steps.copy(alloc)?,
    })
}

/// The place one step below a place.
pub fn place_below(alloc: Global, place: &Place, step: Step) -> Result<Place, NoMemory>
    ensures { IfOk result (λ part. part ≡ ladder.place_below place.now step) }
{
    let mut part = copy_place(alloc, place)?;
    part.steps.push(step)?;
    Ok(part)
}

/// A whole local.
pub fn whole_local(alloc: Global, local: u32) -> Place
    ensures { result ≡ ladder.local_place local }
{
    Place {
        local,
        steps: Path::new(alloc),
    }
}
