//! The array that an index is taken of.
ghost use Rattle.std.specs.Prelude.{◌≡◌, IfOk};
ghost use Rattle.cfg_graph.specs.Places.{named};
ghost use Rattle.lower_code.specs.Forms as forms;

use cfg_graph::{Place, Step};
use mir_base::NoMemory;
use std::alloc::Global;
use store_model::Path;

/// The array of whose elements a place takes one: it ends before the first such step.
pub fn array_around(alloc: Global, place: &Place) -> Result<Place, NoMemory>
    ensures { IfOk result (λ array. named array ≡ forms.array_around (named place.now)) }
{
    let mut steps = Path::new(alloc);
    for step in place.steps.as_slice() {
        if let Step::Index(_) = step {
            break;
        }
        steps.push(*step)?;
    }
    Ok(Place {
        local: place.local,
        steps,
    })
}
