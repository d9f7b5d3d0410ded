ghost use Rattle.std.specs.Prelude.{◌≡◌, suc, IfOk};
ghost use Rattle.cfg_graph.specs.Places.{named, named_step};
ghost use Rattle.src_meaning.specs.Shape.{extended};
ghost use Rattle.pattern_lower.specs.Seen.{to_field};

use cfg_graph::{Place, Step};
use mir_base::NoMemory;
use std::alloc::Global;

/// A place once more.
pub fn copy_place(alloc: Global, place: &Place) -> Result<Place, NoMemory>
    ensures { IfOk result (λ copy. copy ≡ place.now) }
{
    Ok(Place {
        local: place.local,
        steps: place.steps.copy(alloc)?,
    })
}

/// A part of a place.
pub fn part_of(alloc: Global, place: &Place, step: Step) -> Result<Place, NoMemory>
    ensures { IfOk result (λ part. named part ≡ extended (named_step step) (named place.now)) }
{
    let mut part = copy_place(alloc, place)?;
    part.steps.push(step)?;
    Ok(part)
}

/// The step to a field of a struct, or to one of a variant.
pub fn step_to(variant: Option<u32>, part: u32) -> Step
    ensures { named_step result ≡ to_field variant part }
{
    match variant {
        Some(variant) => Step::Field { variant, part },
        None => Step::Part(part),
    }
}

/// The number of the next part; a pattern of more parts than numbers wants more memory than there is.
pub fn next(number: u32) -> Result<u32, NoMemory>
    ensures { IfOk result (λ next. next ≡ suc number) }
{
    number.checked_add(1).ok_or(NoMemory::past_32_bits())
}
