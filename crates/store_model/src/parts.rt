ghost use Rattle.std.specs.Prelude.{◌≡◌, IfOk, map};
ghost use Rattle.std.specs.List.{range_with_len};
ghost use Rattle.store_model.specs.declared.address.At.TheVariants.{Part};
ghost use Rattle.store_model.specs.Values.Datum.{datum_of};
ghost use Rattle.store_model.specs.Values.Parts.{steps_to_parts};

use crate::{At, Value};
use mir_base::{List, NoMemory};
use std::alloc::Global;

/// The steps to the parts of a value, in the order in which the parts are dropped: those of an aggregate
/// from first to last, and the content of a box. A part that is gone has its step too, and its drop does
/// nothing. Other values have no parts. The order is that of The Rust Reference, "Destructors".
///
/// Parts have their numbers below 4,294,967,296; the steps to more parts than that are more than memory
/// holds, and the answer is `NoMemory`.
pub fn parts_in_order(alloc: Global, value: &Value) -> Result<List<At>, NoMemory>
    ensures { IfOk result (λ steps. steps ≡ steps_to_parts (datum_of value.now)) }
{
    match value {
        Value::Parts { parts, .. } => {
            let Ok(count) = u32::try_from(parts.len()) else {
                return Err(NoMemory::past_32_bits());
            };
            numbered_steps(alloc, count)
        }
        Value::Boxed { .. } => {
            let mut steps = List::new(alloc);
            steps.push(At::Inside)?;
            Ok(steps)
        }
        _ => Ok(List::new(alloc)),
    }
}

/// The steps to so many parts, from the first to the last.
fn numbered_steps(alloc: Global, count: u32) -> Result<List<At>, NoMemory>
    ensures { IfOk result (λ steps. steps ≡ map Part (range_with_len 0 count)) }
{
    let mut steps = List::new(alloc);
    for number in 0..count {
        steps.push(At::Part(number))?;
    }
    Ok(steps)
}
