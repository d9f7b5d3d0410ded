//! The parts of values by their numbers.
ghost use Rattle.std.specs.Prelude.{◌≡◌, IfOk};
ghost use Rattle.drop_blocks.specs.Ladders.{step_of};

use cfg_graph::Step;
use mir_base::NoMemory;

/// The step to a part of a value, or of a variant of it.
pub fn step_to(variant: Option<u32>, part: u32) -> Step
    ensures { result ≡ step_of variant part }
{
    match variant {
        Some(variant) => Step::Field { variant, part },
        None => Step::Part(part),
    }
}

/// How many parts or variants there are; more than 32 bits count want more memory than there is.
pub fn count_of(len: usize) -> Result<u32, NoMemory>
    ensures { IfOk result (λ count. count ≡ len) }
{
    let Ok(count) = u32::try_from(len) else {
        return Err(NoMemory::past_32_bits());
    };
    Ok(count)
}
