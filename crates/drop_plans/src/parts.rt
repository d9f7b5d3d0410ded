//! The parts of values by their numbers.
ghost use Rattle.std.specs.Prelude.{◌≡◌, ◌+◌, ◌<◌, IfOk, length};
ghost use Rattle.drop_blocks.specs.Ladders.{step_of};
ghost use Rattle.drop_plans.specs.Plans as plans;

use cfg_graph::Step;
use mir_base::NoMemory;

/// The step to a part of a value, or of a variant of it.
pub fn step_to(variant: Option<u32>, part: u32) -> Step
    ensures { result ≡ step_of variant part }
{
    match variant {
        Some(variant) => Step::Field { variant, part },
        None => Step::Part(part),
    }
}

/// The number of the next part; more than 32 bits count want more memory than there is.
pub fn next(number: u32) -> Result<u32, NoMemory>
    ensures { IfOk result (λ next. next ≡ number + 1) }
{
    number.checked_add(1).ok_or(NoMemory::past_32_bits())
}

/// The flag of the path with a number, if it has one.
pub fn flag_of(flags: &[Option<u32>], path: u32) -> Option<u32>
    requires { path < length flags.now }
    ensures { result ≡ plans.flag_of flags.now path }
{
    flags[path as usize]
}
