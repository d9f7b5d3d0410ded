//! The raw graph of a text.
ghost use Rattle.std.specs.Prelude.{◌<◌, ◌-◌, ◌^◌, IfOk, IfErr, length};
ghost use Rattle.mir_pipeline.specs.Graphs.{IsLoweredOf};
ghost use Rattle.mir_pipeline.specs.Programs.{HasNoProgram};

use crate::refusal::Refusal;
use crate::typed::read_typed;
use cfg_build::{Lowered, lower_owned};
use mir_base::NoMemory;
use std::alloc::Global;

/// The raw graph of a text of at most 4,294,967,294 bytes that breaks no rule, with scheduled drops, and the sites of
/// its uses. It is well formed. Of its uses nothing is asked; where the program is accepted, the graph runs exactly as the
/// program does, and is never stuck.
///
/// # Errors
///
/// As [`read_typed`] where the text has no typed program; never [`Refusal::U1`] or [`Refusal::U2`].
pub fn build_raw(alloc: Global, text: &[u8]) -> Result<Lowered, Refusal>
    requires { length text.now < 2 ^ 32 - 1 }
    ensures graph { IfOk result (λ lowered. IsLoweredOf text.now lowered) }
    ensures refused { IfErr result (λ refusal. HasNoProgram text.now refusal) }
{
    let typed = read_typed(alloc, text)?;
    match lower_owned(alloc, typed) {
        Ok(lowered) => Ok(lowered),
        Err(NoMemory) => Err(Refusal::Memory),
    }
}
