//! What is known of the body that is lowered.
ghost use Rattle.std.specs.Prelude.{◌≡◌, ◌+◌, IfOk};
ghost use Rattle.lower_passes.specs.Framed.{frame_of};

use lower_locals::Locals;
use mir_base::{Key, NoMemory};
use mir_ty::{Items, TyId};

/// The items of a program, and the locals of the body that is lowered: by key, and their types.
#[derive(Clone, Copy)]
pub struct LoweringFrame<'a> {
    pub items: &'a Items,
    pub locals: &'a Locals,
    pub tys: &'a [TyId],
}

/// The local that a key names, and a number past all locals where it names none.
///
/// # Errors
///
/// [`NoMemory`] where that number is more than 32 bits.
pub fn local(frame: LoweringFrame, key: Key) -> Result<u32, NoMemory>
    ensures { IfOk result (λ local. local ≡ (frame_of frame.entry).local_of key.0) }
{
    match frame.locals.local_of(key) {
        Some(local) => Ok(local),
        None => past(frame.locals.as_slice().len(), key),
    }
}

/// A number past so many locals.
fn past(count: usize, key: Key) -> Result<u32, NoMemory>
    ensures { IfOk result (λ number. number ≡ count + key.0) }
{
    if count > u32::MAX as usize {
        return Err(NoMemory::past_32_bits());
    }
    (count as u32)
        .checked_add(key.0)
        .ok_or(NoMemory::past_32_bits())
}
