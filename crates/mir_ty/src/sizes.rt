//! How many members the lists of items can have, so that each of them has a number of 32 bits.
ghost use Rattle.std.specs.Prelude.{◌≡◌, ◌+◌, ◌-◌, ◌^◌, ◌<◌, IfOk, OnOk, length};
ghost use Rattle.mir_ty.specs.AreItems.{IsShort, AdtIsShort, TraitIsShort, types_in};

use crate::{Adt, Sig, TraitDef, Ty, Variant};
use mir_base::NoMemory;

/// Past this many members a list is refused as one for which there is no memory.
const MOST_MEMBERS: usize = 4294967294;

/// Refuses a list of this length where it is too long.
pub fn check_len(len: usize) -> Result<(), NoMemory>
    ensures { OnOk result (len < 2 ^ 32 - 1) }
{
    if len > MOST_MEMBERS {
        return Err(NoMemory::past_32_bits());
    }
    Ok(())
}

/// The number of the next member of a table that has this many, unless the table would be too long.
pub fn next_number(len: usize) -> Result<u32, NoMemory>
    ensures number { IfOk result (λ n. n ≡ len) }
    ensures short { OnOk result (len + 1 < 2 ^ 32 - 1) }
{
    if len >= MOST_MEMBERS {
        return Err(NoMemory::past_32_bits());
    }
    Ok(len as u32)
}

pub fn check_ty(ty: &Ty) -> Result<(), NoMemory>
    ensures { OnOk result (IsShort (types_in ty.now)) }
{
    match ty {
        Ty::Tuple(parts) => check_len(parts.len()),
        _ => Ok(()),
    }
}

fn check_variant(variant: &Variant) -> Result<(), NoMemory>
    ensures { OnOk result (IsShort variant.now.fields) }
{
    check_len(variant.fields.len())
}

pub fn check_adt(adt: &Adt) -> Result<(), NoMemory>
    ensures { OnOk result (AdtIsShort adt.now) }
{
    check_len(adt.variants.len())?;
    for variant in adt.variants.as_slice() {
        check_variant(variant)?;
    }
    Ok(())
}

pub fn check_trait(def: &TraitDef) -> Result<(), NoMemory>
    ensures { OnOk result (TraitIsShort def.now) }
{
    check_len(def.methods.len())?;
    for method in def.methods.as_slice() {
        check_sig(method)?;
    }
    Ok(())
}

pub fn check_sig(sig: &Sig) -> Result<(), NoMemory>
    ensures { OnOk result (IsShort sig.now.params) }
{
    check_len(sig.params.len())
}
