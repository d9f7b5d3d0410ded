//! The table of the types that are read.
ghost use Rattle.std.specs.Prelude.{length};
ghost use Rattle.mir_ty.specs.AreItems.{HasParts};
ghost use Rattle.listing_parts.specs.Table.{AreRead, MayStand};
ghost use Rattle.listing_parts.specs.TypesRead.{GivesType};

use crate::Heads;
use mir_base::NoMemory;
use mir_ty::{Items, Ty, TyId};

/// The number of a type in the table, which the table gets where it is not there yet.
pub fn give_number(heads: &Heads, items: &mut Items, ty: Ty) -> Result<TyId, NoMemory>
    requires read { AreRead heads.now items.old.types }
    requires stands { MayStand heads.now (length items.old.types) ty }
    requires parts { HasParts ty }
    ensures { GivesType heads.now items.old items.new result ty }
{
    let id = items.intern(ty)?;
    let _found = items.ty(id);
    Ok(id)
}
