//! The variants of types.
ghost use Rattle.std.specs.Prelude.{◌≡◌, option_and_then, slice_get};
ghost use Rattle.std.specs.Option.{option_copied};
ghost use Rattle.mir_ty.specs.ItemTable.{type_at};
ghost use Rattle.cfg_build.specs.Words.{variants};

use mir_ty::{Items, Ty, TyId, Variant};

/// A variant of a type that has one with this number.
pub fn variant_at(items: &Items, ty: Option<TyId>, number: u32) -> Option<&Variant>
    ensures { option_copied result ≡ slice_get (variants items.now (option_and_then (type_at items.now) ty)) number }
{
    match items.ty(ty?)? {
        Ty::Adt(n) => items.adt(*n)?.variants.get(number as usize),
        _ => None,
    }
}
