ghost use Rattle.std.specs.Prelude.{◌≡◌, ◌<◌, ◌+◌, ◌^◌, length};
ghost use Rattle.std.specs.Bool.{OnTrue};
ghost use Rattle.mir_ty.specs.ItemTable.{type_at};
ghost use Rattle.src_meaning.specs.Locals.OfBody as of_body;
ghost use Rattle.lower_locals.specs.Own.{is_another};

use mir_ty::{Items, Ty, TyId};

/// Whether there is a type with this number that is not `bool`.
fn is_another(items: &Items, id: TyId) -> bool
    ensures value { result ≡ is_another (type_at items.now id) }
    ensures within { OnTrue result (id.0 < length items.now.types) }
    ensures short { OnTrue result (id.0 + 1 < 2 ^ 32) }
{
    match items.ty(id) {
        Some(Ty::Bool) | None => false,
        Some(_) => true,
    }
}

/// The number of `bool`; where the table has no `bool`, the number past its types. It costs by that number, and `bool`
/// is among the first types of a table.
pub fn bool_ty(items: &Items) -> TyId
    ensures { result ≡ of_body.bool_ty items.now }
{
    let mut number: u32 = 0;
    while is_another(items, TyId(number)) {
        number += 1;
    }
    TyId(number)
}
