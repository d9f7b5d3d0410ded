ghost use Rattle.std.specs.Prelude.{◌≡◌, IfOk};
ghost use Rattle.std.specs.List.{list_any};
ghost use Rattle.mir_ty.specs.Facts.{needs_drop};
ghost use Rattle.vtable_rows.specs.RowTable.{row_of, rows_of, adt_needs_drop, NeedsDropAsItsType};

use crate::{Row, Rows};
use mir_base::{List, NoMemory};
use mir_ty::{ImplDef, Items, TyId, Variant};
use std::alloc::Global;

/// Whether a value of a struct or an enum needs dropping; it does not where the items have none with this number.
fn drops(items: &Items, adt: u32) -> bool
    ensures { result ≡ adt_needs_drop items.now adt }
{
    match items.adt(adt) {
        Some(adt) => adt.drop_body.is_some() || has_field_to_drop(items, &adt.variants),
        None => false,
    }
}

fn any_needs_drop(items: &Items, types: &List<TyId>) -> bool
    ensures { result ≡ list_any (needs_drop items.now) types.now }
{
    types.iter().any(|id| items.needs_drop(*id))
}

fn has_field_to_drop(items: &Items, variants: &List<Variant>) -> bool
    ensures { result ≡ list_any (λ variant. list_any (needs_drop items.now) variant.fields) variants.now }
{
    variants
        .iter()
        .any(|variant| any_needs_drop(items, &variant.fields))
}

/// The row of one impl.
fn row_for(alloc: Global, items: &Items, of: &ImplDef) -> Result<Row, NoMemory>
    ensures { IfOk result (λ row. row ≡ row_of items.now of.now) }
{
    Ok(Row {
        adt: of.adt,
        bodies: List::from(Vec::from_slice(alloc, of.bodies.as_slice())?),
        needs_drop: drops(items, of.adt),
    })
}

/// The rows of all impls, one for each. It asks nothing of the items: an impl that names no struct or enum of the
/// table has a row all the same, of which nothing needs dropping. The cost is the size of the impls, and of their
/// structs and enums. [`NoMemory`] has no other cause than the size of the rows.
pub fn rows(alloc: Global, items: &Items) -> Result<Rows, NoMemory>
    ensures each { IfOk result (λ rows. rows ≡ rows_of items.now) }
    ensures types { IfOk result (λ rows. NeedsDropAsItsType items.now rows) }
{
    let mut made = List::new(alloc);
    while let Some(of) = items.impl_def(made.len() as u32) {
        made.push(row_for(alloc, items, of)?)?;
    }
    Ok(Rows::from_list(made))
}
