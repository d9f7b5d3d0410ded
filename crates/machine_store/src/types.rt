ghost use Rattle.std.specs.Prelude.{◌≡◌, true, option_map, option_and_then, slice_get};
ghost use Rattle.cfg_meaning.specs.Programs.{setting_of};
ghost use Rattle.machine_store.specs.Standing.{dynamic_of, content_found};
ghost use Rattle.mir_ty.specs.Parts.{parts_of, fields_of};
ghost use Rattle.mir_ty.specs.ItemTable.{type_at};
ghost use Rattle.store_model.specs.Places.TypeForms.{box_content};
ghost use Rattle.mir_ty.specs.declared.ty.Ty.{Ty as a_type};
ghost use Rattle.store_model.specs.Concrete.Location.{adt_of_impl as adt_by_impl, type_of_part as type_by_step};
ghost use Rattle.store_model.specs.Concrete.Location.{concrete_ty};
ghost use Rattle.store_model.specs.Values.Datum.{datum_of};

use cfg_graph::Graph;
use mir_ty::{Adt, Items, Ty, TyId};
use store_model::{At, Value};

/// As what a value is found: a value as its type, and the content of a boxed trait object as the trait and as the type
/// of its impl (The Rust Reference, "Trait objects").
#[derive(Clone, Copy)]
pub enum Dynamic {
    /// As its type.
    OfType(TyId),
    /// As the `dyn` type, and as the struct or enum of the impl with this number.
    OfObject(TyId, u32),
}

/// The type of a local of a body.
pub fn local_ty(graph: &Graph, body: u32, local: u32) -> Option<TyId>
    ensures { result ≡ (setting_of true graph.now).local_ty body local }
{
    let body = graph.bodies.get(body as usize)?;
    body.locals.get(local as usize).copied()
}

/// The struct or enum for which an impl is.
pub fn adt_of_impl(items: &Items, impl_no: u32) -> Option<u32>
    ensures { result ≡ adt_by_impl items.now impl_no }
{
    match items.impl_def(impl_no) {
        Some(found) => Some(found.adt),
        None => None,
    }
}

fn field_of_variant(adt: &Adt, variant: u32, part: u32) -> Option<TyId>
    ensures { result ≡ slice_get (fields_of (slice_get adt.now.variants variant)) part }
{
    let found = adt.variants.get(variant as usize)?;
    found.fields.get(part as usize).copied()
}

/// The type of a field of a struct or an enum.
fn field_of_adt(items: &Items, adt: u32, variant: u32, part: u32) -> Option<TyId>
    ensures { result ≡ slice_get (parts_of items.now (a_type.Adt adt) variant) part }
{
    match items.adt(adt) {
        Some(found) => field_of_variant(found, variant, part),
        None => None,
    }
}

/// The type of a numbered part of what is found so.
pub fn field_ty(items: &Items, dynamic: Dynamic, variant: u32, part: u32) -> Option<TyId>
    ensures { result ≡ option_and_then (λ ty. slice_get (parts_of items.now ty variant) part)
        (concrete_ty items.now (dynamic_of dynamic)) }
{
    match dynamic {
        Dynamic::OfType(id) => items.field_ty(id, variant, part),
        Dynamic::OfObject(_, impl_no) => match adt_of_impl(items, impl_no) {
            Some(adt) => field_of_adt(items, adt, variant, part),
            None => None,
        },
    }
}

/// The type of the content of a box of this type.
fn content_of_box(items: &Items, id: TyId) -> Option<TyId>
    ensures { result ≡ box_content (type_at items.now id) }
{
    match items.ty(id) {
        Some(Ty::Boxed(inside)) => Some(*inside),
        _ => None,
    }
}

/// As what the content of a box is found.
fn content_type(items: &Items, dynamic: Dynamic, impl_no: Option<u32>) -> Option<Dynamic>
    ensures { option_map dynamic_of result ≡ content_found items.now (dynamic_of dynamic) impl_no }
{
    let Dynamic::OfType(id) = dynamic else {
        return None;
    };
    let inside = content_of_box(items, id)?;
    match impl_no {
        None => Some(Dynamic::OfType(inside)),
        Some(impl_no) => Some(Dynamic::OfObject(inside, impl_no)),
    }
}

/// As what a part of a value is found.
pub fn type_of_part(items: &Items, step: At, value: &Value, dynamic: Dynamic) -> Option<Dynamic>
    ensures { option_map dynamic_of result ≡ type_by_step items.now step (datum_of value.now) (dynamic_of dynamic) }
{
    match (step, value) {
        (At::Part(part), Value::Parts { variant, .. }) => match field_ty(
            items, dynamic, *variant, part,
        ) {
            Some(id) => Some(Dynamic::OfType(id)),
            None => None,
        },
        (At::Inside, Value::Boxed { impl_no, .. }) => content_type(items, dynamic, *impl_no),
        _ => None,
    }
}
