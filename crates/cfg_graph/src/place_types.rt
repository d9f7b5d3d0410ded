//! The types of places and operands.
ghost use Rattle.std.specs.Prelude.{◌≡◌, option_and_then, map, slice_get};
ghost use Rattle.std.specs.Option.{option_copied};
ghost use Rattle.mir_ty.specs.ItemTable.{type_at};
ghost use Rattle.store_model.specs.Places.Place.{step_ty as step_type, ty_along as type_along, is_enum as enum_type, content_of, element_of};
ghost use Rattle.store_model.specs.Places.TypeForms.{is_bool as bool_type, is_dyn as dyn_type, is_adt, is_closure, is_int, int_kind, box_content, referent, adt_of};
ghost use Rattle.mir_ty.specs.declared.ty.Ty.TheVariants.{Int};
ghost use Rattle.std.specs.Prelude.{Some};
ghost use Rattle.cfg_graph.specs.Places.{place_id, named_step, ty_of_place as type_of_place, ty_of_operand};
ghost use Rattle.cfg_graph.specs.WellFormed.Questions.{same_kinds};

use crate::{Operand, Place, Step};
use mir_base::IntKind;
use mir_ty::{Items, Ty, TyId};

fn is_enum(items: &Items, ty: &Ty) -> bool
    ensures { result ≡ enum_type items.now ty.now }
{
    match ty {
        Ty::Adt(n) => match items.adt(*n) {
            Some(adt) => adt.is_enum,
            None => false,
        },
        _ => false,
    }
}

fn content(ty: &Ty) -> Option<TyId>
    ensures { result ≡ content_of ty.now }
{
    match ty {
        Ty::Boxed(inside) => Some(*inside),
        Ty::Shared(to) | Ty::Unique(to) => Some(*to),
        _ => None,
    }
}

fn element(ty: &Ty) -> Option<TyId>
    ensures { result ≡ element_of ty.now }
{
    match ty {
        Ty::Array(element, _) => Some(*element),
        _ => None,
    }
}

/// The type to which a step leads from a value of a type, if there is one.
pub fn step_ty(items: &Items, step: Step, from: Option<TyId>) -> Option<TyId>
    ensures { result ≡ option_and_then (step_type items.now (named_step step)) (option_and_then (type_at items.now) from) }
{
    let id = from?;
    let ty = items.ty(id)?;
    match step {
        Step::Part(n) if !is_enum(items, ty) => items.field_ty(id, 0, n),
        Step::Field { variant, part } if is_enum(items, ty) => items.field_ty(id, variant, part),
        Step::Inside => content(ty),
        Step::Index(_) => element(ty),
        _ => None,
    }
}

fn ty_along(items: &Items, steps: &[Step], id: TyId) -> Option<TyId>
    ensures { result ≡ type_along items.now (map named_step steps.now) id }
{
    let mut at = Some(id);
    for step in steps {
        at = step_ty(items, *step, at);
    }
    at
}

/// The type of a place by the types of the locals; `None` where the local or a step does not exist. It costs a step for
/// each step of the place.
pub fn place_ty(items: &Items, locals: &[TyId], place: &Place) -> Option<TyId>
    ensures { result ≡ place_id items.now locals.now place.now }
{
    let local = locals.get(place.local as usize)?;
    ty_along(items, place.steps.as_slice(), *local)
}

/// The type of a place; `None` where the local or a step does not exist.
pub fn ty_of_place<'a>(items: &'a Items, locals: &[TyId], place: &Place) -> Option<&'a Ty>
    ensures { option_copied result ≡ type_of_place items.now locals.now place.now }
{
    items.ty(place_ty(items, locals, place)?)
}

pub fn is_bool(ty: Option<&Ty>) -> bool
    ensures { result ≡ bool_type (option_copied ty.entry) }
{
    matches!(ty, Some(Ty::Bool))
}

pub fn is_dyn(ty: Option<&Ty>) -> bool
    ensures { result ≡ dyn_type (option_copied ty.entry) }
{
    matches!(ty, Some(Ty::Dyn(_)))
}

/// The integer type that a type is.
pub fn kind_of(ty: Option<&Ty>) -> Option<IntKind>
    ensures { result ≡ int_kind (option_copied ty.entry) }
{
    match ty {
        Some(Ty::Int(kind)) => Some(*kind),
        _ => None,
    }
}

/// The type of what is in a box.
pub fn content_of_box(ty: Option<&Ty>) -> Option<TyId>
    ensures { result ≡ box_content (option_copied ty.entry) }
{
    match ty {
        Some(Ty::Boxed(inside)) => Some(*inside),
        _ => None,
    }
}

/// The type of what a reference names, `&mut` where it is unique.
pub fn referent_of(unique: bool, ty: Option<&Ty>) -> Option<TyId>
    ensures { result ≡ referent unique (option_copied ty.entry) }
{
    match ty {
        Some(Ty::Shared(to)) if !unique => Some(*to),
        Some(Ty::Unique(to)) if unique => Some(*to),
        _ => None,
    }
}

/// The number of a struct or an enum.
pub fn number_of_adt(ty: Option<&Ty>) -> Option<u32>
    ensures { result ≡ adt_of (option_copied ty.entry) }
{
    match ty {
        Some(Ty::Adt(n)) => Some(*n),
        _ => None,
    }
}

pub fn is_adt_of(n: u32, ty: Option<&Ty>) -> bool
    ensures { result ≡ is_adt n (option_copied ty.entry) }
{
    match ty {
        Some(Ty::Adt(found)) => n == *found,
        _ => false,
    }
}

pub fn is_closure_of(n: u32, ty: Option<&Ty>) -> bool
    ensures { result ≡ is_closure n (option_copied ty.entry) }
{
    match ty {
        Some(Ty::Closure(found)) => n == *found,
        _ => false,
    }
}

/// Whether a type is the integer type.
pub fn is_kind(kind: IntKind, ty: Option<&Ty>) -> bool
    ensures { result ≡ is_int kind (option_copied ty.entry) }
{
    match ty {
        Some(Ty::Int(found)) => same_kind(kind, *found),
        _ => false,
    }
}

fn same_kind(a: IntKind, b: IntKind) -> bool
    ensures { result ≡ is_int a (Some (Int b)) }
{
    match a {
        IntKind::I32 => matches!(b, IntKind::I32),
        IntKind::I64 => matches!(b, IntKind::I64),
        IntKind::U32 => matches!(b, IntKind::U32),
        IntKind::U64 => matches!(b, IntKind::U64),
        IntKind::Usize => matches!(b, IntKind::Usize),
    }
}

/// Whether two types are one integer type, by the integer types that they are.
pub fn are_one_kind(left: Option<IntKind>, right: Option<IntKind>) -> bool
    ensures { result ≡ same_kinds left right }
{
    match left {
        Some(left) => match right {
            Some(right) => same_kind(left, right),
            None => false,
        },
        None => false,
    }
}

/// The integer type of an operand, where it has one.
pub fn operand_kind(items: &Items, locals: &[TyId], operand: &Operand) -> Option<IntKind>
    ensures { result ≡ int_kind (ty_of_operand items.now locals.now operand.now) }
{
    match operand {
        Operand::Copied(place) | Operand::Moved(place) => {
            kind_of(ty_of_place(items, locals, place))
        }
        Operand::Number(_, kind) => Some(*kind),
        _ => None,
    }
}

pub fn operand_is_bool(items: &Items, locals: &[TyId], operand: &Operand) -> bool
    ensures { result ≡ bool_type (ty_of_operand items.now locals.now operand.now) }
{
    match operand {
        Operand::Copied(place) | Operand::Moved(place) => {
            is_bool(ty_of_place(items, locals, place))
        }
        Operand::Truth(_) => true,
        _ => false,
    }
}

pub fn operand_is_dyn(items: &Items, locals: &[TyId], operand: &Operand) -> bool
    ensures { result ≡ dyn_type (ty_of_operand items.now locals.now operand.now) }
{
    match operand {
        Operand::Copied(place) | Operand::Moved(place) => is_dyn(ty_of_place(items, locals, place)),
        _ => false,
    }
}

/// The type of what is in the box that an operand is.
pub fn operand_content(items: &Items, locals: &[TyId], operand: &Operand) -> Option<TyId>
    ensures { result ≡ box_content (ty_of_operand items.now locals.now operand.now) }
{
    match operand {
        Operand::Copied(place) | Operand::Moved(place) => {
            content_of_box(ty_of_place(items, locals, place))
        }
        _ => None,
    }
}
