//! What the rules of typing ask of types. A type is known by its number, so each question costs one look at the table
//! of types.
ghost use Rattle.std.specs.Prelude.{◌≡◌};
ghost use Rattle.typing_rules.specs.Places as places;
ghost use Rattle.typing_rules.specs.Rows as rows;
ghost use Rattle.well_typed.specs.Types as types;

use mir_base::IntKind;
use mir_ty::{Items, Ty, TyId};
use typed_tree::Use;

pub fn is_never(items: &Items, ty: TyId) -> bool
    ensures { result ≡ types.is_never items.now ty }
{
    match items.ty(ty) {
        Some(Ty::Never) => true,
        _ => false,
    }
}

pub fn is_unit(items: &Items, ty: TyId) -> bool
    ensures { result ≡ types.is_unit items.now ty }
{
    match items.ty(ty) {
        Some(Ty::Unit) => true,
        _ => false,
    }
}

pub fn is_bool(items: &Items, ty: TyId) -> bool
    ensures { result ≡ types.is_bool items.now ty }
{
    match items.ty(ty) {
        Some(Ty::Bool) => true,
        _ => false,
    }
}

pub fn kind_of(items: &Items, ty: TyId) -> Option<IntKind>
    ensures { result ≡ types.kind_of items.now ty }
{
    match items.ty(ty) {
        Some(Ty::Int(kind)) => Some(*kind),
        _ => None,
    }
}

/// The number of a struct or an enum.
pub fn adt_of(items: &Items, ty: TyId) -> Option<u32>
    ensures { result ≡ types.adt_of items.now ty }
{
    match items.ty(ty) {
        Some(Ty::Adt(number)) => Some(*number),
        _ => None,
    }
}

/// The content of a box.
pub fn boxed_of(items: &Items, ty: TyId) -> Option<TyId>
    ensures { result ≡ types.boxed_of items.now ty }
{
    match items.ty(ty) {
        Some(Ty::Boxed(content)) => Some(*content),
        _ => None,
    }
}

/// The element and the length of an array.
pub fn array_of(items: &Items, ty: TyId) -> Option<(TyId, u32)>
    ensures { result ≡ types.array_of items.now ty }
{
    match items.ty(ty) {
        Some(Ty::Array(element, count)) => Some((*element, *count)),
        _ => None,
    }
}

/// The trait of a trait object.
pub fn trait_of(items: &Items, ty: TyId) -> Option<u32>
    ensures { result ≡ types.trait_of items.now ty }
{
    match items.ty(ty) {
        Some(Ty::Dyn(number)) => Some(*number),
        _ => None,
    }
}

pub fn closure_of(items: &Items, ty: TyId) -> Option<u32>
    ensures { result ≡ types.closure_of items.now ty }
{
    match items.ty(ty) {
        Some(Ty::Closure(number)) => Some(*number),
        _ => None,
    }
}

/// Whether a reference is unique, and the type that it names.
pub fn reference_of(items: &Items, ty: TyId) -> Option<(bool, TyId)>
    ensures { result ≡ types.reference_of items.now ty }
{
    match items.ty(ty) {
        Some(Ty::Shared(to)) => Some((false, *to)),
        Some(Ty::Unique(to)) => Some((true, *to)),
        _ => None,
    }
}

/// What a box or a reference leads to.
pub fn inside_of(items: &Items, ty: TyId) -> Option<TyId>
    ensures { result ≡ types.inside_of items.now ty }
{
    match items.ty(ty) {
        Some(Ty::Boxed(inside)) | Some(Ty::Shared(inside)) | Some(Ty::Unique(inside)) => {
            Some(*inside)
        }
        _ => None,
    }
}

pub fn is_int(items: &Items, ty: TyId) -> bool
    ensures { result ≡ types.is_int items.now ty }
{
    kind_of(items, ty).is_some()
}

pub fn is_dyn(items: &Items, ty: TyId) -> bool
    ensures { result ≡ types.is_dyn items.now ty }
{
    trait_of(items, ty).is_some()
}

pub fn is_reference(items: &Items, ty: TyId) -> bool
    ensures { result ≡ types.is_reference items.now ty }
{
    reference_of(items, ty).is_some()
}

pub fn is_enum(items: &Items, adt: u32) -> bool
    ensures { result ≡ types.is_enum items.now adt }
{
    match items.adt(adt) {
        Some(adt) => adt.is_enum,
        None => false,
    }
}

/// Whether a type is the one that is required, or `!`, which fits every one.
pub fn fits(items: &Items, expected: TyId, ty: TyId) -> bool
    ensures { result ≡ types.fits items.now expected ty }
{
    ty.0 == expected.0 || is_never(items, ty)
}

/// Whether a type fits the one that is required, if one is.
pub fn agrees(items: &Items, expected: Option<TyId>, ty: TyId) -> bool
    ensures { result ≡ places.agrees items.now expected ty }
{
    match expected {
        Some(expected) => fits(items, expected, ty),
        None => true,
    }
}

/// The type of two branches or operands, where `!` takes the other's; `None` where they differ.
pub fn one_of_two(items: &Items, a: TyId, b: TyId) -> Option<TyId>
    ensures { result ≡ rows.one_of_two items.now a b }
{
    if is_never(items, a) {
        Some(b)
    } else if is_never(items, b) || a.0 == b.0 {
        Some(a)
    } else {
        None
    }
}

/// How a value of a type is taken out of a place: copied where the type is Copy, and moved otherwise.
pub fn taking(items: &Items, ty: TyId) -> Use
    ensures { result ≡ rows.taking items.now ty }
{
    if items.is_copy(ty) {
        Use::Copy
    } else {
        Use::Move
    }
}
