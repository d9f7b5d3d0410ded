//! How the value of a type is taken apart.
ghost use Rattle.std.specs.Prelude.{◌≡◌};
ghost use Rattle.drop_plans.specs.Shapes.{IsShape};

use mir_ty::{Items, Ty, TyId};

/// How a value is taken apart.
#[derive(Clone, Copy)]
pub enum Shape {
    /// It is not: its type has a `Drop` impl.
    Whole,
    /// A box, with the type of its content.
    Box(TyId),
    /// An enum, with so many variants.
    Enum(usize),
    /// By its numbered parts, if it has any.
    Parts,
}

/// How the value of a type is taken apart.
pub fn shape_of(items: &Items, ty: TyId) -> Shape
    ensures { IsShape items.now ty result }
{
    if items.has_drop_impl(ty) {
        return Shape::Whole;
    }
    match items.ty(ty) {
        None => Shape::Whole,
        Some(Ty::Boxed(content)) => Shape::Box(*content),
        Some(Ty::Adt(n)) => match items.adt(*n) {
            Some(adt) if adt.is_enum => Shape::Enum(adt.variants.len()),
            _ => Shape::Parts,
        },
        Some(_) => Shape::Parts,
    }
}
