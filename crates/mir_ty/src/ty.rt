use mir_base::{IntKind, List};

/// The number of a type in the table of its items, counted from 0.
#[derive(Clone, Copy, PartialEq, Eq, Hash)]
pub struct TyId(pub u32);

/// A type, with the types in it by their numbers.
#[derive(PartialEq, Eq, Hash, Drop)]
pub enum Ty {
    /// An integer type.
    Int(IntKind),
    /// `bool`.
    Bool,
    /// `()`.
    Unit,
    /// `!`, the type of what never gives a value.
    Never,
    /// The struct or enum with this number.
    Adt(u32),
    /// A tuple of one part or more.
    Tuple(List<TyId>),
    /// An array of an element's type and a length.
    Array(TyId, u32),
    /// `Box<T>`.
    Boxed(TyId),
    /// `dyn` of the trait with this number. `Box<dyn Trait>` is a box of it.
    Dyn(u32),
    /// `&T`.
    Shared(TyId),
    /// `&mut T`.
    Unique(TyId),
    /// The type of the closure with this number.
    Closure(u32),
}
