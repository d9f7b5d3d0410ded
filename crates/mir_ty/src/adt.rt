use crate::TyId;
use mir_base::{List, Name};

/// A variant of an enum, or the one variant of a struct.
#[derive(Drop)]
pub struct Variant {
    /// The variant's name; for a struct it is the struct's.
    pub name: Name,
    /// The types of the fields, in the order of their declaration.
    pub fields: List<TyId>,
    /// The names of the fields, `0`, `1` and so on where they have none; as many as there are fields.
    pub field_names: List<Name>,
}

/// A struct or an enum.
#[derive(Drop)]
pub struct Adt {
    pub name: Name,
    pub is_enum: bool,
    /// The variants in the order of their declaration. A struct has exactly one.
    pub variants: List<Variant>,
    /// Whether it derives `Copy`.
    pub copy: bool,
    /// The body of its `drop`, where it has a `Drop` impl.
    pub drop_body: Option<u32>,
}
