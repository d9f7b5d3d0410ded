use mir_base::IntKind;
use store_model::Path;

/// One step from a place inwards; rustc's development guide calls it a projection.
///
/// The default stands for itself alone: a short list of steps fills its places with it.
#[derive(Clone, Copy, Default, PartialEq, Eq, Hash)]
pub enum Step {
    /// To the part with this number of a struct, a tuple, an array or a closure, counted from 0.
    Part(u32),
    /// To a part of a variant of an enum, both counted from 0.
    Field { variant: u32, part: u32 },
    /// To the content of a box, or to what a reference names.
    #[default]
    Inside,
    /// To the element of an array under the number that this local holds.
    Index(u32),
}

/// The steps of a place.
pub type Steps = Path<Step>;

/// A place: a local of the body, and steps from its value inwards.
#[derive(Drop)]
pub struct Place {
    /// The local's number; local 0 is the result, and the parameters follow it.
    pub local: u32,
    pub steps: Steps,
}

/// What a statement or a terminator takes as a value.
#[derive(Drop)]
pub enum Operand {
    /// The value of a place, which stays there.
    Copied(Place),
    /// The value of a place, which is gone then.
    Moved(Place),
    /// A number of an integer type.
    Number(i128, IntKind),
    /// `true` or `false`.
    Truth(bool),
    /// `()`.
    Unit,
}
