use crate::{Operand, Place};
use mir_base::{Cmp, List};

/// A statement of a block: a step that goes on to the next one.
#[derive(Drop)]
pub enum Stmt {
    /// Stores the operand.
    Put(Place, Operand),
    /// Stores what the comparison gives.
    Compare(Place, Cmp, Operand, Operand),
    /// Stores the other truth value.
    Not(Place, Operand),
    /// Stores the tuple of these parts.
    Tuple(Place, List<Operand>),
    /// Stores the array of these elements.
    Array(Place, List<Operand>),
    /// Stores a value of a struct, whose variant is 0, or of a variant of an enum.
    Make {
        to: Place,
        adt: u32,
        variant: u32,
        parts: List<Operand>,
    },
    /// Stores a closure value with these captures.
    Close {
        to: Place,
        closure: u32,
        parts: List<Operand>,
    },
    /// Stores a new box around the operand.
    NewBox(Place, Operand),
    /// Stores a box as a box of `dyn` of the trait.
    Unsize {
        to: Place,
        trait_no: u32,
        from: Operand,
    },
    /// Stores a reference to a place, `&mut` where it is unique.
    Borrow {
        to: Place,
        unique: bool,
        of: Place,
    },
    /// Reads the whole value, without effect.
    Touch(Place),
    /// Prints an `i32`.
    Print(Operand),
    /// Forgets a value: it is never dropped.
    Forget(Operand),
    /// Frees a box in whose content no numbered value stands.
    Free(Place),
}
