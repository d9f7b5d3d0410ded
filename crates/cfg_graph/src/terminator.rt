use crate::{Operand, Place};
use mir_base::{List, Math, Why};

/// Where a panic goes on.
#[derive(Clone, Copy)]
pub enum Unwind {
    /// In this cleanup block.
    Block(u32),
    /// The body ends by unwinding.
    Resume,
    /// The run ends: a panic while a panic unwinds.
    Abort,
}

/// The terminator of a block: its ways out. Blocks go by their numbers in the body, counted from 0.
#[derive(Drop)]
pub enum Term {
    /// Goes on in the block.
    Goto(u32),
    /// Goes on by a `bool`.
    If {
        on: Operand,
        yes: u32,
        no: u32,
    },
    /// Goes on by whether the value of an enum has the variant.
    Case {
        on: Place,
        variant: u32,
        yes: u32,
        no: u32,
    },
    /// Stores the result of a checked operation; panics where there is none.
    Math {
        to: Place,
        op: Math,
        left: Operand,
        right: Operand,
        then: u32,
        unwind: Unwind,
    },
    /// Stores the negated number; panics where the type has none such.
    Negate {
        to: Place,
        of: Operand,
        then: u32,
        unwind: Unwind,
    },
    /// Panics unless the index, a `usize`, is below the length.
    Bounds {
        index: Operand,
        length: u32,
        then: u32,
        unwind: Unwind,
    },
    /// Stores the result of a body. A closure's body has the closure value first.
    Call {
        to: Place,
        body: u32,
        args: List<Operand>,
        then: u32,
        unwind: Unwind,
    },
    /// Stores the result of the trait's method in the row of the box that the first argument names.
    Virtual {
        to: Place,
        trait_no: u32,
        method: u32,
        args: List<Operand>,
        then: u32,
        unwind: Unwind,
    },
    /// Stores the next answer, an `i32`; panics where there is none.
    Ask {
        to: Place,
        then: u32,
        unwind: Unwind,
    },
    /// Drops the value of a place, which is gone then, also after a panic.
    DropAt {
        place: Place,
        then: u32,
        unwind: Unwind,
    },
    /// Starts a panic.
    Panic {
        why: Why,
        unwind: Unwind,
    },
    /// Ends the body with the value of local 0.
    Return,
    /// Ends the body by unwinding.
    Resume,
}
