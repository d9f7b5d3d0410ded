ghost use Rattle.std.specs.Prelude.{◌≡◌};
ghost use Rattle.mir_base.specs.Lines.{why_word};

/// Why a panic starts.
#[derive(Clone, Copy)]
pub enum Why {
    /// `panic!` was reached.
    Explicit,
    /// A sum, difference, product, quotient, remainder or negation is outside its type.
    Overflow,
    /// A division or a remainder by zero.
    Divide,
    /// An index past the end of an array.
    Index,
    /// An `ask()` for which no number is left.
    Ask,
    /// A match that no arm takes.
    Match,
}

impl Why {
    /// The word of this cause in the line of a panic.
    pub fn word(self) -> &'static str
        ensures { result.now ≡ why_word self }
    {
        match self {
            Why::Explicit => "explicit",
            Why::Overflow => "overflow",
            Why::Divide => "divide",
            Why::Index => "index",
            Why::Ask => "ask",
            Why::Match => "match",
        }
    }
}

/// How a run ends.
#[derive(Clone, Copy, PartialEq, Eq)]
pub enum End {
    /// `main` returned.
    Returned,
    /// A panic unwound out of `main`.
    Panicked,
    /// A destructor panicked while unwinding.
    Aborted,
    /// The run needed one tick more than it was given.
    OutOfTicks,
    /// A graph has no step at the end of this block of this body.
    Stuck { body: u32, block: u32 },
}

/// One line of a trace. Bodies and types go by their numbers in the tables of their program, values by
/// their serial numbers, which count from 1.
#[derive(Clone, Copy)]
pub enum Event {
    /// A body other than a `Drop` body is entered.
    Call(u32),
    /// A body ends by returning, after all its drops.
    Return(u32),
    /// A body ends by unwinding, after all its drops.
    Unwind(u32),
    /// A value of a struct or enum with a `Drop` impl is made.
    Make { adt: u32, serial: u64 },
    /// A box is made.
    Boxed(u64),
    /// The `Drop` body of a value is entered.
    Dropped { adt: u32, serial: u64 },
    /// A box is freed.
    Freed(u64),
    /// `forget` meets a value of a struct or enum with a `Drop` impl.
    ForgotMade { adt: u32, serial: u64 },
    /// `forget` meets a box.
    ForgotBox(u64),
    /// `print` was given this number.
    Printed(i32),
    /// `ask()` answered this number.
    Asked(i32),
    /// A panic starts.
    Panicked(Why),
}
