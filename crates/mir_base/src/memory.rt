ghost use Rattle.std.specs.Prelude.{◌≡◌};

use std::alloc::{AllocError, AllocFailed};
use std::error::Error;
use std::fmt;

/// Memory was wanted and could not be had. It is the one answer that no contract ties to a cause.
#[derive(Clone, Copy, Debug, PartialEq, Eq)]
pub struct NoMemory;

impl NoMemory {
    /// What a call answers where a number would pass 32 bits, or the width that it has there. Nothing was allocated; a
    /// text within the limits comes to no such number.
    pub fn past_32_bits() -> NoMemory {
        NoMemory
    }

    /// What a call answers where it never comes, which its own contract cannot tell.
    pub fn cannot_be() -> NoMemory {
        NoMemory
    }
}

impl fmt::Display for NoMemory {
    fn fmt<W: fmt::Write>(&self, f: &mut fmt::Formatter<W>) -> fmt::Result {
        write!(f, "out of memory")
    }
}

impl Error for NoMemory {}

impl From<AllocError> for NoMemory {
    fn from(_refused: AllocError) -> NoMemory {
        NoMemory
    }
}

impl<T: Drop> From<AllocFailed<T>> for NoMemory {
    fn from(_refused: AllocFailed<T>) -> NoMemory {
        NoMemory
    }
}
