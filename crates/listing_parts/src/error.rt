ghost use Rattle.std.specs.Prelude.{◌≡◌};

use mir_base::NoMemory;
use std::error::Error;
use std::fmt;

/// Why a text was not read.
#[derive(Clone, Copy, Debug)]
pub enum ReadError {
    /// It does not begin as it should.
    Unreadable,
    /// Memory was wanted and could not be had.
    NoMemory,
}

impl fmt::Display for ReadError {
    fn fmt<W: fmt::Write>(&self, f: &mut fmt::Formatter<W>) -> fmt::Result {
        match self {
            ReadError::Unreadable => write!(f, "not a part of a listing"),
            ReadError::NoMemory => write!(f, "out of memory"),
        }
    }
}

impl Error for ReadError {}

impl From<NoMemory> for ReadError {
    ghost use Rattle.listing_parts.specs.declared.error.ReadError.{ReadError};

    ghost from_gives = { λ refused error. error ≡ ReadError.NoMemory };

    fn from(_refused: NoMemory) -> ReadError {
        ReadError::NoMemory
    }
}
