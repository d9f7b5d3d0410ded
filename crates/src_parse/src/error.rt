ghost use Rattle.std.specs.Prelude.{◌≡◌};
ghost use Rattle.src_parse.specs.declared.error.ParseError.{ParseError};

use mir_base::{NoMemory, Pos};
use std::error::Error;
use std::fmt;

/// Why tokens have no syntax tree. `at` is the number of the bad token, counted from 0, and `pos` its place: the
/// first with which the tokens up to it begin no tree that is nested at most 64 levels deep. Where the text ends too
/// early, `at` is the number of tokens and `pos` the end of the text.
#[derive(Clone, Copy, Debug)]
pub enum ParseError {
    /// No tree goes on with this token.
    Syntax { at: u32, pos: Pos },
    /// Only trees that are nested deeper go on with this token.
    TooDeep { at: u32, pos: Pos },
    /// Memory was wanted and could not be had.
    Memory,
}

impl fmt::Display for ParseError {
    fn fmt<W: fmt::Write>(&self, f: &mut fmt::Formatter<W>) -> fmt::Result {
        let text = match self {
            ParseError::Syntax { .. } => "no text of the language goes on so",
            ParseError::TooDeep { .. } => "the text is nested too deep",
            ParseError::Memory => "out of memory",
        };
        write!(f, "{text}")
    }
}

impl Error for ParseError {}

impl From<NoMemory> for ParseError {
    ghost from_gives = { λ refused error. error ≡ ParseError.Memory };

    fn from(_refused: NoMemory) -> ParseError {
        ParseError::Memory
    }
}
