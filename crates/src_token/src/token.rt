ghost use Rattle.std.specs.Prelude.{◌≡◌};
ghost use Rattle.src_token.specs.declared.token.LexError.{LexError};

use crate::{Mark, Word};
use mir_base::{IntKind, Name, NoMemory, Pos};
use std::alloc::AllocError;
use std::error::Error;
use std::fmt;

/// A token of a text. A name, a label and a text hold their characters in UTF-8, without the `'` of a label
/// and the quotes of a text.
#[derive(Drop, PartialEq, Eq)]
pub enum Token {
    /// An identifier that is no keyword.
    Name(Name),
    /// A keyword.
    Word(Word),
    /// A decimal number below 2^64, with the integer type that is written behind it.
    Number { value: u64, suffix: Option<IntKind> },
    /// `'` and an identifier or a keyword.
    Label(Name),
    /// Characters between double quotes.
    Text(Name),
    /// A mark.
    Mark(Mark),
}

/// A token where it stands: the place of its first character, and the numbers of bytes before its first
/// character and before the first one after it.
#[derive(Drop)]
pub struct Spanned {
    pub token: Token,
    pub at: Pos,
    pub start: u32,
    pub end: u32,
}

/// Why a text has no tokens.
#[derive(Clone, Copy, Debug)]
pub enum LexError {
    /// A character begins no token, a `'` no label, or a `\` stands in a text between quotes.
    BadChar(Pos),
    /// What begins by a digit is no number, or one of 2^64 or more; the place is that of the digit.
    BadNumber(Pos),
    /// A comment that begins by `/*` does not end; the place is that of the outermost one.
    OpenComment(Pos),
    /// A text between quotes does not end on its line; the place is that of its first quote.
    OpenText(Pos),
    /// The bytes are not UTF-8; the place is the one after the longest beginning that is.
    NotUtf8(Pos),
    /// Memory was wanted and could not be had.
    Memory,
}

impl fmt::Display for LexError {
    fn fmt<W: fmt::Write>(&self, f: &mut fmt::Formatter<W>) -> fmt::Result {
        let text = match self {
            LexError::BadChar(_) => "a character begins no token",
            LexError::BadNumber(_) => "this is no number of the language",
            LexError::OpenComment(_) => "a comment does not end",
            LexError::OpenText(_) => "a text does not end on its line",
            LexError::NotUtf8(_) => "the bytes are not UTF-8",
            LexError::Memory => "out of memory",
        };
        write!(f, "{text}")
    }
}

impl Error for LexError {}

impl From<AllocError> for LexError {
    ghost from_gives = { λ refused error. error ≡ LexError.Memory };

    fn from(_refused: AllocError) -> LexError {
        LexError::Memory
    }
}

impl From<NoMemory> for LexError {
    ghost from_gives = { λ refused error. error ≡ LexError.Memory };

    fn from(_refused: NoMemory) -> LexError {
        LexError::Memory
    }
}
