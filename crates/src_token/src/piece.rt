use crate::{LexError, Token};
use mir_base::Pos;

/// What kind of piece a character begins.
#[derive(Clone, Copy)]
pub enum Beginning {
    /// A blank.
    Blank,
    /// A number.
    Digit,
    /// A label.
    Quote,
    /// A text.
    DoubleQuote,
    /// A comment, or the mark `/`.
    Slash,
    /// Another mark.
    Sign,
    /// An identifier, a keyword or the mark `_`.
    Letter,
    /// Nothing.
    Other,
}

/// What is wrong with a piece.
#[derive(Clone, Copy)]
pub enum TokenFault {
    BadChar,
    BadNumber,
    OpenComment,
    OpenText,
}

/// What a piece is by itself.
#[derive(Drop)]
pub enum Reading {
    /// A blank or a comment.
    Skipped,
    /// A token.
    Reads(Token),
    /// No token: what is wrong, at the character that so many of the piece's stand before.
    Fails(TokenFault, usize),
}

/// A piece at the beginning of some characters: how many of them it has, and what it is.
#[derive(Drop)]
pub struct TokenPiece {
    pub length: usize,
    pub reading: Reading,
}
