use src_token::{Mark, Word};

/// A kind of token that a row names.
#[derive(Clone, Copy)]
pub enum TokenKind {
    Mark(Mark),
    Word(Word),
    Name,
    Number,
    /// A number without a type.
    Digits,
    Label,
    Text,
    /// The name `derive`.
    Derive,
}
