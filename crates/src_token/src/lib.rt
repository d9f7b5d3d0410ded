//! From the bytes of a text to its tokens, each with its place, or the first error.
#![tactic(auto)]

mod characters;
mod cursor;
mod law;
mod lexer;
mod mark;
mod marks;
mod numbers;
mod piece;
mod pieces;
mod token;
mod word;

pub use law::law_of_tokens;
pub use lexer::{end_of, lex};
pub use mark::Mark;
use piece::{Beginning, Reading, TokenFault, TokenPiece};
pub use token::{LexError, Spanned, Token};
use word::KEYWORDS;
pub use word::Word;
