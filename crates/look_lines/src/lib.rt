//! Texts that people read: they grow piece by piece, show a line of another text with a mark below a place, and tell the
//! trace of a run with its places.
#![tactic(auto)]

mod gathered;
mod snippets;
mod tellings;
mod texts;

pub use gathered::Gathered;
pub use snippets::{line_of, put_numbered_line, put_snippet};
pub use tellings::tell;
pub use texts::{put, put_line_feed, put_number, put_numbered};
