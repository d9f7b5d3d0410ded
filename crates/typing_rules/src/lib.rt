//! The rules of typing and of borrows: from the syntax tree of a text to its typed program, or the first broken rule
//! with its place. Definitions, and laws of them.
#![tactic(auto)]

mod law;

pub use law::{law_of_replaced, law_of_rows};
