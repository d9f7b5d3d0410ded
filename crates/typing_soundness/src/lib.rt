//! What is typed is well typed: laws of the rules of typing; and the syntax tree of a text is one as these laws ask.
#![tactic(auto)]

mod law;
mod tree_law;

pub use law::{
    law_of_expressions, law_of_items, law_of_names, law_of_numbers, law_of_programs, law_of_walks,
    law_of_written_types,
};
pub use tree_law::law_of_trees;
