//! Graphs as text: the listing of a graph, and the texts of its parts.
#![tactic(auto)]

mod items;
mod laws;
mod listing;
mod parts;
mod statements;
mod types;
mod words;

pub use laws::law_l4;
pub use listing::{
    body_text, items_text, operand_text, place_text, stmt_text, term_text, write_listing,
};
