//! Places, operands, statements and terminators once more: what a graph with exact drops shares with the raw one.
#![tactic(auto)]

mod lines;
mod places;
mod terms;

pub use lines::{copy_operand, copy_stmt};
pub use places::{copy_place, place_below, whole_local};
pub use terms::{copy_term, next_of};
