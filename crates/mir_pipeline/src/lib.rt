//! The way of a text through the layers, from its bytes on, with one type for all refusals of a text.
#![tactic(auto)]

mod exact;
mod graphs;
mod read;
mod refusal;
mod typed;
mod uses;

pub use exact::build;
pub use graphs::build_raw;
pub use read::read_tree;
pub use refusal::Refusal;
pub use typed::read_typed;
pub use uses::{check, checked_uses};
