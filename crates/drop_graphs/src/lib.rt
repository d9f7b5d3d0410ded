//! Drop elaboration (the rustc development guide, "Drop elaboration"): from a graph in which each scheduled drop drops what
//! remains of its place, the graph with exact drops.
#![tactic(auto)]

mod copies;
mod exact;

pub use drop_bodies::DropCounts;
pub use exact::{Elaborated, elaborate, elaborate_with};
