//! Ranks of blocks, where others are made for each.
#![tactic(auto)]

mod lower;
mod order;
mod upper;

pub use lower::lower_ranks;
pub use upper::tops;
