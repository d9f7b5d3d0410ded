//! The blocks of drop ladders (the rustc development guide, "Drop elaboration"): how what remains of a place is dropped,
//! and the blocks that do so, made from the end of a ladder to its beginning, each rung with its cleanup twin.
#![tactic(auto)]

mod blocks;
mod ladders;
mod parts;
mod plan;
mod rungs;
mod tests;

pub use blocks::NewBlocks;
pub use ladders::ladder;
pub use plan::{Plan, VariantPlan};
pub use rungs::Chains;
