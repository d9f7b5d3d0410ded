//! Blocks of a body, made of the words of its code from the last to the first (the rustc development guide, "MIR
//! construction"): the rules for what is no tree of words, and over them the recursion along the words.
#![tactic(auto, using(crate::proofs::Lasts::lines_last))]

mod arms;
mod blocks;
mod builder;
mod conditions;
mod context;
mod drops;
mod effects;
mod exits;
mod joins;
mod shared;
mod ways;
mod words;

pub use blocks::{Blocks, MadeBlock, NodeLine, Open, SharedBlock, SharedEnd};
pub use builder::build;
pub use conditions::{branch_by, if_true, tests};
pub use context::BuildContext;
pub use effects::{act, drop_under, panic, replace};
pub use exits::{exit, leave};
pub use ways::{LoopWay, Ways, in_loop};
