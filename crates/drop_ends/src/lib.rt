//! The ends of blocks once drops are exact (the rustc development guide, "Drop elaboration"): edges on which flags are
//! set, where the ladder of a drop ends, and whole blocks by what is decided of their drops.
#![tactic(auto)]

mod decided;
mod edges;
mod ends;

pub use decided::{Decided, block_of};
pub use edges::{edge, kind_after};
pub use ends::{ladder_end, term_end};
