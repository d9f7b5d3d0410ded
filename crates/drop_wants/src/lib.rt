//! Which paths of a body need a drop flag (the rustc development guide, "Drop elaboration").
#![tactic(auto)]

mod marks;
mod needed;
mod renumbered;

pub use needed::{flagged, own_numbers};
pub use renumbered::renumber;
