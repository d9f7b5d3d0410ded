//! Drop flags (the rustc development guide, "Drop elaboration"): the locals that tell which paths of a body are present,
//! and the stores into them that its statements and terminators ask for.
#![tactic(auto)]

mod above;
mod flags;
mod lines;
mod paths;
mod starts;
mod uses;

pub use flags::Flags;
pub use paths::{FlagPaths, Near};
