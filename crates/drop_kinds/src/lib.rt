//! Kinds of drops (the rustc development guide, "Drop elaboration"): what becomes of each drop of a body.
#![tactic(auto)]

mod drops;
mod rungs;

pub use drops::decisions;
