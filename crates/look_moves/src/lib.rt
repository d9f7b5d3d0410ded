//! Where on the way to a refused use a place got its value, and where it was taken.
#![tactic(auto)]

mod actions;
mod origin;
mod places;

pub use origin::{LineAt, Origin, origin_of};
