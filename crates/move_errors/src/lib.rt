//! The bad uses of a body: which of the acts at a point is bad by a row of what is gone, whether a path meets one, and
//! a shortest way to one where there is (The Rust Reference, "Moved and copied types"; rustc's error E0382).
#![tactic(auto)]

mod act;
mod bad;
mod decide;
mod errors;
mod point;
mod search;
mod trail;

pub use act::{Act, Acts};
pub use bad::{Watch, first_bad};
pub use errors::{BadUse, GoneMoves, UseError, check_body, check_uses, checked_moves};
pub use point::{Onward, Point, Stage, goes_on};
