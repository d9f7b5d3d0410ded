//! Which move paths are maybe initialised and maybe gone at each block: forward dataflow over rows of bits to a fixed
//! point (the rustc development guide, "Dataflow Framework"), the solver for any such analysis, and the analyses
//! `MaybeInit` and `MaybeGone`.
#![tactic(auto)]

mod analysis;
mod flow;
mod laws;
mod masks;
mod maybe;
mod solver;
mod switch_ways;
mod switches;
mod ways;

pub use analysis::Analysis;
pub use laws::{law_of_bad_uses, law_of_moves};
pub use masks::Masks;
pub use maybe::{MaybeGone, MaybeInit};
pub use solver::{Solution, solve};
pub use switch_ways::switch_of;
pub use switches::{BlockSwitches, Switch, Switches};
pub use ways::target;
