//! Which arm of a `match` is taken: the one whose pattern takes the value that stands at the place.
#![tactic(auto)]

mod law;

pub use law::law_of_matches;
