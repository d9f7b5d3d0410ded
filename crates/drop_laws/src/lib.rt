//! Laws of drop elaboration (the rustc development guide, "Drop elaboration"): kinds and flags of drops, and ranks.
#![tactic(auto)]

mod laws;

pub use laws::{law_of_flags, law_of_kinds, law_of_other_places, law_of_ranks, law_of_trees};
