//! What a graph means: the effect of each statement and terminator, the walk of a body, and the strict and the
//! raw run of a whole graph, in `specs/`. Its laws are the clauses of functions without parameters.
#![tactic(auto)]

mod laws;

pub use laws::{law_l3, law_of_walks};
