//! Laws on raw graphs: what a lowering gives is prepared for drop elaboration (the rustc development guide, "Drop
//! elaboration").
#![tactic(auto)]

mod laws;

pub use laws::law_of_prepared_graphs;
