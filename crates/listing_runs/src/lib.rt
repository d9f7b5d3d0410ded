//! Graphs that are equal as compared run alike. The law is the clause of a function without parameters.
#![tactic(auto)]

mod laws;

pub use laws::law_of_equal_graphs;
