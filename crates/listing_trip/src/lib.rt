//! A graph is listed so that its listing can be read back, and what is read runs alike.
#![tactic(auto)]

mod numbers;
mod trip;

pub use trip::{list_graph, read_back};
