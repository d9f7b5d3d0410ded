//! Graphs that tell the number of each line before they do what the line says.
#![tactic(auto)]

mod marked;

pub use marked::with_numbers;
