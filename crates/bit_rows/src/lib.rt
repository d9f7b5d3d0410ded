//! Rows of bits, as a dataflow analysis keeps one for each block (the rustc development guide, "Dataflow
//! Framework"): union and difference in place, which say whether they changed anything. Contracts see a row as the
//! list of its truth values.
#![tactic(auto)]

mod row;
mod words;

pub use row::BitRow;
