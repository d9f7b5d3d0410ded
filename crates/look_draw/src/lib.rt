//! Graphs as pictures, with the places of their lines in the text; the way to a refused use in words, and where what it
//! wants was made and taken.
#![tactic(auto)]

mod drawings;
mod origins;
mod steps;

pub use drawings::draw;
pub use origins::put_origin;
pub use steps::put_steps;
