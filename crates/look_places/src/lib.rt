//! Where a program's text has what its raw graph is made of: the place of each line, and the variables of each body.
#![tactic(auto)]

mod line_places;
mod names;

pub use line_places::program_places;
pub use names::{BodyNames, Variable, program_names};
