//! The lowering of typed programs to raw graphs with scheduled drops (the rustc development guide, "MIR
//! construction"), and of each use of a place its position in the text and the place in words (as rustc tells them in
//! its errors E0381 and E0382).
#![tactic(auto)]

mod blocks;
mod bodies;
mod lines;
mod names;
mod parts;
mod places;
mod programs;
mod steps;
mod types;

pub use blocks::body_sites;
pub use bodies::{LoweredBody, lower_body};
pub use lower_rules::Site;
pub use names::{PlaceNames, node_with, place_name, rise};
pub use programs::{Lowered, lower, lower_owned};
