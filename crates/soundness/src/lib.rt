//! The laws of soundness: a program that passes all checks is never stuck, its calls change what they may alone, and each
//! value with a serial number ends once.
#![tactic(auto)]

mod laws;

pub use laws::{law_l5, law_l6};
