//! What holds of the program that `soak` runs: it is accepted, whatever the number of its functions.
#![tactic(auto)]

mod law;

pub use law::law_of_soak;
