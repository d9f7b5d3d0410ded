//! The program that `soak` runs, as a text.
#![tactic(auto)]

mod text;

pub use text::soak_text;
