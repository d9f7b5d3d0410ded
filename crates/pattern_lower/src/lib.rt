//! What a pattern asks of a place, and what its names take from it (The Rust Reference, "Patterns"; the rustc
//! development guide, "MIR construction"): the tests in the order in which they are made, and the bindings.
#![tactic(auto)]

mod binding;
mod found;
mod part;
mod testing;

pub use binding::bindings;
pub use found::{Binding, Test};
pub use testing::tests;
