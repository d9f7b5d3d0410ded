//! When a typed program is well typed: definitions, and the law of their test.
#![tactic(auto)]

mod law;

pub use law::law_of_typing;
