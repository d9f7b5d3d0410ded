//! What is read of a text is one thing: its typed program, or the reasons why it has none that is accepted.
#![tactic(auto)]

mod law;

pub use law::{law_of_soak_refusals, law_of_texts};
