//! What helps people to read what `mirdrop` answers: a refusal with the line of the text that it is about, a graph as a
//! picture, and a run with the place of each of its steps.
#![tactic(auto)]

mod answers;
mod explanations;
mod look;
mod sentences;
mod traces;

pub use answers::{Answer, answer_text};
pub use look::{Look, look_of, trace_of};
pub use mirdrop_program::{Request, WordsError};
pub use traces::trace_text;
