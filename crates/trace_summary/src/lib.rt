//! What is said of a trace beside its lines: its last line, how many events of each kind it has, and a summary.
#![tactic(auto)]

mod counts;
mod text;

pub use counts::Counts;
pub use text::{put_end_line, summary};
