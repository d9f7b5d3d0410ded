//! The machine that runs graphs, and the text of a run on its way to a sink.
#![tactic(auto)]

mod calls;
mod control;
mod counted;
mod drops;
mod error;
mod laws;
mod runs;
mod statements;
mod tasks;
mod text;
mod trace_flow;
mod turns;
mod whole;

pub use counted::run_counted;
pub use error::RunError;
pub use laws::law_of_runs;
pub use runs::{run, run_raw};
pub use trace_flow::TextFlow;
