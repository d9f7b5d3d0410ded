//! What a source program means: in `specs/` its runs, its free runs, and when it is accepted. The laws of that are the
//! clauses of functions without parameters.
#![tactic(auto)]

mod laws;

pub use laws::{law_l2, law_of_runs, law_of_tests};
