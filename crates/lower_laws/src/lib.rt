//! Laws on the graphs of lowered programs: their lines are well typed, the graphs are well formed and ready, and what
//! their paths meet is what free runs of the source meet.
#![tactic(auto)]

mod accepted_laws;
mod laws;
mod line_laws;
mod path_laws;
mod use_laws;
mod walk_laws;

pub use accepted_laws::law_of_accepted_graphs;
pub use laws::law_of_lowered_graphs;
pub use line_laws::law_of_lowered_lines;
pub use path_laws::law_of_lowered_paths;
pub use use_laws::law_of_lowered_uses;
pub use walk_laws::law_of_free_walks;
