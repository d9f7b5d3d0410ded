//! Plans of drops (the rustc development guide, "Drop elaboration"): what is known of the paths of a body where a drop
//! is, and how what remains of its place is dropped.
#![tactic(auto)]

mod analyses;
mod below;
mod drops;
mod facts;
mod parts;
mod planner;
mod shape;
mod tables;
mod wholes;

pub use analyses::{Analyses, Gone};
pub use drops::plan_at;
pub use facts::{Facts, facts_at, pass_stmts};
pub use planner::{Planner, plan};
pub use tables::flag_table;
