//! The rows of impls: what a machine needs to know of a trait object by the number of the impl in its box. rustc's
//! development guide calls such a row a vtable.
#![tactic(auto)]

mod build_rows;
mod table;

pub use build_rows::rows;
pub use table::{Row, Rows};
