//! The scopes of the nodes of a body (The Rust Reference, "Destructors", "Drop scopes").
#![tactic(auto)]

mod forms;
mod laws;
mod lookup;
mod patterns;
mod row;
mod walking;

pub use laws::{law_of_parts, law_of_scopes};
pub use lookup::{ScopeTable, scopes};
