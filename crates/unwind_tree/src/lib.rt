//! The scopes of a body that are open while its code is made, with what is to be dropped in them; rustc calls it a drop
//! tree (the rustc development guide, "MIR construction"; The Rust Reference, "Destructors", "Drop scopes").
#![tactic(auto)]

mod changes;
mod entries;
mod exits;
mod laws;
mod pending;
mod places;
mod scheduled;
mod scope;
mod tree;

pub use laws::law_of_exits;
pub use scheduled::Scheduled;
pub use tree::ExitTree;
