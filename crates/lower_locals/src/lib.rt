//! The locals of a body (the rustc development guide, "MIR data types"): which nodes of its typed tree have a local,
//! in which order, and which local a key names.
#![tactic(auto)]

mod body;
mod bool_type;
mod local;
mod own;
mod parts;
mod places;
mod table;

pub use body::locals;
pub use local::Local;
pub use table::Locals;
