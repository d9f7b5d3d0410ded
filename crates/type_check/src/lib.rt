//! The typed program of a text, or the first broken rule of typing: item by item, of each its head and then its
//! bodies. The checker begins with tables of all names.
#![tactic(auto)]

mod bodies;
mod functions;
mod items;
mod kinds;
mod program;
mod self_methods;
mod start;
mod walk;

pub use functions::fn_body;
pub use program::check;
pub use start::checker_of;
