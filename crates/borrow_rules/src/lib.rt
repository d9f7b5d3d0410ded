//! The rules of borrows on a typed program: what an expression does to places, in its order; where references that are
//! passed together overlap, or a guard reaches into its scrutinee; and a `Drop` body that replaces what its `self`
//! names as a whole (The Rust Reference, "Place Expressions and Value Expressions", "Borrow operators"; rustc's borrow
//! checker, E0499, E0502, E0505, E0506, E0510).
#![tactic(auto)]

mod access;
mod arguments;
mod bindings;
mod drop_bodies;
mod expressions;
mod facts;
mod first_broken;
mod guards;
mod passings;
mod place;
mod replaceable;

pub use access::{Access, Accessed, CollectedAccesses};
pub use expressions::collect_accesses;
pub use first_broken::borrow_check;
pub use place::{AccessPlace, AccessStep, Alias};
