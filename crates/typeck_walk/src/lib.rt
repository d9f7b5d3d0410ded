//! Expressions, checked: each gives its typed node, or the first broken rule with its place (The Rust Reference,
//! "Statements and expressions").
#![tactic(auto)]

mod aggregates;
mod arguments;
mod blocks;
mod branches;
mod calls;
mod closures;
mod expressions;
mod loops;
mod matches;
mod operators;
mod places;
mod structs;

pub use expressions::{check_expr, check_place_base};
