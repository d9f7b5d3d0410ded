//! The paths of a body that are watched for moves: its locals, the places that it moves, drops, frees or stores into,
//! and their containers (the rustc development guide, "Move paths").
#![tactic(auto)]

mod forest;
mod parts;
mod trie;
mod types;
mod uses;

pub use forest::{Forest, Found, paths};
pub use trie::Near;
pub use uses::{
    Use, Used, add_inner_uses, add_stmt_uses, add_term_uses, result_place, stmt_uses, term_uses,
};
