//! The program `mirdrop`: from its words and a text to a status and what is written.
#![tactic(auto)]

mod answers;
mod build;
mod check;
mod commands;
mod deliver;
mod entry;
mod exec;
mod law;
mod listings;
mod number;
mod parts;
mod raw;
mod refusals;
mod request;
mod rules;
mod run;
mod soak;
mod uses;
mod words;

pub use entry::mirdrop;
pub use law::law_of_exec;
pub use listings::{put_graph_line, put_listing_line};
pub use refusals::{put_listing_refusal, put_refusal};
pub use request::{Command, Request, WordsError};
pub use rules::{put_lex_line, put_refused_at, put_rule_line};
pub use soak_text::soak_text;
pub use uses::{put_store_line, put_use_line, put_way_lines};
pub use words::request_of;
