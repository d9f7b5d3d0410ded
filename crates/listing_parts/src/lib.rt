//! Readers of the parts of a listing: words, numbers, names, places, operands, statements, terminators and types; and
//! the heads under which a listing is read.
#![tactic(auto)]

mod begin;
mod error;
mod heads;
mod law;
mod numbers;
mod operands;
mod places;
mod statements;
mod table;
mod terminators;
mod type_law;
mod type_words;
mod types;
mod ways;
mod words;

pub use error::ReadError;
pub use heads::{Heads, adt_count, trait_count};
pub use law::law_of_parts;
pub use numbers::plain_number;
pub use operands::{read_operand, read_operands};
pub use places::read_place;
pub use statements::read_stmt;
pub use table::give_number;
pub use terminators::read_term;
pub use type_law::law_of_types;
pub use types::{more_types, read_type, read_types};
pub use words::{name, number, strip};
