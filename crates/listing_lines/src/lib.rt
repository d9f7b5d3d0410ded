//! Readers of the lines of a listing: of bodies, locals, blocks, closures and impls; of statements and terminators, up
//! to the end of a body's code; of structs and enums; of traits.
#![tactic(auto)]

mod adts;
mod blocks;
mod bodies;
mod code_law;
mod item_law;
mod item_names;
mod items;
mod law;
mod lines;
mod methods;
mod params;
mod receiver;
mod trait_law;
mod trait_lines;
mod variants;
mod words;

pub use adts::adt_line;
pub use blocks::read_blocks;
pub use bodies::{block_line, body_line, local_line};
pub use code_law::law_of_code;
pub use item_law::law_of_items;
pub use item_names::blank_name;
pub use items::{closure_line, impl_line};
pub use law::law_of_lines;
pub use lines::{statement, terminator};
pub use trait_law::law_of_traits;
pub use trait_lines::trait_line;
pub use words::utf8_name;
