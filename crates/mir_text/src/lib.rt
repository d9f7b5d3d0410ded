//! Listings of graphs, written and read: `write_listing` gives the listing of a graph, `read_listing` the graph of a
//! listing, its first wrong line, or the first fault of its graph. The readers of single sections, items and bodies are
//! public too; each stops at the first line that it cannot read.
#![tactic(auto)]

mod bodies;
mod count;
mod error;
mod graphs;
mod heads;
mod items;
mod law;
mod reader;
mod signatures;

pub use bodies::read_bodies;
pub use error::ListingError;
pub use graphs::read_graph;
pub use items::read_items;
pub use law::law_of_answers;
pub use listing_write::{
    body_text, items_text, law_l4, operand_text, place_text, stmt_text, term_text, write_listing,
};
pub use reader::read_listing;
