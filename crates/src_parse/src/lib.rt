//! The parser: from tokens to the one syntax tree that they spell, or the first token with which they can spell none.
#![tactic(auto)]

mod depth_bound;
mod endings;
mod error;
mod frame;
mod law;
mod parser;
mod steps;

pub use depth_bound::DepthBound;
pub use error::ParseError;
pub use law::law_of_reading;
pub use parser::{parse, parse_owned};
