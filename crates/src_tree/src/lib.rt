//! The syntax tree of a text: nodes of the rows of the grammar, each with its parts and the place of its first
//! token; how a tree is spelled, and which trees are levelled.
#![tactic(auto)]

mod beginnings;
mod grammar;
mod kind;
mod law;
mod levels;
mod nesting;
mod node;
mod place;
mod points;
mod row;
mod spelling;
mod table;

pub use beginnings::{entry, join_beginning};
pub use grammar::{is, is_allowed, may_begin, place_of, seen_from};
pub use kind::TokenKind;
pub use law::law_l1;
pub use levels::is_levelled;
pub use nesting::{counts, depth};
pub use node::{NodePiece, SyntaxNode, Tree};
pub use place::{GrammarPart, GrammarPlace, Seen, Start};
pub use points::{advance, behind, due, row_at_end, step_at};
pub use row::{GrammarRow, Sort};
pub use spelling::{copy_token, spell};
pub use table::{GrammarPoint, GrammarStep, ITEMS, JoinedBeginning};
