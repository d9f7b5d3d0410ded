//! The graphs of bodies: blocks of statements over named places, each block ended by a terminator with its ways
//! out. When a graph is well formed, which paths a body has, and which uses of places are bad on them, is stated
//! in `specs/`. The rustc development guide calls such graphs MIR ("The MIR").
#![tactic(auto)]

mod edge_faults;
mod first_body_fault;
mod first_fault;
mod first_item_fault;
mod graph;
mod impl_faults;
mod item_faults;
mod laws;
mod line_faults;
mod line_places;
mod name_buckets;
mod name_faults;
mod place;
mod place_types;
mod same_types;
mod statement;
mod terminator;
mod type_faults;
mod typing;

pub use first_fault::well_formed;
pub use graph::{Block, Body, Graph, GraphFault, Kind, rank};
pub use laws::{law_of_holding, law_of_items, law_of_presence, law_of_ranks, law_of_whole_places};
pub use mir_base::{Cmp, Math};
pub use place::{Operand, Place, Step, Steps};
pub use place_types::{place_ty, step_ty};
pub use statement::Stmt;
pub use terminator::{Term, Unwind};
