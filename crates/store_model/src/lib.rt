//! The values of the language as a run holds them: whole or with parts that are gone, boxed, or behind an
//! address. A place in a value is reached by a path of steps; [`read`], [`take`] and [`put`] work at its
//! end. Contracts see a value as plain data, `Datum` of `specs/Values/Datum.antt`.
#![tactic(auto)]

mod access;
mod address;
mod copies;
mod laws;
mod parts;
mod path;
mod value;

pub use access::{put, read, take};
pub use address::{Addr, At, AtPath};
pub use laws::{
    law_of_changes, law_of_never_stores, law_of_paths, law_of_serials, law_of_what_stands,
    law_of_wholeness,
};
pub use parts::parts_in_order;
pub use path::Path;
pub use value::Value;
