//! The storage of the machine that runs graphs: what the locals of all bodies hold that run or wait, and where the
//! places of a body are in it.
#![tactic(auto)]

mod cell;
mod frame;
mod location;
mod store;
mod types;
mod whole;

pub use cell::Cell;
pub use frame::{MachineFrame, StoredLocal};
pub use location::{Located, Reached, is_of_type, located_at, reach};
pub use store::Store;
pub use types::{Dynamic, adt_of_impl, field_ty, local_ty, type_of_part};
pub use whole::{is_whole, whole_at};
