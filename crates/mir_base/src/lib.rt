//! What every crate of `mirdrop` speaks of: positions, numbers of nodes and entries, integer kinds,
//! operators, the events of a run, the typing rules, want of memory, the limits, and two small owned types,
//! [`List`] and [`Name`], that contracts see as the lists that they hold.
#![tactic(auto)]

mod int_kind;
pub mod limits;
mod list;
mod memory;
mod name;
mod operator;
mod place_in_text;
mod rule;
mod trace;

pub use int_kind::{IntKind, greatest, least};
pub use list::List;
pub use memory::NoMemory;
pub use name::Name;
pub use operator::{Cmp, Math};
pub use place_in_text::{Key, NodeId, Pos};
pub use rule::{Rule, RuleError};
pub use trace::{End, Event, Why};
