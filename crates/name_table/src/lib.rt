//! The items of a text by their names, or the first broken rule on items.
#![tactic(auto)]

mod collection;
mod containment;
mod derives;
mod finite_size;
mod impl_walk;
mod item_names;
mod item_walk;
mod items;
mod known_names;
mod order;

pub use collection::collect;
pub use known_names::{NameSort, names_of};
