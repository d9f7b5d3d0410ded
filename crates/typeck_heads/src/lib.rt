//! The heads of items, of methods and of closures, added to the items of a program by their names.
#![tactic(auto)]

mod adt_items;
mod adts;
mod bodies;
mod body_walk;
mod closure_types;
mod heads;
mod impls;
mod known_types;
mod names;
mod steps;
mod traits;
mod written_types;

pub use adt_items::name_from;
pub use adts::{derives, enum_item, struct_item};
pub use bodies::Count;
pub use body_walk::node_bodies;
pub use heads::{Own, head};
pub use impls::{add_impl, impl_head};
pub use known_types::{Known, path_of_method};
pub use names::NameTable;
pub use steps::{broken_rule, intern, obeys, push_to};
pub use traits::trait_heads;
pub use written_types::{WrittenScope, resolve_type, resolve_written, scalar, written_param};
