//! The typed tree of a program: every node with its type, its use of a place, and the numbers of what it means. Nodes
//! are found by their numbers, or listed in text order.
#![tactic(auto)]

mod body;
mod discard;
mod law;
mod node;
mod nodes;
mod search;

pub use body::{Param, TBody, Typed};
pub use discard::{
    boxed_node, discard_fields, discard_form, discard_node, discard_nodes, push_field, push_node,
};
pub use law::law_numbers_in_order;
pub use node::{Form, Node, NumberedField, Use};
pub use nodes::{all_nodes, nodes_of};
pub use search::node_at;
