//! What the rules of typing ask of items, item by item: of fields and variants, of the heads of functions and methods, of
//! impls, and of `main`.
#![tactic(auto)]

mod adts;
mod before;
mod counts;
mod enclosing_impl;
mod fields;
mod has_methods;
mod heads;
mod impls;
mod items;
mod main_head;
mod method_heads;
mod methods;
mod names;
mod pairs;
mod receivers;
mod same_heads;
mod trait_heads;
mod variants;
mod whole_impls;

pub use before::Before;
pub use enclosing_impl::{enter_impl, leave_impl};
pub use has_methods::{body_head, head_of, trait_method, trait_named};
pub use items::item_rules;
pub use pairs::NamePairs;
pub use same_heads::{is_drop_sig, is_same_head};
pub use whole_impls::{has_all, has_drop_head, has_trait_head};
