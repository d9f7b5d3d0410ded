//! How the body of a function or a closure begins, with its parameters and captures, and how it ends, once its block is
//! checked: its nodes are numbered in text order then, and breaks and keys, which name nodes by their numbers, follow.
#![tactic(auto)]

mod captures;
mod closures;
mod ends;
mod heads;
mod name_params;
mod names;
mod nested_bodies;
mod numbers;
mod params;
mod parts;
mod patterns;
mod places;
mod renumber;
mod saved_scope;
mod scopes;
mod text_order;
mod whole;

pub use captures::check_captures;
pub use closures::{ClosureBegun, closure_begin, closure_end, too_many_rule};
pub use ends::body_end;
pub use heads::{closure_head, fn_head};
pub use name_params::name_param;
pub use nested_bodies::{Outer, begin_body, end_body};
pub use numbers::{body_number, closure_added};
pub use params::{param, params_of};
pub use parts::capture_types;
pub use saved_scope::put_aside;
pub use scopes::BodyHead;
pub use text_order::number_in_text_order;
pub use whole::take_body;
