//! Patterns: what they name, how those without parts and those with parts end, and what a scrutinee, an arm and a `let`
//! bind (The Rust Reference, "Patterns").
#![tactic(auto)]

mod arms;
mod bound_names;
mod counts;
mod ends;
mod fields;
mod given_fields;
mod leaves;
mod lets;
mod members;
mod parts;
mod path_patterns;
mod pattern_context;
mod patterns;
mod scrutinees;
mod targets;

pub use arms::{arm_end, guarded_arm_end};
pub use bound_names::{bindings, enter_bound, enter_guard};
pub use counts::count_of;
pub use fields::target_end;
pub use given_fields::{are_known, is_whole};
pub use leaves::{bind, literal_pattern, truth_pattern, wildcard};
pub use lets::{is_one_name, let_end, place_for_parts, takes_any};
pub use members::{FieldPart, field_parts};
pub use parts::{PartTypes, element_types, field_count, field_types, tuple_types};
pub use path_patterns::{lone_name, path_alone, target_begin};
pub use pattern_context::{PatternContext, inside_of};
pub use patterns::pattern;
pub use scrutinees::{finish_scrutinee, pattern_context_of_last};
pub use targets::{PatternTarget, is_test, target_of};
