//! The checker of a body: its tables, its scopes and loops, the stack of the typed nodes that no node around them has
//! taken yet, and the steps of the rules of typing over it: which type is required of a node, and how a node is made
//! of the last ones.
#![tactic(auto)]

mod binding_scopes;
mod body_scope;
mod checker;
mod coercions;
mod ends;
mod forms;
mod items;
mod lists;
mod literals;
mod loops;
mod scopes;
mod stack;
mod steps;
mod tables;
mod types;
mod uses;
mod variables;

pub use binding_scopes::{count, enter, enter_all, leave};
pub use body_scope::BodyScope;
pub use checker::Checker;
pub use forms::{Four, Leaf, One, Three, TwoParts};
pub use items::{
    adt_at_head, adt_named, body_named, is_self_method, kind_at, method_of, variant_of_enum,
};
pub use lists::{
    Behind, Many, coerce_many, let_go, one_type_of, take_nodes, wrap_behind, wrap_many,
};
pub use literals::{int, is_signed, literal_value, most};
pub use loops::{enter_loop, leave_loop};
pub use tables::Tables;
pub use types::{answer_of, resolve_param_type, resolve_type, resolve_type_if};
pub use variables::{FoundVariable, put_variable, variable};
