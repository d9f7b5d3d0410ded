//! The code of a body before blocks are made of it: effects, scopes, branches, loops and exits (the rustc development
//! guide, "MIR construction"), in postfix order.
#![tactic(auto)]

mod assignments;
mod bindings;
mod blocks;
mod branches;
mod categories;
mod code;
mod context;
mod field_order;
mod leaves;
mod loops_and_guards;
mod operations;
mod parts;
mod sequences;
mod values;

pub use assignments::{assigning, borrowing, element};
pub use bindings::bind;
pub use blocks::{
    declare_bindings, ends_loop, enter_statement_value, let_name, let_parts, scope_behind,
    unit_unless_never,
};
pub use branches::{
    borrow_scrutinee, conditional, names_taken, otherwise_leaves, shortcut, taken_arm, taken_if,
};
pub use categories::{is_one_name, place_of};
pub use code::{Action, Change, Code, CodeWord, Condition, Destination, Entry, Exit, ScopeAt};
pub use context::{
    Category, Context, NodeHead, destination_in, head_at, is_own_scope, result_place,
};
pub use leaves::{finish_node, leaf_code};
pub use loops_and_guards::{
    Alias, LoopAround, LoopsAndGuards, destination_of_loop, in_guard, in_loop, place_under,
};
pub use operations::{
    Built, built_of_keys, call_body, called_virtual, comparing, computing, dropping, keys_behind,
    keys_of, make_adt, on_one, on_two, one_gives_unit,
};
pub use parts::{coerced_to, moved_from, own_destination, put_unit};
pub use sequences::{delivers, in_own_scope, join_codes, made_entry};
pub use values::{jump, touch_place, unit_after};
