//! Expressions, once their parts are checked: each call builds the typed node of an operator, an assignment, a place, a
//! reference, a branch, a loop, a jump, a statement, a block, a call, an aggregate or a `match`, or tells the rule that
//! is broken. And what the rules ask of the form of an expression before it is checked.
#![tactic(auto)]

mod aggregates;
mod argument_forms;
mod arguments;
mod arrays;
mod blocks;
mod branches;
mod breaks;
mod calls;
mod counts;
mod expected_parts;
mod jumps;
mod literals;
mod operands;
mod operators;
mod place_forms;
mod places;
mod references;
mod statements;
mod stores;

pub use aggregates::{array_end, box_end, tuple_end};
pub use argument_forms::{ArgumentForm, argument_form};
pub use arguments::passed_on;
pub use arrays::elements_end;
pub use blocks::{block_end, tail_end};
pub use branches::{if_else_end, if_let_else_end};
pub use breaks::loop_end;
pub use calls::{call_end, counted_end, match_end};
pub use counts::{count_of, one_more};
pub use expected_parts::{element_wanted, part_ty, parts_wanted, wanted_at};
pub use jumps::{
    JumpTarget, break_alone_end, break_end, carried_type, continue_end, jump_target,
    return_alone_end,
};
pub use literals::{Digits, is_plain, literal_in};
pub use operands::{arithmetic_of, comparison_of, unless_never};
pub use operators::{
    arithmetic_end, arithmetic_last_end, comparison_end, comparison_last_end, if_int, logic_end,
    negate_end, not_end, wanted_int,
};
pub use place_forms::{NamedVariable, PlaceForm, place_form, variable_of};
pub use places::{deref_end, element_end};
pub use references::{borrow_alone_end, borrow_end, borrow_of};
pub use statements::evaluate_end;
pub use stores::store_end;
