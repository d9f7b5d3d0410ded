//! The typing environment of a body: the variables and loops around an expression, and what the rules of typing ask of
//! types and places.
#![tactic(auto)]

mod impls;
mod loops;
mod members;
mod places;
mod types;
mod variables;
mod walk;

pub use impls::{Fit, ImplPair, how_it_fits, impl_pairs};
pub use loops::{LoopAround, loop_left};
pub use members::{AdtNames, member_names, variant_named};
pub use places::{is_behind_shared, is_fixed, is_place};
pub use types::{
    adt_of, agrees, array_of, boxed_of, closure_of, fits, inside_of, is_bool, is_dyn, is_enum,
    is_int, is_never, is_reference, is_unit, kind_of, one_of_two, reference_of, taking, trait_of,
};
pub use variables::{Variable, VariableMeaning, Variables};
pub use walk::{BreakOut, Walk};
