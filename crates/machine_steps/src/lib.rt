//! What statements and terminators of a graph do to what a run has at hand; and drops of what stands at an address,
//! turn by turn: what is left of a drop is a list, so that deep values and nested drops do not deepen the stack.
#![tactic(auto)]

mod actions;
mod arithmetic;
mod boxes;
mod build_values;
mod choices;
mod drop_bodies;
mod drops;
mod forget;
mod found;
mod level;
mod place_types;
mod statements;
mod sweep;
mod told;
mod turns;
mod visit;
mod world;

pub use actions::Outcome;
pub use arithmetic::Computation;
pub use build_values::drop_body_of;
pub use drops::{Drops, Turn};
pub use forget::{Forgets, adt_of_dynamic, tell_forgotten};
pub use level::Level;
pub use statements::stop_if;
pub use told::ToldEvents;
pub use turns::steps;
pub use world::World;
