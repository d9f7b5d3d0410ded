//! What is read off the code of a body: its places, operands and effects as lines of a graph, where the rustc
//! development guide's "MIR construction" speaks of places, operands and rvalues (keys become the numbers of locals);
//! the span of each of its parts in the list of its words; and the scopes around it, behind it, and in a panic.
#![tactic(auto)]

mod divergence;
mod drops;
mod effects;
mod entries;
mod frames;
mod mark_pass;
mod marks;
mod places;
mod reach;
mod scope;
mod scope_changes;
mod scopes_after;
mod spans;

pub use divergence::is_last;
pub use drops::{drops_none, panic_drops};
pub use effects::{statement, terminator};
pub use frames::{LoweringFrame, local};
pub use mark_pass::marks_of;
pub use marks::CodeMark;
pub use places::{operand, place, whole_place};
pub use reach::reaches_of;
pub use scope::{Entries, Scope, Scopes, depth};
pub use scope_changes::{change, enter, leave, take};
pub use scopes_after::after;
pub use spans::{Spans, TwoCodes, has_end, two_before, word_at};
