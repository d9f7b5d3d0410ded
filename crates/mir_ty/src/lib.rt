//! The types of a program by number, its structs, enums, traits, impls, closures and bodies in one table,
//! and the facts on which drop elaboration lives: which types are Copy, which need dropping, and which
//! parts a type has.
#![tactic(auto)]

mod adt;
mod def;
mod drop_bodies;
mod duplicate;
mod facts;
mod items;
mod line;
mod scalars;
mod sizes;
mod ty;
mod type_table;

pub use adt::{Adt, Variant};
pub use def::{ClosureDef, ImplDef, Sig, TraitDef};
pub use items::Items;
pub use line::{event_line, put_event_line};
pub use scalars::{BOOL, I32, I64, NEVER, U32, U64, UNIT, USIZE};
pub use ty::{Ty, TyId};
