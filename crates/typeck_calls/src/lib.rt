//! Members and calls, once what they are of is checked: fields and methods, for which boxes and references are looked
//! through (autoderef) up to the first type that has the member; struct expressions; and what is called: functions,
//! methods, tuple structs, variants and closures.
#![tactic(auto)]

mod autoderef;
mod callees;
mod closures;
mod ends;
mod fields;
mod given_fields;
mod initialised_field;
mod methods;
mod operand_fields;
mod paths;
mod receivers;
mod resolve;
mod structs;
mod variants;

pub use callees::{Callee, call_place, callee_of};
pub use closures::{ClosureCallee, closure_callee, closure_end};
pub use ends::call_end;
pub use fields::{field_end, field_named, part_end};
pub use initialised_field::{FieldWanted, field_wanted};
pub use operand_fields::wrap_make;
pub use paths::{PathValue, path, path_alone, path_value};
pub use receivers::{Called, MethodReceiver, method_end, method_receiver};
pub use resolve::{CallEnding, ResolvedCall, begin};
pub use structs::{StructBegun, struct_begin, struct_end};
pub use variants::{copy_types, field_want, variant_types};
