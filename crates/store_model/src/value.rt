ghost use Rattle.std.specs.Prelude.{◌<◌, ◌≤◌, suc, IfSome};
ghost use Rattle.store_model.specs.Values.DropMeasure.{count_in, count_left, count_waiting, node_count, IsNearerEnd};
ghost use Rattle.store_model.specs.Values.Datum.{datum_of};

use crate::Addr;
use mir_base::List;
use std::alloc::Global;
use std::mem;

/// A value of the language, as a run holds it in a variable, a part or a box. Any part of it may be gone.
///
/// A value is numbered where it has a serial number: a box, and a value of a struct or enum with a `Drop`
/// impl. A run numbers them from 1 in the order in which they are made. A value is whole where nothing at
/// or below it is gone.
pub enum Value {
    /// What was moved, dropped or never made.
    Gone,
    /// A number of any integer type.
    Int(i128),
    Bool(bool),
    /// The value of `()`, of a function without a result, or of a statement.
    Unit,
    /// A struct, a variant of an enum, a tuple, an array or a closure.
    Parts {
        /// The number of the variant of an enum, from 0; 0 otherwise.
        variant: u32,
        /// The serial number, where the type has a `Drop` impl.
        serial: Option<u64>,
        /// The fields in declaration order, the elements, or the captures in the order of the written list.
        parts: List<Value>,
    },
    /// A box.
    Boxed {
        serial: u64,
        /// The number of the impl whose methods a trait object has; `None` for other boxes.
        impl_no: Option<u32>,
        /// The content, which is gone where it was moved out of the box.
        inside: Box<Value, Global>,
    },
    /// A reference: where the value stands to which it refers.
    Address(Addr),
}

/// What is left of a value that is being dropped: a part that is dropped next, and the parts that wait.
type Rest = (Value, Option<List<Value>>);

impl Drop for Value {
    /// Drops a value of any depth without recursion and without taking memory: while the first part of a
    /// list is dropped, its place holds the list that waited before.
    fn drop(mut self) {
        let mut waiting = None;
        loop {
            let rest = match self {
                Value::Boxed {
                    serial: _,
                    impl_no: _,
                    inside,
                } => Some((Box::into_inner(inside), waiting)),
                Value::Parts {
                    variant: _,
                    serial: _,
                    parts,
                } => enter(parts, waiting),
                Value::Gone | Value::Int(_) | Value::Bool(_) | Value::Unit | Value::Address(_) =>
                    next(waiting),
            };
            match rest {
                None => return,
                Some((part, others)) => {
                    self = part;
                    waiting = others;
                }
            }
        }
    }
}

/// Begins with the parts of a value.
fn enter(mut parts: List<Value>, waiting: Option<List<Value>>) -> Option<Rest>
    ensures { IfSome result (IsNearerEnd (suc (count_in parts)) waiting) }
{
    let Some(outer) = waiting else {
        return next(Some(parts));
    };
    if parts.is_empty() {
        parts.into_vec().destroy_empty();
        return next(Some(outer));
    }
    let held = Value::Parts {
        variant: 0,
        serial: None,
        parts: outer,
    };
    let first = mem::replace(parts.element_mut(0), held);
    Some((first, Some(parts)))
}

/// Goes on with the last part that waits.
fn next(waiting: Option<List<Value>>) -> Option<Rest>
    ensures left { IfSome result (λ rest. count_left rest ≤ count_waiting waiting) }
    ensures part { IfSome result (λ rest. node_count (datum_of rest.0) < count_waiting waiting) }
{
    let mut parts = waiting?;
    let Some(last) = parts.pop() else {
        parts.into_vec().destroy_empty();
        return None;
    };
    if parts.is_empty() {
        parts.into_vec().destroy_empty();
        return Some((last, None));
    }
    Some((last, Some(parts)))
}
