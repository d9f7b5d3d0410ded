ghost use Rattle.std.specs.Prelude.{◌≡◌, ◌↔◌, IsNone, IsErr, IsSome, IsTrue, IfOk, IfErr, OnErr, IfNone, Some, None, option_map, option_copied, MatchBool};
ghost use Rattle.store_model.specs.Values.Datum.{datum_of, Gone};
ghost use Rattle.store_model.specs.Values.Access.{part, value_at, replaced, IsCutOff};

use crate::{At, Value};
use std::mem;

/// What stands at the end of a path; at the path without steps that is the value itself, also where it is
/// gone.
///
/// `None` comes exactly where a container on the path is gone or has no such part: `At::Part` leads into an
/// aggregate of more parts than its number, and `At::Inside` into a box. It takes no memory.
pub fn read<'a>(root: &'a Value, path: &[At]) -> Option<&'a Value>
    ensures value { option_map datum_of (option_copied result) ≡ value_at path.now (datum_of root.now) }
    ensures absent { IsNone result ↔ IsCutOff path.now (datum_of root.now) }
{
    let mut place = root;
    for step in path {
        place = part_of(place, *step)?;
    }
    Some(place)
}

fn part_of(value: &Value, step: At) -> Option<&Value>
    ensures { option_map datum_of (option_copied result) ≡ part step (datum_of value.now) }
{
    match (value, step) {
        (Value::Parts { parts, .. }, At::Part(number)) => parts.get(number as usize),
        (Value::Boxed { inside, .. }, At::Inside) => Some(inside),
        _ => None,
    }
}

/// How many steps of a path are walked by one recursion.
const PIECE: usize = 1024;

/// Exchanges what stands at the end of a path with another value, and says whether anything stands there. A
/// long path is walked in pieces: the container at the end of a piece is taken out and put back after. So
/// the stack holds one frame for each step of a piece and one for each piece.
fn exchange(root: &mut Value, path: &[At], value: &mut Value) -> bool
    ensures found { MatchBool result (value_at path.now (datum_of root.old) ≡ Some (datum_of value.new))
        ((value_at path.now (datum_of root.old) ≡ None) × (datum_of value.new ≡ datum_of value.old)) }
    ensures after { datum_of root.new ≡ replaced path.now (datum_of value.old) (datum_of root.old) }
{
    if path.len() <= PIECE {
        return exchange_by_steps(root, path, value);
    }
    let (above, below) = path.split_at(PIECE);
    let mut container = Value::Gone;
    if !exchange_by_steps(root, above, &mut container) {
        return false;
    }
    let found = exchange(&mut container, below, value);
    exchange_by_steps(root, above, &mut container);
    found
}

fn exchange_by_steps(root: &mut Value, path: &[At], value: &mut Value) -> bool
    ensures found { MatchBool result (value_at path.now (datum_of root.old) ≡ Some (datum_of value.new))
        ((value_at path.now (datum_of root.old) ≡ None) × (datum_of value.new ≡ datum_of value.old)) }
    ensures after { datum_of root.new ≡ replaced path.now (datum_of value.old) (datum_of root.old) }
{
    let Some((step, below)) = path.split_first() else {
        mem::swap(root, value);
        return true;
    };
    match (root, step) {
        (Value::Parts { parts, .. }, At::Part(number)) => {
            let index = *number as usize;
            if index < parts.len() {
                return exchange_by_steps(parts.element_mut(index), below, value);
            }
            false
        }
        (Value::Boxed { inside, .. }, At::Inside) => return exchange_by_steps(inside, below, value),
        _ => false,
    }
}

/// Takes what stands at the end of a path, and leaves `Gone` there.
///
/// `None` comes exactly where a container on the path is gone or has no such part; then nothing changes. It
/// takes no memory.
pub fn take(root: &mut Value, path: &[At]) -> Option<Value>
    ensures value { option_map datum_of result ≡ value_at path.now (datum_of root.old) }
    ensures after { datum_of root.new ≡ replaced path.now Gone (datum_of root.old) }
    ensures absent { IsNone result ↔ IsCutOff path.now (datum_of root.old) }
    ensures unchanged { IfNone result (datum_of root.new ≡ datum_of root.old) }
{
    let mut value = Value::Gone;
    if exchange(root, path, &mut value) {
        Some(value)
    } else {
        None
    }
}

/// Puts a value at the end of a path, and answers what stood there.
///
/// `Err`, with the value handed back, comes exactly where a container on the path is gone or has no such
/// part; then nothing changes. It takes no memory.
pub fn put(root: &mut Value, path: &[At], value: Value) -> Result<Value, Value>
    ensures value { IfOk result (λ stood. value_at path.now (datum_of root.old) ≡ Some (datum_of stood)) }
    ensures after { datum_of root.new ≡ replaced path.now (datum_of value) (datum_of root.old) }
    ensures absent { IsErr result ↔ IsCutOff path.now (datum_of root.old) }
    ensures handed_back { IfErr result (λ same. datum_of same ≡ datum_of value) }
    ensures unchanged { OnErr result (datum_of root.new ≡ datum_of root.old) }
{
    let mut value = value;
    if exchange(root, path, &mut value) {
        Ok(value)
    } else {
        Err(value)
    }
}
