//! A value in which no `Drop` body is to run is dropped in one turn.
ghost use Rattle.std.specs.Prelude.{◌≡◌, ◌++◌, map, true, IfOk};
ghost use Rattle.machine_steps.specs.Swept.{
  ArePartsSwept,
  GoesOver,
  GoneOver,
  IsSwept,
  PutsBefore,
  SweptSo,
  Sweeping,
  freed,
  freed_parts,
  holds_parts as holds_parts_of,
  is_there as is_there_so,
};
ghost use Rattle.machine_steps.specs.Turns.{stage_by};
ghost use Rattle.machine_steps.specs.Worlds.{event_of};
ghost use Rattle.machine_store.specs.Standing.{dynamic_of, standing};
ghost use Rattle.store_model.specs.Values.Datum.{data_from, datum_of};

use crate::ToldEvents;
use crate::found::{is_still, own_drop};
use machine_store::{Dynamic, Located, field_ty, type_of_part};
use mir_base::{Event, List, NoMemory};
use mir_ty::Items;
use std::alloc::Global;
use store_model::{At, Value};

/// How it went to go over a value.
#[derive(Clone, Copy)]
pub enum Pass {
    /// All of it was gone over, and no `Drop` body is to run in it.
    Over,
    /// A `Drop` body is to run in it, or a part has no type; `late` where many parts had been gone over by then.
    Ends { late: bool },
}

/// What is still to be gone over.
#[derive(Clone, Copy)]
pub enum Sweeps<'a> {
    /// A value, found so.
    Whole(&'a Value, Dynamic),
    /// Parts of a variant of what was found so, the first of which has this number.
    Rest {
        parts: &'a [Value],
        next: u32,
        variant: u32,
        dynamic: Dynamic,
    },
    /// A box, which is freed after its content.
    Boxed(u64),
}

/// Whether something stands there.
fn is_there(value: &Value) -> bool
    ensures { result ≡ is_there_so (datum_of value.now) }
{
    !matches!(value, Value::Gone)
}

/// Whether a value has parts or is a box.
fn holds_parts(value: &Value) -> bool
    ensures { result ≡ holds_parts_of (datum_of value.now) }
{
    matches!(value, Value::Parts { .. } | Value::Boxed { .. })
}

/// Whether the parts of a variant of what was found so have types, and hold no parts themselves: then nothing is left to
/// be gone over.
fn are_plain(items: &Items, parts: &[Value], variant: u32, dynamic: Dynamic) -> bool
    ensures { result ≡ true →
        GoneOver items.now (data_from (map datum_of parts.now)) (dynamic_of dynamic) variant 0 }
{
    let mut next: u32 = 0;
    for part in parts {
        if holds_parts(part) {
            return false;
        }
        let Some(_id) = field_ty(items, dynamic, variant, next) else {
            return false;
        };
        let Some(other) = next.checked_add(1) else {
            return false;
        };
        next = other;
    }
    true
}

/// Goes over a value, whose own `Drop` body may have run: its parts come next. False where one is to run, or where what
/// is found has no type.
fn sweep_value<'a>(
    items: &Items,
    work: &mut List<Sweeps<'a>>,
    value: &'a Value,
    dynamic: Dynamic,
    has_run: bool,
) -> Result<bool, NoMemory>
    ensures { IfOk result (λ went. went ≡ true → PutsBefore items.now work.old
        (IsSwept items.now (stage_by has_run) (datum_of value.now) (dynamic_of dynamic)) (freed (datum_of value.now))
        work.new) }
{
    if !is_still(items, dynamic, dynamic) {
        return Ok(false);
    }
    match value {
        Value::Parts { variant, parts, .. } => {
            if let Some(_) = own_drop(items, has_run, dynamic) {
                return Ok(false);
            }
            if are_plain(items, parts.as_slice(), *variant, dynamic) {
                return Ok(true);
            }
            work.push(Sweeps::Rest {
                parts: parts.as_slice(),
                next: 0,
                variant: *variant,
                dynamic,
            })?;
            Ok(true)
        }
        Value::Boxed { serial, inside, .. } => {
            let Some(found) = type_of_part(items, At::Inside, value, dynamic) else {
                return Ok(false);
            };
            work.push(Sweeps::Boxed(*serial))?;
            work.push(Sweeps::Whole(inside, found))?;
            Ok(true)
        }
        _ => Ok(true),
    }
}

/// Goes over the first of some parts, before the others. False where it has no type.
fn sweep_parts<'a>(
    items: &Items,
    work: &mut List<Sweeps<'a>>,
    parts: &'a [Value],
    next: u32,
    variant: u32,
    dynamic: Dynamic,
) -> Result<bool, NoMemory>
    ensures { IfOk result (λ went. went ≡ true → PutsBefore items.now work.old
        (ArePartsSwept items.now (data_from (map datum_of parts.now)) (dynamic_of dynamic) variant next)
        (freed_parts (data_from (map datum_of parts.now))) work.new) }
{
    let Some((first, rest)) = parts.split_first() else {
        return Ok(true);
    };
    let Some(id) = field_ty(items, dynamic, variant, next) else {
        return Ok(false);
    };
    let Some(other) = next.checked_add(1) else {
        return Err(NoMemory::past_32_bits());
    };
    work.push(Sweeps::Rest {
        parts: rest,
        next: other,
        variant,
        dynamic,
    })?;
    work.push(Sweeps::Whole(first, Dynamic::OfType(id)))?;
    Ok(true)
}

/// Goes over one thing.
fn sweep_one<'a>(
    items: &Items,
    told: &mut List<ToldEvents>,
    work: &mut List<Sweeps<'a>>,
    one: Sweeps<'a>,
) -> Result<bool, NoMemory>
    ensures { IfOk result (λ went. went ≡ true → GoesOver items.now (map event_of told.old) work.old one.entry
        (map event_of told.new) work.new) }
{
    match one {
        Sweeps::Whole(value, dynamic) => sweep_value(items, work, value, dynamic, false),
        Sweeps::Rest {
            parts,
            next,
            variant,
            dynamic,
        } => sweep_parts(items, work, parts, next, variant, dynamic),
        Sweeps::Boxed(serial) => {
            told.push(ToldEvents::Event(Event::Freed(serial)))?;
            Ok(true)
        }
    }
}

/// How many parts may be gone over in vain before no more is tried.
const MANY: u64 = 16;

/// Tells of the boxes in a value as they are freed, where no `Drop` body is to run in it but its own, which may have
/// run. Where one is, or where a part has no type, what was told means nothing. What is still to be gone over is a list,
/// so a deep value does not deepen the stack.
fn sweep(
    alloc: Global,
    items: &Items,
    told: &mut List<ToldEvents>,
    value: &Value,
    dynamic: Dynamic,
    has_run: bool,
) -> Result<Pass, NoMemory>
    ensures { IfOk result (λ pass. SweptSo pass (
        IsSwept items.now (stage_by has_run) (datum_of value.now) (dynamic_of dynamic)
        × (map event_of told.new ≡ map event_of told.old ++ freed (datum_of value.now)))) }
{
    let mut work = List::new(alloc);
    if !sweep_value(items, &mut work, value, dynamic, has_run)? {
        return Ok(Pass::Ends { late: false });
    }
    for turn in 0..u64::MAX {
        let Some(one) = work.pop() else {
            return Ok(Pass::Over);
        };
        if !sweep_one(items, told, &mut work, one)? {
            return Ok(Pass::Ends { late: turn > MANY });
        }
    }
    Err(NoMemory::cannot_be())
}

/// The same of what stands somewhere, where that is tried; it ends at once where nothing stands there.
pub fn sweep_there(
    alloc: Global,
    items: &Items,
    told: &mut List<ToldEvents>,
    s: &Located<'_>,
    has_run: bool,
    tries: bool,
) -> Result<Pass, NoMemory>
    ensures { IfOk result (λ pass. SweptSo pass (Sweeping items.now (stage_by has_run) (standing s.now.value)
        (dynamic_of s.now.dynamic) (map event_of told.old) (map event_of told.new))) }
{
    match s.value {
        Some(value) if tries && is_there(value) => sweep(
            alloc, items, told, value, s.dynamic, has_run,
        ),
        _ => Ok(Pass::Ends { late: false }),
    }
}
