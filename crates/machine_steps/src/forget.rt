//! Forgetting a value: what it tells of each numbered part, in the order in which it would be dropped.
ghost use Rattle.std.specs.Prelude.{◌≡◌, ◌++◌, List as Listed, map, OnOk, option_map};
ghost use Rattle.mir_base.specs.declared.trace.Event.{Event as an_event};
ghost use Rattle.machine_steps.specs.Forgetting.{lines_of, lines_before, made_lines, parts_lines};
ghost use Rattle.machine_steps.specs.Worlds.{event_of};
ghost use Rattle.machine_store.specs.Standing.{dynamic_of};
ghost use Rattle.store_model.specs.Concrete.Drops.{drop_impl};
ghost use Rattle.store_model.specs.Concrete.Effects.{forgotten};
ghost use Rattle.store_model.specs.Concrete.Location.{concrete_ty};
ghost use Rattle.store_model.specs.Places.TypeForms.{adt_of};
ghost use Rattle.store_model.specs.Values.Datum.{datum_of};

use crate::{ToldEvents, drop_body_of};
use machine_store::{Dynamic, adt_of_impl, field_ty, type_of_part};
use mir_base::{Event, List, NoMemory};
use mir_ty::{Items, Ty};
use std::alloc::Global;
use store_model::{At, Value};

/// What is still to be gone over.
#[derive(Clone, Copy)]
pub enum Forgets<'a> {
    /// A value, found so.
    Whole(&'a Value, Dynamic),
    /// Parts of a variant of what was found so, the first of which has this number.
    Rest {
        parts: &'a [Value],
        next: u32,
        variant: u32,
        dynamic: Dynamic,
    },
    /// The line of a box, after its content.
    Boxed(u64),
}

/// The struct or enum by whose parts a value found so goes.
pub fn adt_of_dynamic(items: &Items, dynamic: Dynamic) -> Option<u32>
    ensures { result ≡ adt_of (concrete_ty items.now (dynamic_of dynamic)) }
{
    match dynamic {
        Dynamic::OfType(id) => match items.ty(id) {
            Some(Ty::Adt(adt)) => Some(*adt),
            _ => None,
        },
        Dynamic::OfObject(_, impl_no) => adt_of_impl(items, impl_no),
    }
}

/// The struct or enum by which a value goes that is found so, if it has a `Drop` impl.
fn dropping_adt(items: &Items, dynamic: Dynamic) -> Option<u32>
    ensures { result ≡ option_map (λ of. of.0) (drop_impl items.now (concrete_ty items.now (dynamic_of dynamic))) }
{
    let adt = adt_of_dynamic(items, dynamic)?;
    match drop_body_of(items, adt) {
        Some(_) => Some(adt),
        None => None,
    }
}

/// Tells of a numbered value of a struct or enum.
fn tell_made(
    items: &Items,
    told: &mut List<ToldEvents>,
    serial: Option<u64>,
    dynamic: Dynamic,
) -> Result<(), NoMemory>
    ensures { OnOk result (map event_of told.new ≡ map event_of told.old ++ made_lines serial
        (drop_impl items.now (concrete_ty items.now (dynamic_of dynamic)))) }
{
    let Some(serial) = serial else {
        return Ok(());
    };
    let Some(adt) = dropping_adt(items, dynamic) else {
        return Ok(());
    };
    told.push(ToldEvents::Event(Event::ForgotMade { adt, serial }))
}

/// Goes over a value: what it tells at once is told, and its parts are to be gone over.
fn go_over_value<'a>(
    items: &Items,
    told: &mut List<ToldEvents>,
    work: &mut List<Forgets<'a>>,
    value: &'a Value,
    dynamic: Dynamic,
) -> Result<(), NoMemory>
    ensures { OnOk result ((after : Listed an_event) → map event_of told.new ++ lines_before items.now work.new after
        ≡ map event_of told.old ++ (forgotten items.now (datum_of value.now) (dynamic_of dynamic)
        ++ lines_before items.now work.old after)) }
{
    match value {
        Value::Parts {
            variant,
            serial,
            parts,
        } => {
            tell_made(items, told, *serial, dynamic)?;
            work.push(Forgets::Rest {
                parts: parts.as_slice(),
                next: 0,
                variant: *variant,
                dynamic,
            })
        }
        Value::Boxed { serial, inside, .. } => {
            work.push(Forgets::Boxed(*serial))?;
            match type_of_part(items, At::Inside, value, dynamic) {
                Some(found) => work.push(Forgets::Whole(inside, found)),
                None => Ok(()),
            }
        }
        _ => Ok(()),
    }
}

/// Goes over the first of some parts, before the others.
fn go_over_parts<'a>(
    items: &Items,
    work: &mut List<Forgets<'a>>,
    parts: &'a [Value],
    next: u32,
    variant: u32,
    dynamic: Dynamic,
) -> Result<(), NoMemory>
    ensures { OnOk result ((after : Listed an_event) → lines_before items.now work.new after ≡ parts_lines items.now
        parts.now next variant (dynamic_of dynamic) ++ lines_before items.now work.old after) }
{
    let Some((first, rest)) = parts.split_first() else {
        return Ok(());
    };
    let Some(other) = next.checked_add(1) else {
        return Err(NoMemory::past_32_bits());
    };
    work.push(Forgets::Rest {
        parts: rest,
        next: other,
        variant,
        dynamic,
    })?;
    match field_ty(items, dynamic, variant, next) {
        Some(id) => work.push(Forgets::Whole(first, Dynamic::OfType(id))),
        None => Ok(()),
    }
}

/// Goes over one thing.
fn go_over<'a>(
    items: &Items,
    told: &mut List<ToldEvents>,
    work: &mut List<Forgets<'a>>,
    next: Forgets<'a>,
) -> Result<(), NoMemory>
    ensures { OnOk result ((after : Listed an_event) → map event_of told.new ++ lines_before items.now work.new after
        ≡ map event_of told.old ++ (lines_of items.now next.entry ++ lines_before items.now work.old after)) }
{
    match next {
        Forgets::Whole(value, dynamic) => go_over_value(items, told, work, value, dynamic),
        Forgets::Rest {
            parts,
            next,
            variant,
            dynamic,
        } => go_over_parts(items, work, parts, next, variant, dynamic),
        Forgets::Boxed(serial) => told.push(ToldEvents::Event(Event::ForgotBox(serial))),
    }
}

/// Tells of each numbered part of a value. What is still to be gone over is a list, so a deep value does not deepen
/// the stack.
pub fn tell_forgotten(
    alloc: Global,
    items: &Items,
    told: &mut List<ToldEvents>,
    value: &Value,
    dynamic: Dynamic,
) -> Result<(), NoMemory>
    ensures { OnOk result (map event_of told.new ≡ map event_of told.old
        ++ forgotten items.now (datum_of value.now) (dynamic_of dynamic)) }
{
    let mut work = List::new(alloc);
    work.push(Forgets::Whole(value, dynamic))?;
    for _turn in 0..u64::MAX {
        let Some(next) = work.pop() else {
            return Ok(());
        };
        go_over(items, told, &mut work, next)?;
    }
    Err(NoMemory::cannot_be())
}
