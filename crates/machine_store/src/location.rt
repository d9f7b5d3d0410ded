ghost use Rattle.std.specs.Prelude.{◌≡◌, ℕ, pos, ◌≤◌, true, [], IfOk, IfSome, IfNone, Some, None, option_map};
ghost use Rattle.std.specs.Prelude.{option_copied};
ghost use Rattle.cfg_graph.specs.Places.{named, named_step};
ghost use Rattle.cfg_meaning.specs.Programs.{setting_of};
ghost use Rattle.machine_store.specs.Frames.{cells_of};
ghost use Rattle.machine_store.specs.Standing.{standing, dynamic_of, located_of, reached_of, with_activations};
ghost use Rattle.machine_store.specs.Standing.{located_root_found, reach_of_found, named_by_found, by_reference_found};
ghost use Rattle.machine_store.specs.Standing.{through_found, into_field_found, into_element_found, count_of_parts};
ghost use Rattle.machine_store.specs.Standing.{follow_from_found, is_nothing, number_of};
ghost use Rattle.machine_store.specs.Activations.{activations_of};
ghost use Rattle.mir_ty.specs.ItemTable.{type_at};
ghost use Rattle.store_model.specs.Concrete.Location as location;
ghost use Rattle.store_model.specs.Concrete.State.{cell};
ghost use Rattle.store_model.specs.Places.TypeForms.{is_adt as is_adt_of};
ghost use Rattle.store_model.specs.Values.Access.{part};
ghost use Rattle.store_model.specs.Values.Datum.{datum_of};

use crate::types::{adt_of_impl, local_ty, type_of_part};
use crate::{Dynamic, MachineFrame, Store};
use cfg_graph::{Graph, Place, Step};
use mir_base::{Key, NoMemory};
use mir_ty::{Items, Ty, TyId};
use std::alloc::Global;
use store_model::{self, Addr, At, AtPath, Value};

/// Where a value stands, as what it is found there, and the value; `None` where it is gone.
#[derive(Drop)]
pub struct Located<'a> {
    pub address: Addr,
    pub dynamic: Dynamic,
    pub value: Option<&'a Value>,
}

/// Where a place of a body is.
#[derive(Drop)]
pub enum Reached<'a> {
    /// It is reached.
    Reaches(Located<'a>),
    /// A container of it is gone.
    CutOff,
    /// There is no such place.
    Nowhere,
}

/// The part of a value to which a step leads.
fn part_of(value: &Value, step: At) -> Option<&Value>
    ensures { option_map datum_of (option_copied result) ≡ part step (datum_of value.now) }
{
    store_model::read(value, &[step])
}

/// The part of a value that stands somewhere.
fn into<'a>(items: &Items, step: At, s: Located<'a>) -> Result<Option<Located<'a>>, NoMemory>
    ensures { IfOk result (λ found. option_map located_of found ≡ location.into items.now step (located_of s.entry)) }
{
    let Located {
        mut address,
        dynamic,
        value,
    } = s;
    let Some(value) = value else {
        return Ok(None);
    };
    let Some(inner) = part_of(value, step) else {
        return Ok(None);
    };
    let Some(dynamic) = type_of_part(items, step, value, dynamic) else {
        return Ok(None);
    };
    address.path.push(step)?;
    Ok(Some(Located {
        address,
        dynamic,
        value: Some(inner),
    }))
}

/// What a local holds that was stored into.
fn local_value(frame: &MachineFrame, key: u32) -> Option<&Value>
    ensures { standing result ≡ cell key (cells_of frame.now.1) }
{
    match frame.cell(key) {
        Some(cell) => Some(cell.value()),
        None => None,
    }
}

/// What a local of an activation holds.
fn root<'a>(
    alloc: Global,
    graph: &Graph,
    frame: &'a MachineFrame,
    depth: u32,
    key: u32,
) -> Option<Located<'a>>
    ensures { option_map located_of result ≡ located_root_found depth key (cells_of frame.now.1)
        ((setting_of true graph.now).local_ty frame.now.0 key) }
{
    match local_ty(graph, frame.body(), key) {
        Some(id) => Some(Located {
            address: Addr {
                depth,
                key: Key(key),
                path: AtPath::new(alloc),
            },
            dynamic: Dynamic::OfType(id),
            value: local_value(frame, key),
        }),
        None => None,
    }
}

/// What stands at an address, if it has not lost its place.
pub fn located_at<'a>(
    alloc: Global,
    graph: &Graph,
    store: &'a Store,
    address: &Addr,
) -> Result<Option<Located<'a>>, NoMemory>
    ensures { IfOk result (λ found. option_map located_of found ≡
        location.located_at (setting_of true graph.now) (with_activations (activations_of store.now)) address.now) }
{
    let Some(frame) = store.frame(address.depth as usize) else {
        return Ok(None);
    };
    let Some(mut s) = root(alloc, graph, frame, address.depth, address.key.0) else {
        return Ok(None);
    };
    for step in address.path.as_slice() {
        match into(&graph.items, *step, s)? {
            Some(next) => s = next,
            None => return Ok(None),
        }
    }
    Ok(Some(s))
}

fn reach_of<'a>(found: Option<Located<'a>>) -> Reached<'a>
    ensures { reached_of result ≡ reach_of_found (option_map located_of found.entry) }
{
    match found {
        Some(s) => Reached::Reaches(s),
        None => Reached::Nowhere,
    }
}

/// Whether a type is a struct or an enum of this number.
fn is_adt(items: &Items, adt: u32, id: TyId) -> bool
    ensures { result ≡ is_adt_of adt (type_at items.now id) }
{
    match items.ty(id) {
        Some(Ty::Adt(found)) => *found == adt,
        _ => false,
    }
}

/// Whether a value is found as the type that a reference names.
pub fn is_of_type(items: &Items, id: TyId, dynamic: Dynamic) -> bool
    ensures { result ≡ location.is_of_type items.now id (dynamic_of dynamic) }
{
    match dynamic {
        Dynamic::OfType(found) => id.0 == found.0,
        Dynamic::OfObject(found, impl_no) => id.0 == found.0
            || match adt_of_impl(items, impl_no) {
                Some(adt) => is_adt(items, adt, id),
                None => false,
            },
    }
}

/// The type that a reference names which is found so.
fn named_by(items: &Items, dynamic: Dynamic) -> Option<TyId>
    ensures { result ≡ named_by_found (location.concrete_ty items.now (dynamic_of dynamic)) }
{
    let Dynamic::OfType(id) = dynamic else {
        return None;
    };
    match items.ty(id) {
        Some(Ty::Shared(to)) => Some(*to),
        Some(Ty::Unique(to)) => Some(*to),
        _ => None,
    }
}

/// What a reference names: it has to be found there as the type that the reference names.
fn by_reference<'a>(items: &Items, named: Option<TyId>, found: Option<Located<'a>>) -> Reached<'a>
    ensures { reached_of result ≡ by_reference_found items.now named (option_map located_of found.entry) }
{
    let Some(id) = named else {
        return Reached::Nowhere;
    };
    match found {
        Some(s) => {
            if is_of_type(items, id, s.dynamic) {
                Reached::Reaches(s)
            } else {
                Reached::Nowhere
            }
        }
        None => Reached::Nowhere,
    }
}

/// The content of a box, or what a reference names.
fn through<'a>(
    alloc: Global,
    graph: &Graph,
    store: &'a Store,
    s: Located<'a>,
) -> Result<Reached<'a>, NoMemory>
    ensures { IfOk result (λ found. reached_of found ≡ through_found (setting_of true graph.now)
        (with_activations (activations_of store.now)) [] (standing s.entry.value) (located_of s.entry)) }
{
    match s.value {
        Some(Value::Address(address)) => {
            let named = named_by(&graph.items, s.dynamic);
            Ok(by_reference(
                &graph.items,
                named,
                located_at(alloc, graph, store, address)?,
            ))
        }
        Some(Value::Boxed { .. }) => Ok(reach_of(into(&graph.items, At::Inside, s)?)),
        _ => Ok(Reached::Nowhere),
    }
}

/// A part of a variant, where it is the one that stands there.
fn into_field<'a>(
    items: &Items,
    variant: u32,
    part: u32,
    s: Located<'a>,
) -> Result<Reached<'a>, NoMemory>
    ensures { IfOk result (λ found. reached_of found ≡ into_field_found items.now variant part (standing
        s.entry.value) (located_of s.entry)) }
{
    match s.value {
        Some(
            Value::Parts {
                variant: active,
                ..
            },
        ) if *active == variant => Ok(reach_of(into(items, At::Part(part), s)?)),
        _ => Ok(Reached::Nowhere),
    }
}

/// The number of an element, where there are so many.
fn element_number(number: i128, count: usize) -> Result<Option<u32>, NoMemory>
    ensures there { IfOk result (λ found. IfSome found (λ part. number ≡ pos part)) }
    ensures past { IfOk result (λ found. IfNone found ((n : ℕ) → number ≡ pos n → count ≤ n)) }
{
    if number < 0 || number >= count as i128 {
        return Ok(None);
    }
    match u32::try_from(number) {
        Ok(part) => Ok(Some(part)),
        Err(_) => Err(NoMemory::past_32_bits()),
    }
}

fn count_in(value: &Value) -> usize
    ensures { result ≡ count_of_parts (datum_of value.now) }
{
    match value {
        Value::Parts { parts, .. } => parts.len(),
        _ => 0,
    }
}

/// How many numbered parts stand in a value; none where it is no aggregate.
fn part_count(s: &Located<'_>) -> usize
    ensures { result ≡ count_of_parts (standing s.now.value) }
{
    match s.value {
        Some(value) => count_in(value),
        None => 0,
    }
}

/// The number that stands in a local.
fn number_in(value: Option<&Value>) -> Option<i128>
    ensures { result ≡ number_of (standing value.entry) }
{
    match value {
        Some(Value::Int(number)) => Some(*number),
        _ => None,
    }
}

/// The element of an array under a number.
fn into_element<'a>(
    items: &Items,
    index: Option<&Value>,
    s: Located<'a>,
) -> Result<Reached<'a>, NoMemory>
    ensures { IfOk result (λ found. reached_of found ≡ into_element_found items.now (standing index.entry)
        (located_of s.entry)) }
{
    let Some(number) = number_in(index) else {
        return Ok(Reached::Nowhere);
    };
    match element_number(number, part_count(&s))? {
        Some(part) => Ok(reach_of(into(items, At::Part(part), s)?)),
        None => Ok(Reached::Nowhere),
    }
}

/// Where a step leads from what stands somewhere.
fn follow<'a>(
    alloc: Global,
    graph: &Graph,
    store: &'a Store,
    frame: &MachineFrame,
    step: Step,
    s: Located<'a>,
) -> Result<Reached<'a>, NoMemory>
    ensures { IfOk result (λ found. reached_of found ≡ follow_from_found (setting_of true graph.now)
        (with_activations (activations_of store.now)) (cells_of frame.now.1) (named_step step)
        (standing s.entry.value) (located_of s.entry)) }
{
    if is_gone(&s) {
        return Ok(Reached::CutOff);
    }
    match step {
        Step::Part(part) => Ok(reach_of(into(&graph.items, At::Part(part), s)?)),
        Step::Field { variant, part } => into_field(&graph.items, variant, part, s),
        Step::Inside => through(alloc, graph, store, s),
        Step::Index(local) => into_element(&graph.items, local_value(frame, local), s),
    }
}

/// Whether nothing stands there.
fn is_gone(s: &Located<'_>) -> bool
    ensures { result ≡ is_nothing (standing s.now.value) }
{
    match s.value {
        None | Some(Value::Gone) => true,
        Some(_) => false,
    }
}

/// Where a place of the youngest activation is.
pub fn reach<'a>(
    alloc: Global,
    graph: &Graph,
    store: &'a Store,
    place: &Place,
) -> Result<Reached<'a>, NoMemory>
    ensures { IfOk result (λ found. reached_of found ≡ location.reach (setting_of true graph.now)
        (with_activations (activations_of store.now)) (named place.now)) }
{
    let Some(depth) = store.len().checked_sub(1) else {
        return Ok(Reached::Nowhere);
    };
    let Some(frame) = store.frame(depth) else {
        return Ok(Reached::Nowhere);
    };
    let Ok(number) = u32::try_from(depth) else {
        return Err(NoMemory::past_32_bits());
    };
    let Some(mut s) = root(alloc, graph, frame, number, place.local) else {
        return Ok(Reached::Nowhere);
    };
    for step in place.steps.as_slice() {
        match follow(alloc, graph, store, frame, *step, s)? {
            Reached::Reaches(next) => s = next,
            other => return Ok(other),
        }
    }
    Ok(Reached::Reaches(s))
}
