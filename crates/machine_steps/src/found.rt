//! What stands at an address, as far as a drop asks.
ghost use Rattle.std.specs.Prelude.{◌≡◌, IfOk, Some, None, option_map, true};
ghost use Rattle.cfg_meaning.specs.Programs.{setting_of};
ghost use Rattle.machine_steps.specs.Continuation.{is_expected as is_expected_as, is_still as is_still_as, own_impl};
ghost use Rattle.machine_steps.specs.Reading.{IsFound, ShowsValue, pair_of};
ghost use Rattle.machine_steps.specs.Turns.{stage_by};
ghost use Rattle.machine_store.specs.Activations.{activations_of};
ghost use Rattle.machine_store.specs.Standing.{dynamic_of, standing, with_activations};
ghost use Rattle.store_model.specs.Concrete.Drops.{drop_impl};
ghost use Rattle.store_model.specs.Concrete.Location as location;
ghost use Rattle.store_model.specs.Concrete.Location.{concrete_ty};
ghost use Rattle.store_model.specs.Values.Datum.{datum_of};

use crate::{adt_of_dynamic, drop_body_of};
use cfg_graph::Graph;
use machine_store::{Dynamic, Located, Store, adt_of_impl, is_of_type, located_at, type_of_part};
use mir_base::NoMemory;
use mir_ty::Items;
use std::alloc::Global;
use store_model::{Addr, At, Value};

/// What a drop does with a value.
#[derive(Clone, Copy)]
pub enum DropKind {
    /// Nothing stands there.
    Nothing,
    /// A value without parts.
    Plain,
    /// A value with this many numbered parts.
    Parts {
        variant: u32,
        serial: Option<u64>,
        total: usize,
    },
    /// A box, and as what its content is found.
    Boxed {
        serial: u64,
        content: Option<Dynamic>,
    },
}

/// What stands at an address.
#[derive(Clone, Copy)]
pub struct FoundValue {
    pub dynamic: Dynamic,
    pub kind: DropKind,
}

/// A struct or an enum with its `Drop` body.
#[derive(Clone, Copy)]
pub struct OwnDrop {
    pub adt: u32,
    pub body: u32,
}

fn kind_of_value(items: &Items, value: &Value, dynamic: Dynamic) -> DropKind
    ensures { ShowsValue items.now (datum_of value.now) (dynamic_of dynamic) result }
{
    match value {
        Value::Gone => DropKind::Nothing,
        Value::Parts {
            variant,
            serial,
            parts,
        } => DropKind::Parts {
            variant: *variant,
            serial: *serial,
            total: parts.len(),
        },
        Value::Boxed { serial, .. } => DropKind::Boxed {
            serial: *serial,
            content: type_of_part(items, At::Inside, value, dynamic),
        },
        Value::Int(_) | Value::Bool(_) | Value::Unit | Value::Address(_) => DropKind::Plain,
    }
}

/// What a drop does with what stands somewhere.
pub fn kind_of(items: &Items, s: &Located<'_>) -> DropKind
    ensures { ShowsValue items.now (standing s.now.value) (dynamic_of s.now.dynamic) result }
{
    match s.value {
        Some(value) => kind_of_value(items, value, s.dynamic),
        None => DropKind::Nothing,
    }
}

/// What stands at an address; `None` exactly where there is no such place.
pub fn read(
    alloc: Global,
    graph: &Graph,
    store: &Store,
    address: &Addr,
) -> Result<Option<FoundValue>, NoMemory>
    ensures { IfOk result (λ found. IsFound graph.now.items (location.located_at (setting_of true graph.now)
        (with_activations (activations_of store.now)) address.now) found) }
{
    let Some(s) = located_at(alloc, graph, store, address)? else {
        return Ok(None);
    };
    let kind = kind_of(&graph.items, &s);
    Ok(Some(FoundValue {
        dynamic: s.dynamic,
        kind,
    }))
}

/// Whether what was found as a type is still found as it.
pub fn is_still(items: &Items, before: Dynamic, now: Dynamic) -> bool
    ensures { result ≡ is_still_as items.now (dynamic_of before) (dynamic_of now) }
{
    match before {
        Dynamic::OfType(id) => is_of_type(items, id, now),
        Dynamic::OfObject(_, impl_no) => match adt_of_impl(items, impl_no) {
            Some(adt) => adt_of_dynamic(items, now) == Some(adt),
            None => false,
        },
    }
}

/// Whether what is found is what is expected, if anything is.
pub fn is_expected(items: &Items, expected: Option<Dynamic>, now: Dynamic) -> bool
    ensures { result ≡ is_expected_as items.now (option_map dynamic_of expected) (dynamic_of now) }
{
    match expected {
        Some(before) => is_still(items, before, now),
        None => true,
    }
}

/// The `Drop` body that is still to run of a value found so.
pub fn own_drop(items: &Items, has_run: bool, dynamic: Dynamic) -> Option<OwnDrop>
    ensures { option_map pair_of result ≡ own_impl (stage_by has_run)
        (drop_impl items.now (concrete_ty items.now (dynamic_of dynamic))) }
{
    if has_run {
        return None;
    }
    let adt = adt_of_dynamic(items, dynamic)?;
    let body = drop_body_of(items, adt)?;
    Some(OwnDrop { adt, body })
}
