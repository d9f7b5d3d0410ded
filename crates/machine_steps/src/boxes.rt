//! Boxes as trait objects, what is freed, and what is forgotten.
ghost use Rattle.std.specs.Prelude.{◌≡◌, ◌&&◌, [], IfOk, OnOk, IfSome, true, option_map, option_and_then};
ghost use Rattle.std.specs.List.{list_all};
ghost use Rattle.std.specs.Option.{option_map_or};
ghost use Rattle.mir_base.specs.Trace.{Trace};
ghost use Rattle.cfg_meaning.specs.Actions.{site_of, operand_of};
ghost use Rattle.cfg_meaning.specs.Programs.{setting_of};
ghost use Rattle.machine_steps.specs.Boxes.{with_row, with_lines, freed_serial, is_numberless, place_found, operand_found};
ghost use Rattle.machine_steps.specs.Steps.{DoesAction};
ghost use Rattle.machine_steps.specs.Typed.{adt_in_box};
ghost use Rattle.machine_steps.specs.Worlds.{state_of, run_setting};
ghost use Rattle.machine_store.specs.Activations.{activations_of};
ghost use Rattle.machine_store.specs.Standing.{dynamic_of, standing, with_activations};
ghost use Rattle.store_model.specs.Concrete.Effects.{forgotten, impl_of};
ghost use Rattle.store_model.specs.Effects as actions;
ghost use Rattle.store_model.specs.Values.Datum.{datum_of};
ghost use Rattle.store_model.specs.Values.Wholeness.{IsWhole};

use crate::{Outcome, ToldEvents, World, tell_forgotten};
use cfg_graph::{Operand, Place};
use machine_store::{Dynamic, Reached, reach, whole_at};
use mir_base::{Event, List, NoMemory};
use mir_ty::Items;
use std::alloc::Global;
use store_model::{Addr, Value};

/// The number of the impl of a trait for a struct or an enum.
fn impl_number(items: &Items, trait_no: u32, adt: u32) -> Option<u32>
    ensures { result ≡ impl_of items.now trait_no adt }
{
    for n in 0..u32::MAX {
        match items.impl_def(n) {
            Some(of) => {
                if of.trait_no == trait_no && of.adt == adt {
                    return Some(n);
                }
            }
            None => return None,
        }
    }
    unreachable!()
}

/// A box as one of a trait object with the row of this impl.
fn with_impl(impl_no: u32, mut value: Value) -> Option<Value>
    requires { IsWhole (datum_of value) }
    ensures value { option_map datum_of result ≡ with_row impl_no (datum_of value) }
    ensures whole { IfSome result (λ boxed. IsWhole (datum_of boxed)) }
{
    let Value::Boxed { impl_no: row, .. } = &mut value else {
        return None;
    };
    *row = Some(impl_no);
    Some(value)
}

/// Looks at one value: whether it has no number of its own, and then its parts are added to what is to be looked at.
fn look_at<'a>(work: &mut List<&'a Value>, value: &'a Value) -> Result<bool, NoMemory>
    ensures { IfOk result (λ clear. (list_all (λ value. is_numberless (datum_of value.now)) work.old
        && is_numberless (datum_of value.now)) ≡ (clear && list_all (λ value. is_numberless (datum_of value.now)) work.new)) }
{
    match value {
        Value::Boxed { .. } => Ok(false),
        Value::Parts { serial, parts, .. } => {
            if serial.is_some() {
                return Ok(false);
            }
            add_all(work, parts.as_slice())?;
            Ok(true)
        }
        _ => Ok(true),
    }
}

/// Whether no box and no numbered value stands in a value. What is still to be looked at is a list.
fn holds_no_number(alloc: Global, value: &Value) -> Result<bool, NoMemory>
    ensures { IfOk result (λ holds. holds ≡ is_numberless (datum_of value.now)) }
{
    let mut work = List::new(alloc);
    work.push(value)?;
    for _turn in 0..u64::MAX {
        let Some(next) = work.pop() else {
            return Ok(true);
        };
        if !look_at(&mut work, next)? {
            return Ok(false);
        }
    }
    Err(NoMemory::cannot_be())
}

fn add_all<'a>(work: &mut List<&'a Value>, parts: &'a [Value]) -> Result<(), NoMemory>
    ensures { OnOk result (list_all (λ value. is_numberless (datum_of value.now)) work.new ≡
        list_all (λ value. is_numberless (datum_of value.now)) work.old && list_all (λ part. is_numberless (datum_of part)) parts.now) }
{
    for part in parts {
        work.push(part)?;
    }
    Ok(())
}

/// The serial number of a box that may be freed: in its content no numbered value stands.
fn serial_to_free(alloc: Global, value: Option<&Value>) -> Result<Option<u64>, NoMemory>
    ensures { IfOk result (λ serial. serial ≡ freed_serial (standing value.entry)) }
{
    let Some(Value::Boxed { serial, inside, .. }) = value else {
        return Ok(None);
    };
    if holds_no_number(alloc, inside)? {
        return Ok(Some(*serial));
    }
    Ok(None)
}

impl World<'_> {
    /// The impl by which the box that an operand is becomes one of a trait object.
    fn impl_for(&self, trait_no: u32, operand: &Operand) -> Result<Option<u32>, NoMemory>
        ensures { IfOk result (λ found. found ≡ option_and_then (impl_of self.now.graph.now.items trait_no)
            (adt_in_box (run_setting self.now) (state_of [] self.now) operand.now)) }
    {
        match self.adt_in_box(operand) {
            Some(adt) => Ok(impl_number(&self.graph.items, trait_no, adt)),
            None => Ok(None),
        }
    }

    /// Stores a box as one of a trait object.
    pub fn unsize(
        &mut self,
        alloc: Global,
        to: &Place,
        trait_no: u32,
        from: &Operand,
    ) -> Result<Outcome, NoMemory>
        ensures run { run_setting self.new ≡ run_setting self.old }
        ensures does { IfOk result (λ outcome. DoesAction (actions.Unsize (site_of 0 to.now) trait_no (operand_of 0
            from.now)) self.old outcome self.new) }
    {
        let impl_no = self.impl_for(trait_no, from)?;
        let Some(value) = self.evaluate(alloc, from)? else {
            return Ok(Outcome::Stuck);
        };
        let Some(impl_no) = impl_no else {
            return Ok(Outcome::Stuck);
        };
        match with_impl(impl_no, value) {
            Some(boxed) => self.put(alloc, to, boxed),
            None => Ok(Outcome::Stuck),
        }
    }

    /// Frees a box in whose content no numbered value stands.
    pub fn free(&mut self, alloc: Global, place: &Place) -> Result<Outcome, NoMemory>
        ensures run { run_setting self.new ≡ run_setting self.old }
        ensures does { IfOk result (λ outcome. DoesAction (actions.Free (site_of 0 place.now)) self.old outcome self.new) }
    {
        let Reached::Reaches(s) = reach(alloc, self.graph, &self.store, place)? else {
            return Ok(Outcome::Stuck);
        };
        let Some(serial) = serial_to_free(alloc, s.value)? else {
            return Ok(Outcome::Stuck);
        };
        let Addr { depth, key, path } = s.address;
        let freed = self
            .store
            .take(alloc, depth as usize, key.0, path.as_slice())?;
        drop(freed);
        drop(path);
        self.tell(ToldEvents::Event(Event::Freed(serial)))?;
        Ok(Outcome::Goes)
    }

    /// As what the whole value of a place is found.
    fn found_at(&self, alloc: Global, place: &Place) -> Result<Option<Dynamic>, NoMemory>
        ensures { IfOk result (λ found. option_map dynamic_of found ≡ place_found (setting_of true self.now.graph.now)
            (with_activations (activations_of self.now.store)) place.now) }
    {
        match whole_at(alloc, self.graph, &self.store, place)? {
            Some(s) => Ok(Some(s.dynamic)),
            None => Ok(None),
        }
    }

    /// As what the value of an operand is found, where it is that of a place.
    fn found_of(&self, alloc: Global, operand: &Operand) -> Result<Option<Dynamic>, NoMemory>
        ensures { IfOk result (λ found. option_map dynamic_of found ≡ operand_found (setting_of true self.now.graph.now)
            (with_activations (activations_of self.now.store)) operand.now) }
    {
        match operand {
            Operand::Copied(place) | Operand::Moved(place) => self.found_at(alloc, place),
            Operand::Number(_, _) | Operand::Truth(_) | Operand::Unit => Ok(None),
        }
    }

    /// Tells of each numbered part of a value, as what it was found.
    fn tell_found(
        &mut self,
        alloc: Global,
        value: &Value,
        found: Option<Dynamic>,
    ) -> Result<(), NoMemory>
        ensures run { run_setting self.new ≡ run_setting self.old }
        ensures told { OnOk result ((before : Trace) → state_of before self.new ≡ with_lines
            (option_map_or (forgotten self.old.graph.now.items (datum_of value.now)) (option_map dynamic_of found) [])
            (state_of before self.old)) }
    {
        match found {
            Some(dynamic) => tell_forgotten(
                alloc,
                &self.graph.items,
                &mut self.told,
                value,
                dynamic,
            ),
            None => Ok(()),
        }
    }

    /// Forgets a value: it tells of each numbered part.
    pub fn forget(&mut self, alloc: Global, operand: &Operand) -> Result<Outcome, NoMemory>
        ensures run { run_setting self.new ≡ run_setting self.old }
        ensures does { IfOk result (λ outcome. DoesAction (actions.Forget (operand_of 0 operand.now)) self.old outcome
            self.new) }
    {
        let found = self.found_of(alloc, operand)?;
        let Some(value) = self.evaluate(alloc, operand)? else {
            return Ok(Outcome::Stuck);
        };
        self.tell_found(alloc, &value, found)?;
        Ok(Outcome::Goes)
    }
}
