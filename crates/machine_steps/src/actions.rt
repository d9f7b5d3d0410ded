ghost use Rattle.std.specs.Prelude.{◌≡◌, All, IfOk, OnOk, Some, None, map};
ghost use Rattle.cfg_meaning.specs.Actions.{site_of, operand_of, operands_of};
ghost use Rattle.machine_steps.specs.Steps.{Does, DoesAction, truth_of, stored_and_told};
ghost use Rattle.mir_base.specs.Trace.{Trace};
ghost use Rattle.machine_store.specs.Standing.{number_of};
ghost use Rattle.machine_steps.specs.Worlds.{state_of, run_setting, event_of};
ghost use Rattle.store_model.specs.Concrete.State.{with_event, numbered_next};
ghost use Rattle.store_model.specs.Concrete.Effects as effects;
ghost use Rattle.store_model.specs.Effects as actions;
ghost use Rattle.store_model.specs.Values.Datum.{Aggregate, Box as a_box, data_from, datum_of};
ghost use Rattle.store_model.specs.Values.Wholeness.{IsWhole};

use crate::{ToldEvents, World};
use cfg_graph::{Operand, Place};
use machine_store::{Reached, reach, whole_at};
use mir_base::{Event, List, NoMemory};
use std::alloc::Global;
use store_model::{Addr, Value};

/// How one step of a run ends.
#[derive(Clone, Copy)]
pub enum Outcome {
    /// It goes on.
    Goes,
    /// A panic unwinds from it.
    Panics,
    /// There is no step.
    Stuck,
}

impl World<'_> {
    /// Stores a whole value at a place, whatever stood there. It is stuck where there is no such place.
    pub fn put(&mut self, alloc: Global, to: &Place, value: Value) -> Result<Outcome, NoMemory>
        requires { IsWhole (datum_of value) }
        ensures run { run_setting self.new ≡ run_setting self.old }
        ensures does { IfOk result (λ outcome.
            Does (effects.put (run_setting self.old) (site_of 0 to.now) (datum_of value)) self.old outcome self.new) }
    {
        let Reached::Reaches(s) = reach(alloc, self.graph, &self.store, to)? else {
            return Ok(Outcome::Stuck);
        };
        let Addr { depth, key, path } = s.address;
        self.store
            .put(alloc, depth as usize, key.0, path.as_slice(), value)?;
        Ok(Outcome::Goes)
    }

    /// Stores what an operand gives.
    pub fn assign(&mut self, alloc: Global, to: &Place, from: &Operand) -> Result<Outcome, NoMemory>
        ensures run { run_setting self.new ≡ run_setting self.old }
        ensures does { IfOk result (λ outcome.
            DoesAction (actions.Put (site_of 0 to.now) (operand_of 0 from.now)) self.old outcome self.new) }
    {
        match self.evaluate(alloc, from)? {
            Some(value) => self.put(alloc, to, value),
            None => Ok(Outcome::Stuck),
        }
    }

    /// Stores the aggregate of what operands give: a tuple, an array or a closure value.
    pub fn aggregate(
        &mut self,
        alloc: Global,
        to: &Place,
        parts: &[Operand],
    ) -> Result<Outcome, NoMemory>
        ensures run { run_setting self.new ≡ run_setting self.old }
        ensures does { IfOk result (λ outcome.
            DoesAction (actions.Build (site_of 0 to.now) actions.OfTuple
            (operands_of 0 parts.now)) self.old outcome self.new) }
    {
        match self.evaluate_all(alloc, parts)? {
            Some(parts) => self.put(alloc, to, aggregate_of(0, None, parts)),
            None => Ok(Outcome::Stuck),
        }
    }

    /// Stores the other truth value.
    pub fn negate_truth(
        &mut self,
        alloc: Global,
        to: &Place,
        operand: &Operand,
    ) -> Result<Outcome, NoMemory>
        ensures run { run_setting self.new ≡ run_setting self.old }
        ensures does { IfOk result (λ outcome.
            DoesAction (actions.Not (site_of 0 to.now) (operand_of 0 operand.now)) self.old outcome self.new) }
    {
        let Some(value) = self.evaluate(alloc, operand)? else {
            return Ok(Outcome::Stuck);
        };
        match truth_in(&value) {
            Some(truth) => self.put(alloc, to, Value::Bool(!truth)),
            None => Ok(Outcome::Stuck),
        }
    }

    /// Reads the whole value of a place, without effect.
    pub fn touch(&self, alloc: Global, place: &Place) -> Result<Outcome, NoMemory>
        ensures { IfOk result (λ outcome.
            DoesAction (actions.Touch (site_of 0 place.now)) self.now outcome self.now) }
    {
        match whole_at(alloc, self.graph, &self.store, place)? {
            Some(_) => Ok(Outcome::Goes),
            None => Ok(Outcome::Stuck),
        }
    }

    /// Stores a reference to a place; `unique` where it is `&mut`, which makes no difference to a run.
    pub fn borrow(
        &mut self,
        alloc: Global,
        to: &Place,
        unique: bool,
        of: &Place,
    ) -> Result<Outcome, NoMemory>
        ensures run { run_setting self.new ≡ run_setting self.old }
        ensures does { IfOk result (λ outcome.
            DoesAction (actions.Borrow (site_of 0 to.now) unique (site_of 0 of.now)) self.old outcome self.new) }
    {
        let _ = unique;
        let Some(s) = whole_at(alloc, self.graph, &self.store, of)? else {
            return Ok(Outcome::Stuck);
        };
        let address = s.address;
        self.put(alloc, to, Value::Address(address))
    }

    /// Tells of an event.
    pub fn tell(&mut self, event: ToldEvents) -> Result<(), NoMemory>
        ensures run { run_setting self.new ≡ run_setting self.old }
        ensures told { OnOk result ((before : Trace) →
            state_of before self.new ≡ with_event (event_of event) (state_of before self.old)) }
    {
        self.told.push(event)
    }

    /// Prints a number.
    pub fn print(&mut self, alloc: Global, operand: &Operand) -> Result<Outcome, NoMemory>
        ensures run { run_setting self.new ≡ run_setting self.old }
        ensures does { IfOk result (λ outcome.
            DoesAction (actions.Print (operand_of 0 operand.now)) self.old outcome self.new) }
    {
        let Some(value) = self.evaluate(alloc, operand)? else {
            return Ok(Outcome::Stuck);
        };
        let Some(number) = number_in(&value) else {
            return Ok(Outcome::Stuck);
        };
        self.tell(ToldEvents::Printed(number))?;
        Ok(Outcome::Goes)
    }

    /// Draws the next serial number.
    pub fn draw(&mut self) -> Result<u64, NoMemory>
        ensures run { run_setting self.new ≡ run_setting self.old }
        ensures drawn { IfOk result (λ serial. serial ≡ self.old.serial) }
        ensures next { OnOk result ((before : Trace) →
            state_of before self.new ≡ numbered_next (state_of before self.old)) }
    {
        let serial = self.serial;
        match serial.checked_add(1) {
            Some(next) => {
                self.serial = next;
                Ok(serial)
            }
            None => Err(NoMemory::past_32_bits()),
        }
    }

    /// Stores a whole value at a place, and then tells of it.
    pub fn put_and_tell(
        &mut self,
        alloc: Global,
        to: &Place,
        value: Value,
        event: Event,
    ) -> Result<Outcome, NoMemory>
        requires { IsWhole (datum_of value) }
        ensures run { run_setting self.new ≡ run_setting self.old }
        ensures does { IfOk result (λ outcome.
            Does (stored_and_told (run_setting self.old) (site_of 0 to.now) (datum_of value) event) self.old outcome
            self.new) }
    {
        match self.put(alloc, to, value)? {
            Outcome::Goes => {
                self.tell(ToldEvents::Event(event))?;
                Ok(Outcome::Goes)
            }
            other => Ok(other),
        }
    }

    /// Stores a new box around what an operand gives.
    pub fn new_box(
        &mut self,
        alloc: Global,
        to: &Place,
        content: &Operand,
    ) -> Result<Outcome, NoMemory>
        ensures run { run_setting self.new ≡ run_setting self.old }
        ensures does { IfOk result (λ outcome.
            DoesAction (actions.NewBox (site_of 0 to.now) (operand_of 0 content.now)) self.old outcome self.new) }
    {
        let Some(value) = self.evaluate(alloc, content)? else {
            return Ok(Outcome::Stuck);
        };
        let serial = self.draw()?;
        let boxed = box_of(alloc, serial, value)?;
        self.put_and_tell(alloc, to, boxed, Event::Boxed(serial))
    }
}

/// A box around a whole value.
fn box_of(alloc: Global, serial: u64, content: Value) -> Result<Value, NoMemory>
    requires { IsWhole (datum_of content) }
    ensures value { IfOk result (λ boxed. datum_of boxed ≡ a_box serial None (datum_of content)) }
    ensures whole { IfOk result (λ boxed. IsWhole (datum_of boxed)) }
{
    Ok(Value::Boxed {
        serial,
        impl_no: None,
        inside: Box::new(alloc, content)?,
    })
}

/// The number that a value is.
pub fn number_in(value: &Value) -> Option<i128>
    ensures { result ≡ number_of (datum_of value.now) }
{
    match value {
        Value::Int(number) => Some(*number),
        _ => None,
    }
}

/// The truth value that a value is.
pub fn truth_in(value: &Value) -> Option<bool>
    ensures { result ≡ truth_of (datum_of value.now) }
{
    match value {
        Value::Bool(truth) => Some(*truth),
        _ => None,
    }
}

/// The aggregate of these parts.
pub fn aggregate_of(variant: u32, serial: Option<u64>, parts: List<Value>) -> Value
    requires { All (λ part. IsWhole (datum_of part)) parts }
    ensures value { datum_of result ≡ Aggregate variant serial (data_from (map datum_of parts)) }
    ensures whole { IsWhole (datum_of result) }
{
    Value::Parts {
        variant,
        serial,
        parts,
    }
}
