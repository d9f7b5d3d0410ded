//! What terminators do that neither call nor drop nor compute.
ghost use Rattle.std.specs.Prelude.{◌≡◌, IfOk, OnOk};
ghost use Rattle.cfg_meaning.specs.Actions.{site_of, operand_of};
ghost use Rattle.mir_base.specs.Trace.{Trace};
ghost use Rattle.machine_steps.specs.Steps.{Chooses, DoesAction};
ghost use Rattle.machine_steps.specs.Worlds.{state_of, run_setting};
ghost use Rattle.mir_base.specs.declared.trace.Event.{Event as an_event};
ghost use Rattle.store_model.specs.Concrete.State.{with_event};
ghost use Rattle.store_model.specs.Effects as actions;

use crate::actions::{number_in, truth_in};
use crate::{Outcome, ToldEvents, World};
use cfg_graph::{Operand, Place};
use machine_store::{Reached, reach};
use mir_base::{Event, NoMemory, Why};
use std::alloc::Global;
use store_model::Value;

impl World<'_> {
    /// Starts a panic: tells why.
    pub fn panic(&mut self, why: Why) -> Result<(), NoMemory>
        ensures run { run_setting self.new ≡ run_setting self.old }
        ensures told { OnOk result ((before : Trace) →
            state_of before self.new ≡ with_event (an_event.Panicked why) (state_of before self.old)) }
    {
        self.tell(ToldEvents::Event(Event::Panicked(why)))
    }

    /// Panics unless an index is below a length.
    pub fn bounds(
        &mut self,
        alloc: Global,
        index: &Operand,
        length: u32,
    ) -> Result<Outcome, NoMemory>
        ensures run { run_setting self.new ≡ run_setting self.old }
        ensures does { IfOk result (λ outcome.
            DoesAction (actions.Bounds (operand_of 0 index.now) length) self.old outcome self.new) }
    {
        let Some(value) = self.evaluate(alloc, index)? else {
            return Ok(Outcome::Stuck);
        };
        let Some(number) = number_in(&value) else {
            return Ok(Outcome::Stuck);
        };
        if number < i128::from(length) {
            return Ok(Outcome::Goes);
        }
        self.panic(Why::Index)?;
        Ok(Outcome::Panics)
    }

    /// Stores the next number that was to be asked; panics where there is none.
    pub fn ask(&mut self, alloc: Global, to: &Place) -> Result<Outcome, NoMemory>
        ensures run { run_setting self.new ≡ run_setting self.old }
        ensures does { IfOk result (λ outcome.
            DoesAction (actions.Ask (site_of 0 to.now)) self.old outcome self.new) }
    {
        let Some((number, rest)) = self.asks.split_first() else {
            self.panic(Why::Ask)?;
            return Ok(Outcome::Panics);
        };
        self.asks = rest;
        let asked = Value::Int(i128::from(*number));
        self.put_and_tell(alloc, to, asked, Event::Asked(*number))
    }

    /// Whether an operand is true; `None` where it is no truth value, and then there is no step.
    pub fn choose_truth(
        &mut self,
        alloc: Global,
        operand: &Operand,
    ) -> Result<Option<bool>, NoMemory>
        ensures run { run_setting self.new ≡ run_setting self.old }
        ensures chosen { IfOk result (λ choice.
            Chooses (actions.IsTrue (operand_of 0 operand.now)) self.old choice self.new) }
    {
        match self.evaluate(alloc, operand)? {
            Some(value) => Ok(truth_in(&value)),
            None => Ok(None),
        }
    }

    /// Whether the value of an enum has a variant; `None` where no such value stands there, and then there is no step.
    pub fn choose_variant(
        &self,
        alloc: Global,
        on: &Place,
        variant: u32,
    ) -> Result<Option<bool>, NoMemory>
        ensures chosen { IfOk result (λ choice.
            Chooses (actions.HasVariant (site_of 0 on.now) variant) self.now choice self.now) }
    {
        let Reached::Reaches(s) = reach(alloc, self.graph, &self.store, on)? else {
            return Ok(None);
        };
        match s.value {
            Some(
                Value::Parts {
                    variant: active,
                    ..
                },
            ) => Ok(Some(*active == variant)),
            _ => Ok(None),
        }
    }
}
