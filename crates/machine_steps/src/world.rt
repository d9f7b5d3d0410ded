ghost use Rattle.std.specs.Prelude.{◌≡◌, ◌++◌, ◌∷◌, [], IfOk, OnOk, MatchOption, Some, None, option_map};
ghost use Rattle.cfg_meaning.specs.Actions.{operand_of, operands_of};
ghost use Rattle.mir_base.specs.Trace.{Trace};
ghost use Rattle.machine_steps.specs.Worlds.{state_of, run_setting, copied_at, moved_at, Evaluates, EvaluatesAll};
ghost use Rattle.store_model.specs.Concrete.Effects.{evaluate_operand};
ghost use Rattle.store_model.specs.Values.Datum.{datum_of};
ghost use Rattle.store_model.specs.Values.Wholeness.{IsWhole};

use crate::ToldEvents;
use cfg_graph::{Graph, Operand, Place};
use machine_store::{Store, whole_at};
use mir_base::{List, NoMemory};
use std::alloc::Global;
use store_model::{Addr, Value};

/// What a run has at hand: the graph, the numbers that are still to be asked, the ticks that are left, the next serial
/// number, what the locals hold, and the events that were not handed on yet.
#[derive(Drop)]
pub struct World<'a> {
    pub graph: &'a Graph,
    /// Whether a value must be whole to be dropped.
    pub strict: bool,
    pub asks: &'a [i32],
    pub ticks: u64,
    pub serial: u64,
    pub store: Store,
    pub told: List<ToldEvents>,
}

impl<'a> World<'a> {
    /// The value of a place, which stays there; `None` where it is not whole.
    fn copy_from(&self, alloc: Global, place: &Place) -> Result<Option<Value>, NoMemory>
        ensures { IfOk result (λ taken. (before : Trace) → MatchOption taken (evaluate_operand (run_setting self.now)
            (copied_at place.now) (state_of before self.now) ≡ None)
            (λ value. IsWhole (datum_of value) × (evaluate_operand (run_setting self.now) (copied_at place.now)
            (state_of before self.now) ≡ Some (datum_of value, state_of before self.now)))) }
    {
        let Some(s) = whole_at(alloc, self.graph, &self.store, place)? else {
            return Ok(None);
        };
        match s.value {
            Some(value) => Ok(Some(value.copy(alloc)?)),
            None => Ok(None),
        }
    }

    /// The value of a place, which is gone then; `None` where it is not whole, and then nothing changes.
    fn move_from(&mut self, alloc: Global, place: &Place) -> Result<Option<Value>, NoMemory>
        ensures run { run_setting self.new ≡ run_setting self.old }
        ensures taken { IfOk result (λ taken. (before : Trace) → MatchOption taken
            ((evaluate_operand (run_setting self.old) (moved_at place.now) (state_of before self.old) ≡
            None) × (state_of before self.new ≡ state_of before self.old))
            (λ value. IsWhole (datum_of value) × (evaluate_operand (run_setting self.old) (moved_at place.now)
            (state_of before self.old) ≡ Some (datum_of value, state_of before self.new)))) }
    {
        let Some(s) = whole_at(alloc, self.graph, &self.store, place)? else {
            return Ok(None);
        };
        let Addr { depth, key, path } = s.address;
        self.store
            .take(alloc, depth as usize, key.0, path.as_slice())
    }

    /// What an operand gives; `None` where its place is not whole, and then nothing changes. A place that is moved is
    /// gone then.
    pub fn evaluate(&mut self, alloc: Global, operand: &Operand) -> Result<Option<Value>, NoMemory>
        ensures run { run_setting self.new ≡ run_setting self.old }
        ensures taken { IfOk result (λ taken. (before : Trace) →
            Evaluates (run_setting self.old) operand.now (state_of before self.old) taken (state_of before self.new)) }
    {
        match operand {
            Operand::Copied(place) => self.copy_from(alloc, place),
            Operand::Moved(place) => self.move_from(alloc, place),
            Operand::Number(number, _) => Ok(Some(Value::Int(*number))),
            Operand::Truth(truth) => Ok(Some(Value::Bool(*truth))),
            Operand::Unit => Ok(Some(Value::Unit)),
        }
    }

    /// What operands give, from left to right; `None` where a place is not whole, and then those before it were taken.
    pub fn evaluate_all(
        &mut self,
        alloc: Global,
        operands: &[Operand],
    ) -> Result<Option<List<Value>>, NoMemory>
        ensures run { run_setting self.new ≡ run_setting self.old }
        ensures taken { IfOk result (λ taken. (before : Trace) →
            EvaluatesAll (run_setting self.old) operands.now (state_of before self.old) taken (state_of before
            self.new)) }
    {
        let mut values = List::new(alloc);
        for operand in operands {
            match self.evaluate(alloc, operand)? {
                Some(value) => values.push(value)?,
                None => return Ok(None),
            }
        }
        Ok(Some(values))
    }
}
