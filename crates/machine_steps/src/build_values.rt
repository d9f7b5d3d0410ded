//! Statements that compare, and that make values of structs and enums.
ghost use Rattle.std.specs.Prelude.{◌≡◌, Some, None, IfOk, slice_get};
ghost use Rattle.std.specs.Option.{option_map_or};
ghost use Rattle.cfg_meaning.specs.Actions.{site_of, operand_of, operands_of};
ghost use Rattle.machine_steps.specs.Steps.{DoesAction, compared_as, number_by_truth};
ghost use Rattle.machine_steps.specs.Worlds.{run_setting};
ghost use Rattle.store_model.specs.Concrete.Effects.{compared as compared_values};
ghost use Rattle.store_model.specs.Effects as actions;
ghost use Rattle.store_model.specs.Values.Datum.{datum_of};

use crate::actions::{aggregate_of, number_in, truth_in};
use crate::{Outcome, World};
use cfg_graph::{Operand, Place};
use mir_base::{Cmp, Event, NoMemory};
use mir_ty::Items;
use std::alloc::Global;
use store_model::Value;

/// How two numbers compare.
fn compare_numbers(operator: Cmp, left: i128, right: i128) -> bool
    ensures { result ≡ compared_as operator left right }
{
    match operator {
        Cmp::Eq => left == right,
        Cmp::Ne => left != right,
        Cmp::Lt => left < right,
        Cmp::Le => left <= right,
        Cmp::Gt => left > right,
        Cmp::Ge => left >= right,
    }
}

/// How two truth values compare, of which `false` is the less.
fn compare_truths(operator: Cmp, left: bool, right: bool) -> bool
    ensures { result ≡ compared_as operator (number_by_truth left) (number_by_truth right) }
{
    compare_numbers(operator, i128::from(left), i128::from(right))
}

/// How two values compare, which are two numbers or two truth values.
fn comparison(operator: Cmp, left: &Value, right: &Value) -> Option<bool>
    ensures { result ≡ compared_values operator (datum_of left.now) (datum_of right.now) }
{
    if let Some(left) = number_in(left) {
        let right = number_in(right)?;
        return Some(compare_numbers(operator, left, right));
    }
    let left = truth_in(left)?;
    let right = truth_in(right)?;
    Some(compare_truths(operator, left, right))
}

/// The `Drop` body of a struct or an enum, if it has one.
pub fn drop_body_of(items: &Items, adt: u32) -> Option<u32>
    ensures { result ≡ option_map_or (λ adt. adt.drop_body) (slice_get items.now.adts adt) None }
{
    match items.adt(adt) {
        Some(adt) => adt.drop_body,
        None => None,
    }
}

impl World<'_> {
    /// Stores how two values compare.
    pub fn compare(
        &mut self,
        alloc: Global,
        to: &Place,
        operator: Cmp,
        left: &Operand,
        right: &Operand,
    ) -> Result<Outcome, NoMemory>
        ensures run { run_setting self.new ≡ run_setting self.old }
        ensures does { IfOk result (λ outcome.
            DoesAction (actions.Compare (site_of 0 to.now) operator (operand_of 0 left.now) (operand_of 0 right.now))
            self.old outcome self.new) }
    {
        let Some(left) = self.evaluate(alloc, left)? else {
            return Ok(Outcome::Stuck);
        };
        let Some(right) = self.evaluate(alloc, right)? else {
            return Ok(Outcome::Stuck);
        };
        match comparison(operator, &left, &right) {
            Some(truth) => self.put(alloc, to, Value::Bool(truth)),
            None => Ok(Outcome::Stuck),
        }
    }

    /// Stores a value of a struct or of a variant of an enum, which has a serial number where its type has a `Drop`
    /// impl.
    pub fn make(
        &mut self,
        alloc: Global,
        to: &Place,
        adt: u32,
        variant: u32,
        parts: &[Operand],
    ) -> Result<Outcome, NoMemory>
        ensures run { run_setting self.new ≡ run_setting self.old }
        ensures does { IfOk result (λ outcome.
            DoesAction (actions.Build (site_of 0 to.now) (actions.OfVariant adt variant) (operands_of 0 parts.now))
            self.old outcome self.new) }
    {
        let Some(parts) = self.evaluate_all(alloc, parts)? else {
            return Ok(Outcome::Stuck);
        };
        if drop_body_of(&self.graph.items, adt).is_none() {
            return self.put(alloc, to, aggregate_of(variant, None, parts));
        }
        let serial = self.draw()?;
        let made = aggregate_of(variant, Some(serial), parts);
        self.put_and_tell(alloc, to, made, Event::Make { adt, serial })
    }
}
