//! Checked arithmetic.
ghost use Rattle.std.specs.Prelude.{◌≡◌, ℤ, ◌+ℤ◌, ◌-ℤ◌, ◌*ℤ◌, neg_ℤ, IfOk, MatchOption, option_map};
ghost use Rattle.std.specs.Int.RustNames.{FitsSigned};
ghost use Rattle.cfg_meaning.specs.Actions.{site_of, operand_of};
ghost use Rattle.mir_base.specs.declared.operator.Math.{Math as a_math};
ghost use Rattle.machine_steps.specs.Numbers.{computed_as, computation, negation, puts_if};
ghost use Rattle.machine_steps.specs.Steps.{Does, DoesAction};
ghost use Rattle.machine_steps.specs.Worlds.{run_setting};
ghost use Rattle.store_model.specs.Concrete.Effects as effects;
ghost use Rattle.store_model.specs.Effects as actions;
ghost use Rattle.store_model.specs.Values.Datum.{datum_of};

use crate::actions::number_in;
use crate::{Outcome, World};
use cfg_graph::{Operand, Place};
use mir_base::{self, IntKind, Math, NoMemory, Why};
use std::alloc::Global;
use store_model::Value;

/// What a checked operation gives.
#[derive(Clone, Copy)]
pub enum Computation {
    Gives(i128),
    PanicsBy(Why),
}

/// A number, if it is within an integer type.
fn within(kind: IntKind, number: i128) -> Computation
    ensures { computed_as result ≡ effects.if_within kind number }
{
    if mir_base::least(kind) <= number && number <= mir_base::greatest(kind) {
        return Computation::Gives(number);
    }
    Computation::PanicsBy(Why::Overflow)
}

fn add(kind: IntKind, left: i128, right: i128) -> Computation
    ensures { computed_as result ≡ effects.if_within kind (left +ℤ right) }
{
    match left.checked_add(right) {
        Some(number) => within(kind, number),
        None => Computation::PanicsBy(Why::Overflow),
    }
}

fn subtract(kind: IntKind, left: i128, right: i128) -> Computation
    ensures { computed_as result ≡ effects.if_within kind (left -ℤ right) }
{
    match left.checked_sub(right) {
        Some(number) => within(kind, number),
        None => Computation::PanicsBy(Why::Overflow),
    }
}

fn multiply(kind: IntKind, left: i128, right: i128) -> Computation
    ensures { computed_as result ≡ effects.if_within kind (left *ℤ right) }
{
    match left.checked_mul(right) {
        Some(number) => within(kind, number),
        None => Computation::PanicsBy(Why::Overflow),
    }
}

fn opposite(kind: IntKind, number: i128) -> Computation
    ensures { computed_as result ≡ effects.if_within kind (neg_ℤ number) }
{
    match number.checked_neg() {
        Some(number) => within(kind, number),
        None => Computation::PanicsBy(Why::Overflow),
    }
}

fn divide(kind: IntKind, left: i128, right: i128) -> Computation
    ensures { computed_as result ≡ effects.computed a_math.Div kind left right }
{
    if right == 0 {
        return Computation::PanicsBy(Why::Divide);
    }
    match left.checked_div(right) {
        Some(quotient) => within(kind, quotient),
        None => Computation::PanicsBy(Why::Overflow),
    }
}

/// The remainder overflows where its quotient does.
fn remainder(kind: IntKind, left: i128, right: i128) -> Computation
    ensures { computed_as result ≡ effects.computed a_math.Rem kind left right }
{
    match divide(kind, left, right) {
        Computation::Gives(_) => match left.checked_rem(right) {
            Some(number) => Computation::Gives(number),
            None => Computation::PanicsBy(Why::Overflow),
        },
        panics => panics,
    }
}

fn compute(operator: Math, kind: IntKind, left: i128, right: i128) -> Computation
    ensures { computed_as result ≡ effects.computed operator kind left right }
{
    match operator {
        Math::Add => add(kind, left, right),
        Math::Sub => subtract(kind, left, right),
        Math::Mul => multiply(kind, left, right),
        Math::Div => divide(kind, left, right),
        Math::Rem => remainder(kind, left, right),
    }
}

/// What an operation gives; `None` where it is none on numbers.
fn computation_of(
    operator: Math,
    kind: Option<IntKind>,
    left: &Value,
    right: &Value,
) -> Option<Computation>
    ensures { option_map computed_as result ≡ computation operator kind (datum_of left.now) (datum_of right.now) }
{
    let kind = kind?;
    let left = number_in(left)?;
    let right = number_in(right)?;
    Some(compute(operator, kind, left, right))
}

/// What negation gives; `None` where it is none of a number.
fn negation_of(kind: Option<IntKind>, value: &Value) -> Option<Computation>
    ensures { option_map computed_as result ≡ negation kind (datum_of value.now) }
{
    let kind = kind?;
    let number = number_in(value)?;
    Some(opposite(kind, number))
}

impl World<'_> {
    /// Stores what an operation gives, or panics by it; `None` has no step.
    fn put_computed(
        &mut self,
        alloc: Global,
        to: &Place,
        computed: Option<Computation>,
    ) -> Result<Outcome, NoMemory>
        ensures run { run_setting self.new ≡ run_setting self.old }
        ensures does { IfOk result (λ outcome. Does (puts_if (run_setting self.old) (site_of 0 to.now)
            (option_map computed_as computed)) self.old outcome self.new) }
    {
        match computed {
            Some(Computation::Gives(number)) => self.put(alloc, to, Value::Int(number)),
            Some(Computation::PanicsBy(why)) => {
                self.panic(why)?;
                Ok(Outcome::Panics)
            }
            None => Ok(Outcome::Stuck),
        }
    }

    /// Stores what a checked operation gives; panics where there is none.
    pub fn compute(
        &mut self,
        alloc: Global,
        to: &Place,
        operator: Math,
        left: &Operand,
        right: &Operand,
    ) -> Result<Outcome, NoMemory>
        ensures run { run_setting self.new ≡ run_setting self.old }
        ensures does { IfOk result (λ outcome. DoesAction (actions.Compute (site_of 0 to.now) operator (operand_of 0
            left.now) (operand_of 0 right.now)) self.old outcome self.new) }
    {
        let kind = self.kind_of(left);
        let Some(a) = self.evaluate(alloc, left)? else {
            return Ok(Outcome::Stuck);
        };
        let Some(b) = self.evaluate(alloc, right)? else {
            return Ok(Outcome::Stuck);
        };
        self.put_computed(alloc, to, computation_of(operator, kind, &a, &b))
    }

    /// Stores the opposite number; panics where the type has none such.
    pub fn negate(
        &mut self,
        alloc: Global,
        to: &Place,
        operand: &Operand,
    ) -> Result<Outcome, NoMemory>
        ensures run { run_setting self.new ≡ run_setting self.old }
        ensures does { IfOk result (λ outcome. DoesAction (actions.Negate (site_of 0 to.now) (operand_of 0
            operand.now)) self.old outcome self.new) }
    {
        let kind = self.kind_of(operand);
        let Some(value) = self.evaluate(alloc, operand)? else {
            return Ok(Outcome::Stuck);
        };
        self.put_computed(alloc, to, negation_of(kind, &value))
    }
}
