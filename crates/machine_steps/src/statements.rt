//! Whole statements, and the actions of terminators: none goes on that stores into a place of the type `!`.
ghost use Rattle.std.specs.Prelude.{◌≡◌, [], false, IfOk, option_map};
ghost use Rattle.std.specs.Option.{option_map_or};
ghost use Rattle.cfg_meaning.specs.Actions.{site_of, operand_of, action_of};
ghost use Rattle.machine_steps.specs.Acting.{DoesAct, stopped, place_stored};
ghost use Rattle.machine_steps.specs.Steps.{DoesAction};
ghost use Rattle.machine_steps.specs.Worlds.{state_of, run_setting};
ghost use Rattle.store_model.specs.Concrete.Effects.{never_at};
ghost use Rattle.store_model.specs.Effects as actions;

use crate::{Outcome, World};
use cfg_graph::{Operand, Place, Stmt};
use mir_base::{Math, NoMemory};
use std::alloc::Global;

/// The place into which a statement stores, if it stores.
fn stored_by(stmt: &Stmt) -> Option<&Place>
    ensures { option_map (λ place. place.now) result ≡ place_stored stmt.now }
{
    match stmt {
        Stmt::Put(to, _)
        | Stmt::Compare(to, _, _, _)
        | Stmt::Not(to, _)
        | Stmt::Tuple(to, _)
        | Stmt::Array(to, _)
        | Stmt::Make { to, .. }
        | Stmt::Close { to, .. }
        | Stmt::NewBox(to, _)
        | Stmt::Unsize { to, .. }
        | Stmt::Borrow { to, .. } => Some(to),
        Stmt::Touch(_) | Stmt::Print(_) | Stmt::Forget(_) | Stmt::Free(_) => None,
    }
}

/// What would go on stops where it has stored into a place of the type `!`.
pub fn stop_if(never: bool, outcome: Outcome) -> Outcome
    ensures { result ≡ stopped never outcome }
{
    match outcome {
        Outcome::Goes if never => Outcome::Stuck,
        other => other,
    }
}

impl World<'_> {
    /// Whether a statement stores into a place of the type `!`.
    fn stores_never(&self, stmt: &Stmt) -> bool
        ensures { result ≡ option_map_or (λ place. never_at (run_setting self.now) (state_of [] self.now) (site_of 0
            place)) (place_stored stmt.now) false }
    {
        match stored_by(stmt) {
            Some(to) => self.is_never(to),
            None => false,
        }
    }

    /// Does what a statement does whose place is of any type.
    fn perform(&mut self, alloc: Global, stmt: &Stmt) -> Result<Outcome, NoMemory>
        ensures run { run_setting self.new ≡ run_setting self.old }
        ensures does { IfOk result (λ outcome. DoesAction (action_of 0 stmt.now) self.old outcome self.new) }
    {
        match stmt {
            Stmt::Put(to, from) => self.assign(alloc, to, from),
            Stmt::Compare(to, operator, left, right) => {
                self.compare(alloc, to, *operator, left, right)
            }
            Stmt::Not(to, operand) => self.negate_truth(alloc, to, operand),
            Stmt::Tuple(to, parts) => self.aggregate(alloc, to, parts.as_slice()),
            Stmt::Array(to, parts) => self.aggregate(alloc, to, parts.as_slice()),
            Stmt::Make {
                to,
                adt,
                variant,
                parts,
            } => self.make(alloc, to, *adt, *variant, parts.as_slice()),
            Stmt::Close { to, parts, .. } => self.aggregate(alloc, to, parts.as_slice()),
            Stmt::NewBox(to, content) => self.new_box(alloc, to, content),
            Stmt::Unsize { to, trait_no, from } => self.unsize(alloc, to, *trait_no, from),
            Stmt::Borrow { to, unique, of } => self.borrow(alloc, to, *unique, of),
            Stmt::Touch(place) => self.touch(alloc, place),
            Stmt::Print(operand) => self.print(alloc, operand),
            Stmt::Forget(operand) => self.forget(alloc, operand),
            Stmt::Free(place) => self.free(alloc, place),
        }
    }

    /// Does what a statement does. There is no step where it would store into a place of the type `!`, of which there
    /// is no value.
    pub fn statement(&mut self, alloc: Global, stmt: &Stmt) -> Result<Outcome, NoMemory>
        ensures run { run_setting self.new ≡ run_setting self.old }
        ensures does { IfOk result (λ outcome. DoesAct (action_of 0 stmt.now) self.old outcome self.new) }
    {
        let never = self.stores_never(stmt);
        let outcome = self.perform(alloc, stmt)?;
        Ok(stop_if(never, outcome))
    }

    /// Stores what a checked operation gives; panics where there is none.
    pub fn math(
        &mut self,
        alloc: Global,
        to: &Place,
        operator: Math,
        left: &Operand,
        right: &Operand,
    ) -> Result<Outcome, NoMemory>
        ensures run { run_setting self.new ≡ run_setting self.old }
        ensures does { IfOk result (λ outcome. DoesAct (actions.Compute (site_of 0 to.now) operator (operand_of 0
            left.now) (operand_of 0 right.now)) self.old outcome self.new) }
    {
        let never = self.is_never(to);
        let outcome = self.compute(alloc, to, operator, left, right)?;
        Ok(stop_if(never, outcome))
    }

    /// Stores the opposite number; panics where the type has none such.
    pub fn opposite(&mut self, alloc: Global, to: &Place, of: &Operand) -> Result<Outcome, NoMemory>
        ensures run { run_setting self.new ≡ run_setting self.old }
        ensures does { IfOk result (λ outcome. DoesAct (actions.Negate (site_of 0 to.now) (operand_of 0 of.now))
            self.old outcome self.new) }
    {
        let never = self.is_never(to);
        let outcome = self.negate(alloc, to, of)?;
        Ok(stop_if(never, outcome))
    }

    /// Stores the next number that was to be asked; panics where there is none.
    pub fn answer(&mut self, alloc: Global, to: &Place) -> Result<Outcome, NoMemory>
        ensures run { run_setting self.new ≡ run_setting self.old }
        ensures does { IfOk result (λ outcome. DoesAct (actions.Ask (site_of 0 to.now)) self.old outcome self.new) }
    {
        let never = self.is_never(to);
        let outcome = self.ask(alloc, to)?;
        Ok(stop_if(never, outcome))
    }

    /// Panics unless an index is below a length.
    pub fn check_index(
        &mut self,
        alloc: Global,
        index: &Operand,
        length: u32,
    ) -> Result<Outcome, NoMemory>
        ensures run { run_setting self.new ≡ run_setting self.old }
        ensures does { IfOk result (λ outcome. DoesAct (actions.Bounds (operand_of 0 index.now) length) self.old
            outcome self.new) }
    {
        self.bounds(alloc, index, length)
    }
}
