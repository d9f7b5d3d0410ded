//! What a check may do: the steps of the rules of typing on a checker.
ghost use Rattle.std.specs.Prelude.{◌≡◌, ◌∷◌, [], IfErr, IfOk, OnOk, true};
ghost use Rattle.mir_base.specs.declared.rule.RuleError.{RuleError};
ghost use Rattle.mir_ty.specs.AreItems.{AreTypes, IsTy};
ghost use Rattle.typeck_env.specs.Walked.{node_no};
ghost use Rattle.typeck_checker.specs.Stand.{GivesValue, ChangesNothing, state};
ghost use Rattle.typing_rules.specs.Check as steps;

use crate::checker::Checker;
use mir_base::{NodeId, RuleError};
use mir_ty::{Items, Ty, TyId};

fn are_known(items: &Items, ids: &[TyId]) -> bool
    ensures { result ≡ true → AreTypes items.now.types ids.now }
{
    ids.iter().all(|id| items.ty(*id).is_some())
}

/// Whether the types that a type names are in the table.
fn is_known(items: &Items, ty: &Ty) -> bool
    ensures { result ≡ true → IsTy items.now.types ty.now }
{
    match ty {
        Ty::Tuple(parts) => !parts.is_empty() && are_known(items, parts.as_slice()),
        Ty::Array(inside, _) | Ty::Boxed(inside) | Ty::Shared(inside) | Ty::Unique(inside) => {
            items.ty(*inside).is_some()
        }
        _ => true,
    }
}

impl Checker {
    /// The next number of a node.
    pub fn number(&mut self) -> Result<NodeId, RuleError>
        ensures number { GivesValue node_no (steps.number (state self.old)) result self.new }
        ensures same { ChangesNothing self.old self.new }
    {
        self.walk.number()
    }

    /// The number of a type, which gets the next one where it has none. What is named by no type that is known is
    /// answered as want of memory.
    pub fn intern(&mut self, ty: Ty) -> Result<TyId, RuleError>
        ensures number { GivesValue (λ id. id) (steps.interned ty (state self.old)) result self.new }
        ensures same { ChangesNothing self.old self.new }
    {
        if !is_known(&self.walk.items, &ty) {
            return Err(RuleError::cannot_be());
        }
        self.walk.intern(ty)
    }

    /// A `break` out of a loop, with a value of this type.
    pub fn breaks_out(&mut self, from: NodeId, ty: TyId) -> Result<(), RuleError>
        ensures added { GivesValue (λ u. u) (steps.breaks_out from.0 ty (state self.old)) result self.new }
        ensures same { ChangesNothing self.old self.new }
    {
        self.walk.breaks_out(from, ty)
    }
}
