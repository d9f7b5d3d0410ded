//! How far the walk over a text has come. Each call answers what a step of the rules of typing gives from there, and
//! leaves the walk where the step does.
ghost use Rattle.std.specs.Prelude.{◌≡◌};
ghost use Rattle.mir_ty.specs.AreItems.{IsTy};
ghost use Rattle.typeck_env.specs.Walked.{Gives, HasOnlyTypes, node_no, state_of};
ghost use Rattle.typing_rules.specs.Check as steps;

use mir_base::{List, NoMemory, NodeId, RuleError};
use mir_ty::{Items, Ty, TyId, UNIT};
use std::alloc::Global;
use typed_tree::{Node, TBody, Typed, discard_nodes};

/// A `break` out of a loop, with the type of its value.
#[derive(Clone, Copy, Drop)]
pub struct BreakOut {
    pub from: NodeId,
    pub ty: TyId,
}

/// How far a walk has come: the items so far; the next number of a node in the body, and of a body; the breaks of the
/// body; the bodies that are whole. Typed nodes that the node around them has not taken yet stand in `made`.
pub struct Walk {
    pub items: Items,
    pub next_node: u32,
    pub next_body: u32,
    pub breaks: List<BreakOut>,
    pub bodies: List<TBody>,
    pub made: List<Node>,
}

/// As a derived one; but written here, it is proved here, and not again in each crate in which a walk ends.
impl Drop for Walk {
    fn drop(self) {
        self.into_program().discard();
    }
}

impl Walk {
    /// The items of a walk that is at its end, and the bodies that are whole.
    pub fn into_program(self) -> Typed
        ensures items { result.items ≡ self.items }
        ensures bodies { result.bodies ≡ self.bodies }
    {
        let Walk {
            items,
            next_node: _,
            next_body: _,
            breaks,
            bodies,
            made,
        } = self;
        drop(breaks);
        discard_nodes(made);
        Typed { items, bodies }
    }

    /// The next number of a node.
    pub fn number(&mut self) -> Result<NodeId, RuleError>
        ensures number { Gives node_no (steps.number (state_of self.old)) result self.new }
        ensures made { self.new.made ≡ self.old.made }
        ensures items { self.new.items ≡ self.old.items }
    {
        let Some(next) = self.next_node.checked_add(1) else {
            return Err(RuleError::past_32_bits());
        };
        let number = NodeId(self.next_node);
        self.next_node = next;
        Ok(number)
    }

    /// A `break` out of a loop, with a value of this type.
    pub fn breaks_out(&mut self, from: NodeId, ty: TyId) -> Result<(), RuleError>
        ensures added { Gives (λ u. u) (steps.breaks_out from.0 ty (state_of self.old)) result self.new }
        ensures made { self.new.made ≡ self.old.made }
        ensures items { self.new.items ≡ self.old.items }
    {
        match self.breaks.push(BreakOut { from, ty }) {
            Ok(()) => Ok(()),
            Err(_) => Err(RuleError::Memory),
        }
    }

    /// The number of a type, which gets the next one where it has none.
    #[tactic(auto, using(crate::proofs::Walking::interned_here, crate::proofs::Walking::interns_fixed))]
    pub fn intern(&mut self, ty: Ty) -> Result<TyId, RuleError>
        requires { IsTy self.old.items.types ty }
        ensures number { Gives (λ id. id) (steps.interned ty (state_of self.old)) result self.new }
        ensures made { self.new.made ≡ self.old.made }
        ensures items { HasOnlyTypes self.old.items self.new.items }
    {
        let known = self.items.ty(UNIT).is_some();
        prove!(known || !known);
        match self.items.intern(ty) {
            Ok(id) => Ok(id),
            Err(NoMemory) => Err(RuleError::Memory),
        }
    }
}
