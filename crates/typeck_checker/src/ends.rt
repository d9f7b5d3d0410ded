//! How a row ends: a node is made of its parts, and fitted to the type that is required, or settled.
ghost use Rattle.std.specs.Prelude.{◌≡◌};
ghost use Rattle.typing_rules.specs.Places.{a_node_of};
ghost use Rattle.typing_rules.specs.Rows as rows;
ghost use Rattle.typeck_checker.specs.Forms.{four_form, leaf_form, one_form, three_form, two_form};
ghost use Rattle.typeck_checker.specs.Stand.{Gives, KeepsStack, below, stack, state, top};

use crate::checker::Checker;
use crate::forms::{Four, Leaf, One, Three, TwoParts};
use mir_base::{NodeId, Pos, RuleError};
use mir_ty::TyId;

impl Checker {
    /// A leaf of a type, fitted to the one that is required.
    pub fn coerce_leaf(
        &mut self,
        id: NodeId,
        at: Pos,
        ty: TyId,
        leaf: Leaf,
        expected: Option<TyId>,
    ) -> Result<(), RuleError>
        ensures gives { Gives (rows.fitted expected (a_node_of id.0 at ty (leaf_form leaf)) (state self.old)) result self.new }
        ensures kept { KeepsStack (stack self.old) self.old result self.new }
    {
        self.put_leaf(id, at, ty, leaf)?;
        self.coerce(expected)
    }

    /// A node around the last one, fitted to the type that is required.
    pub fn coerce_one(
        &mut self,
        id: NodeId,
        at: Pos,
        ty: TyId,
        one: One,
        expected: Option<TyId>,
    ) -> Result<(), RuleError>
        ensures gives { Gives (rows.fitted expected (a_node_of id.0 at ty (one_form one (top (stack self.old)))) (state self.old)) result self.new }
        ensures kept { KeepsStack (below (stack self.old)) self.old result self.new }
    {
        self.wrap_one(id, at, ty, one)?;
        self.coerce(expected)
    }

    /// A node around the last two, fitted to the type that is required.
    pub fn coerce_two(
        &mut self,
        id: NodeId,
        at: Pos,
        ty: TyId,
        two: TwoParts,
        expected: Option<TyId>,
    ) -> Result<(), RuleError>
        ensures gives { Gives (rows.fitted expected (a_node_of id.0 at ty
            (two_form two (top (below (stack self.old))) (top (stack self.old)))) (state self.old)) result self.new }
        ensures kept { KeepsStack (below (below (stack self.old))) self.old result self.new }
    {
        self.wrap_two(id, at, ty, two)?;
        self.coerce(expected)
    }

    /// A leaf of a type, settled.
    pub fn unify_leaf(
        &mut self,
        id: NodeId,
        at: Pos,
        ty: TyId,
        leaf: Leaf,
        expected: Option<TyId>,
    ) -> Result<(), RuleError>
        ensures gives { Gives (rows.settled expected (a_node_of id.0 at ty (leaf_form leaf)) (state self.old)) result self.new }
        ensures kept { KeepsStack (stack self.old) self.old result self.new }
    {
        self.put_leaf(id, at, ty, leaf)?;
        self.unify(expected)
    }

    /// A node around the last one, settled.
    pub fn unify_one(
        &mut self,
        id: NodeId,
        at: Pos,
        ty: TyId,
        one: One,
        expected: Option<TyId>,
    ) -> Result<(), RuleError>
        ensures gives { Gives (rows.settled expected (a_node_of id.0 at ty (one_form one (top (stack self.old)))) (state self.old)) result self.new }
        ensures kept { KeepsStack (below (stack self.old)) self.old result self.new }
    {
        self.wrap_one(id, at, ty, one)?;
        self.unify(expected)
    }

    /// A node around the last two, settled.
    pub fn unify_two(
        &mut self,
        id: NodeId,
        at: Pos,
        ty: TyId,
        two: TwoParts,
        expected: Option<TyId>,
    ) -> Result<(), RuleError>
        ensures gives { Gives (rows.settled expected (a_node_of id.0 at ty
            (two_form two (top (below (stack self.old))) (top (stack self.old)))) (state self.old)) result self.new }
        ensures kept { KeepsStack (below (below (stack self.old))) self.old result self.new }
    {
        self.wrap_two(id, at, ty, two)?;
        self.unify(expected)
    }

    /// A node around the last three, settled.
    pub fn unify_three(
        &mut self,
        id: NodeId,
        at: Pos,
        ty: TyId,
        three: Three,
        expected: Option<TyId>,
    ) -> Result<(), RuleError>
        ensures gives { Gives (rows.settled expected (a_node_of id.0 at ty
            (three_form three (top (below (below (stack self.old)))) (top (below (stack self.old))) (top (stack self.old)))) (state self.old)) result self.new }
        ensures kept { KeepsStack (below (below (below (stack self.old)))) self.old result self.new }
    {
        self.wrap_three(id, at, ty, three)?;
        self.unify(expected)
    }

    /// A node around the last four, settled.
    pub fn unify_four(
        &mut self,
        id: NodeId,
        at: Pos,
        ty: TyId,
        four: Four,
        expected: Option<TyId>,
    ) -> Result<(), RuleError>
        ensures gives { Gives (rows.settled expected (a_node_of id.0 at ty
            (four_form four (top (below (below (below (stack self.old))))) (top (below (below (stack self.old)))) (top (below (stack self.old))) (top (stack self.old)))) (state self.old)) result self.new }
        ensures kept { KeepsStack (below (below (below (below (stack self.old))))) self.old result self.new }
    {
        self.wrap_four(id, at, ty, four)?;
        self.unify(expected)
    }
}
