//! The nodes that were made, the last of which are taken into the nodes around them.
ghost use Rattle.std.specs.Prelude.{◌≡◌, ◌<◌, ◌∷◌, ◌++◌, [], List, length, option_copied, option_map, slice_get, IfErr, IfOk, OnOk};
ghost use Rattle.mir_base.specs.declared.rule.RuleError.{RuleError};
ghost use Rattle.typed_tree.specs.View.{form_of, tree_of, maybe_of};
ghost use Rattle.typing_rules.specs.Places as places;
ghost use Rattle.well_typed.specs.Places.{ty_of};
ghost use Rattle.typeck_checker.specs.Forms.{four_form, leaf_form, one_form, three_form, two_form};
ghost use Rattle.typeck_checker.specs.Stand.{Stays, below, node_if_any, stack, state, top};

use crate::checker::Checker;
use crate::forms::{
    Four, Leaf, One, Three, TwoParts, form_of_four, form_of_leaf, form_of_one, form_of_three,
    form_of_two,
};
use mir_base::{List, NoMemory, NodeId, Pos, RuleError};
use mir_ty::{TyId, UNIT};
use std::alloc::Global;
use typed_tree::{Form, Node, Use, boxed_node, discard_node, push_node};

#[tactic(auto, using(crate::proofs::Nodes::ty_same))]
fn ty_if_any(node: Option<&Node>) -> TyId
    ensures { result ≡ ty_of (node_if_any node.entry) }
{
    match node {
        Some(node) => node.ty,
        None => UNIT,
    }
}

#[tactic(auto, using(crate::proofs::Nodes::at_same))]
fn at_if_any(node: Option<&Node>) -> Pos
    ensures { result ≡ places.place_in_text (node_if_any node.entry) }
{
    match node {
        Some(node) => node.at,
        None => Pos { line: 0, col: 0 },
    }
}

impl Checker {
    /// An empty list with room for so many elements, which then take no more memory than they need.
    pub fn list_for<T>(&self, count: usize) -> Result<List<T>, RuleError>
        ensures empty { IfOk result (λ list. list ≡ []) }
        ensures short { IfErr result (λ e. e ≡ RuleError.Memory) }
    {
        match Vec::with_capacity(self.alloc, count) {
            Ok(elements) => Ok(List::from_vec(elements)),
            Err(_) => Err(RuleError::Memory),
        }
    }

    /// The node that was made before so many later ones.
    #[tactic(auto, using(crate::proofs::Made::read_at, crate::proofs::Made::read_past))]
    pub fn made_at(&self, back: usize) -> Option<&Node>
        ensures { option_map tree_of (option_copied result) ≡ slice_get (stack self.now) back }
    {
        let made = self.walk.made.as_slice();
        let count = made.len();
        if back < count {
            Some(&made[count - 1 - back])
        } else {
            None
        }
    }

    /// The last node.
    #[tactic(auto, using(crate::proofs::Made::last_seen))]
    pub fn last(&self) -> Option<&Node>
        ensures { node_if_any result ≡ top (stack self.now) }
    {
        self.made_at(0)
    }

    /// The last node but one.
    #[tactic(auto, using(crate::proofs::Made::second_seen))]
    pub fn second(&self) -> Option<&Node>
        ensures { node_if_any result ≡ top (below (stack self.now)) }
    {
        self.made_at(1)
    }

    /// The type of the last node.
    pub fn last_ty(&self) -> TyId
        ensures { result ≡ ty_of (top (stack self.now)) }
    {
        ty_if_any(self.last())
    }

    /// The type of the last node but one.
    pub fn second_ty(&self) -> TyId
        ensures { result ≡ ty_of (top (below (stack self.now))) }
    {
        ty_if_any(self.second())
    }

    /// Where the last node stands.
    pub fn last_at(&self) -> Pos
        ensures { result ≡ places.place_in_text (top (stack self.now)) }
    {
        at_if_any(self.last())
    }

    /// Where the last node but one stands.
    pub fn second_at(&self) -> Pos
        ensures { result ≡ places.place_in_text (top (below (stack self.now))) }
    {
        at_if_any(self.second())
    }

    /// A node behind those that were made.
    #[tactic(auto, using(crate::proofs::Made::pushed))]
    pub fn push(&mut self, node: Node) -> Result<(), RuleError>
        ensures made { OnOk result (stack self.new ≡ tree_of node ∷ stack self.old) }
        ensures state { OnOk result (state self.new ≡ state self.old) }
        ensures place { OnOk result (Stays self.old self.new) }
        ensures short { IfErr result (λ e. e ≡ RuleError.Memory) }
    {
        match push_node(&mut self.walk.made, node) {
            Ok(()) => Ok(()),
            Err(NoMemory) => Err(RuleError::Memory),
        }
    }

    /// The last node, taken off.
    #[tactic(auto, using(crate::proofs::Made::pushed, crate::proofs::Made::none))]
    pub fn pop(&mut self) -> Result<Node, RuleError>
        ensures taken { IfOk result (λ node. tree_of node ≡ top (stack self.old)) }
        ensures made { OnOk result (stack self.new ≡ below (stack self.old)) }
        ensures state { state self.new ≡ state self.old }
        ensures place { Stays self.old self.new }
        ensures short { IfErr result (λ e. e ≡ RuleError.Memory) }
    {
        match self.walk.made.pop() {
            Some(node) => Ok(node),
            None => Err(RuleError::cannot_be()),
        }
    }

    /// The last node, taken off, on the heap.
    pub fn part(&mut self) -> Result<Box<Node, Global>, RuleError>
        ensures taken { IfOk result (λ part. tree_of part.value ≡ top (stack self.old)) }
        ensures made { OnOk result (stack self.new ≡ below (stack self.old)) }
        ensures state { OnOk result (state self.new ≡ state self.old) }
        ensures place { OnOk result (Stays self.old self.new) }
        ensures short { IfErr result (λ e. e ≡ RuleError.Memory) }
    {
        let node = self.pop()?;
        match boxed_node(self.alloc, node) {
            Ok(part) => Ok(part),
            Err(NoMemory) => Err(RuleError::Memory),
        }
    }

    /// The last two nodes, taken off, in order.
    fn two_parts(&mut self) -> Result<(Box<Node, Global>, Box<Node, Global>), RuleError>
        ensures taken { IfOk result (λ parts. (tree_of parts.0.value ≡ top (below (stack self.old))) × (tree_of parts.1.value ≡ top (stack self.old))) }
        ensures made { OnOk result (stack self.new ≡ below (below (stack self.old))) }
        ensures state { OnOk result (state self.new ≡ state self.old) }
        ensures place { OnOk result (Stays self.old self.new) }
        ensures short { IfErr result (λ e. e ≡ RuleError.Memory) }
    {
        let second = self.part()?;
        match self.part() {
            Ok(first) => Ok((first, second)),
            Err(error) => {
                discard_node(second);
                Err(error)
            }
        }
    }

    /// A node without a use, behind those that were made.
    pub fn put(&mut self, id: NodeId, at: Pos, ty: TyId, form: Form) -> Result<(), RuleError>
        ensures made { OnOk result (stack self.new ≡ places.a_node_of id.0 at ty (form_of form) ∷ stack self.old) }
        ensures state { OnOk result (state self.new ≡ state self.old) }
        ensures place { OnOk result (Stays self.old self.new) }
        ensures short { IfErr result (λ e. e ≡ RuleError.Memory) }
    {
        self.push(Node {
            id,
            at,
            ty,
            by: None,
            form,
        })
    }

    /// The last node is used so.
    #[tactic(auto, using(crate::proofs::Nodes::used_so))]
    pub fn use_last(&mut self, by: Use) -> Result<(), RuleError>
        ensures made { OnOk result (stack self.new ≡ places.used by (top (stack self.old)) ∷ below (stack self.old)) }
        ensures state { OnOk result (state self.new ≡ state self.old) }
        ensures place { OnOk result (Stays self.old self.new) }
        ensures short { IfErr result (λ e. e ≡ RuleError.Memory) }
    {
        let mut node = self.pop()?;
        node.by = Some(by);
        self.push(node)
    }

    /// A node without a use around the last one.
    pub fn wrap_one(&mut self, id: NodeId, at: Pos, ty: TyId, one: One) -> Result<(), RuleError>
        ensures made { OnOk result (stack self.new ≡
            places.a_node_of id.0 at ty (one_form one (top (stack self.old))) ∷ below (stack self.old)) }
        ensures state { OnOk result (state self.new ≡ state self.old) }
        ensures place { OnOk result (Stays self.old self.new) }
        ensures short { IfErr result (λ e. e ≡ RuleError.Memory) }
    {
        let part = self.part()?;
        self.put(id, at, ty, form_of_one(one, part))
    }

    /// A node without a use around the last two.
    pub fn wrap_two(
        &mut self,
        id: NodeId,
        at: Pos,
        ty: TyId,
        two: TwoParts,
    ) -> Result<(), RuleError>
        ensures made { OnOk result (stack self.new ≡
            places.a_node_of id.0 at ty (two_form two (top (below (stack self.old))) (top (stack self.old)))
            ∷ below (below (stack self.old))) }
        ensures state { OnOk result (state self.new ≡ state self.old) }
        ensures place { OnOk result (Stays self.old self.new) }
        ensures short { IfErr result (λ e. e ≡ RuleError.Memory) }
    {
        let (first, second) = self.two_parts()?;
        self.put(id, at, ty, form_of_two(two, first, second))
    }

    /// A node without a use around the last three.
    pub fn wrap_three(
        &mut self,
        id: NodeId,
        at: Pos,
        ty: TyId,
        three: Three,
    ) -> Result<(), RuleError>
        ensures made { OnOk result (stack self.new ≡
            places.a_node_of id.0 at ty (three_form three (top (below (below (stack self.old)))) (top (below (stack self.old))) (top (stack self.old)))
            ∷ below (below (below (stack self.old)))) }
        ensures state { OnOk result (state self.new ≡ state self.old) }
        ensures place { OnOk result (Stays self.old self.new) }
        ensures short { IfErr result (λ e. e ≡ RuleError.Memory) }
    {
        let third = self.part()?;
        match self.two_parts() {
            Ok((first, second)) => self.put(id, at, ty, form_of_three(three, first, second, third)),
            Err(error) => {
                discard_node(third);
                Err(error)
            }
        }
    }

    /// A node without a use around the last four.
    pub fn wrap_four(&mut self, id: NodeId, at: Pos, ty: TyId, four: Four) -> Result<(), RuleError>
        ensures made { OnOk result (stack self.new ≡
            places.a_node_of id.0 at ty (four_form four (top (below (below (below (stack self.old))))) (top (below (below (stack self.old)))) (top (below (stack self.old))) (top (stack self.old)))
            ∷ below (below (below (below (stack self.old))))) }
        ensures state { OnOk result (state self.new ≡ state self.old) }
        ensures place { OnOk result (Stays self.old self.new) }
        ensures short { IfErr result (λ e. e ≡ RuleError.Memory) }
    {
        let (third, fourth) = self.two_parts()?;
        match self.two_parts() {
            Ok((first, second)) => {
                self.put(id, at, ty, form_of_four(four, first, second, third, fourth))
            }
            Err(error) => {
                discard_node(third);
                discard_node(fourth);
                Err(error)
            }
        }
    }

    /// A node without parts and use, behind those that were made.
    pub fn put_leaf(&mut self, id: NodeId, at: Pos, ty: TyId, leaf: Leaf) -> Result<(), RuleError>
        ensures made { OnOk result (stack self.new ≡ places.a_node_of id.0 at ty (leaf_form leaf) ∷ stack self.old) }
        ensures state { OnOk result (state self.new ≡ state self.old) }
        ensures place { OnOk result (Stays self.old self.new) }
        ensures short { IfErr result (λ e. e ≡ RuleError.Memory) }
    {
        self.put(id, at, ty, form_of_leaf(leaf))
    }
}
