//! Places where a value is asked for (The Rust Reference, "Moved and copied types").
ghost use Rattle.std.specs.Prelude.{◌≡◌, ◌==◌, IfErr, OnOk};
ghost use Rattle.std.specs.List.{list_any};
ghost use Rattle.mir_base.specs.declared.rule.RuleError.{RuleError};
ghost use Rattle.typed_tree.specs.View.{form_of, tree_of};
ghost use Rattle.well_typed.specs.Places as forms;
ghost use Rattle.typing_rules.specs.Rows.{may_be_stored, may_be_taken};
ghost use Rattle.typing_rules.specs.Places as places;
ghost use Rattle.typing_rules.specs.Rows as rows;
ghost use Rattle.typeck_checker.specs.Stand.{Gives, KeepsStack, Stays, below, env, stack, state, top};

use crate::checker::Checker;
use mir_base::{Key, Rule, RuleError};
use mir_ty::TyId;
use typeck_env::{is_behind_shared, is_dyn, is_fixed, is_place, is_reference, taking};
use typeck_heads::{broken_rule, obeys};
use typed_tree::{Form, Node, Use};

fn has_key(key: Key, keys: &[Key]) -> bool
    ensures { result ≡ list_any (λ k. key.0 == k.0) keys.now }
{
    keys.iter().any(|k| key.0 == k.0)
}

impl Checker {
    /// The last node is no reference variable that stands by itself.
    pub fn no_reference(&self) -> Result<(), RuleError>
        ensures { Gives (rows.no_reference (top (stack self.now)) (state self.now)) result self.now }
    {
        let is_value = !is_reference(&self.walk.items, self.last_ty());
        obeys(Rule::T08, self.last_at(), is_value)
    }

    /// Whether nothing may be moved out of a place.
    fn is_fixed_node(&self, node: &Node) -> bool
        ensures { result ≡ places.is_fixed self.now.walk.items (places.in_own_guard (env self.now).variables) (tree_of node.now) }
    {
        is_fixed(&self.walk.items, self.around.guards.as_slice(), node)
    }

    /// Whether nothing may be moved out of the last node.
    pub fn is_last_fixed(&self) -> bool
        ensures { result ≡ places.is_fixed self.now.walk.items (places.in_own_guard (env self.now).variables) (top (stack self.now)) }
    {
        match self.last() {
            Some(node) => self.is_fixed_node(node),
            None => false,
        }
    }

    /// Whether the last node may be copied or moved out of.
    fn may_take_last(&self) -> bool
        ensures { result ≡ may_be_taken self.now.walk.items (places.in_own_guard (env self.now).variables) (top (stack self.now)) }
    {
        let ty = self.last_ty();
        self.walk.items.is_copy(ty) || !(self.is_last_fixed() || is_dyn(&self.walk.items, ty))
    }

    fn fit_used(&mut self, by: Use, expected: Option<TyId>) -> Result<(), RuleError>
        ensures gives { Gives (rows.fitted expected (places.used by (top (stack self.old))) (state self.old)) result self.new }
        ensures kept { KeepsStack (below (stack self.old)) self.old result self.new }
    {
        self.use_last(by)?;
        self.coerce(expected)
    }

    /// The last node, a place where a value is asked for: it is copied where its type is Copy, and moved out of
    /// otherwise.
    pub fn use_value(&mut self, expected: Option<TyId>) -> Result<(), RuleError>
        ensures gives { Gives (rows.taken (env self.old) expected (top (stack self.old)) (state self.old)) result self.new }
        ensures kept { KeepsStack (below (stack self.old)) self.old result self.new }
    {
        let at = self.last_at();
        let ty = self.last_ty();
        let may_take = self.may_take_last();
        let is_value = !is_reference(&self.walk.items, ty);
        let by = taking(&self.walk.items, ty);
        self.fit_used(by, expected)?;
        if !may_take {
            return Err(broken_rule(Rule::T07, at));
        }
        obeys(Rule::T08, at, is_value)
    }

    /// Whether the last node is a place behind `&`.
    pub fn is_last_shared(&self) -> bool
        ensures { result ≡ places.is_behind_shared self.now.walk.items (top (stack self.now)) }
    {
        match self.last() {
            Some(node) => is_behind_shared(&self.walk.items, node),
            None => false,
        }
    }

    /// Whether the last node but one is a place behind `&`.
    pub fn is_second_shared(&self) -> bool
        ensures { result ≡ places.is_behind_shared self.now.walk.items (top (below (stack self.now))) }
    {
        match self.second() {
            Some(node) => is_behind_shared(&self.walk.items, node),
            None => false,
        }
    }

    fn is_own(&self, form: &Form) -> bool
        ensures { result ≡ rows.own_in (places.in_own_guard (env self.now).variables) (form_of form.now) }
    {
        match form {
            Form::Variable(key) => self.has_guard(*key),
            _ => false,
        }
    }

    fn has_guard(&self, key: Key) -> bool
        ensures { result ≡ places.is_any key.0 (places.in_own_guard (env self.now).variables) }
    {
        has_key(key, self.around.guards.as_slice())
    }

    /// Whether a place may be stored into: it is one, and no binding inside its own guard.
    #[tactic(auto, using(crate::proofs::Nodes::form_same))]
    fn is_stored(&self, node: &Node) -> bool
        ensures { result ≡ may_be_stored (places.in_own_guard (env self.now).variables) (tree_of node.now) }
    {
        is_place(&node.form) && !self.is_own(&node.form)
    }

    /// Whether the last node but one may be stored into.
    pub fn is_second_stored(&self) -> bool
        ensures { result ≡ may_be_stored (places.in_own_guard (env self.now).variables) (top (below (stack self.now))) }
    {
        match self.second() {
            Some(node) => self.is_stored(node),
            None => false,
        }
    }

    /// Whether the last node is a place.
    #[tactic(auto, using(crate::proofs::Nodes::form_same))]
    pub fn is_last_place(&self) -> bool
        ensures { result ≡ forms.is_place (forms.form_of (top (stack self.now))) }
    {
        match self.last() {
            Some(node) => is_place(&node.form),
            None => false,
        }
    }

    /// The last node is used so where it is a place, and is a temporary otherwise.
    pub fn use_if_place(&mut self, by: Use) -> Result<(), RuleError>
        ensures made { OnOk result (top (stack self.new) ≡ rows.used_if_place by (top (stack self.old))) }
        ensures others { OnOk result (below (stack self.new) ≡ below (stack self.old)) }
        ensures state { OnOk result (state self.new ≡ state self.old) }
        ensures place { OnOk result (Stays self.old self.new) }
        ensures short { IfErr result (λ e. e ≡ RuleError.Memory) }
    {
        if self.is_last_place() {
            self.use_last(by)
        } else {
            Ok(())
        }
    }
}
