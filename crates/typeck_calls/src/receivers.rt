//! Calls of methods (The Rust Reference, "Method-call expressions"): the receiver is borrowed or taken once the method is
//! found, the arguments are checked behind it, and then the call ends.
ghost use Rattle.std.specs.Prelude.{◌≡◌, ℕ, ◌&&◌, ◌||◌, [], IfErr, IfOk, Option, drop, false, true, not, Some};
ghost use Rattle.std.specs.Option.{option_map_or};
ghost use Rattle.mir_base.specs.declared.rule.RuleError.{RuleError};
ghost use Rattle.mir_base.specs.declared.place_in_text.Pos.{Pos};
ghost use Rattle.mir_ty.specs.ItemTable.{ItemTable};
ghost use Rattle.mir_ty.specs.declared.ty.TyId.{TyId};
ghost use Rattle.typeck_checker.specs.Lists.{behind_form, below_all, last_nodes};
ghost use Rattle.typeck_calls.specs.Calls.{GivesCall};
ghost use Rattle.typeck_calls.specs.Methods.{GivesReceiver, borrows_shared, ends_by, form_shared, method_seen, received_end, self_of};
ghost use Rattle.typeck_checker.specs.Stand.{Gives, KeepsStack, below, env, node_if_any, stack, state, top};
ghost use Rattle.typed_tree.specs.Tree as tree;
ghost use Rattle.typed_tree.specs.View.{form_of};
ghost use Rattle.typing_rules.specs.Named as named;
ghost use Rattle.typing_rules.specs.Rows as rows;
ghost use Rattle.well_typed.specs.Places.{ty_of};
ghost use Rattle.well_typed.specs.Types as types;
ghost use Rattle.typing_rules.specs.Rows.{method_end};

use crate::methods::{Method, head, is_drop, through};
use mir_base::{List, NodeId, Pos, Rule, RuleError};
use mir_ty::{Items, Sig, TyId, UNIT};
use std::alloc::Global;
use typeck_checker::{Behind, Checker, is_self_method};
use typeck_env::{is_behind_shared, reference_of};
use typeck_exprs::{borrow_of, counted_end};
use typeck_heads::{broken_rule, obeys};
use typed_tree::{Form, Node};

/// A method that is called.
#[derive(Clone, Copy)]
pub struct Called {
    pub behind: Behind,
    pub answer: TyId,
    /// Where the receiver's place stands.
    pub place_at: Pos,
    /// It takes `self` by `&mut`.
    pub is_unique: bool,
    /// It is the body of a `Drop` impl.
    pub is_drop: bool,
}

/// A receiver and the method that is called on it.
#[derive(Drop)]
pub struct MethodReceiver {
    /// `None` where its type has no such method.
    pub called: Option<Called>,
    /// The types of the parameters behind `self`.
    pub params: List<TyId>,
}

fn is_self(items: &Items, own: TyId, ty: TyId) -> bool
    ensures { result ≡ (types.is_same ty own || option_map_or (λ r. types.is_same r.1 own) (types.reference_of items.now ty) false) }
{
    if ty.0 == own.0 {
        return true;
    }
    match reference_of(items, ty) {
        Some((_, to)) => to.0 == own.0,
        None => false,
    }
}

fn self_in(items: &Items, own: TyId, params: &[TyId]) -> Option<TyId>
    ensures { result ≡ self_of items.now own params.now }
{
    match params {
        [ty, ..] => {
            if is_self(items, own, *ty) {
                Some(*ty)
            } else {
                None
            }
        }
        [] => None,
    }
}

/// The type of `self`, of a method of a value of this type.
fn self_ty(items: &Items, own: TyId, method: Method) -> Option<TyId>
    ensures { (found : rows.Method) → method_seen items.now method ≡ Some found → result ≡ self_of items.now own (rows.head_of found).params }
{
    match head(items, method) {
        Some(sig) => self_in(items, own, sig.params.as_slice()),
        None => None,
    }
}

/// Whether a method has `self`, so that it is one of a value; a method of a trait has one.
#[tactic(auto, using(crate::proofs::Heads::body_self, crate::proofs::Heads::no_body_self, crate::proofs::Heads::trait_self))]
fn has_self(checker: &Checker, method: Method) -> bool
    ensures { (found : rows.Method) → method_seen checker.now.walk.items method ≡ Some found → result ≡ rows.has_self (env checker.now) found }
{
    match method {
        Method::OfAdt(body) => match checker.walk.items.body_sig(body) {
            Some(sig) => is_self_method(checker, sig.name.as_str()),
            None => false,
        },
        Method::OfTrait { .. } => true,
    }
}

fn behind_of(method: Method) -> Behind
    ensures { (items : ItemTable) (found : rows.Method) → method_seen items method ≡ Some found →
        (receiver : tree.Node) (given : tree.Nodes) → behind_form result receiver given ≡ rows.method_form found receiver given }
{
    match method {
        Method::OfAdt(body) => Behind::MethodCall(body),
        Method::OfTrait { trait_no, method } => Behind::VirtualCall { trait_no, method },
    }
}

/// The type that a method answers.
fn answer_of(items: &Items, method: Method) -> TyId
    ensures { (found : rows.Method) → method_seen items.now method ≡ Some found → result ≡ (rows.head_of found).result }
{
    match head(items, method) {
        Some(sig) => sig.result,
        None => UNIT,
    }
}

fn copy_types(alloc: Global, types: &[TyId]) -> Result<List<TyId>, RuleError>
    ensures copy { IfOk result (λ copy. copy ≡ types.now) }
    ensures short { IfErr result (λ e. e ≡ RuleError.Memory) }
{
    match Vec::from_slice(alloc, types) {
        Ok(copy) => Ok(List::from_vec(copy)),
        Err(_) => Err(RuleError::Memory),
    }
}

fn behind_first(types: &[TyId]) -> &[TyId]
    ensures { result.now ≡ drop 1 types.now }
{
    match types {
        [_, rest @ ..] => rest,
        [] => types,
    }
}

/// The types of the parameters behind `self`.
fn other_params(checker: &Checker, method: Method) -> Result<List<TyId>, RuleError>
    ensures copy { (found : rows.Method) → method_seen checker.now.walk.items method ≡ Some found → IfOk result (λ params. params ≡ drop 1 (rows.head_of found).params) }
    ensures short { IfErr result (λ e. e ≡ RuleError.Memory) }
{
    match head(&checker.walk.items, method) {
        Some(sig) => copy_types(checker.alloc, behind_first(sig.params.as_slice())),
        None => Ok(List::new(checker.alloc)),
    }
}

/// `self` by value: a place is taken.
fn by_value(checker: &mut Checker) -> Result<bool, RuleError>
    ensures gives { (at : Pos) → GivesReceiver (rows.received_by (env checker.old) at (top (stack checker.old)) None (state checker.old)) (top (stack checker.old)) result checker.new }
    ensures kept { KeepsStack (below (stack checker.old)) checker.old result checker.new }
{
    if checker.is_last_place() {
        checker.use_value(None)?;
    }
    Ok(false)
}

/// `self` by reference: the place that was found is borrowed.
fn by_reference(checker: &mut Checker, at: Pos, unique: bool) -> Result<bool, RuleError>
    ensures gives { (to : TyId) → GivesReceiver (rows.received_by (env checker.old) at (top (stack checker.old)) (Some (unique, to)) (state checker.old)) (top (stack checker.old)) result checker.new }
    ensures kept { KeepsStack (below (stack checker.old)) checker.old result checker.new }
{
    let id = checker.number()?;
    borrow_of(checker, id, at, unique)?;
    Ok(unique)
}

/// The last node as a receiver of a method whose `self` has this type. Whether it is borrowed by `&mut`.
fn check_receiver(checker: &mut Checker, at: Pos, self_ty: TyId) -> Result<bool, RuleError>
    ensures gives { GivesReceiver (rows.received (env checker.old) at (top (stack checker.old)) self_ty (state checker.old)) (top (stack checker.old)) result checker.new }
    ensures kept { KeepsStack (below (stack checker.old)) checker.old result checker.new }
{
    match reference_of(&checker.walk.items, self_ty) {
        Some((unique, _)) => by_reference(checker, at, unique),
        None => by_value(checker),
    }
}

fn with_self(
    checker: &mut Checker,
    method: Method,
    self_ty: TyId,
) -> Result<MethodReceiver, RuleError>
    ensures gives { (id : ℕ) (at : Pos) (found : rows.Method) → method_seen checker.old.walk.items method ≡ Some found →
        rows.has_self (env checker.old) found ≡ true →
        self_of checker.old.walk.items (ty_of (top (stack checker.old))) (rows.head_of found).params ≡ Some self_ty →
        (expected : Option TyId) → GivesCall (λ count args. rows.with_method (env checker.old) at id (top (stack checker.old)) (Some found) count args expected) (state checker.old) (λ r. r.params) (received_end id at expected) result checker.new }
    ensures kept { KeepsStack (below (stack checker.old)) checker.old result checker.new }
{
    let answer = answer_of(&checker.walk.items, method);
    let is_drop = is_drop(checker, method);
    let params = other_params(checker, method)?;
    let place_at = checker.last_at();
    let is_unique = check_receiver(checker, place_at, self_ty)?;
    Ok(MethodReceiver {
        called: Some(Called {
            behind: behind_of(method),
            answer,
            place_at,
            is_unique,
            is_drop,
        }),
        params,
    })
}

fn no_method(checker: &Checker) -> MethodReceiver
    ensures { result ≡ record { called = None; params = [] } }
{
    MethodReceiver {
        called: None,
        params: List::new(checker.alloc),
    }
}

fn with_method(checker: &mut Checker, method: Method) -> Result<MethodReceiver, RuleError>
    ensures gives { (id : ℕ) (at : Pos) (found : rows.Method) → method_seen checker.old.walk.items method ≡ Some found →
        (expected : Option TyId) → GivesCall (λ count args. rows.with_method (env checker.old) at id (top (stack checker.old)) (Some found) count args expected) (state checker.old) (λ r. r.params) (received_end id at expected) result checker.new }
    ensures kept { KeepsStack (below (stack checker.old)) checker.old result checker.new }
{
    if !has_self(checker, method) {
        return Ok(no_method(checker));
    }
    match self_ty(&checker.walk.items, checker.last_ty(), method) {
        Some(self_ty) => with_self(checker, method, self_ty),
        None => Ok(no_method(checker)),
    }
}

/// The last node as the receiver of a method of this name: it is gone through, up to the first type that has one, and
/// borrowed or taken as the method says. The arguments are checked behind it, and then [`method_end`] ends the call.
pub fn method_receiver(checker: &mut Checker, name: &str) -> Result<MethodReceiver, RuleError>
    ensures gives { (id : ℕ) (at : Pos) (expected : Option TyId) → GivesCall (method_end (env checker.old) id at (named.method_named name.now) expected (top (stack checker.old))) (state checker.old) (λ r. r.params) (received_end id at expected) result checker.new }
    ensures kept { KeepsStack (below (stack checker.old)) checker.old result checker.new }
{
    let place_at = checker.last_at();
    match through(checker, place_at, name)? {
        Some(method) => with_method(checker, method),
        None => Ok(no_method(checker)),
    }
}

/// What is borrowed is behind `&`.
fn is_form_shared(items: &Items, form: &Form) -> bool
    ensures { result ≡ form_shared items.now (form_of form.now) }
{
    match form {
        Form::Borrow { base, .. } => is_behind_shared(items, base),
        _ => false,
    }
}

#[tactic(auto, using(typeck_checker::proofs::Nodes::form_same))]
fn is_node_shared(items: &Items, node: Option<&Node>) -> bool
    ensures { result ≡ borrows_shared items.now (node_if_any node.entry) }
{
    match node {
        Some(node) => is_form_shared(items, &node.form),
        None => false,
    }
}

/// Whether the node before so many later ones borrows what is behind `&`.
#[tactic(auto, using(typeck_checker::proofs::LastOnes::node_at))]
fn is_shared(checker: &Checker, back: usize) -> bool
    ensures { result ≡ borrows_shared checker.now.walk.items (top (below_all back (stack checker.now))) }
{
    is_node_shared(&checker.walk.items, checker.made_at(back))
}

/// Whether what is behind `&` is borrowed by `&mut`.
fn is_refused(checker: &Checker, called: Called, count: usize) -> bool
    ensures { result ≡ (called.is_unique && borrows_shared checker.now.walk.items (top (below_all count (stack checker.now)))) }
{
    called.is_unique && is_shared(checker, count)
}

#[tactic(auto, using(crate::proofs::CalledMethods::counted_first))]
fn refused_end(
    checker: &mut Checker,
    id: NodeId,
    at: Pos,
    called: Called,
    count: usize,
    is_count: bool,
    is_refused: bool,
    expected: Option<TyId>,
) -> Result<(), RuleError>
    ensures gives { Gives (rows.method_call_end id.0 at called.answer (behind_form called.behind (top (below_all count (stack checker.old))) (last_nodes count (stack checker.old))) is_count called.place_at is_refused (not called.is_drop) expected (state checker.old)) result checker.new }
    ensures kept { KeepsStack (below (below_all count (stack checker.old))) checker.old result checker.new }
{
    counted_end(
        checker,
        id,
        at,
        called.answer,
        called.behind,
        count,
        is_count,
        expected,
    )?;
    if is_refused {
        return Err(broken_rule(Rule::T08, called.place_at));
    }
    obeys(Rule::T13, at, !called.is_drop)
}

fn called_end(
    checker: &mut Checker,
    id: NodeId,
    at: Pos,
    called: Called,
    count: usize,
    is_count: bool,
    expected: Option<TyId>,
) -> Result<(), RuleError>
    ensures gives { Gives (ends_by id.0 at (Some called) is_count expected (top (below_all count (stack checker.old))) (last_nodes count (stack checker.old)) (state checker.old)) result checker.new }
    ensures kept { KeepsStack (below (below_all count (stack checker.old))) checker.old result checker.new }
{
    let is_refused = is_refused(checker, called, count);
    refused_end(
        checker, id, at, called, count, is_count, is_refused, expected,
    )
}

/// A call of a method on a receiver, whose arguments are the last nodes, so many.
pub fn method_end(
    checker: &mut Checker,
    id: NodeId,
    at: Pos,
    receiver: &MethodReceiver,
    count: usize,
    expected: Option<TyId>,
) -> Result<(), RuleError>
    ensures gives { Gives (received_end id.0 at expected receiver.now (top (below_all count (stack checker.old))) count (last_nodes count (stack checker.old)) (state checker.old)) result checker.new }
    ensures kept { KeepsStack (below (below_all count (stack checker.old))) checker.old result checker.new }
{
    let is_count = count == receiver.params.len();
    match receiver.called {
        Some(called) => called_end(checker, id, at, called, count, is_count, expected),
        None => Err(broken_rule(Rule::T12, at)),
    }
}
