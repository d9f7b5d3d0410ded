//! Traits, added to the items.
ghost use Rattle.std.specs.Prelude.{◌≡◌, ◌<◌, ◌≤◌, All, length, IfOk, IfErr};
ghost use Rattle.mir_base.specs.declared.rule.RuleError.{RuleError};
ghost use Rattle.mir_ty.specs.AreItems.{IsSig};
ghost use Rattle.typeck_heads.specs.Answers.{Answers};
ghost use Rattle.typeck_heads.specs.Forms.{around_of, is_self_by, other_method, own_method};
ghost use Rattle.src_ast.specs.Seen.{nodes_of, syn_of, maybe_of};
ghost use Rattle.src_ast.specs.Sorts.{param_part};
ghost use Rattle.src_ast.specs.Syntax.{list_of, shape_of};
ghost use Rattle.src_ast.specs.View.{named};
ghost use Rattle.typing_rules.specs.Check.{each_checked};
ghost use Rattle.typing_rules.specs.Collected as walk;
ghost use Rattle.typing_rules.specs.Collected.{starting_with};

use crate::adt_items::name_from;
use crate::heads::{Own, head};
use crate::steps::{broken_rule, intern, push_to};
use crate::written_types::WrittenScope;
use mir_base::{List, Rule, RuleError};
use mir_ty::{Items, Sig, Ty, TyId};
use src_ast::{Function, ItemForm, Nodes, ParamForm, Receiver, item_form, name_of, param_form};
use src_tree::SyntaxNode;

/// Whether a parameter is `&self` or `&mut self`.
#[tactic(auto, using(crate::proofs::Receivers::reference_seen))]
fn is_by_reference(node: &SyntaxNode) -> bool
    ensures { result ≡ walk.is_by_reference (syn_of node.now) }
{
    match param_form(node) {
        ParamForm::SelfValue(receiver) => match receiver {
            Receiver::Value => false,
            Receiver::Shared => true,
            Receiver::Unique => true,
        },
        ParamForm::Pattern { pattern: _, ty: _ } => false,
        ParamForm::Other => false,
    }
}

/// Whether the first parameter is `&self` or `&mut self`.
fn has_receiver(params: Nodes) -> bool
    ensures { result ≡ walk.has_receiver (nodes_of params.entry) }
{
    match params.split_first() {
        Some(split) => is_by_reference(split.first),
        None => false,
    }
}

/// Whether a parameter is `self`, however it is taken.
fn is_self(node: &SyntaxNode) -> bool
    ensures { result ≡ is_self_by (param_part (shape_of (syn_of node.now))) }
{
    match param_form(node) {
        ParamForm::SelfValue(_) => true,
        ParamForm::Pattern { pattern: _, ty: _ } => false,
        ParamForm::Other => false,
    }
}

/// The parameters behind `self`, where it is the first.
#[tactic(auto, using(crate::proofs::Receivers::behind_seen))]
fn behind_self(params: Nodes) -> Nodes
    ensures { nodes_of result ≡ walk.behind_self (nodes_of params.entry) }
{
    match params.split_first() {
        Some(split) => {
            if is_self(split.first) {
                split.rest
            } else {
                params
            }
        }
        None => params,
    }
}

/// A head with this type before its parameters.
fn with_receiver(first: TyId, sig: Sig) -> Result<Sig, RuleError>
    ensures head { IfOk result (λ whole. whole ≡ walk.with_receiver first sig) }
    ensures short { IfErr result (λ e. e ≡ RuleError.Memory) }
{
    let Sig {
        name,
        params,
        result: answer,
    } = sig;
    let mut all = params.into_vec();
    match all.insert(0, first) {
        Ok(()) => Ok(Sig {
            name,
            params: List::from_vec(all),
            result: answer,
        }),
        Err(_) => Err(RuleError::Memory),
    }
}

/// The head of a method that has no `&self` or `&mut self`, with `&dyn` of the trait in its place.
fn other_head(
    items: &mut Items,
    scope: &WrittenScope,
    own: TyId,
    function: Function,
) -> Result<Sig, RuleError>
    requires ready { 8 ≤ length items.old.types }
    requires own { own.0 < length items.old.types }
    ensures answers { Answers (other_method (around_of scope.now) own (named (syn_of function.entry.name.now)).1 (nodes_of function.entry.params) (maybe_of function.entry.answer) (starting_with items.old)) result items.new }
    ensures grows { length items.old.types ≤ length items.new.types }
    ensures known { IfOk result (λ sig. IsSig items.new.types sig) }
{
    let first = intern(items, Ty::Shared(own))?;
    let name = name_from(scope.alloc, name_of(function.name))?;
    let others = behind_self(function.params);
    let sig = head(items, scope, Own::Given(own), name, others, function.answer)?;
    with_receiver(first, sig)
}

/// The head of a trait's method.
fn own_head(
    items: &mut Items,
    scope: &WrittenScope,
    own: TyId,
    function: Function,
) -> Result<Sig, RuleError>
    requires ready { 8 ≤ length items.old.types }
    requires own { own.0 < length items.old.types }
    ensures answers { Answers (own_method (around_of scope.now) own (named (syn_of function.entry.name.now)).1 (nodes_of function.entry.params) (maybe_of function.entry.answer) (starting_with items.old)) result items.new }
    ensures grows { length items.old.types ≤ length items.new.types }
    ensures known { IfOk result (λ sig. IsSig items.new.types sig) }
{
    if has_receiver(function.params) {
        let name = name_from(scope.alloc, name_of(function.name))?;
        head(
            items,
            scope,
            Own::Given(own),
            name,
            function.params,
            function.answer,
        )
    } else {
        other_head(items, scope, own, function)
    }
}

#[tactic(auto, using(crate::proofs::Receivers::trait_head_seen))]
fn trait_head(
    items: &mut Items,
    scope: &WrittenScope,
    own: TyId,
    node: &SyntaxNode,
) -> Result<Sig, RuleError>
    requires ready { 8 ≤ length items.old.types }
    requires own { own.0 < length items.old.types }
    ensures answers { Answers (walk.trait_head (around_of scope.now) own (syn_of node.now) (starting_with items.old)) result items.new }
    ensures grows { length items.old.types ≤ length items.new.types }
    ensures known { IfOk result (λ sig. IsSig items.new.types sig) }
{
    match item_form(node) {
        ItemForm::Fn(function) => own_head(items, scope, own, function),
        ItemForm::Struct { .. } => Err(broken_rule(Rule::T20, node.at)),
        ItemForm::Enum { .. } => Err(broken_rule(Rule::T20, node.at)),
        ItemForm::Trait { .. } => Err(broken_rule(Rule::T20, node.at)),
        ItemForm::Impl { .. } => Err(broken_rule(Rule::T20, node.at)),
        ItemForm::Other => Err(broken_rule(Rule::T20, node.at)),
    }
}

/// The heads of a trait's methods, in their order.
pub fn trait_heads(
    items: &mut Items,
    scope: &WrittenScope,
    own: TyId,
    heads: Nodes,
) -> Result<List<Sig>, RuleError>
    requires ready { 8 ≤ length items.old.types }
    requires own { own.0 < length items.old.types }
    ensures answers { Answers (each_checked (walk.trait_head (around_of scope.now) own) (list_of (nodes_of heads.entry)) (starting_with items.old)) result items.new }
    ensures grows { length items.old.types ≤ length items.new.types }
    ensures known { IfOk result (λ sigs. All (IsSig items.new.types) sigs) }
{
    let mut sigs = List::new(scope.alloc);
    let mut rest = heads;
    while let Some(split) = rest.split_first() {
        let sig = trait_head(items, scope, own, split.first)?;
        push_to(&mut sigs, sig)?;
        rest = split.rest;
    }
    Ok(sigs)
}
