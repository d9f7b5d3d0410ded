//! Heads of functions and methods.
ghost use Rattle.std.specs.Prelude.{◌≡◌, ◌<◌, ◌≤◌, length, IfOk};
ghost use Rattle.mir_ty.specs.AreItems.{AreTypes, IsSig};
ghost use Rattle.typeck_heads.specs.Answers.{Answers};
ghost use Rattle.typeck_heads.specs.Forms.{around_of, own_by, own_receiver, IsOwn};
ghost use Rattle.src_ast.specs.PartForms.{receiver_seen};
ghost use Rattle.src_ast.specs.Seen.{nodes_of, syn_of, maybe_of};
ghost use Rattle.src_ast.specs.Syntax.{list_of};
ghost use Rattle.typing_rules.specs.Check.{each_checked};
ghost use Rattle.typing_rules.specs.Collected.{starting_with, receiver_ty, param_ty, answer_ty, sig_of};

use crate::steps::{broken_rule, intern, push_to};
use crate::written_types::{WrittenScope, resolve_type, written_param};
use mir_base::{List, Name, Pos, Rule, RuleError};
use mir_ty::{Items, Sig, Ty, TyId, UNIT};
use src_ast::{Nodes, ParamForm, Receiver, param_form};
use src_tree::SyntaxNode;

/// Whose `self` a parameter is.
#[derive(Clone, Copy)]
pub enum Own {
    /// That of the struct or enum around, where there is one; the body stands at this place.
    Around(Pos),
    /// That of this type.
    Given(TyId),
}

fn own_type(items: &mut Items, scope: &WrittenScope, own: Own) -> Result<TyId, RuleError>
    requires { IsOwn items.old.types own }
    ensures answers { Answers (own_by (around_of scope.now) own (starting_with items.old)) result items.new }
    ensures grows { length items.old.types ≤ length items.new.types }
    ensures known { IfOk result (λ id. id.0 < length items.new.types) }
{
    match own {
        Own::Given(id) => Ok(id),
        Own::Around(at) => match scope.self_adt {
            Some(number) => intern(items, Ty::Adt(number)),
            None => Err(broken_rule(Rule::T01, at)),
        },
    }
}

/// The type of `self`.
pub fn receiver_type(items: &mut Items, own: TyId, receiver: Receiver) -> Result<TyId, RuleError>
    requires { own.0 < length items.old.types }
    ensures answers { Answers (receiver_ty own (receiver_seen receiver) (starting_with items.old)) result items.new }
    ensures grows { length items.old.types ≤ length items.new.types }
    ensures known { IfOk result (λ id. id.0 < length items.new.types) }
{
    match receiver {
        Receiver::Value => Ok(own),
        Receiver::Shared => intern(items, Ty::Shared(own)),
        Receiver::Unique => intern(items, Ty::Unique(own)),
    }
}

fn self_param(
    items: &mut Items,
    scope: &WrittenScope,
    own: Own,
    receiver: Receiver,
) -> Result<TyId, RuleError>
    requires { IsOwn items.old.types own }
    ensures answers { Answers (own_receiver (around_of scope.now) own (receiver_seen receiver) (starting_with items.old)) result items.new }
    ensures grows { length items.old.types ≤ length items.new.types }
    ensures known { IfOk result (λ id. id.0 < length items.new.types) }
{
    let id = own_type(items, scope, own)?;
    receiver_type(items, id, receiver)
}

#[tactic(auto, using(crate::proofs::Shapes::head_param_seen))]
fn param(
    items: &mut Items,
    scope: &WrittenScope,
    own: Own,
    node: &SyntaxNode,
) -> Result<TyId, RuleError>
    requires ready { 8 ≤ length items.old.types }
    requires own { IsOwn items.old.types own }
    ensures answers { Answers (param_ty (around_of scope.now) (own_by (around_of scope.now) own) (syn_of node.now) (starting_with items.old)) result items.new }
    ensures grows { length items.old.types ≤ length items.new.types }
    ensures known { IfOk result (λ id. id.0 < length items.new.types) }
{
    match param_form(node) {
        ParamForm::Pattern { pattern: _, ty } => written_param(items, scope, ty),
        ParamForm::SelfValue(receiver) => self_param(items, scope, own, receiver),
        ParamForm::Other => Err(broken_rule(Rule::T20, node.at)),
    }
}

/// The types of the parameters of a head, in their order.
pub fn param_types(
    items: &mut Items,
    scope: &WrittenScope,
    own: Own,
    params: Nodes,
) -> Result<List<TyId>, RuleError>
    requires ready { 8 ≤ length items.old.types }
    requires own { IsOwn items.old.types own }
    ensures answers { Answers (each_checked (param_ty (around_of scope.now) (own_by (around_of scope.now) own)) (list_of (nodes_of params.entry)) (starting_with items.old)) result items.new }
    ensures grows { length items.old.types ≤ length items.new.types }
    ensures known { IfOk result (λ ids. AreTypes items.new.types ids) }
{
    let mut ids = List::new(scope.alloc);
    let mut rest = params;
    while let Some(split) = rest.split_first() {
        let id = param(items, scope, own, split.first)?;
        push_to(&mut ids, id)?;
        rest = split.rest;
    }
    Ok(ids)
}

/// The type of what a head answers.
pub fn answer_type(
    items: &mut Items,
    scope: &WrittenScope,
    answer: Option<&SyntaxNode>,
) -> Result<TyId, RuleError>
    requires { 8 ≤ length items.old.types }
    ensures answers { Answers (answer_ty (around_of scope.now) (maybe_of answer.entry) (starting_with items.old)) result items.new }
    ensures grows { length items.old.types ≤ length items.new.types }
    ensures known { IfOk result (λ id. id.0 < length items.new.types) }
{
    match answer {
        Some(node) => resolve_type(items, scope, node),
        None => Ok(UNIT),
    }
}

/// The head of a function or a method.
pub fn head(
    items: &mut Items,
    scope: &WrittenScope,
    own: Own,
    name: Name,
    params: Nodes,
    answer: Option<&SyntaxNode>,
) -> Result<Sig, RuleError>
    requires ready { 8 ≤ length items.old.types }
    requires own { IsOwn items.old.types own }
    ensures answers { Answers (sig_of (around_of scope.now) (own_by (around_of scope.now) own) name (nodes_of params.entry) (maybe_of answer.entry) (starting_with items.old)) result items.new }
    ensures grows { length items.old.types ≤ length items.new.types }
    ensures known { IfOk result (λ sig. IsSig items.new.types sig) }
{
    let params = param_types(items, scope, own, params)?;
    let result_type = answer_type(items, scope, answer)?;
    Ok(Sig {
        name,
        params,
        result: result_type,
    })
}
