//! The heads of bodies, in text order, those of closures among them.
ghost use Rattle.std.specs.Prelude.{◌≡◌, ◌<◌, ◌≤◌, ◌++◌, ◌∷◌, length, false, IfOk, IfErr, option_and_then};
ghost use Rattle.mir_base.specs.declared.rule.RuleError.{RuleError};
ghost use Rattle.mir_ty.specs.AreItems.{AreTypes, IsSig};
ghost use Rattle.typeck_heads.specs.Answers.{Answers};
ghost use Rattle.typeck_heads.specs.Forms.{around_of, known_of, answered, function_by};
ghost use Rattle.typeck_heads.specs.Counts.{count_of};
ghost use Rattle.src_ast.specs.Seen.{nodes_of, syn_of, maybe_of, word_of};
ghost use Rattle.src_ast.specs.Syntax.{list_of, shape_of};
ghost use Rattle.src_ast.specs.View.{named};
ghost use Rattle.typing_rules.specs.Check.{each_checked};
ghost use Rattle.typing_rules.specs.Collected as walk;
ghost use Rattle.typing_rules.specs.Collected.{starting_with};
ghost use Rattle.typing_rules.specs.Items.{full_name, closure_name};
ghost use Rattle.typing_rules.specs.Written as types;
ghost use Rattle.typing_rules.specs.Written.{number_of};

use crate::adt_items::{name_from, number_name};
use crate::closure_types::written_or_unit;
use crate::heads::{Own, head};
use crate::known_types::Known;
use crate::steps::{intern, push_to};
use crate::written_types::WrittenScope;
use mir_base::{List, Name, NoMemory, Pos, RuleError};
use mir_ty::{Items, Sig, Ty, TyId, UNIT};
use src_ast::{Function, Nodes, ParamForm, name_of, param_form};
use src_tree::SyntaxNode;
use std::alloc::{AllocError, Global};

/// The name of a body: a function's own, `S::m` of a method.
fn body_name(alloc: Global, owner: Option<&str>, name: &str) -> Result<Name, AllocError>
    ensures { IfOk result (λ whole. whole ≡ full_name (word_of owner.entry) name.now) }
{
    match owner {
        Some(owner) => {
            let mut whole = String::from_str(alloc, owner)?;
            whole.push_str("::")?;
            whole.push_str(name)?;
            Ok(Name::from_string(whole))
        }
        None => Ok(Name::from_string(String::from_str(alloc, name)?)),
    }
}

/// The name of a closure: `f::closure#1` of the first in f.
pub fn name_of_closure(alloc: Global, outer: &Name, number: u64) -> Result<Name, AllocError>
    ensures { IfOk result (λ whole. whole ≡ closure_name outer.now number) }
{
    let digits = number_name(alloc, number)?;
    let mut whole = String::from_str(alloc, outer.as_str())?;
    whole.push_str("::closure#")?;
    whole.push_str(digits.as_str())?;
    Ok(Name::from_string(whole))
}

/// Adds the head of a body.
fn add(items: &mut Items, sig: Sig) -> Result<(), RuleError>
    requires { IsSig items.old.types sig }
    ensures answers { Answers (walk.body_added sig (starting_with items.old)) result items.new }
    ensures grows { length items.old.types ≤ length items.new.types }
{
    match items.add_body(sig) {
        Ok(_) => Ok(()),
        Err(NoMemory) => Err(RuleError::Memory),
    }
}

/// The type of a parameter of a closure.
#[tactic(auto, using(crate::proofs::Closures::closure_param_seen))]
fn closure_param(
    items: &mut Items,
    scope: &WrittenScope,
    node: &SyntaxNode,
) -> Result<TyId, RuleError>
    requires ready { 8 ≤ length items.old.types }
    requires free { scope.now.has_limits ≡ false }
    ensures answers { Answers (walk.closure_param (around_of scope.now) (syn_of node.now) (starting_with items.old)) result items.new }
    ensures grows { length items.old.types ≤ length items.new.types }
    ensures known { IfOk result (λ id. id.0 < length items.new.types) }
{
    match param_form(node) {
        ParamForm::Pattern { pattern: _, ty } => written_or_unit(items, scope, ty),
        ParamForm::SelfValue(_) => Ok(UNIT),
        ParamForm::Other => Ok(UNIT),
    }
}

/// The types of the parameters of a closure, in their order.
fn closure_params(
    items: &mut Items,
    scope: &WrittenScope,
    params: Nodes,
) -> Result<List<TyId>, RuleError>
    requires ready { 8 ≤ length items.old.types }
    requires free { scope.now.has_limits ≡ false }
    ensures answers { Answers (each_checked (walk.closure_param (around_of scope.now)) (list_of (nodes_of params.entry)) (starting_with items.old)) result items.new }
    ensures grows { length items.old.types ≤ length items.new.types }
    ensures known { IfOk result (λ ids. AreTypes items.new.types ids) }
{
    let mut ids = List::new(scope.alloc);
    let mut rest = params;
    while let Some(split) = rest.split_first() {
        let id = closure_param(items, scope, split.first)?;
        push_to(&mut ids, id)?;
        rest = split.rest;
    }
    Ok(ids)
}

/// The type of what a closure answers.
fn closure_answer(
    items: &mut Items,
    scope: &WrittenScope,
    answer: Option<&SyntaxNode>,
) -> Result<TyId, RuleError>
    requires ready { 8 ≤ length items.old.types }
    requires free { scope.now.has_limits ≡ false }
    ensures answers { Answers (types.or_unit (walk.answer_ty (around_of scope.now) (maybe_of answer.entry)) (starting_with items.old)) result items.new }
    ensures grows { length items.old.types ≤ length items.new.types }
    ensures known { IfOk result (λ id. id.0 < length items.new.types) }
{
    match answer {
        Some(node) => written_or_unit(items, scope, node),
        None => Ok(UNIT),
    }
}

/// The function or method around, and how many closures it and the text have had.
#[derive(Drop)]
pub struct Count {
    pub outer: Name,
    pub in_outer: u64,
    pub closures: u32,
}

/// The number of the struct or enum whose methods these are.
pub fn own_adt(known: &Known, owner: Option<&str>) -> Option<u32>
    ensures { result ≡ option_and_then (number_of known.now.adts) (word_of owner.entry) }
{
    match owner {
        Some(owner) => known.adts.find(owner),
        None => None,
    }
}

/// The head of a function or a method, added.
pub fn function_body(
    items: &mut Items,
    known: &Known,
    owner: Option<&str>,
    closures: u32,
    at: Pos,
    function: Function,
) -> Result<Count, RuleError>
    requires { 8 ≤ length items.old.types }
    ensures answers { Answers (function_by (known_of known.now) (word_of owner.entry) closures at (named (syn_of function.entry.name.now)).1 (nodes_of function.entry.params) (maybe_of function.entry.answer) (starting_with items.old)) (answered count_of result) items.new }
    ensures grows { length items.old.types ≤ length items.new.types }
{
    let scope = known.scope(own_adt(known, owner));
    let Ok(name) = body_name(known.alloc, owner, name_of(function.name)) else {
        return Err(RuleError::Memory);
    };
    let outer = name_from(known.alloc, name.as_str())?;
    let sig = head(
        items,
        &scope,
        Own::Around(at),
        name,
        function.params,
        function.answer,
    )?;
    add(items, sig)?;
    Ok(Count {
        outer,
        in_outer: 0,
        closures,
    })
}

/// The first before the others.
fn before(first: TyId, others: List<TyId>) -> Result<List<TyId>, RuleError>
    ensures all { IfOk result (λ all. all ≡ first ∷ others) }
    ensures short { IfErr result (λ e. e ≡ RuleError.Memory) }
{
    let mut all = others.into_vec();
    match all.insert(0, first) {
        Ok(()) => Ok(List::from_vec(all)),
        Err(_) => Err(RuleError::Memory),
    }
}

/// The parameters of a closure, behind the closure itself.
fn all_params(
    items: &mut Items,
    scope: &WrittenScope,
    closures: u32,
    params: Nodes,
) -> Result<List<TyId>, RuleError>
    requires ready { 8 ≤ length items.old.types }
    requires free { scope.now.has_limits ≡ false }
    ensures answers { Answers (walk.closure_params (around_of scope.now) closures (nodes_of params.entry) (starting_with items.old)) result items.new }
    ensures grows { length items.old.types ≤ length items.new.types }
    ensures known { IfOk result (λ ids. AreTypes items.new.types ids) }
{
    let own = intern(items, Ty::Closure(closures))?;
    let others = closure_params(items, scope, params)?;
    before(own, others)
}

/// The head of a closure, added.
pub fn closure_head(
    items: &mut Items,
    scope: &WrittenScope,
    closures: u32,
    name: Name,
    params: Nodes,
    answer: Option<&SyntaxNode>,
) -> Result<(), RuleError>
    requires ready { 8 ≤ length items.old.types }
    requires free { scope.now.has_limits ≡ false }
    ensures answers { Answers (walk.closure_head (around_of scope.now) closures name (nodes_of params.entry) (maybe_of answer.entry) (starting_with items.old)) result items.new }
    ensures grows { length items.old.types ≤ length items.new.types }
{
    let params = all_params(items, scope, closures, params)?;
    let answer_type = closure_answer(items, scope, answer)?;
    add(
        items,
        Sig {
            name,
            params,
            result: answer_type,
        },
    )
}
