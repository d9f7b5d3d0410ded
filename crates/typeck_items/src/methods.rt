//! The methods of an impl: a type has one of each name over all its impls (The Rust Reference, "Implementations").
ghost use Rattle.std.specs.Prelude.{◌≡◌, ◌∷◌, not, true, IfErr, IfOk, OnOk};
ghost use Rattle.mir_base.specs.declared.rule.Rule.{Rule};
ghost use Rattle.mir_base.specs.declared.rule.RuleError.{RuleError};
ghost use Rattle.src_ast.specs.ItemForms.{name_seen};
ghost use Rattle.src_ast.specs.Seen.{maybe_of, nodes_of, syn_of};
ghost use Rattle.src_ast.specs.Sorts.{item_part};
ghost use Rattle.src_ast.specs.Syntax.{list_of, shape_of};
ghost use Rattle.src_ast.specs.View.{named};
ghost use Rattle.typeck_checker.specs.Stand.{GivesValue, ChangesNothing, env, state};
ghost use Rattle.typing_rules.specs.Check.{obeys as obeyed};
ghost use Rattle.typing_rules.specs.Program as rules;
ghost use Rattle.typeck_items.specs.Forms.{closed_method, method_by, method_fn};

use crate::heads::head_rules;
use crate::method_heads::has_head;
use crate::pairs::NamePairs;
use mir_base::{NoMemory, Pos, Rule, RuleError};
use src_ast::{Function, ItemForm, Nodes, item_form, name_of};
use src_tree::SyntaxNode;
use std::alloc::Global;
use typeck_checker::Checker;
use typeck_heads::{broken_rule, obeys};

/// Adds a pair of names where it is new, and answers whether it is.
pub fn note_pair(
    pairs: &mut NamePairs,
    alloc: Global,
    owner: &str,
    name: &str,
) -> Result<bool, RuleError>
    ensures told { IfOk result (λ is_new. is_new ≡ not (rules.is_seen owner.now name.now pairs.old)) }
    ensures added { IfOk result (λ is_new. is_new ≡ true → pairs.new ≡ (owner.now, name.now) ∷ pairs.old) }
    ensures short { IfErr result (λ e. e ≡ RuleError.Memory) }
{
    match pairs.add(alloc, owner, name) {
        Ok(is_new) => Ok(is_new),
        Err(NoMemory) => Err(RuleError::Memory),
    }
}

/// A method has the head that its impl asks for.
fn obeys_head(
    checker: &Checker,
    trait_: Option<&SyntaxNode>,
    owner: &str,
    at: Pos,
    name: &str,
    params: Nodes,
) -> Result<(), RuleError>
    ensures { GivesValue (λ u. u) (obeyed Rule.T11 at (rules.has_head checker.now.walk.items (name_seen trait_.entry) owner.now name.now (nodes_of params.entry)) (state checker.now)) result checker.now }
{
    let has = has_head(checker, trait_, owner, name, params)?;
    obeys(Rule::T11, at, has)
}

/// What is asked of a method once its parameters and its result are checked; the name stands at its own place.
fn closed_at(
    checker: &Checker,
    seen: &mut NamePairs,
    trait_: Option<&SyntaxNode>,
    owner: &str,
    at: Pos,
    name_at: Pos,
    name: &str,
    params: Nodes,
) -> Result<(), RuleError>
    ensures { GivesValue (λ u. seen.new) (closed_method (name_seen trait_.entry) owner.now at (name_at, name.now) (nodes_of params.entry) seen.old (state checker.now)) result checker.now }
{
    let is_new = note_pair(seen, checker.alloc, owner, name)?;
    obeys(Rule::T02, name_at, is_new)?;
    obeys_head(checker, trait_, owner, at, name, params)
}

fn close_method(
    checker: &Checker,
    seen: &mut NamePairs,
    trait_: Option<&SyntaxNode>,
    owner: &str,
    at: Pos,
    name: &SyntaxNode,
    params: Nodes,
) -> Result<(), RuleError>
    ensures { GivesValue (λ u. seen.new) (closed_method (name_seen trait_.entry) owner.now at (named (syn_of name.now)) (nodes_of params.entry) seen.old (state checker.now)) result checker.now }
{
    closed_at(
        checker,
        seen,
        trait_,
        owner,
        at,
        name.at,
        name_of(name),
        params,
    )
}

fn with_head(
    checker: &mut Checker,
    seen: &mut NamePairs,
    trait_: Option<&SyntaxNode>,
    owner: &str,
    at: Pos,
    function: Function,
) -> Result<(), RuleError>
    ensures gives { GivesValue (λ u. seen.new) (method_fn (env checker.old) (name_seen trait_.entry) owner.now at (named (syn_of function.entry.name.now)) (nodes_of function.entry.params) (maybe_of function.entry.answer) seen.old (state checker.old)) result checker.new }
    ensures same { OnOk result (ChangesNothing checker.old checker.new) }
{
    head_rules(checker, function.params, function.answer)?;
    close_method(
        checker,
        seen,
        trait_,
        owner,
        at,
        function.name,
        function.params,
    )
}

/// One method, with its name behind those that its type has so far.
fn method(
    checker: &mut Checker,
    seen: &mut NamePairs,
    trait_: Option<&SyntaxNode>,
    owner: &str,
    node: &SyntaxNode,
) -> Result<(), RuleError>
    ensures gives { GivesValue (λ u. seen.new) (method_by (env checker.old) (name_seen trait_.entry) owner.now seen.old node.now.at (item_part (shape_of (syn_of node.now))) (state checker.old)) result checker.new }
    ensures same { OnOk result (ChangesNothing checker.old checker.new) }
{
    match item_form(node) {
        ItemForm::Fn(function) => with_head(checker, seen, trait_, owner, node.at, function),
        _ => Err(broken_rule(Rule::T20, node.at)),
    }
}

/// The heads of the methods of an impl, with the pairs of types and methods so far.
///
/// # Errors
///
/// The first rule that a parameter or a result breaks; T02 at a name that an earlier method of the type has; T11 at the
/// first method that has not the head that the impl asks for; [`RuleError::Memory`] where memory is wanted.
pub fn method_heads(
    checker: &mut Checker,
    seen: &mut NamePairs,
    trait_: Option<&SyntaxNode>,
    owner: &str,
    nodes: Nodes,
) -> Result<(), RuleError>
    ensures gives { GivesValue (λ u. seen.new) (rules.method_heads (env checker.old) (name_seen trait_.entry) owner.now seen.old (list_of (nodes_of nodes.entry)) (state checker.old)) result checker.new }
    ensures same { OnOk result (ChangesNothing checker.old checker.new) }
{
    let mut rest = nodes;
    while let Some(split) = rest.split_first() {
        method(checker, seen, trait_, owner, split.first)?;
        rest = split.rest;
    }
    Ok(())
}
