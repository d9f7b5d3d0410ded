//! The methods that a trait asks for (The Rust Reference, "Traits").
ghost use Rattle.std.specs.Prelude.{◌≡◌, ◌&&◌, [], codes, not, reverse, OnOk};
ghost use Rattle.std.specs.Str.{bytes_eq};
ghost use Rattle.src_ast.specs.ItemForms.{function_of};
ghost use Rattle.src_ast.specs.Seen.{maybe_of, nodes_of, syn_of};
ghost use Rattle.src_ast.specs.Sorts.{item_part};
ghost use Rattle.src_ast.specs.Syntax.{list_of, shape_of};
ghost use Rattle.src_ast.specs.View.{named};
ghost use Rattle.typeck_checker.specs.Stand.{GivesValue, ChangesNothing, env, state};
ghost use Rattle.typing_rules.specs.Program as rules;
ghost use Rattle.typeck_items.specs.Forms.{closed_head, named_head, trait_fn, trait_head_by};

use crate::heads::head_rules;
use crate::names::{is_new, with_name};
use crate::receivers::{behind_self, takes_reference};
use mir_base::{Pos, Rule, RuleError};
use src_ast::{Function, ItemForm, Nodes, item_form, name_of};
use src_tree::SyntaxNode;
use typeck_checker::Checker;
use typeck_heads::{NameTable, broken_rule, obeys};

/// Whether a method is called `drop`.
pub fn is_called_drop(name: &str) -> bool
    ensures { result ≡ rules.is_called_drop name.now }
{
    name == "drop"
}

/// Whether a trait may have a method of this name and these parameters.
fn may_be_asked(name: &str, params: Nodes) -> bool
    ensures { result ≡ (rules.takes_reference (nodes_of params.entry) && not (bytes_eq name.now (codes "drop"))) }
{
    takes_reference(params) && !is_called_drop(name)
}

fn with_receiver(
    checker: &Checker,
    names: NameTable,
    at: Pos,
    name: &str,
    params: Nodes,
) -> Result<NameTable, RuleError>
    ensures { GivesValue reverse (named_head at name.now (nodes_of params.entry) (reverse names) (state checker.now)) result checker.now }
{
    obeys(Rule::T11, at, may_be_asked(name, params))?;
    with_name(checker.alloc, names, name)
}

/// What is asked of a method of a trait once its head is checked; the name stands at its own place.
fn closed_at(
    checker: &Checker,
    names: NameTable,
    at: Pos,
    name_at: Pos,
    name: &str,
    params: Nodes,
) -> Result<NameTable, RuleError>
    ensures { GivesValue reverse (closed_head at (name_at, name.now) (nodes_of params.entry) (reverse names) (state checker.now)) result checker.now }
{
    obeys(Rule::T02, name_at, is_new(&names, name))?;
    with_receiver(checker, names, at, name, params)
}

fn close_head(
    checker: &Checker,
    names: NameTable,
    at: Pos,
    name: &SyntaxNode,
    params: Nodes,
) -> Result<NameTable, RuleError>
    ensures { GivesValue reverse (closed_head at (named (syn_of name.now)) (nodes_of params.entry) (reverse names) (state checker.now)) result checker.now }
{
    closed_at(checker, names, at, name.at, name_of(name), params)
}

fn method(
    checker: &mut Checker,
    names: NameTable,
    at: Pos,
    function: Function,
) -> Result<NameTable, RuleError>
    ensures gives { GivesValue reverse (trait_fn (env checker.old) at (named (syn_of function.entry.name.now)) (nodes_of function.entry.params) (maybe_of function.entry.answer) (reverse names) (state checker.old)) result checker.new }
    ensures same { OnOk result (ChangesNothing checker.old checker.new) }
{
    head_rules(checker, behind_self(function.params), function.answer)?;
    close_head(checker, names, at, function.name, function.params)
}

/// One method, with its name behind those so far.
fn head(checker: &mut Checker, names: NameTable, node: &SyntaxNode) -> Result<NameTable, RuleError>
    ensures gives { GivesValue reverse (trait_head_by (env checker.old) (reverse names) node.now.at (item_part (shape_of (syn_of node.now))) (state checker.old)) result checker.new }
    ensures same { OnOk result (ChangesNothing checker.old checker.new) }
{
    match item_form(node) {
        ItemForm::Fn(function) => method(checker, names, node.at, function),
        _ => {
            drop(names);
            Err(broken_rule(Rule::T20, node.at))
        }
    }
}

/// The heads of a trait's methods.
///
/// # Errors
///
/// The first rule that a parameter or a result breaks; T02 at a name that an earlier method has; T11 at the first method
/// without `&self` or `&mut self`, or that is called `drop`; [`RuleError::Memory`] where memory is wanted.
pub fn trait_heads(checker: &mut Checker, nodes: Nodes) -> Result<(), RuleError>
    ensures gives { GivesValue (λ u. u) (rules.trait_heads (env checker.old) [] (list_of (nodes_of nodes.entry)) (state checker.old)) result checker.new }
    ensures same { OnOk result (ChangesNothing checker.old checker.new) }
{
    let mut names = NameTable::new(checker.alloc);
    let mut rest = nodes;
    while let Some(split) = rest.split_first() {
        names = head(checker, names, split.first)?;
        rest = split.rest;
    }
    Ok(())
}
