//! The variants of an enum (The Rust Reference, "Enumerations").
ghost use Rattle.std.specs.Prelude.{◌≡◌, [], nat_le, reverse, OnOk};
ghost use Rattle.src_ast.specs.Seen.{nodes_of, syn_of};
ghost use Rattle.src_ast.specs.Syntax.{at_of, list_of, shape_of};
ghost use Rattle.src_ast.specs.Sorts.{variant_part};
ghost use Rattle.typeck_checker.specs.Stand.{GivesValue, ChangesNothing, env, state};
ghost use Rattle.typing_rules.specs.Program as rules;
ghost use Rattle.typeck_items.specs.Forms.{closed_variant, limited_variant, one_variant, variant_by};

use crate::counts::are_at_most;
use crate::fields::fields;
use crate::names::{is_new, with_name};
use mir_base::limits::MAX_FIELDS;
use mir_base::{Pos, Rule, RuleError};
use src_ast::{Nodes, variant_form};
use src_tree::SyntaxNode;
use typeck_checker::Checker;
use typeck_heads::{NameTable, broken_rule, obeys};

fn with_few_fields(
    checker: &Checker,
    names: NameTable,
    at: Pos,
    name: &str,
    parts: Nodes,
) -> Result<NameTable, RuleError>
    ensures { GivesValue reverse (limited_variant at name.now (nodes_of parts.entry) (reverse names) (state checker.now)) result checker.now }
{
    obeys(Rule::T19, at, are_at_most(parts, MAX_FIELDS))?;
    with_name(checker.alloc, names, name)
}

/// What is asked of a variant once its fields are checked.
fn close_variant(
    checker: &Checker,
    names: NameTable,
    at: Pos,
    name: &str,
    parts: Nodes,
) -> Result<NameTable, RuleError>
    ensures { GivesValue reverse (closed_variant at name.now (nodes_of parts.entry) (reverse names) (state checker.now)) result checker.now }
{
    obeys(Rule::T02, at, is_new(&names, name))?;
    with_few_fields(checker, names, at, name, parts)
}

fn with_fields(
    checker: &mut Checker,
    names: NameTable,
    at: Pos,
    name: &str,
    parts: Nodes,
) -> Result<NameTable, RuleError>
    ensures gives { GivesValue reverse (one_variant (env checker.old) at name.now (nodes_of parts.entry) (reverse names) (state checker.old)) result checker.new }
    ensures same { OnOk result (ChangesNothing checker.old checker.new) }
{
    fields(checker, parts)?;
    close_variant(checker, names, at, name, parts)
}

/// One variant, with its name behind those so far.
fn variant(
    checker: &mut Checker,
    names: NameTable,
    node: &SyntaxNode,
) -> Result<NameTable, RuleError>
    ensures gives { GivesValue reverse (variant_by (env checker.old) (reverse names) node.now.at (variant_part (shape_of (syn_of node.now))) (state checker.old)) result checker.new }
    ensures same { OnOk result (ChangesNothing checker.old checker.new) }
{
    match variant_form(node) {
        Some(form) => with_fields(checker, names, node.at, form.name, form.fields),
        None => {
            drop(names);
            Err(broken_rule(Rule::T20, node.at))
        }
    }
}

/// The variants of an enum, each with its fields.
///
/// # Errors
///
/// The first rule that a field breaks; T02 at the first variant whose name an earlier one has, and T19 at the first of
/// more than 32 fields; [`RuleError::Memory`] where memory is wanted.
pub fn variants(checker: &mut Checker, nodes: Nodes) -> Result<(), RuleError>
    ensures gives { GivesValue (λ u. u) (rules.variants (env checker.old) [] (list_of (nodes_of nodes.entry)) (state checker.old)) result checker.new }
    ensures same { OnOk result (ChangesNothing checker.old checker.new) }
{
    let mut names = NameTable::new(checker.alloc);
    let mut rest = nodes;
    while let Some(split) = rest.split_first() {
        names = variant(checker, names, split.first)?;
        rest = split.rest;
    }
    Ok(())
}
