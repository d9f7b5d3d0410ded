//! The fields of a struct or of a variant: each has a type, and a name of its own where it has one (The Rust Reference,
//! "Structs", "Enumerations").
ghost use Rattle.std.specs.Prelude.{◌≡◌, [], reverse, OnOk};
ghost use Rattle.src_ast.specs.Seen.{nodes_of, syn_of};
ghost use Rattle.src_ast.specs.Syntax.{list_of};
ghost use Rattle.typeck_checker.specs.Stand.{GivesValue, ChangesNothing, env, state};
ghost use Rattle.typing_rules.specs.Program as rules;
ghost use Rattle.typeck_items.specs.Forms.{named_field, once, plain_field};

use crate::names::{is_new, with_name};
use mir_base::{Pos, Rule, RuleError};
use src_ast::{Nodes, field_form};
use src_tree::SyntaxNode;
use typeck_checker::{Checker, resolve_type};
use typeck_heads::{NameTable, obeys};

/// A name that has to be new, behind those so far.
fn add_once(
    checker: &Checker,
    names: NameTable,
    at: Pos,
    name: &str,
) -> Result<NameTable, RuleError>
    ensures { GivesValue reverse (once at name.now (reverse names) (state checker.now)) result checker.now }
{
    obeys(Rule::T02, at, is_new(&names, name))?;
    with_name(checker.alloc, names, name)
}

fn field_with_name(
    checker: &mut Checker,
    names: NameTable,
    at: Pos,
    name: &str,
    ty: &SyntaxNode,
) -> Result<NameTable, RuleError>
    ensures gives { GivesValue reverse (named_field (env checker.old) at name.now (syn_of ty.now) (reverse names) (state checker.old)) result checker.new }
    ensures same { OnOk result (ChangesNothing checker.old checker.new) }
{
    resolve_type(checker, ty)?;
    add_once(checker, names, at, name)
}

fn field_by_order(
    checker: &mut Checker,
    names: NameTable,
    ty: &SyntaxNode,
) -> Result<NameTable, RuleError>
    ensures gives { GivesValue reverse (plain_field (env checker.old) (syn_of ty.now) (reverse names) (state checker.old)) result checker.new }
    ensures same { OnOk result (ChangesNothing checker.old checker.new) }
{
    resolve_type(checker, ty)?;
    Ok(names)
}

/// One field: its type, and its name behind those so far, where it has one.
fn field(checker: &mut Checker, names: NameTable, node: &SyntaxNode) -> Result<NameTable, RuleError>
    ensures gives { GivesValue reverse (rules.field (env checker.old) (reverse names) (syn_of node.now) (state checker.old)) result checker.new }
    ensures same { OnOk result (ChangesNothing checker.old checker.new) }
{
    match field_form(node) {
        Some(form) => field_with_name(checker, names, node.at, form.name, form.ty),
        None => field_by_order(checker, names, node),
    }
}

/// The fields of a struct or of a variant.
///
/// # Errors
///
/// The first rule that a type breaks, or T02 at the first field whose name an earlier one has;
/// [`RuleError::Memory`] where memory is wanted.
pub fn fields(checker: &mut Checker, nodes: Nodes) -> Result<(), RuleError>
    ensures gives { GivesValue (λ u. u) (rules.fields (env checker.old) [] (list_of (nodes_of nodes.entry)) (state checker.old)) result checker.new }
    ensures same { OnOk result (ChangesNothing checker.old checker.new) }
{
    let mut names = NameTable::new(checker.alloc);
    let mut rest = nodes;
    while let Some(split) = rest.split_first() {
        names = field(checker, names, split.first)?;
        rest = split.rest;
    }
    Ok(())
}
