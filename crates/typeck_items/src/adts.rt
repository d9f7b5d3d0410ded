//! Structs and enums.
ghost use Rattle.std.specs.Prelude.{◌≡◌, [], OnOk};
ghost use Rattle.src_ast.specs.Seen.{nodes_of};
ghost use Rattle.src_ast.specs.Syntax.{list_of};
ghost use Rattle.typeck_checker.specs.Stand.{GivesValue, ChangesNothing, env, state};
ghost use Rattle.typing_rules.specs.Program as rules;
ghost use Rattle.typing_rules.specs.Scope.{adt_named};
ghost use Rattle.typeck_items.specs.Forms.{enum_rules, struct_rules};

use crate::counts::are_at_most;
use crate::enclosing_impl::{enter_impl, leave_impl};
use crate::fields::fields;
use crate::variants::variants;
use mir_base::limits::{MAX_FIELDS, MAX_VARIANTS};
use mir_base::{Pos, Rule, RuleError};
use src_ast::Nodes;
use typeck_checker::Checker;
use typeck_heads::obeys;

fn own_fields(checker: &mut Checker, name: &str, nodes: Nodes) -> Result<(), RuleError>
    ensures gives { GivesValue (λ u. u) (rules.fields (rules.in_impl (env checker.old) (adt_named checker.old.walk.items name.now)) [] (list_of (nodes_of nodes.entry)) (state checker.old)) result checker.new }
    ensures same { OnOk result (ChangesNothing checker.old checker.new) }
{
    let before = enter_impl(checker, name);
    fields(checker, nodes)?;
    leave_impl(checker, before);
    Ok(())
}

fn own_variants(checker: &mut Checker, name: &str, nodes: Nodes) -> Result<(), RuleError>
    ensures gives { GivesValue (λ u. u) (rules.variants (rules.in_impl (env checker.old) (adt_named checker.old.walk.items name.now)) [] (list_of (nodes_of nodes.entry)) (state checker.old)) result checker.new }
    ensures same { OnOk result (ChangesNothing checker.old checker.new) }
{
    let before = enter_impl(checker, name);
    variants(checker, nodes)?;
    leave_impl(checker, before);
    Ok(())
}

/// A struct: its fields, of which there are at most 32.
pub fn struct_item(
    checker: &mut Checker,
    at: Pos,
    name: &str,
    nodes: Nodes,
) -> Result<(), RuleError>
    ensures gives { GivesValue (λ u. u) (struct_rules (env checker.old) at name.now (nodes_of nodes.entry) (state checker.old)) result checker.new }
    ensures same { OnOk result (ChangesNothing checker.old checker.new) }
{
    own_fields(checker, name, nodes)?;
    obeys(Rule::T19, at, are_at_most(nodes, MAX_FIELDS))
}

/// An enum: its variants, of which there are at most 64.
pub fn enum_item(checker: &mut Checker, at: Pos, name: &str, nodes: Nodes) -> Result<(), RuleError>
    ensures gives { GivesValue (λ u. u) (enum_rules (env checker.old) at name.now (nodes_of nodes.entry) (state checker.old)) result checker.new }
    ensures same { OnOk result (ChangesNothing checker.old checker.new) }
{
    own_variants(checker, name, nodes)?;
    obeys(Rule::T19, at, are_at_most(nodes, MAX_VARIANTS))
}
