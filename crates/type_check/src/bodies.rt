//! The bodies of one item: those of a function, and of the methods of an impl.
ghost use Rattle.std.specs.Prelude.{◌≡◌, [], OnOk};
ghost use Rattle.src_ast.specs.Seen.{maybe_of, nodes_of, syn_of};
ghost use Rattle.src_ast.specs.Syntax.{list_of};
ghost use Rattle.typeck_checker.specs.Stand.{GivesValue, ChangesNothing, env, state};
ghost use Rattle.typing_rules.specs.Program as rules;
ghost use Rattle.typing_rules.specs.Scope.{adt_named};
ghost use Rattle.type_check.specs.Forms.{fn_check};

use crate::fn_body;
use mir_base::{Pos, Rule, RuleError};
use src_ast::{Function, ItemForm, Nodes, item_form, name_of};
use src_tree::SyntaxNode;
use typeck_checker::Checker;
use typeck_heads::broken_rule;
use typeck_items::{enter_impl, leave_impl};

/// The body of a function or a method.
fn own_body(checker: &mut Checker, at: Pos, function: Function) -> Result<(), RuleError>
    requires { (env checker.old).variables ≡ [] }
    ensures gives { GivesValue (λ u. u) (fn_check (env checker.old) at (nodes_of function.entry.params) (maybe_of function.entry.answer) (maybe_of function.entry.block) (state checker.old)) result checker.new }
    ensures same { OnOk result (ChangesNothing checker.old checker.new) }
{
    fn_body(
        checker,
        at,
        function.params,
        function.answer,
        function.block,
    )
}

/// The body of a method.
fn method_body(checker: &mut Checker, node: &SyntaxNode) -> Result<(), RuleError>
    requires { (env checker.old).variables ≡ [] }
    ensures gives { GivesValue (λ u. u) (rules.fn_rules (env checker.old) (syn_of node.now) (state checker.old)) result checker.new }
    ensures same { OnOk result (ChangesNothing checker.old checker.new) }
{
    match item_form(node) {
        ItemForm::Fn(function) => own_body(checker, node.at, function),
        _ => Err(broken_rule(Rule::T20, node.at)),
    }
}

/// The bodies of some methods, in their order.
fn method_bodies(checker: &mut Checker, nodes: Nodes) -> Result<(), RuleError>
    requires { (env checker.old).variables ≡ [] }
    ensures gives { GivesValue (λ u. u) (rules.all_fn_rules (env checker.old) (list_of (nodes_of nodes.entry)) (state checker.old)) result checker.new }
    ensures same { OnOk result (ChangesNothing checker.old checker.new) }
{
    let mut rest = nodes;
    while let Some(split) = rest.split_first() {
        method_body(checker, split.first)?;
        rest = split.rest;
    }
    Ok(())
}

/// The bodies of the methods of an impl, where `Self` is its type.
fn impl_bodies(checker: &mut Checker, owner: &str, nodes: Nodes) -> Result<(), RuleError>
    requires { (env checker.old).variables ≡ [] }
    ensures gives { GivesValue (λ u. u) (rules.all_fn_rules (rules.in_impl (env checker.old) (adt_named checker.old.walk.items owner.now)) (list_of (nodes_of nodes.entry)) (state checker.old)) result checker.new }
    ensures same { OnOk result (ChangesNothing checker.old checker.new) }
{
    let before = enter_impl(checker, owner);
    method_bodies(checker, nodes)?;
    leave_impl(checker, before);
    Ok(())
}

/// The bodies of one item.
pub fn bodies_of(checker: &mut Checker, node: &SyntaxNode) -> Result<(), RuleError>
    requires { (env checker.old).variables ≡ [] }
    ensures gives { GivesValue (λ u. u) (rules.bodies_of (env checker.old) (syn_of node.now) (state checker.old)) result checker.new }
    ensures same { OnOk result (ChangesNothing checker.old checker.new) }
{
    match item_form(node) {
        ItemForm::Impl {
            trait_: _,
            name,
            methods,
        } => impl_bodies(checker, name_of(name), methods),
        ItemForm::Fn(function) => own_body(checker, node.at, function),
        ItemForm::Struct { .. } => Ok(()),
        ItemForm::Enum { .. } => Ok(()),
        ItemForm::Trait { .. } => Ok(()),
        ItemForm::Other => Ok(()),
    }
}
