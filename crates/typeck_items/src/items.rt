//! One item by its kind, but for its bodies.
ghost use Rattle.std.specs.Prelude.{◌≡◌, ◌&&◌, OnOk};
ghost use Rattle.src_ast.specs.ItemForms.{name_seen};
ghost use Rattle.src_ast.specs.Seen.{maybe_of, nodes_of, syn_of};
ghost use Rattle.typeck_checker.specs.Stand.{GivesValue, ChangesNothing, env, state};
ghost use Rattle.typing_rules.specs.Program as rules;
ghost use Rattle.typeck_items.specs.Forms.{fn_rules, impl_rules};
ghost use Rattle.typeck_items.specs.Had.{had};

use crate::adts::{enum_item, struct_item};
use crate::before::Before;
use crate::heads::head_rules;
use crate::impls::{is_whole, note_impl, own_methods};
use crate::main_head::main_rule;
use crate::trait_heads::trait_heads;
use mir_base::{Pos, Rule, RuleError};
use src_ast::{ItemForm, Nodes, item_form, name_of};
use src_tree::SyntaxNode;
use typeck_checker::Checker;
use typeck_heads::{broken_rule, obeys};

fn both(a: bool, b: bool) -> bool
    ensures { result ≡ (a && b) }
{
    a && b
}

/// An impl: its methods, and that it is the first of its trait for its type, and has all methods that it has to have.
fn impl_item(
    checker: &mut Checker,
    before: &mut Before,
    at: Pos,
    trait_: Option<&SyntaxNode>,
    owner: &str,
    methods: Nodes,
) -> Result<(), RuleError>
    ensures gives { GivesValue (λ u. had before.new) (impl_rules (env checker.old) (had before.old) at (name_seen trait_.entry) owner.now (nodes_of methods.entry) (state checker.old)) result checker.new }
    ensures same { OnOk result (ChangesNothing checker.old checker.new) }
{
    let is_whole = is_whole(checker, trait_, methods)?;
    let is_new = note_impl(&mut before.impls, checker.alloc, trait_, owner)?;
    own_methods(checker, &mut before.methods, trait_, owner, methods)?;
    obeys(Rule::T11, at, both(is_new, is_whole))
}

/// A function: its head, and where it is `main` what is asked of that.
fn fn_item(
    checker: &mut Checker,
    at: Pos,
    name: &str,
    params: Nodes,
    answer: Option<&SyntaxNode>,
) -> Result<(), RuleError>
    ensures gives { GivesValue (λ u. u) (fn_rules (env checker.old) at name.now (nodes_of params.entry) (maybe_of answer.entry) (state checker.old)) result checker.new }
    ensures same { OnOk result (ChangesNothing checker.old checker.new) }
{
    head_rules(checker, params, answer)?;
    main_rule(checker, at, name, params)
}

/// One item, but for its bodies; `before` is what came before it, and then what came before the next.
///
/// # Errors
///
/// The first rule that it breaks, with its place; [`RuleError::Memory`] where memory is wanted.
pub fn item_rules(
    checker: &mut Checker,
    before: &mut Before,
    node: &SyntaxNode,
) -> Result<(), RuleError>
    ensures gives { GivesValue (λ u. had before.new) (rules.item_rules (env checker.old) (had before.old) (syn_of node.now) (state checker.old)) result checker.new }
    ensures same { OnOk result (ChangesNothing checker.old checker.new) }
{
    let at = node.at;
    match item_form(node) {
        ItemForm::Struct {
            derives: _,
            name,
            kind: _,
            fields,
        } => struct_item(checker, at, name_of(name), fields),
        ItemForm::Enum {
            derives: _,
            name,
            variants,
        } => enum_item(checker, at, name_of(name), variants),
        ItemForm::Trait { name: _, heads } => trait_heads(checker, heads),
        ItemForm::Impl {
            trait_,
            name,
            methods,
        } => impl_item(checker, before, at, trait_, name_of(name), methods),
        ItemForm::Fn(function) => {
            let name = name_of(function.name);
            fn_item(checker, at, name, function.params, function.answer)
        }
        ItemForm::Other => Err(broken_rule(Rule::T20, at)),
    }
}
