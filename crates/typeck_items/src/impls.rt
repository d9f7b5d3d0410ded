//! Impls (The Rust Reference, "Implementations"): one of a trait for a type, which has all methods of the trait.
ghost use Rattle.std.specs.Prelude.{◌≡◌, not, true, IfErr, IfOk, OnOk};
ghost use Rattle.mir_base.specs.declared.rule.RuleError.{RuleError};
ghost use Rattle.src_ast.specs.ItemForms.{name_seen};
ghost use Rattle.src_ast.specs.Seen.{nodes_of};
ghost use Rattle.src_ast.specs.Syntax.{list_of};
ghost use Rattle.typeck_checker.specs.Stand.{GivesValue, ChangesNothing, env, state};
ghost use Rattle.typing_rules.specs.Program as rules;
ghost use Rattle.typing_rules.specs.Scope.{adt_named};
ghost use Rattle.typeck_items.specs.Forms.{asked_by, asked_of};

use crate::enclosing_impl::{enter_impl, leave_impl};
use crate::method_heads::is_drop;
use crate::methods::{method_heads, note_pair};
use crate::names::{has_drop, method_names};
use crate::pairs::NamePairs;
use crate::{has_all, trait_named};
use mir_base::RuleError;
use src_ast::{Nodes, name_of};
use src_tree::SyntaxNode;
use std::alloc::Global;
use typeck_checker::Checker;
use typeck_heads::NameTable;

/// Whether all methods of a trait are among these names.
fn has_all_of(checker: &Checker, trait_no: Option<u32>, given: &NameTable) -> bool
    ensures { result ≡ rules.has_all (asked_of checker.now.walk.items trait_no) given.now }
{
    match trait_no {
        Some(trait_no) => match checker.walk.items.trait_def(trait_no) {
            Some(def) => has_all(def, given),
            None => true,
        },
        None => true,
    }
}

fn has_all_named(checker: &Checker, trait_: &str, given: &NameTable) -> bool
    ensures { result ≡ rules.has_all (asked_by checker.now.walk.items trait_.now) given.now }
{
    if is_drop(trait_) {
        has_drop(given)
    } else {
        has_all_of(checker, trait_named(checker, trait_), given)
    }
}

/// Whether an impl has all methods that it has to have.
fn has_asked(checker: &Checker, trait_: Option<&SyntaxNode>, given: &NameTable) -> bool
    ensures { result ≡ rules.has_all (rules.asked_for checker.now.walk.items (name_seen trait_.entry)) given.now }
{
    match trait_ {
        Some(trait_) => has_all_named(checker, name_of(trait_), given),
        None => true,
    }
}

/// Whether all methods that an impl has to have are among its own.
///
/// # Errors
///
/// [`RuleError::Memory`] alone, where memory is wanted.
pub fn is_whole(
    checker: &Checker,
    trait_: Option<&SyntaxNode>,
    methods: Nodes,
) -> Result<bool, RuleError>
    ensures told { IfOk result (λ is. is ≡ rules.has_all (rules.asked_for checker.now.walk.items (name_seen trait_.entry)) (rules.method_names (nodes_of methods.entry))) }
    ensures short { IfErr result (λ e. e ≡ RuleError.Memory) }
{
    let given = method_names(checker.alloc, methods)?;
    Ok(has_asked(checker, trait_, &given))
}

/// Notes an impl of a trait, and answers whether it is the first of this trait for this type; an impl of no trait is.
///
/// # Errors
///
/// [`RuleError::Memory`] alone, where memory is wanted.
pub fn note_impl(
    impls: &mut NamePairs,
    alloc: Global,
    trait_: Option<&SyntaxNode>,
    owner: &str,
) -> Result<bool, RuleError>
    ensures told { IfOk result (λ is_new. is_new ≡ not (rules.is_repeated (name_seen trait_.entry) owner.now impls.old)) }
    ensures added { IfOk result (λ is_new. is_new ≡ true → impls.new ≡ rules.with_impl (name_seen trait_.entry) owner.now impls.old) }
    ensures short { IfErr result (λ e. e ≡ RuleError.Memory) }
{
    match trait_ {
        Some(trait_) => note_pair(impls, alloc, owner, name_of(trait_)),
        None => Ok(true),
    }
}

/// The heads of the methods of an impl, where `Self` is its type.
pub fn own_methods(
    checker: &mut Checker,
    seen: &mut NamePairs,
    trait_: Option<&SyntaxNode>,
    owner: &str,
    nodes: Nodes,
) -> Result<(), RuleError>
    ensures gives { GivesValue (λ u. seen.new) (rules.method_heads (rules.in_impl (env checker.old) (adt_named checker.old.walk.items owner.now)) (name_seen trait_.entry) owner.now seen.old (list_of (nodes_of nodes.entry)) (state checker.old)) result checker.new }
    ensures same { OnOk result (ChangesNothing checker.old checker.new) }
{
    let before = enter_impl(checker, owner);
    method_heads(checker, seen, trait_, owner, nodes)?;
    leave_impl(checker, before);
    Ok(())
}
