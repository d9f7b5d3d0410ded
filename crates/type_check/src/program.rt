//! The typed program of a text.
ghost use Rattle.std.specs.Prelude.{◌≡◌, []};
ghost use Rattle.src_tree.specs.View as view;
ghost use Rattle.src_tree.specs.View.{parts_in};
ghost use Rattle.typeck_checker.specs.Stand.{env, state};
ghost use Rattle.typed_tree.specs.View.{program_of};
ghost use Rattle.typing_rules.specs.Items.{item_syns, items_of};
ghost use Rattle.typing_rules.specs.Program as rules;
ghost use Rattle.type_check.specs.Checks.{Checks, program_at};

use crate::checker_of;
use crate::walk::all_items;
use mir_base::{NoMemory, RuleError};
use mir_ty::Items;
use src_tree::{NodePiece, Tree};
use std::alloc::Global;
use typeck_checker::Checker;
use typed_tree::Typed;

/// The program of a walk that is at its end.
fn typed_of(checker: Checker) -> Typed
    ensures { program_of result ≡ program_at (state checker) }
{
    let Checker { walk, .. } = checker;
    walk.into_program()
}

/// The program that a checker gives that stands outside all items.
fn check_items(checker: Checker, pieces: &[NodePiece]) -> Result<Typed, RuleError>
    requires { (env checker).variables ≡ [] }
    ensures { Checks (rules.program_in (rules.all_items (env checker) (record { methods = []; impls = [] }) (item_syns (items_of (parts_in pieces.now))) (state checker))) result }
{
    let mut checker = checker;
    all_items(&mut checker, pieces)?;
    Ok(typed_of(checker))
}

/// The typed program of a text whose items `name_table`'s `collect` gave, or the first broken rule of typing: one of T01 to
/// T08, T11 to T13 and T16 to T19, with its place. Items are gone over in text order, of each its head and then its bodies;
/// in a body the parts of a node come before the node, in written order.
///
/// It costs by the size of the text, with one look-up a name.
///
/// # Errors
///
/// [`RuleError::Broken`] with the first broken rule, and [`RuleError::Memory`] where memory is wanted. The items are gone
/// then.
pub fn check(alloc: Global, tree: &Tree, items: Items) -> Result<Typed, RuleError>
    ensures { Checks (rules.checked (view.items_of tree.now) items) result }
{
    match checker_of(alloc, tree.items.as_slice(), items) {
        Ok(checker) => check_items(checker, tree.items.as_slice()),
        Err(NoMemory) => Err(RuleError::Memory),
    }
}
