//! The items of a text, by stages.
ghost use Rattle.std.specs.Prelude.{◌≡◌, ◌≤◌, [], length, is_some, codes, IfOk, IfErr};
ghost use Rattle.mir_base.specs.declared.rule.Rule.{Rule};
ghost use Rattle.mir_base.specs.declared.rule.RuleError.{RuleError};
ghost use Rattle.typeck_heads.specs.Answers.{Answers};
ghost use Rattle.typeck_heads.specs.Forms.{known_of};
ghost use Rattle.name_table.specs.Collects.{Collects, declared as declared_by, int_scalars as ints_by, plain_scalars as plain_by, scalars as scalars_by, stages as stages_by, tested as tested_by};
ghost use Rattle.src_tree.specs.View as view;
ghost use Rattle.src_tree.specs.View.{parts_in};
ghost use Rattle.typing_rules.specs.Check.{obeys as obeyed_by};
ghost use Rattle.typing_rules.specs.Collected as walk;
ghost use Rattle.typing_rules.specs.Collected.{starting_with};
ghost use Rattle.typing_rules.specs.Items.{items_of};
ghost use Rattle.typing_rules.specs.Written.{number_of};

use crate::derives::derive;
use crate::finite_size::finite;
use crate::impl_walk::impls;
use crate::item_names::names_differ;
use crate::item_walk::heads;
use crate::known_names::names_of_items;
use mir_base::{IntKind, Pos, Rule, RuleError};
use mir_ty::{Items, Ty};
use src_tree::{NodePiece, Tree};
use std::alloc::Global;
use typeck_heads::{Known, intern, obeys};

fn plain_scalars(items: &mut Items) -> Result<(), RuleError>
    ensures { Answers (plain_by (starting_with items.old)) result items.new }
{
    intern(items, Ty::Unit)?;
    intern(items, Ty::Bool)?;
    intern(items, Ty::Never)?;
    Ok(())
}

fn int_scalars(items: &mut Items) -> Result<(), RuleError>
    ensures { Answers (ints_by (starting_with items.old)) result items.new }
{
    intern(items, Ty::Int(IntKind::I32))?;
    intern(items, Ty::Int(IntKind::I64))?;
    intern(items, Ty::Int(IntKind::U32))?;
    intern(items, Ty::Int(IntKind::U64))?;
    intern(items, Ty::Int(IntKind::Usize))?;
    Ok(())
}

/// The types that each program has.
fn scalars(items: &mut Items) -> Result<(), RuleError>
    ensures { Answers (scalars_by (starting_with items.old)) result items.new }
{
    plain_scalars(items)?;
    int_scalars(items)
}

/// Items with the types that each program has.
#[tactic(auto, using(crate::proofs::Stages::scalars_there))]
fn no_items(alloc: Global) -> Result<Items, RuleError>
    ensures items { IfOk result (λ items. items ≡ walk.no_items) }
    ensures short { IfErr result (λ e. e ≡ RuleError.Memory) }
{
    let mut items = Items::new(alloc);
    match scalars(&mut items) {
        Ok(()) => Ok(items),
        Err(e) => {
            drop(items);
            Err(e)
        }
    }
}

/// There is a function `main`.
fn has_main(items: &Items, known: &Known, end: Pos) -> Result<(), RuleError>
    ensures { Answers (obeyed_by Rule.T01 end (is_some (number_of (known_of known.now).paths (codes "main"))) (starting_with items.now)) result items.now }
{
    obeys(Rule::T01, end, known.paths.find("main").is_some())
}

/// Names, heads and impls.
fn declare_items(items: &mut Items, known: &Known, pieces: &[NodePiece]) -> Result<(), RuleError>
    requires ready { 8 ≤ length items.old.types }
    requires first { items.old.traits ≡ [] }
    ensures { Answers (declared_by (known_of known.now) (items_of (parts_in pieces.now)) (starting_with items.old)) result items.new }
{
    names_differ(items, known.alloc, pieces)?;
    heads(items, known, pieces)?;
    impls(items, known, pieces)
}

/// What structs and enums hold and derive, and `main`.
fn check_items(
    items: &mut Items,
    known: &Known,
    pieces: &[NodePiece],
    end: Pos,
) -> Result<(), RuleError>
    ensures { Answers (tested_by (known_of known.now) (items_of (parts_in pieces.now)) end (starting_with items.old)) result items.new }
{
    finite(items, known.alloc, pieces)?;
    derive(items, known.alloc, pieces)?;
    has_main(items, known, end)
}

/// All stages, by what is known of all items.
fn in_stages(
    items: &mut Items,
    known: &Known,
    pieces: &[NodePiece],
    end: Pos,
) -> Result<(), RuleError>
    requires ready { 8 ≤ length items.old.types }
    requires first { items.old.traits ≡ [] }
    ensures { Answers (stages_by (known_of known.now) (items_of (parts_in pieces.now)) end (starting_with items.old)) result items.new }
{
    declare_items(items, known, pieces)?;
    check_items(items, known, pieces, end)
}

fn collect_items(
    items: &mut Items,
    alloc: Global,
    pieces: &[NodePiece],
    end: Pos,
) -> Result<(), RuleError>
    requires ready { 8 ≤ length items.old.types }
    requires first { items.old.traits ≡ [] }
    ensures { Answers (walk.collecting (items_of (parts_in pieces.now)) end (starting_with items.old)) result items.new }
{
    let known = names_of_items(alloc, pieces)?;
    let done = in_stages(items, &known, pieces, end);
    drop(known);
    done
}

fn tree_collected(items: &mut Items, alloc: Global, tree: &Tree) -> Result<(), RuleError>
    requires ready { 8 ≤ length items.old.types }
    requires first { items.old.traits ≡ [] }
    ensures { Answers (walk.collecting (items_of (view.items_of tree.now)) tree.now.end (starting_with items.old)) result items.new }
{
    collect_items(items, alloc, tree.items.as_slice(), tree.end)
}

/// The items of a text by their names, or the first broken rule on items: T01, T02, T09 or T10, with its place.
///
/// The items are the structs, enums and traits of the text, the impls of its traits, and the heads of its functions,
/// methods and closures, each in text order; closures themselves come later, and a type in the head of one in which
/// a name is not known stands as `()`. First come the names of all items, then the names in their heads, then
/// structs and enums that hold themselves, then what is derived, and last a missing `main`, at the end of the text.
pub fn collect(alloc: Global, tree: &Tree) -> Result<Items, RuleError>
    ensures { Collects (walk.collected (view.items_of tree.now) tree.now.end) result }
{
    let mut items = no_items(alloc)?;
    match tree_collected(&mut items, alloc, tree) {
        Ok(()) => Ok(items),
        Err(error) => {
            drop(items);
            Err(error)
        }
    }
}
