//! The impls of traits, added once all traits have their methods.
ghost use Rattle.std.specs.Prelude.{◌≡◌, ◌≤◌, length};
ghost use Rattle.typeck_heads.specs.Answers.{Answers};
ghost use Rattle.typeck_heads.specs.Forms.{known_of};
ghost use Rattle.name_table.specs.Forms.{done_in, each_done, impl_named, impl_of_names};
ghost use Rattle.src_ast.specs.ItemForms.{name_seen};
ghost use Rattle.src_ast.specs.Seen.{syn_of};
ghost use Rattle.src_ast.specs.View.{named};
ghost use Rattle.src_tree.specs.View.{parts_in, piece_of};
ghost use Rattle.typing_rules.specs.Collected as walk;
ghost use Rattle.typing_rules.specs.Collected.{starting_with};
ghost use Rattle.typing_rules.specs.Items.{item_syns, items_of};

use mir_base::{Rule, RuleError};
use mir_ty::Items;
use src_ast::{ItemForm, item_form, name_of};
use src_tree::{NodePiece, SyntaxNode};
use typeck_heads::{Known, add_impl, broken_rule};

fn is_drop(name: &str) -> bool
    ensures { result ≡ walk.is_drop name.now }
{
    name == "Drop"
}

/// An impl of a trait, added; one of `Drop` is a body of its struct or enum alone.
fn trait_impl(
    items: &mut Items,
    known: &Known,
    trait_: &SyntaxNode,
    name: &SyntaxNode,
) -> Result<(), RuleError>
    ensures answers { Answers (impl_named (known_of known.now) (named (syn_of trait_.now)) (named (syn_of name.now)) (starting_with items.old)) result items.new }
    ensures grows { length items.old.types ≤ length items.new.types }
{
    let trait_name = name_of(trait_);
    if is_drop(trait_name) {
        return Ok(());
    }
    let Some(trait_no) = known.traits.find(trait_name) else {
        return Err(broken_rule(Rule::T01, trait_.at));
    };
    let owner = name_of(name);
    let Some(adt) = known.adts.find(owner) else {
        return Err(broken_rule(Rule::T01, name.at));
    };
    add_impl(items, known, trait_no, adt, trait_name, owner)
}

fn maybe_impl(
    items: &mut Items,
    known: &Known,
    trait_: Option<&SyntaxNode>,
    name: &SyntaxNode,
) -> Result<(), RuleError>
    ensures answers { Answers (impl_of_names (known_of known.now) (name_seen trait_.entry) (named (syn_of name.now)) (starting_with items.old)) result items.new }
    ensures grows { length items.old.types ≤ length items.new.types }
{
    match trait_ {
        Some(trait_) => trait_impl(items, known, trait_, name),
        None => Ok(()),
    }
}

#[tactic(auto, using(crate::proofs::ItemForms::impl_seen))]
fn impl_item(items: &mut Items, known: &Known, node: &SyntaxNode) -> Result<(), RuleError>
    ensures answers { Answers (walk.impl_of (known_of known.now) (syn_of node.now) (starting_with items.old)) result items.new }
    ensures grows { length items.old.types ≤ length items.new.types }
{
    match item_form(node) {
        ItemForm::Impl { trait_, name, .. } => maybe_impl(items, known, trait_, name),
        ItemForm::Struct { .. } => Ok(()),
        ItemForm::Enum { .. } => Ok(()),
        ItemForm::Trait { .. } => Ok(()),
        ItemForm::Fn(_) => Ok(()),
        ItemForm::Other => Ok(()),
    }
}

#[tactic(auto, using(crate::proofs::EachItem::done_token, crate::proofs::EachItem::done_node))]
fn impl_at(items: &mut Items, known: &Known, piece: &NodePiece) -> Result<(), RuleError>
    ensures answers { Answers (done_in (walk.impl_of (known_of known.now)) (piece_of piece.now) (starting_with items.old)) result items.new }
    ensures grows { length items.old.types ≤ length items.new.types }
{
    match piece {
        NodePiece::Node(node) => impl_item(items, known, node),
        NodePiece::Token(_) => Ok(()),
    }
}

/// All impls of traits, added in text order.
pub fn impls(items: &mut Items, known: &Known, pieces: &[NodePiece]) -> Result<(), RuleError>
    ensures answers { Answers (each_done (walk.impl_of (known_of known.now)) (item_syns (items_of (parts_in pieces.now))) (starting_with items.old)) result items.new }
    ensures grows { length items.old.types ≤ length items.new.types }
{
    for piece in pieces {
        impl_at(items, known, piece)?;
    }
    Ok(())
}
