//! The heads of all items, in text order.
ghost use Rattle.std.specs.Prelude.{◌≡◌, ◌≤◌, [], length, is_some, IfOk, IfErr};
ghost use Rattle.mir_base.specs.declared.rule.RuleError.{RuleError};
ghost use Rattle.typeck_heads.specs.Answers.{Answers};
ghost use Rattle.typeck_heads.specs.Counts.{count_of};
ghost use Rattle.typeck_heads.specs.Forms.{answered, known_of};
ghost use Rattle.name_table.specs.Forms.{item_added, item_of_node, one_more, piece_added as added_by};
ghost use Rattle.name_table.specs.Walked.{count_in};
ghost use Rattle.src_ast.specs.Seen.{syn_of, word_of};
ghost use Rattle.src_tree.specs.View.{parts_in, piece_of};
ghost use Rattle.typing_rules.specs.Collected as walk;
ghost use Rattle.typing_rules.specs.Collected.{starting_with};
ghost use Rattle.typing_rules.specs.Items.{impl_owner, items_of, trait_name};

use crate::items::item;
use mir_base::RuleError;
use mir_ty::Items;
use src_ast::{ItemForm, item_form, name_of};
use src_tree::{NodePiece, SyntaxNode};
use typeck_heads::{Count, Known, name_from, node_bodies};

/// How far a walk over items has come.
#[derive(Drop)]
pub struct Walked {
    pub count: Count,
    /// How many traits there have been.
    pub traits: u32,
}

/// The struct or enum whose impl an item is.
#[tactic(auto, using(crate::proofs::ItemForms::owner_seen))]
fn owner(node: &SyntaxNode) -> Option<&str>
    ensures { word_of result ≡ impl_owner (syn_of node.now) }
{
    match item_form(node) {
        ItemForm::Impl { name, .. } => Some(name_of(name)),
        ItemForm::Struct { .. } => None,
        ItemForm::Enum { .. } => None,
        ItemForm::Trait { .. } => None,
        ItemForm::Fn(_) => None,
        ItemForm::Other => None,
    }
}

#[tactic(auto, using(crate::proofs::ItemForms::trait_name_seen))]
fn is_trait(node: &SyntaxNode) -> bool
    ensures { result ≡ is_some (trait_name (syn_of node.now)) }
{
    match item_form(node) {
        ItemForm::Trait { .. } => true,
        ItemForm::Struct { .. } => false,
        ItemForm::Enum { .. } => false,
        ItemForm::Impl { .. } => false,
        ItemForm::Fn(_) => false,
        ItemForm::Other => false,
    }
}

/// How many traits there are behind an item.
fn traits_behind(traits: u32, node: &SyntaxNode) -> Result<u32, RuleError>
    ensures more { IfOk result (λ n. n ≡ one_more (trait_name (syn_of node.now)) traits) }
    ensures short { IfErr result (λ e. e ≡ RuleError.Memory) }
{
    if !is_trait(node) {
        return Ok(traits);
    }
    match traits.checked_add(1) {
        Some(more) => Ok(more),
        None => Err(RuleError::past_32_bits()),
    }
}

/// An item, added with its own head and the heads of the bodies in it.
fn item_and_bodies(
    items: &mut Items,
    known: &Known,
    traits: u32,
    count: Count,
    node: &SyntaxNode,
) -> Result<Count, RuleError>
    requires ready { 8 ≤ length items.old.types }
    requires next { traits ≡ length items.old.traits }
    ensures answers { Answers (item_added (known_of known.now) (count_of count) (item_of_node node.now) (starting_with items.old)) (answered count_of result) items.new }
    ensures grows { length items.old.types ≤ length items.new.types }
{
    item(items, known, traits, node)?;
    node_bodies(items, known, owner(node), count, node)
}

fn node_added(
    items: &mut Items,
    known: &Known,
    walked: Walked,
    node: &SyntaxNode,
) -> Result<Walked, RuleError>
    requires ready { 8 ≤ length items.old.types }
    requires next { walked.traits ≡ length items.old.traits }
    ensures answers { Answers (item_added (known_of known.now) (count_in walked) (item_of_node node.now) (starting_with items.old)) (answered count_in result) items.new }
    ensures grows { length items.old.types ≤ length items.new.types }
    ensures next { IfOk result (λ walked. walked.traits ≡ length items.new.traits) }
{
    let Walked { count, traits } = walked;
    let more = traits_behind(traits, node)?;
    let count = item_and_bodies(items, known, traits, count, node)?;
    Ok(Walked {
        count,
        traits: more,
    })
}

#[tactic(auto, using(crate::proofs::ItemWalk::added_token, crate::proofs::ItemWalk::added_node))]
fn piece_added(
    items: &mut Items,
    known: &Known,
    walked: Walked,
    piece: &NodePiece,
) -> Result<Walked, RuleError>
    requires ready { 8 ≤ length items.old.types }
    requires next { walked.traits ≡ length items.old.traits }
    ensures answers { Answers (added_by (known_of known.now) (count_in walked) (piece_of piece.now) (starting_with items.old)) (answered count_in result) items.new }
    ensures grows { length items.old.types ≤ length items.new.types }
    ensures next { IfOk result (λ walked. walked.traits ≡ length items.new.traits) }
{
    match piece {
        NodePiece::Node(node) => node_added(items, known, walked, node),
        NodePiece::Token(_) => Ok(walked),
    }
}

fn heads_from(
    items: &mut Items,
    known: &Known,
    walked: Walked,
    pieces: &[NodePiece],
) -> Result<(), RuleError>
    requires ready { 8 ≤ length items.old.types }
    requires next { walked.traits ≡ length items.old.traits }
    ensures answers { Answers (walk.heads_collected (known_of known.now) (count_in walked) (items_of (parts_in pieces.now)) (starting_with items.old)) result items.new }
    ensures grows { length items.old.types ≤ length items.new.types }
{
    let mut walked = walked;
    for piece in pieces {
        walked = piece_added(items, known, walked, piece)?;
    }
    Ok(())
}

/// All items with their heads, added in text order to items without a trait.
pub fn heads(items: &mut Items, known: &Known, pieces: &[NodePiece]) -> Result<(), RuleError>
    requires ready { 8 ≤ length items.old.types }
    requires first { items.old.traits ≡ [] }
    ensures answers { Answers (walk.heads_collected (known_of known.now) (record { outer = []; in_outer = 0; closures = 0 }) (items_of (parts_in pieces.now)) (starting_with items.old)) result items.new }
    ensures grows { length items.old.types ≤ length items.new.types }
{
    let outer = name_from(known.alloc, "")?;
    let count = Count {
        outer,
        in_outer: 0,
        closures: 0,
    };
    heads_from(items, known, Walked { count, traits: 0 }, pieces)
}
