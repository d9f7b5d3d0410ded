//! Whether a tree is levelled: each node at a place where it may stand, with the parts that its row has there.
ghost use Rattle.std.specs.Prelude.{◌≡◌, ◌↔◌, IsTrue, Some, None, option_map};
ghost use Rattle.src_tree.specs.Checking.{row_number as row_number_is, is_row as is_row_of, levels, begun as begun_of, follows as follows_of, past as past_of};
ghost use Rattle.src_tree.specs.Grammar.{items as items_rest};
ghost use Rattle.src_tree.specs.Layout.{ItemsLevelled};
ghost use Rattle.src_tree.specs.Table.{rest_of};
ghost use Rattle.src_tree.specs.View.{layout_of, piece_of, parts_in, items_of};

use crate::grammar::{is_allowed, place_of, seen_from};
use crate::table::ITEMS;
use crate::{
    GrammarPlace, GrammarPoint, GrammarRow, NodePiece, Seen, SyntaxNode, Tree, advance, behind,
    due, entry, join_beginning, row_at_end,
};

/// The number of a row, by which rows are told apart.
fn row_number(row: GrammarRow) -> u8
    ensures { result ≡ row_number_is row }
{
    row as u8
}

fn is_row(row: GrammarRow, other: GrammarRow) -> bool
    ensures { result ≡ is_row_of row other }
{
    row_number(row) == row_number(other)
}

#[cycle(levelled)]
fn node_levelled(place: GrammarPlace, node: &SyntaxNode) -> bool
    ensures { result ≡ levels (Some place) (layout_of node.now) }
{
    is_allowed(place, node.row) && makes_row(seen_from(place), node)
}

/// Whether the parts of a node make its row, where its parts see this of its place.
#[cycle(levelled)]
#[tactic(auto, using(crate::proofs::Tests::follows_none))]
fn makes_row(seen: Seen, node: &SyntaxNode) -> bool
    ensures { result ≡ begun_of seen node.now.row (parts_in node.now.parts) }
{
    match node.parts.as_slice().split_first() {
        Some((NodePiece::Token(token), rest)) => match entry(seen, token) {
            Some((_, at)) => follows(seen.head, GrammarPoint::At(at), node.row, rest),
            None => false,
        },
        Some((NodePiece::Node(first), rest)) => match rest.split_first() {
            Some((NodePiece::Token(token), rest)) => match join_beginning(seen, token) {
                Some(begun) => {
                    node_levelled(begun.place, first)
                        && follows(seen.head, GrammarPoint::At(begun.at), node.row, rest)
                }
                None => false,
            },
            _ => false,
        },
        None => false,
    }
}

/// Where a node is behind a part of it; `None` where the part is not due.
#[cycle(levelled)]
fn past(head: bool, point: GrammarPoint, piece: &NodePiece) -> Option<GrammarPoint>
    ensures { option_map rest_of result ≡ past_of head (rest_of point) (piece_of piece.now) }
{
    match piece {
        NodePiece::Token(token) => advance(point, token),
        NodePiece::Node(node) => match due(point) {
            Some(part) if node_levelled(place_of(head, part), node) => {
                Some(behind(point, node.row))
            }
            _ => None,
        },
    }
}

/// Whether what is due from a point on, these parts are.
#[cycle(levelled)]
#[tactic(auto, using(crate::proofs::Tests::follows_none))]
fn follows(head: bool, from: GrammarPoint, row: GrammarRow, pieces: &[NodePiece]) -> bool
    ensures { result ≡ follows_of head (Some (rest_of from)) row (parts_in pieces.now) }
{
    let mut point = from;
    for piece in pieces {
        match past(head, point, piece) {
            Some(next) => point = next,
            None => return false,
        }
    }
    match row_at_end(point) {
        Some(made) => is_row(made, row),
        None => false,
    }
}

/// Whether each part of a tree is one that its row has there, and each operand stands at its level. It takes no
/// memory.
#[tactic(auto, using(crate::proofs::Tests::levels_are, crate::proofs::Named::items_is))]
pub fn is_levelled(tree: &Tree) -> bool
    ensures { IsTrue result ↔ ItemsLevelled (items_of tree.now) }
{
    follows(
        false,
        GrammarPoint::At(ITEMS),
        GrammarRow::File,
        tree.items.as_slice(),
    )
}
