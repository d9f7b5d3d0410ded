ghost use Rattle.std.specs.Prelude.{◌≡◌, min, [], ◌∷◌};
ghost use Rattle.src_tree.specs.Grammar.{counts as counts_of};
ghost use Rattle.src_tree.specs.Layout.{depth as depth_of, parts_depth};
ghost use Rattle.src_tree.specs.View.{layout_of, piece_of, parts_from, parts_in, items_of};

use crate::{GrammarRow, NodePiece, SyntaxNode, Tree};

/// How much a node of a row adds to the nesting.
pub fn counts(row: GrammarRow) -> u32
    ensures { result ≡ counts_of row }
{
    match row {
        GrammarRow::File
        | GrammarRow::Method
        | GrammarRow::Head
        | GrammarRow::Field
        | GrammarRow::Variant
        | GrammarRow::Ident
        | GrammarRow::FieldPattern
        | GrammarRow::Param
        | GrammarRow::SelfParam
        | GrammarRow::Let
        | GrammarRow::Empty
        | GrammarRow::Semi
        | GrammarRow::LabelName
        | GrammarRow::FieldInit => 0,
        _ => 1,
    }
}

#[cycle(depth)]
fn node_depth(node: &SyntaxNode) -> u32
    ensures { result ≡ min (depth_of (layout_of node.now)) 4294967295 }
{
    pieces_depth(node.parts.as_slice()).saturating_add(counts(node.row))
}

#[cycle(depth)]
fn pieces_depth(pieces: &[NodePiece]) -> u32
    ensures { result ≡ min (parts_depth (parts_in pieces.now)) 4294967295 }
{
    let mut deepest = 0;
    for piece in pieces {
        deepest = deepest.max(piece_depth(piece));
    }
    deepest
}

#[cycle(depth)]
fn piece_depth(piece: &NodePiece) -> u32
    ensures { result ≡ min (parts_depth (parts_from (piece_of piece.now ∷ []))) 4294967295 }
{
    match piece {
        NodePiece::Token(_) => 0,
        NodePiece::Node(node) => node_depth(node),
    }
}

/// How deep a tree nests: items, blocks, arms, expressions, patterns and types on the way from an item, which
/// has depth 1. It stays at the greatest `u32` past that. It takes no memory.
pub fn depth(tree: &Tree) -> u32
    ensures { result ≡ min (parts_depth (items_of tree.now)) 4294967295 }
{
    pieces_depth(tree.items.as_slice())
}
