use crate::GrammarRow;
use mir_base::{List, Pos};
use src_token::Token;

/// A node of a syntax tree: an item, a type, a pattern, an expression, or a part of one. It keeps all its
/// tokens, parentheses and last commas among them.
#[derive(Drop)]
#[cycle(node)]
pub struct SyntaxNode {
    /// Which row of the grammar it is.
    pub row: GrammarRow,
    /// Where its first token stands.
    pub at: Pos,
    /// Its tokens and nodes as they are written.
    pub parts: List<NodePiece>,
}

/// A part of a node.
#[derive(Drop)]
#[cycle(node)]
pub enum NodePiece {
    Token(Token),
    Node(SyntaxNode),
}

/// The syntax tree of a text.
#[derive(Drop)]
pub struct Tree {
    /// The items, each `NodePiece::Node` of a row of items.
    pub items: List<NodePiece>,
    /// The end of the text.
    pub end: Pos,
}
