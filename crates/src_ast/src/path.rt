ghost use Rattle.std.specs.Prelude.{◌≡◌};
ghost use Rattle.src_ast.specs.Seen.{maybe_of, nodes_of, syn_of, word_of};
ghost use Rattle.src_ast.specs.Syntax.{shape_of};
ghost use Rattle.src_ast.specs.View as seen;
ghost use Rattle.src_ast.specs.View.{tokens_in, views};
ghost use Rattle.src_tree.specs.View.{parts_in};

use crate::nodes::Nodes;
use crate::tokens::{a_name, has, split_token};
use src_token::{Mark, Token};
use src_tree::{GrammarRow, NodePiece, SyntaxNode, TokenKind};

/// A path: a name, or `Self` where `first` is `None`; and the name behind `::`.
#[derive(Clone, Copy)]
pub struct PathForm<'a> {
    pub first: Option<&'a str>,
    pub second: Option<&'a str>,
}

/// The name with which some parts begin; `None` where they begin with another token.
fn head(pieces: &[NodePiece]) -> Option<&str>
    ensures { word_of result ≡ seen.path_head (tokens_in (parts_in pieces.now)) }
{
    match split_token(pieces) {
        Some((Token::Name(name), _)) => Some(name.as_str()),
        _ => None,
    }
}

/// The name that a node is, if it is one.
#[tactic(auto, using(crate::proofs::Named::no_word_seen, crate::proofs::Named::seen_as))]
fn name_if(node: &SyntaxNode) -> Option<&str>
    ensures { word_of result ≡ seen.ident_in (shape_of (syn_of node.now)) }
{
    match node.row {
        GrammarRow::Ident => Some(a_name(node.parts.as_slice())),
        _ => None,
    }
}

fn ident_name(node: Option<&SyntaxNode>) -> Option<&str>
    ensures { word_of result ≡ seen.ident_name (maybe_of node.entry) }
{
    match node {
        Some(node) => name_if(node),
        None => None,
    }
}

fn tail(pieces: &[NodePiece]) -> Option<&str>
    ensures { word_of result ≡ seen.path_tail (tokens_in (parts_in pieces.now)) (views (parts_in pieces.now)) }
{
    if has(TokenKind::Mark(Mark::PathSep), pieces) {
        ident_name(Nodes::among(pieces).first())
    } else {
        None
    }
}

/// The path with which some parts begin.
pub fn path_of(pieces: &[NodePiece]) -> PathForm<'_>
    ensures first { word_of result.first ≡ seen.path_head (tokens_in (parts_in pieces.now)) }
    ensures second { word_of result.second
        ≡ seen.path_tail (tokens_in (parts_in pieces.now)) (views (parts_in pieces.now)) }
{
    PathForm {
        first: head(pieces),
        second: tail(pieces),
    }
}

/// The nodes behind the path with which some parts begin.
pub fn behind_path(pieces: &[NodePiece]) -> Nodes<'_>
    ensures { nodes_of result ≡ seen.behind_path (tokens_in (parts_in pieces.now)) (views (parts_in pieces.now)) }
{
    let nodes = Nodes::among(pieces);
    if has(TokenKind::Mark(Mark::PathSep), pieces) {
        nodes.rest()
    } else {
        nodes
    }
}
