ghost use Rattle.std.specs.Prelude.{◌≡◌, ◌++◌, [], ◌∷◌, OnOk, IfOk, ◌<◌, ◌^◌};
ghost use Rattle.src_tree.specs.Layout.{spell as spelled, spell_parts};
ghost use Rattle.src_tree.specs.View.{layout_of, piece_of, parts_from, parts_in, items_of};

use crate::{NodePiece, SyntaxNode, Tree};
use mir_base::{List, NoMemory};
use src_token::Token;
use std::alloc::Global;

/// A second token with the same content.
pub fn copy_token(alloc: Global, token: &Token) -> Result<Token, NoMemory>
    ensures { IfOk result (λ copy. copy ≡ token.now) }
{
    match token {
        Token::Name(name) => Ok(Token::Name(name.copy(alloc)?)),
        Token::Word(word) => Ok(Token::Word(*word)),
        Token::Number { value, suffix } => Ok(Token::Number {
            value: *value,
            suffix: *suffix,
        }),
        Token::Label(name) => Ok(Token::Label(name.copy(alloc)?)),
        Token::Text(text) => Ok(Token::Text(text.copy(alloc)?)),
        Token::Mark(mark) => Ok(Token::Mark(*mark)),
    }
}

#[cycle(spell)]
fn spell_node(alloc: Global, node: &SyntaxNode, out: &mut List<Token>) -> Result<(), NoMemory>
    ensures { OnOk result (out.new ≡ out.old ++ spelled (layout_of node.now) []) }
{
    spell_pieces(alloc, node.parts.as_slice(), out)
}

#[cycle(spell)]
fn spell_pieces(alloc: Global, pieces: &[NodePiece], out: &mut List<Token>) -> Result<(), NoMemory>
    ensures { OnOk result (out.new ≡ out.old ++ spell_parts (parts_in pieces.now) []) }
{
    for piece in pieces {
        spell_piece(alloc, piece, out)?;
    }
    Ok(())
}

#[cycle(spell)]
fn spell_piece(alloc: Global, piece: &NodePiece, out: &mut List<Token>) -> Result<(), NoMemory>
    ensures { OnOk result (out.new ≡ out.old ++ spell_parts (parts_from (piece_of piece.now ∷ [])) []) }
{
    match piece {
        NodePiece::Token(token) => {
            let copy = copy_token(alloc, token)?;
            out.push(copy)
        }
        NodePiece::Node(node) => spell_node(alloc, node, out),
    }
}

/// The tokens of a tree, parentheses and last commas among them, in the order of the text. It refuses only
/// for want of memory.
pub fn spell(alloc: Global, tree: &Tree) -> Result<List<Token>, NoMemory>
    ensures { IfOk result (λ tokens. tokens ≡ spell_parts (items_of tree.now) []) }
{
    let mut out = List::new(alloc);
    spell_pieces(alloc, tree.items.as_slice(), &mut out)?;
    Ok(out)
}
