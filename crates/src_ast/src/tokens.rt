//! What the tokens of a node tell.
ghost use Rattle.std.specs.Prelude.{◌≡◌, ◌∷◌, [], MatchOption};
ghost use Rattle.src_ast.specs.Seen.{word_of};
ghost use Rattle.src_ast.specs.View as seen;
ghost use Rattle.src_ast.specs.View.{tokens_in};
ghost use Rattle.src_tree.specs.View.{parts_in};

use mir_base::IntKind;
use src_token::{Mark, Token, Word};
use src_tree::{NodePiece, TokenKind, is};

/// Whether a token of this kind is among some parts.
pub fn has(kind: TokenKind, pieces: &[NodePiece]) -> bool
    ensures { result ≡ seen.has kind (tokens_in (parts_in pieces.now)) }
{
    for piece in pieces {
        if let NodePiece::Token(token) = piece
            && is(kind, token)
        {
            return true;
        }
    }
    false
}

/// The first name among some parts; where there is none, an empty one.
pub fn a_name(pieces: &[NodePiece]) -> &str
    ensures { result.now ≡ seen.a_name (tokens_in (parts_in pieces.now)) }
{
    for piece in pieces {
        if let NodePiece::Token(Token::Name(name)) = piece {
            return name.as_str();
        }
    }
    ""
}

/// The first number among some parts, with its suffix; where there is none, 0.
pub fn a_number(pieces: &[NodePiece]) -> (u64, Option<IntKind>)
    ensures { result ≡ seen.a_number (tokens_in (parts_in pieces.now)) }
{
    for piece in pieces {
        if let NodePiece::Token(Token::Number { value, suffix }) = piece {
            return (*value, *suffix);
        }
    }
    (0, None)
}

/// The first label among some parts.
pub fn a_label(pieces: &[NodePiece]) -> Option<&str>
    ensures { word_of result ≡ seen.a_label (tokens_in (parts_in pieces.now)) }
{
    for piece in pieces {
        if let NodePiece::Token(Token::Label(name)) = piece {
            return Some(name.as_str());
        }
    }
    None
}

/// Whether `true` is among some parts.
pub fn has_true(pieces: &[NodePiece]) -> bool
    ensures { result ≡ seen.has_true (tokens_in (parts_in pieces.now)) }
{
    for piece in pieces {
        if let NodePiece::Token(Token::Word(Word::True)) = piece {
            return true;
        }
    }
    false
}

/// The first token among some parts, and the parts behind it.
pub fn split_token(pieces: &[NodePiece]) -> Option<(&Token, &[NodePiece])>
    ensures { MatchOption result (tokens_in (parts_in pieces.now) ≡ []) (λ e.
        tokens_in (parts_in pieces.now) ≡ e.0.now ∷ tokens_in (parts_in e.1.now)) }
{
    for (i, piece) in pieces.iter().enumerate() {
        if let NodePiece::Token(token) = piece {
            return Some((token, &pieces[i + 1..]));
        }
    }
    None
}
