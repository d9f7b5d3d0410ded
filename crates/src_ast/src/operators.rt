ghost use Rattle.std.specs.Prelude.{◌≡◌, ◌∷◌, option_map};
ghost use Rattle.src_ast.specs.Expressions.{expression_of};
ghost use Rattle.src_ast.specs.Seen.{made_of, syn_of, two_first};
ghost use Rattle.src_ast.specs.View.{first_that, math_in as math_of, cmp_in as cmp_of, prefix as prefix_of, tokens_in, views};
ghost use Rattle.src_tree.specs.View.{parts_in};
ghost use Rattle.src_ast.specs.Sorts.{expression_part};
ghost use Rattle.src_tree.specs.declared.row.GrammarRow.{GrammarRow};

use crate::expression::ExpressionForm;
use crate::nodes::{First, Nodes};
use crate::tokens::{has, split_token};
use mir_base::{Cmp, Math};
use src_token::{Mark, Token, Word};
use src_tree::{NodePiece, SyntaxNode, TokenKind, is};

/// The first two nodes among some parts.
#[tactic(auto, using(crate::proofs::Seconds::second_is))]
fn two(pieces: &[NodePiece]) -> Option<(&SyntaxNode, &SyntaxNode)>
    ensures { option_map (λ e. (syn_of e.0.now, syn_of e.1.now)) result ≡ two_first (views (parts_in pieces.now)) }
{
    let First { first, rest } = Nodes::among(pieces).split_first()?;
    let second = rest.first()?;
    Some((first, second))
}

pub(crate) fn assign(pieces: &[NodePiece]) -> ExpressionForm<'_>
    ensures { expression_of result ≡ expression_part (made_of GrammarRow.Assign pieces.now) }
{
    match two(pieces) {
        Some((first, second)) => ExpressionForm::Assign {
            place: first,
            value: second,
        },
        None => ExpressionForm::Other,
    }
}

pub(crate) fn or(pieces: &[NodePiece]) -> ExpressionForm<'_>
    ensures { expression_of result ≡ expression_part (made_of GrammarRow.Or pieces.now) }
{
    match two(pieces) {
        Some((first, second)) => ExpressionForm::Or {
            left: first,
            right: second,
        },
        None => ExpressionForm::Other,
    }
}

pub(crate) fn and(pieces: &[NodePiece]) -> ExpressionForm<'_>
    ensures { expression_of result ≡ expression_part (made_of GrammarRow.And pieces.now) }
{
    match two(pieces) {
        Some((first, second)) => ExpressionForm::And {
            left: first,
            right: second,
        },
        None => ExpressionForm::Other,
    }
}

pub(crate) fn index(pieces: &[NodePiece]) -> ExpressionForm<'_>
    ensures { expression_of result ≡ expression_part (made_of GrammarRow.Index pieces.now) }
{
    match two(pieces) {
        Some((first, second)) => ExpressionForm::Index {
            base: first,
            index: second,
        },
        None => ExpressionForm::Other,
    }
}

fn math_in(token: &Token) -> Option<Math>
    ensures { result ≡ math_of token.now }
{
    match token {
        Token::Mark(Mark::Plus) => Some(Math::Add),
        Token::Mark(Mark::Minus) => Some(Math::Sub),
        Token::Mark(Mark::Star) => Some(Math::Mul),
        Token::Mark(Mark::Slash) => Some(Math::Div),
        Token::Mark(Mark::Percent) => Some(Math::Rem),
        _ => None,
    }
}

fn cmp_in(token: &Token) -> Option<Cmp>
    ensures { result ≡ cmp_of token.now }
{
    match token {
        Token::Mark(Mark::EqEq) => Some(Cmp::Eq),
        Token::Mark(Mark::Ne) => Some(Cmp::Ne),
        Token::Mark(Mark::Lt) => Some(Cmp::Lt),
        Token::Mark(Mark::Le) => Some(Cmp::Le),
        Token::Mark(Mark::Gt) => Some(Cmp::Gt),
        Token::Mark(Mark::Ge) => Some(Cmp::Ge),
        _ => None,
    }
}

fn a_math(pieces: &[NodePiece]) -> Option<Math>
    ensures { result ≡ first_that math_of (tokens_in (parts_in pieces.now)) }
{
    for piece in pieces {
        if let NodePiece::Token(token) = piece {
            let found = math_in(token);
            if found.is_some() {
                return found;
            }
        }
    }
    None
}

fn a_cmp(pieces: &[NodePiece]) -> Option<Cmp>
    ensures { result ≡ first_that cmp_of (tokens_in (parts_in pieces.now)) }
{
    for piece in pieces {
        if let NodePiece::Token(token) = piece {
            let found = cmp_in(token);
            if found.is_some() {
                return found;
            }
        }
    }
    None
}

pub(crate) fn sum(pieces: &[NodePiece]) -> ExpressionForm<'_>
    ensures { expression_of result ≡ expression_part (made_of GrammarRow.Sum pieces.now) }
{
    let Some(operator) = a_math(pieces) else {
        return ExpressionForm::Other;
    };
    match two(pieces) {
        Some((left, right)) => ExpressionForm::Math {
            operator,
            left,
            right,
        },
        None => ExpressionForm::Other,
    }
}

pub(crate) fn product(pieces: &[NodePiece]) -> ExpressionForm<'_>
    ensures { expression_of result ≡ expression_part (made_of GrammarRow.Product pieces.now) }
{
    let Some(operator) = a_math(pieces) else {
        return ExpressionForm::Other;
    };
    match two(pieces) {
        Some((left, right)) => ExpressionForm::Math {
            operator,
            left,
            right,
        },
        None => ExpressionForm::Other,
    }
}

pub(crate) fn compare(pieces: &[NodePiece]) -> ExpressionForm<'_>
    ensures { expression_of result ≡ expression_part (made_of GrammarRow.Compare pieces.now) }
{
    let Some(operator) = a_cmp(pieces) else {
        return ExpressionForm::Other;
    };
    match two(pieces) {
        Some((left, right)) => ExpressionForm::Compare {
            operator,
            left,
            right,
        },
        None => ExpressionForm::Other,
    }
}

fn with_sign<'a>(sign: &Token, behind: &[NodePiece], operand: &'a SyntaxNode) -> ExpressionForm<'a>
    ensures { expression_of result
        ≡ expression_part (prefix_of (sign.now ∷ tokens_in (parts_in behind.now)) (syn_of operand.now)) }
{
    if is(TokenKind::Mark(Mark::Minus), sign) {
        ExpressionForm::Negate(operand)
    } else if is(TokenKind::Mark(Mark::Not), sign) {
        ExpressionForm::Not(operand)
    } else if is(TokenKind::Mark(Mark::Star), sign) {
        ExpressionForm::Deref(operand)
    } else {
        ExpressionForm::Borrow {
            unique: has(TokenKind::Word(Word::Mut), behind),
            operand,
        }
    }
}

pub(crate) fn prefix(pieces: &[NodePiece]) -> ExpressionForm<'_>
    ensures { expression_of result ≡ expression_part (made_of GrammarRow.Prefix pieces.now) }
{
    let Some(operand) = Nodes::among(pieces).first() else {
        return ExpressionForm::Other;
    };
    match split_token(pieces) {
        Some((sign, behind)) => with_sign(sign, behind, operand),
        None => ExpressionForm::Other,
    }
}
