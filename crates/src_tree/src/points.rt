//! What comes next at a point of a row.
ghost use Rattle.std.specs.Prelude.{◌≡◌, ◌&&◌, slice_get, option_map, Some, None, if◌then◌else◌};
ghost use Rattle.src_tree.specs.Grammar.{is as is_kind, move as moved, due as due_of, behind as behind_of, made as made_of, behind_statement as statement_of, behind_arm as arm_of, behind_body as body_of, behind_break as break_of};
ghost use Rattle.src_tree.specs.Table.{shown, rest_at, rest_of};

use crate::grammar::is;
use crate::table::*;
use crate::{GrammarPart, GrammarRow, TokenKind};
use src_token::{Mark, Token};

fn pick(steps: &[GrammarStep], at: u16) -> Option<GrammarStep>
    ensures { slice_get steps.now at ≡ result }
{
    steps.get(at as usize).copied()
}

fn look_up(at: u16) -> Option<GrammarStep>
    ensures { slice_get TABLE at ≡ result }
{
    pick(&TABLE, at)
}

/// The step of a number; past the table it ends a file.
#[tactic(auto, using(crate::proofs::Tables::step_there, crate::proofs::Tables::step_absent))]
pub fn step_at(at: u16) -> GrammarStep
    ensures { shown rest_at result ≡ rest_at at }
{
    match look_up(at) {
        Some(step) => step,
        None => GrammarStep::Ends(GrammarRow::File),
    }
}

/// Where a node is behind a token; `None` where the token is none of it.
pub fn advance(point: GrammarPoint, token: &Token) -> Option<GrammarPoint>
    ensures { option_map rest_of result ≡ moved (rest_of point) token.now }
{
    match point {
        GrammarPoint::At(at) => advance_at(at, token),
        GrammarPoint::More(at) => match step_at(at) {
            GrammarStep::List { close, after, .. } => {
                if is(close, token) {
                    Some(GrammarPoint::At(after))
                } else if is(TokenKind::Mark(Mark::Comma), token) {
                    Some(GrammarPoint::Later(at))
                } else {
                    None
                }
            }
            _ => None,
        },
        GrammarPoint::Later(at) => match step_at(at) {
            GrammarStep::List {
                dots,
                close,
                after,
                ..
            } => {
                if is(close, token) {
                    Some(GrammarPoint::At(after))
                } else if dots && is(TokenKind::Mark(Mark::DotDot), token) {
                    Some(GrammarPoint::Last(at))
                } else {
                    None
                }
            }
            _ => None,
        },
        GrammarPoint::Last(at) => match step_at(at) {
            GrammarStep::List { close, after, .. } => ahead_if(is(close, token), after),
            _ => None,
        },
    }
}

fn ahead_if(goes: bool, after: u16) -> Option<GrammarPoint>
    ensures { result ≡ (if goes then Some (GrammarPoint.At after) else None) }
{
    if goes {
        Some(GrammarPoint::At(after))
    } else {
        None
    }
}

#[tactic(auto, using(crate::proofs::Named::alternative_is, crate::proofs::Named::block_end_is, crate::proofs::Named::match_end_is))]
fn advance_at(at: u16, token: &Token) -> Option<GrammarPoint>
    ensures { option_map rest_of result ≡ moved (rest_at at) token.now }
{
    match step_at(at) {
        GrammarStep::Token(kind, after) | GrammarStep::Many(_, kind, after) => ahead_if(
            is(kind, token),
            after,
        ),
        GrammarStep::Either(kind, after, other) => {
            if is(kind, token) {
                Some(GrammarPoint::At(after))
            } else {
                advance_at(other, token)
            }
        }
        GrammarStep::List {
            dots,
            close,
            after,
            ..
        } => {
            if is(close, token) {
                Some(GrammarPoint::At(after))
            } else if dots && is(TokenKind::Mark(Mark::DotDot), token) {
                Some(GrammarPoint::Last(at))
            } else {
                None
            }
        }
        GrammarStep::Alternatives => ahead_if(is(TokenKind::Mark(Mark::Or), token), ALTERNATIVE),
        GrammarStep::Statements(_) => ahead_if(
            is(TokenKind::Mark(Mark::CloseBrace), token),
            BLOCK_END,
        ),
        GrammarStep::Arms(some) => {
            ahead_if(
                some && is(TokenKind::Mark(Mark::CloseBrace), token),
                MATCH_END,
            )
        }
        _ => None,
    }
}

/// The part that may come next.
pub fn due(point: GrammarPoint) -> Option<GrammarPart>
    ensures { result ≡ due_of (rest_of point) }
{
    match point {
        GrammarPoint::At(at) => due_at(at),
        GrammarPoint::Later(at) => match step_at(at) {
            GrammarStep::List { later, .. } => Some(later),
            _ => None,
        },
        GrammarPoint::More(at) | GrammarPoint::Last(at) => match step_at(at) {
            _ => None,
        },
    }
}

fn due_at(at: u16) -> Option<GrammarPart>
    ensures { result ≡ due_of (rest_at at) }
{
    match step_at(at) {
        GrammarStep::Part(part, _)
        | GrammarStep::Maybe(part, _, _)
        | GrammarStep::Many(part, _, _)
        | GrammarStep::List { part, .. } => Some(part),
        GrammarStep::Either(_, _, other) => due_at(other),
        GrammarStep::Items => Some(GrammarPart::At(ITEM_PLACE)),
        GrammarStep::Statements(true) => Some(GrammarPart::At(EXPR_NEXT_STATEMENT_PLACE)),
        GrammarStep::Statements(false) => Some(GrammarPart::At(EXPR_STATEMENT_PLACE)),
        GrammarStep::Arms(_) => Some(GrammarPart::At(PATTERN_IS_ARM_PLACE)),
        GrammarStep::ArmBody => Some(GrammarPart::At(EXPR_ARM_BODY_PLACE)),
        GrammarStep::AfterBreak => Some(GrammarPart::AfterBreak),
        GrammarStep::Ends(_) | GrammarStep::Token(_, _) | GrammarStep::Alternatives => None,
    }
}

/// What the node is where it ends here.
pub fn row_at_end(point: GrammarPoint) -> Option<GrammarRow>
    ensures { result ≡ made_of (rest_of point) }
{
    match point {
        GrammarPoint::At(at) => made_at(at),
        GrammarPoint::More(at) | GrammarPoint::Later(at) | GrammarPoint::Last(at) => match step_at(
            at,
        ) {
            GrammarStep::List { .. } => None,
            _ => Some(GrammarRow::File),
        },
    }
}

fn made_at(at: u16) -> Option<GrammarRow>
    ensures { result ≡ made_of (rest_at at) }
{
    match step_at(at) {
        GrammarStep::Ends(row) | GrammarStep::Maybe(_, _, row) => Some(row),
        GrammarStep::Either(_, _, other) => made_at(other),
        GrammarStep::Items => Some(GrammarRow::File),
        GrammarStep::Alternatives => Some(GrammarRow::OrPattern),
        GrammarStep::AfterBreak => Some(GrammarRow::Break),
        _ => None,
    }
}

/// Where a node is behind a part of a row.
pub fn behind(point: GrammarPoint, row: GrammarRow) -> GrammarPoint
    ensures { rest_of result ≡ behind_of (rest_of point) row }
{
    match point {
        GrammarPoint::At(at) => behind_at(at, row),
        GrammarPoint::Later(at) => match step_at(at) {
            GrammarStep::List { .. } => GrammarPoint::More(at),
            _ => point,
        },
        GrammarPoint::More(at) | GrammarPoint::Last(at) => match step_at(at) {
            _ => point,
        },
    }
}

fn behind_at(at: u16, row: GrammarRow) -> GrammarPoint
    ensures { rest_of result ≡ behind_of (rest_at at) row }
{
    match step_at(at) {
        GrammarStep::Part(_, after) | GrammarStep::Maybe(_, after, _) => GrammarPoint::At(after),
        GrammarStep::Either(_, _, other) => behind_at(other, row),
        GrammarStep::List { .. } => GrammarPoint::More(at),
        GrammarStep::Statements(_) => GrammarPoint::At(behind_statement(row)),
        GrammarStep::Arms(_) => GrammarPoint::At(behind_arm(row)),
        GrammarStep::ArmBody => GrammarPoint::At(behind_body(row)),
        GrammarStep::AfterBreak => GrammarPoint::At(behind_break(row)),
        _ => GrammarPoint::At(at),
    }
}

#[tactic(auto, using(crate::proofs::Named::block_is, crate::proofs::Named::next_statements_is, crate::proofs::Named::close_block_is))]
fn behind_statement(row: GrammarRow) -> u16
    ensures { rest_at result ≡ statement_of row }
{
    match row {
        GrammarRow::Let | GrammarRow::Semi | GrammarRow::Empty => BLOCK,
        GrammarRow::Block
        | GrammarRow::If
        | GrammarRow::Match
        | GrammarRow::Loop
        | GrammarRow::While => NEXT_STATEMENTS,
        _ => CLOSE_BLOCK,
    }
}

#[tactic(auto, using(crate::proofs::Named::next_arms_is, crate::proofs::Named::close_match_is))]
fn behind_arm(row: GrammarRow) -> u16
    ensures { rest_at result ≡ arm_of row }
{
    match row {
        GrammarRow::Arm => NEXT_ARMS,
        _ => CLOSE_MATCH,
    }
}

#[tactic(auto, using(crate::proofs::Named::behind_block_is, crate::proofs::Named::behind_body_is))]
fn behind_body(row: GrammarRow) -> u16
    ensures { rest_at result ≡ body_of row }
{
    match row {
        GrammarRow::Block => BEHIND_BLOCK,
        _ => BEHIND_BODY,
    }
}

#[tactic(auto, using(crate::proofs::Named::behind_label_is, crate::proofs::Named::break_end_is))]
fn behind_break(row: GrammarRow) -> u16
    ensures { rest_at result ≡ break_of row }
{
    match row {
        GrammarRow::LabelName => BEHIND_LABEL,
        _ => BREAK_END,
    }
}
