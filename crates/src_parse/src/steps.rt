//! What a token does to the innermost node.
ghost use Rattle.std.specs.Prelude.{◌≡◌, ◌∷◌, IfOk, option_map, Some, None, length};
ghost use Rattle.src_tree.specs.Table.{rest_of, rest_at};
ghost use Rattle.src_tree.specs.Reading.{only_if, opens as opens_of, joins as joins_of};
ghost use Rattle.src_parse.specs.Counting.{act, close as close_of, handed};
ghost use Rattle.src_parse.specs.View.{frame_of, stack_of};

use crate::frame::{ParserFrame, begin, hold, inside, take};
use mir_base::{List, NoMemory, Pos};
use src_token::Token;
use src_tree::{
    GrammarPlace, GrammarPoint, GrammarRow, advance, due, entry, is_allowed, join_beginning,
    may_begin, place_of, row_at_end, seen_from,
};
use std::alloc::Global;
use std::mem;

/// The place of a part that begins with the token, and where it is behind it.
fn opens(head: bool, point: GrammarPoint, token: &Token) -> Option<(GrammarPlace, u16)>
    ensures { option_map (λ e. (e.0, rest_at e.1)) result ≡ opens_of head (rest_of point) token.now }
{
    let part = due(point)?;
    let place = place_of(head, part);
    let (row, at) = entry(seen_from(place), token)?;
    if may_begin(place, row) {
        Some((place, at))
    } else {
        None
    }
}

/// Where a node is that begins with a complete one of this row and the token.
fn joins(place: GrammarPlace, row: GrammarRow, token: &Token) -> Option<u16>
    ensures { option_map rest_at result ≡ joins_of place row token.now }
{
    let begun = join_beginning(seen_from(place), token)?;
    if may_begin(place, begun.row) && is_allowed(begun.place, row) {
        Some(begun.at)
    } else {
        None
    }
}

/// The innermost node, `top`, is complete as this row and becomes a part of the one around it, which is taken from the
/// list; false where it may not stand there, or nothing is around it.
#[tactic(auto, using(crate::proofs::Turns::handed_not, crate::proofs::Turns::handed_some))]
fn hand_on(
    below: &mut List<ParserFrame>,
    top: &mut ParserFrame,
    row: GrammarRow,
) -> Result<bool, NoMemory>
    ensures { IfOk result (λ went. handed (stack_of below.old) (frame_of top.old) row
        ≡ only_if went (Some (frame_of top.new ∷ stack_of below.new))) }
{
    if !is_allowed(top.place, row) {
        return Ok(false);
    }
    let Some(around) = below.pop() else {
        return Ok(false);
    };
    let part = mem::replace(top, around);
    hold(top, part, row)?;
    Ok(true)
}

/// What a token does to the innermost node, `top`; false where it does nothing. Nodes that are complete become parts
/// of those around them, which are taken from the list.
#[tactic(auto, using(crate::proofs::Turns::act_ends))]
pub(crate) fn step(
    alloc: Global,
    below: &mut List<ParserFrame>,
    top: &mut ParserFrame,
    token: Token,
    at: Pos,
) -> Result<bool, NoMemory>
    ensures { IfOk result (λ went. act (stack_of below.old) (frame_of top.old) token at
        ≡ only_if went (Some (frame_of top.new ∷ stack_of below.new))) }
{
    loop {
        if let Some(point) = advance(top.point, &token) {
            take(top, point, token)?;
            return Ok(true);
        }
        if let Some((place, point)) = opens(top.place.head, top.point, &token) {
            let part = inside(alloc, top, place, point, at, token)?;
            below.push(mem::replace(top, part))?;
            return Ok(true);
        }
        let Some(row) = row_at_end(top.point) else {
            drop(token);
            return Ok(false);
        };
        if let Some(point) = joins(top.place, row, &token) {
            begin(alloc, top, row, point, token)?;
            return Ok(true);
        }
        match hand_on(below, top, row) {
            Ok(true) => {}
            Ok(false) => {
                drop(token);
                return Ok(false);
            }
            Err(error) => {
                drop(token);
                return Err(error);
            }
        }
    }
}

/// All nodes end where the tokens of a text do; false where one is not complete.
#[tactic(auto, using(crate::proofs::Turns::close_not_made))]
pub(crate) fn close(below: &mut List<ParserFrame>, top: &mut ParserFrame) -> Result<bool, NoMemory>
    ensures { IfOk result (λ ended. close_of (stack_of below.old) (frame_of top.old)
        ≡ only_if ended (Some (frame_of top.new))) }
{
    loop {
        let Some(row) = row_at_end(top.point) else {
            return Ok(false);
        };
        if below.is_empty() {
            return Ok(true);
        }
        if !hand_on(below, top, row)? {
            return Ok(false);
        }
    }
}
