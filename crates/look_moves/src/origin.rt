//! Where a place got its value, and where it was taken.
ghost use Rattle.std.specs.Prelude.{◌≡◌, IfOk, option_map};
ghost use Rattle.std.specs.List.{list_any};
ghost use Rattle.cfg_graph.specs.Places.{named};
ghost use Rattle.move_paths.specs.Uses.{use_of};
ghost use Rattle.look_moves.specs.Actions.{action_of, seen};
ghost use Rattle.look_moves.specs.Origin as origins;

use crate::actions::{Action, actions_before};
use crate::places::{is_at_or_above, overlap};
use cfg_graph::{Body, Place};
use mir_base::NoMemory;
use move_paths::Use;
use std::alloc::Global;

/// A line of a body; that of a terminator is the number of statements before it.
#[derive(Clone, Copy)]
pub struct LineAt {
    pub block: u32,
    pub line: u32,
}

/// The line that gave a place its value, and the line that took it, or a part or a container of it.
#[derive(Clone, Copy)]
pub struct Origin {
    pub made: Option<LineAt>,
    pub taken: Option<LineAt>,
}

/// Whether a use leaves its place gone.
fn takes(how: Use) -> bool
    ensures { result ≡ origins.takes (use_of how) }
{
    matches!(how, Use::Moves | Use::Drops | Use::Frees)
}

/// Whether a use leaves a value in its place.
fn fills(how: Use) -> bool
    ensures { result ≡ origins.fills (use_of how) }
{
    matches!(how, Use::Stores)
}

fn line_of(action: Action) -> LineAt
    ensures { result ≡ origins.line_of (action_of action.entry) }
{
    LineAt {
        block: action.block,
        line: action.line,
    }
}

/// Whether an action gives a place a value.
fn refills(place: &Place, action: Action) -> bool
    ensures { result ≡ origins.refills (named place.now) (action_of action.entry) }
{
    fills(action.how) && is_at_or_above(action.place, place)
}

/// Whether one of these actions gives a place a value.
fn is_refilled(place: &Place, later: &[Action]) -> bool
    ensures { result ≡ list_any (origins.refills (named place.now)) (seen later.now) }
{
    for action in later {
        if refills(place, *action) {
            return true;
        }
    }
    false
}

/// Whether an action takes a place, and no later one gives a value there.
fn takes_for_good(place: &Place, action: Action, later: &[Action]) -> bool
    ensures { result ≡ origins.takes_for_good (named place.now) (action_of action.entry) (seen later.now) }
{
    takes(action.how) && overlap(action.place, place) && !is_refilled(action.place, later)
}

/// The line of the last action that gave a place a value.
#[tactic(auto, using(crate::proofs::Latest::found_new, crate::proofs::Latest::found_old))]
fn last_store(place: &Place, actions: &[Action]) -> Option<LineAt>
    ensures { result ≡ origins.last_store (named place.now) (seen actions.now) }
{
    let mut found = None;
    for action in actions {
        if refills(place, *action) {
            found = Some(line_of(*action));
        }
    }
    found
}

/// The line of the last action that took a place, or a part or a container of it, and behind which no other one gave a
/// value there.
#[tactic(auto, using(crate::proofs::Latest::found_new, crate::proofs::Latest::found_old))]
fn last_taking(place: &Place, actions: &[Action]) -> Option<LineAt>
    ensures { result ≡ origins.last_taking (named place.now) (seen actions.now) }
{
    let mut found = None;
    for (n, action) in actions.iter().enumerate() {
        if takes_for_good(place, *action, &actions[n + 1..]) {
            found = Some(line_of(*action));
        }
    }
    found
}

/// Where a place got its value, and where it was taken, before a line of the last block of a path of a body. It costs a
/// step for each action of the path, and for each that takes the place one for each action behind it.
///
/// # Errors
///
/// [`NoMemory`] where memory is wanted, and where 32 bits do not count the lines of a block.
pub fn origin_of(
    alloc: Global,
    body: &Body,
    path: &[u32],
    line: u32,
    place: &Place,
) -> Result<Origin, NoMemory>
    ensures { IfOk result (λ origin. origin ≡ origins.origin_of body.now path.now line (named place.now)) }
{
    let actions = actions_before(alloc, body, line, path)?;
    Ok(Origin {
        made: last_store(place, actions.as_slice()),
        taken: last_taking(place, actions.as_slice()),
    })
}
