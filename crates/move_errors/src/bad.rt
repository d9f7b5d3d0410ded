//! Which uses are bad by a row that says of each path whether it is gone, and what they make of the row.
ghost use Rattle.std.specs.Prelude.{◌≡◌, ◌<◌, ◌&&◌, ℕ, None, length};
ghost use Rattle.std.specs.Option.{option_map};
ghost use Rattle.cfg_graph.specs.Places.{named, named_step};
ghost use Rattle.cfg_graph.specs.Moves.Gone.{is_at_or_above};
ghost use Rattle.std.specs.Prelude.{map, Some};
ghost use Rattle.move_paths.specs.Trie.{AreOnce};
ghost use Rattle.move_paths.specs.Uses.{use_of};
ghost use Rattle.init_flow.specs.Concerns.{AreOfBody};
ghost use Rattle.init_flow.specs.Moved.{masks_of};
ghost use Rattle.move_errors.specs.Rows.{some_on, above, place_at, depth_from, is_depth, OnlyAbove, Asks, concerns, left, after, first_by, use_at, IsUsed, IsWatched};
ghost use Rattle.move_errors.specs.Runs.{actions_of, action_of};

use crate::act::Act;
use bit_rows::BitRow;
use cfg_graph::{Body, Place, Step};
use init_flow::{Masks, switch_of};
use mir_ty::Items;
use move_paths::{Forest, Near, Use};

/// A body, its forest, and the masks of the paths of that.
#[derive(Drop)]
pub struct Watch<'a> {
    pub items: &'a Items,
    pub body: &'a Body,
    pub forest: Forest,
    pub below: Masks,
}

/// Whether one of the paths at or above a path is gone.
fn is_gone_above(forest: &Forest, row: &BitRow, path: Option<u32>) -> bool
    requires once { AreOnce forest.now.paths }
    requires row { length row.now ≡ length forest.now.paths }
    requires path { (n : ℕ) → path ≡ Some n → n < length forest.now.paths }
    ensures { result ≡ some_on (above forest.now.paths path) forest.now.paths row.now }
{
    let mut at = path;
    while let Some(of) = at {
        if row.get(of) {
            return true;
        }
        at = forest.parent(of);
    }
    false
}

/// How many steps of a place lead to the array of its first index, if it has one.
fn array_depth(place: &Place) -> Option<usize>
    ensures { result ≡ depth_from 0 (map named_step place.now.steps) }
{
    let mut depth = 0;
    for step in place.steps.as_slice() {
        if matches!(step, Step::Index(_)) {
            return Some(depth);
        }
        depth += 1;
    }
    None
}

/// Whether a place with paths so many steps along it ends there, or takes an element of the array there by an index.
fn ends_in_array(place: &Place, depth: usize) -> bool
    ensures { result ≡ is_depth (depth_from 0 (map named_step place.now.steps)) depth }
{
    match array_depth(place) {
        Some(array) => array == depth,
        None => false,
    }
}

/// Whether one of the paths at or below a path is gone, if these are asked for.
fn is_gone_within(watch: &Watch<'_>, row: &BitRow, path: u32, asked: bool) -> bool
    requires masks { watch.now.below ≡ masks_of watch.now.forest.paths }
    requires path { path < length watch.now.forest.paths }
    requires row { length row.now ≡ length watch.now.forest.paths }
    ensures { result ≡ (asked && some_on (is_at_or_above (place_at watch.now.forest.paths path)) watch.now.forest.paths row.now) }
{
    if asked {
        watch.below.meets(path, row)
    } else {
        false
    }
}

/// The last path above a place, by the last one along it.
fn above_of(forest: &Forest, place: &Place, near: Near) -> Option<u32>
    requires { near.path < length forest.now.paths }
    ensures above { OnlyAbove forest.now.paths (named place.now) near result }
    ensures once { AreOnce forest.now.paths }
{
    let _ = forest.len();
    if near.depth == place.steps.as_slice().len() {
        forest.parent(near.path)
    } else {
        Some(near.path)
    }
}

/// What is asked of a row for a use of a place: whether one of the paths at or above a path is gone, and whether one
/// within the last path along the place is.
#[derive(Clone, Copy)]
struct Asked {
    above: Option<u32>,
    within: bool,
}

/// What is asked for a use of a place, by the last path along it.
fn asked_for(forest: &Forest, how: Use, place: &Place, near: Near) -> Asked
    requires { near.path < length forest.now.paths }
    ensures asks { Asks forest.now.paths (named place.now) near (use_of how) result.above result.within }
    ensures path { (n : ℕ) → result.above ≡ Some n → n < length forest.now.paths }
{
    let exact = near.depth == place.steps.as_slice().len();
    let array = ends_in_array(place, near.depth);
    match how {
        Use::Copies | Use::Moves | Use::Borrows | Use::Touches => Asked {
            above: Some(near.path),
            within: exact | array,
        },
        Use::Tests => Asked {
            above: Some(near.path),
            within: array,
        },
        Use::Stores | Use::Drops => Asked {
            above: above_of(forest, place, near),
            within: array,
        },
        Use::Frees => Asked {
            above: None,
            within: false,
        },
    }
}

/// Whether a use of a place is bad.
fn is_bad(watch: &Watch<'_>, row: &BitRow, how: Use, place: &Place) -> bool
    requires watched { IsWatched watch.now.items.now watch.now.body.now watch.now.forest watch.now.below }
    requires local { place.now.local < length watch.now.body.now.locals }
    requires row { length row.now ≡ length watch.now.forest.paths }
    ensures { result ≡ some_on (λ path. concerns (use_of how) path (named place.now)) watch.now.forest.paths row.now }
{
    let _ = watch.forest.len();
    let near = watch.forest.nearest(place);
    let asked = asked_for(&watch.forest, how, place, near);
    let within = is_gone_within(watch, row, near.path, asked.within);
    let over = is_gone_above(&watch.forest, row, asked.above);
    over | within
}

/// Makes a row the one after a use of a place.
fn apply(watch: &Watch<'_>, how: Use, place: &Place, row: &mut BitRow)
    requires watched { IsWatched watch.now.items.now watch.now.body.now watch.now.forest watch.now.below }
    requires used { IsUsed watch.now.body.now (use_of how) (named place.now) }
    requires row { length row.old ≡ length watch.now.forest.paths }
    ensures { row.new ≡ left watch.now.items.now watch.now.body.now (use_at (use_of how) (named place.now)) watch.now.forest.paths row.old }
{
    if let Some(switch) = switch_of(&watch.forest, how, place, true) {
        watch.below.turn(switch.path, switch.on, row);
    }
}

/// The first of these acts that is bad. Where there is none, the row becomes the one after them.
pub fn first_bad<'a>(watch: &Watch<'_>, acts: &[Act<'a>], row: &mut BitRow) -> Option<Act<'a>>
    requires watched { IsWatched watch.now.items.now watch.now.body.now watch.now.forest watch.now.below }
    requires used { AreOfBody watch.now.body.now (actions_of 0 acts.now) }
    requires row { length row.old ≡ length watch.now.forest.paths }
    ensures first { (block : ℕ) → option_map (action_of block) result ≡ first_by watch.now.items.now watch.now.body.now watch.now.forest.paths (actions_of block acts.now) row.old }
    ensures after { (block : ℕ) → result ≡ None → row.new ≡ after watch.now.items.now watch.now.body.now watch.now.forest.paths (actions_of block acts.now) row.old }
{
    for act in acts {
        if is_bad(watch, row, act.how, act.place) {
            return Some(*act);
        }
        apply(watch, act.how, act.place, row);
    }
    None
}
