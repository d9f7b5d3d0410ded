//! How deep a node is at least that goes on from a point of its row.
ghost use Rattle.std.specs.Prelude.{◌≡◌, ◌<◌};
ghost use Rattle.src_tree.specs.Table.{rest_at, rest_of};
ghost use Rattle.src_parse.specs.Bounds.{least_place as least_place_is, ended as ended_is, lesser as lesser_of, with_part as with_part_is, bound as bound_is};

use crate::endings::ending_at;
use mir_base::limits::MAX_NESTING;
use src_tree::{
    GrammarPlace, GrammarPoint, GrammarRow, GrammarStep, Sort, Start, counts, is_allowed, place_of,
    step_at,
};

/// What is known of a depth: it is at least `floor`, and by at least `around` more than that of what stands inside.
#[derive(Clone, Copy)]
pub struct DepthBound {
    pub floor: u32,
    pub around: u32,
}

/// A depth past the limit on nesting, for what can come to no end.
const PAST_LIMIT: u32 = MAX_NESTING + 1;

/// No point that the parser comes to has a greater bound.
pub(crate) const MOST: DepthBound = DepthBound {
    floor: 3,
    around: 2,
};

/// The least depth of a tree that stands there.
fn least_place(place: GrammarPlace) -> u32
    ensures small { result < 3 }
    ensures value { result ≡ least_place_is place }
{
    match (place.sort, place.start) {
        (Sort::Item | Sort::Method | Sort::Field | Sort::Type_, _) => 1,
        (Sort::Pattern, Start::IsArm) => 2,
        (Sort::Pattern, Start::IsParam) => if place.head { 0 } else { 1 },
        (Sort::Pattern, _) => 1,
        (Sort::Expr, Start::Statement | Start::Jump | Start::JumpInHead) => 0,
        (Sort::Expr, _) => 1,
        _ => 0,
    }
}

/// The bound of a node that ends as this row. One that may not stand there as it is becomes the first part of a
/// parameter or of an arm.
fn bound_at_end(place: GrammarPlace, row: GrammarRow, floor: u32, around: u32) -> DepthBound
    requires floor { floor < 4 }
    requires around { around < 2 }
    ensures small { result.around < 66 }
    ensures value { result ≡ ended_is place row floor around }
{
    if is_allowed(place, row) {
        return DepthBound { floor, around };
    }
    match place.start {
        Start::IsParam => DepthBound {
            floor: floor.max(1),
            around,
        },
        Start::IsArm => DepthBound {
            floor: floor.max(1) + 1,
            around: around + 1,
        },
        _ => DepthBound {
            floor: PAST_LIMIT,
            around: PAST_LIMIT,
        },
    }
}

fn lesser(one: DepthBound, other: DepthBound) -> DepthBound
    ensures { result ≡ lesser_of one other }
{
    DepthBound {
        floor: one.floor.min(other.floor),
        around: one.around.min(other.around),
    }
}

/// The bound of a node that also has a part of this depth.
fn with_part(depth: u32, bound: DepthBound) -> DepthBound
    requires depth { depth < 3 }
    requires around { bound.around < 66 }
    ensures { result ≡ with_part_is depth bound }
{
    DepthBound {
        floor: bound.floor.max(depth + bound.around),
        around: bound.around,
    }
}

/// By the table of endings, where the node ends as one row that may stand there.
#[tactic(auto, using(crate::proofs::Finished::plain))]
fn step_bound(place: GrammarPlace, at: u16) -> DepthBound
    ensures small { result.around < 66 }
    ensures value { result ≡ bound_is place (rest_at at) }
{
    if let Some((row, floor, around)) = ending_at(at)
        && is_allowed(place, row)
    {
        return DepthBound { floor, around };
    }
    match step_at(at) {
        GrammarStep::Ends(row) | GrammarStep::Maybe(_, _, row) => bound_at_end(
            place,
            row,
            0,
            counts(row),
        ),
        GrammarStep::Token(_, after)
        | GrammarStep::Many(_, _, after)
        | GrammarStep::List { after, .. } => { step_bound(place, after) }
        GrammarStep::Either(_, after, other) => lesser(
            step_bound(place, after),
            step_bound(place, other),
        ),
        GrammarStep::Part(part, after) => {
            with_part(
                least_place(place_of(place.head, part)),
                step_bound(place, after),
            )
        }
        GrammarStep::Items => bound_at_end(place, GrammarRow::File, 0, 0),
        GrammarStep::Alternatives => bound_at_end(place, GrammarRow::OrPattern, 0, 1),
        GrammarStep::Statements(_) => bound_at_end(place, GrammarRow::Block, 0, 1),
        GrammarStep::Arms(true) => bound_at_end(place, GrammarRow::Match, 0, 1),
        GrammarStep::Arms(false) => bound_at_end(place, GrammarRow::Match, 3, 1),
        GrammarStep::ArmBody => bound_at_end(place, GrammarRow::Arm, 2, 1),
        GrammarStep::AfterBreak => bound_at_end(place, GrammarRow::Break, 0, 1),
    }
}

/// The bound of a node at a place and at a point of its row.
pub(crate) fn bound_at(place: GrammarPlace, point: GrammarPoint) -> DepthBound
    ensures { result ≡ bound_is place (rest_of point) }
{
    match point {
        GrammarPoint::At(at) => step_bound(place, at),
        GrammarPoint::More(at) | GrammarPoint::Later(at) | GrammarPoint::Last(at) => match step_at(
            at,
        ) {
            GrammarStep::List { after, .. } => step_bound(place, after),
            _ => bound_at_end(place, GrammarRow::File, 0, 0),
        },
    }
}
