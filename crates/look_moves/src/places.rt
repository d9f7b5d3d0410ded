//! Places at, above and below others.
ghost use Rattle.std.specs.Prelude.{◌≡◌, map};
ghost use Rattle.cfg_graph.specs.Moves.Gone as gone;
ghost use Rattle.cfg_graph.specs.Places.{named, named_step};
ghost use Rattle.look_moves.specs.Origin as origins;

use cfg_graph::{Place, Step};

fn are_first(upper: &[Step], lower: &[Step]) -> bool
    ensures { result ≡ gone.are_first (map named_step upper.now) (map named_step lower.now) }
{
    lower.starts_with(upper)
}

/// Whether a place is another one or a container of it.
pub fn is_at_or_above(upper: &Place, lower: &Place) -> bool
    ensures { result ≡ gone.is_at_or_above (named upper.now) (named lower.now) }
{
    upper.local == lower.local && are_first(upper.steps.as_slice(), lower.steps.as_slice())
}

/// Whether one of two places is the other one or a container of it.
pub fn overlap(one: &Place, other: &Place) -> bool
    ensures { result ≡ origins.overlap (named one.now) (named other.now) }
{
    is_at_or_above(one, other) || is_at_or_above(other, one)
}
