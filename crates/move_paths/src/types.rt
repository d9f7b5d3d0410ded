//! Which places are watched for moves.
ghost use Rattle.std.specs.Prelude.{◌≡◌, option_and_then, map, not, ◌&&◌, slice_get};
ghost use Rattle.mir_ty.specs.ItemTable.{type_at};
ghost use Rattle.store_model.specs.Places.Place.{is_reference as reference_type};
ghost use Rattle.cfg_graph.specs.Places.{named_step};
ghost use Rattle.cfg_graph.specs.Moves.Gone.{has_index as index_among};
ghost use Rattle.move_paths.specs.Watch.{goes_through_reference, is_watched as watched_place};

use cfg_graph::{Place, Step, step_ty};
use mir_ty::{Items, Ty, TyId};

fn is_reference(items: &Items, id: Option<TyId>) -> bool
    ensures { result ≡ reference_type (option_and_then (type_at items.now) id) }
{
    match id {
        Some(id) => matches!(items.ty(id), Some(Ty::Shared(_) | Ty::Unique(_))),
        None => false,
    }
}

fn is_through_reference(items: &Items, steps: &[Step], id: Option<TyId>) -> bool
    ensures { result ≡ goes_through_reference items.now id (map named_step steps.now) }
{
    let mut at = id;
    for step in steps {
        if *step == Step::Inside && is_reference(items, at) {
            return true;
        }
        at = step_ty(items, *step, at);
    }
    false
}

/// Whether a place is behind a reference: a step of it leads from a reference to what that names.
pub fn is_behind_reference(items: &Items, locals: &[TyId], place: &Place) -> bool
    ensures { result ≡ goes_through_reference items.now (slice_get locals.now place.now.local) (map named_step place.now.steps) }
{
    let local = locals.get(place.local as usize).copied();
    is_through_reference(items, place.steps.as_slice(), local)
}

fn has_index(steps: &[Step]) -> bool
    ensures { result ≡ index_among (map named_step steps.now) }
{
    for step in steps {
        if matches!(step, Step::Index(_)) {
            return true;
        }
    }
    false
}

/// Whether a place is neither behind a reference nor within an element by an index.
pub fn is_watched(items: &Items, locals: &[TyId], place: &Place) -> bool
    ensures { result ≡ watched_place items.now locals.now place.now }
{
    !has_index(place.steps.as_slice()) && !is_behind_reference(items, locals, place)
}
