ghost use Rattle.std.specs.Prelude.{◌≡◌, true, Some, IfOk, option_map};
ghost use Rattle.cfg_meaning.specs.Actions.{site_of};
ghost use Rattle.cfg_meaning.specs.Programs.{setting_of};
ghost use Rattle.machine_store.specs.Activations.{activations_of, root_in};
ghost use Rattle.machine_store.specs.Standing.{standing, located_of, with_activations};
ghost use Rattle.store_model.specs.Concrete.Effects.{whole_at as stands_whole_at};
ghost use Rattle.store_model.specs.Values.Access.{value_at};
ghost use Rattle.store_model.specs.Values.Wholeness.{is_whole as is_whole_value};

use crate::location::reach;
use crate::{Located, Reached, Store};
use cfg_graph::{Graph, Place};
use mir_base::NoMemory;
use std::alloc::Global;

/// Whether what is located somewhere is whole, by what is known of its local.
pub fn is_whole(store: &Store, s: &Located<'_>) -> bool
    requires { value_at s.now.address.path (root_in s.now.address.depth s.now.address.key.0 (activations_of
        store.now)) ≡ Some (standing s.now.value) }
    ensures { result ≡ is_whole_value (standing s.now.value) }
{
    let Some(frame) = store.frame(s.address.depth as usize) else {
        return false;
    };
    match frame.cell(s.address.key.0) {
        Some(cell) => cell.is_whole_at(s.address.path.as_slice()),
        None => false,
    }
}

/// What stands at a place whose value is used: it has to be whole.
pub fn whole_at<'a>(
    alloc: Global,
    graph: &Graph,
    store: &'a Store,
    place: &Place,
) -> Result<Option<Located<'a>>, NoMemory>
    ensures { IfOk result (λ found. option_map located_of found ≡
        stands_whole_at (setting_of true graph.now) (with_activations (activations_of store.now))
        (site_of 0 place.now)) }
{
    let Reached::Reaches(s) = reach(alloc, graph, store, place)? else {
        return Ok(None);
    };
    if is_whole(store, &s) {
        return Ok(Some(s));
    }
    Ok(None)
}
