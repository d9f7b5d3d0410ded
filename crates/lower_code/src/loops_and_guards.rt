ghost use Rattle.std.specs.Prelude.{◌≡◌, ◌++◌, ◌∷◌, [], IfOk, OnOk, map};
ghost use Rattle.cfg_graph.specs.Places.{named};
ghost use Rattle.store_model.specs.Places.Place as places;
ghost use Rattle.src_meaning.specs.Forms.{loop_destination, aliases_with};
ghost use Rattle.src_meaning.specs.Shape.{place_of_key};
ghost use Rattle.pattern_lower.specs.Seen.{bound_of};
ghost use Rattle.lower_code.specs.View.{destination_of, loops_of, aliases_of};

use crate::Destination;
use cfg_graph::Place;
use mir_base::{Key, List, NoMemory, NodeId};
use pattern_lower::Binding;
use std::alloc::Global;
use store_model::Path;

/// A loop around a node, and where its value is made.
#[derive(Clone, Copy)]
pub struct LoopAround {
    pub id: NodeId,
    pub to: Destination,
}

/// In a guard, a name of its arm and the part for which it stands.
#[derive(Drop)]
pub struct Alias {
    pub key: Key,
    pub place: Place,
}

/// What a node is in: where the result of its body is made, the loops around it, the innermost first, and the names
/// that stand for parts.
#[derive(Clone, Copy)]
pub struct LoopsAndGuards<'a> {
    pub answer: Destination,
    pub loops: &'a [LoopAround],
    pub aliases: &'a [Alias],
}

/// Where the value of a loop is made; in the loop's own entry where it is none around the node.
pub fn destination_of_loop(id: NodeId, loops: &[LoopAround]) -> Destination
    ensures { destination_of result ≡ loop_destination id.0 (loops_of loops.now) }
{
    for around in loops {
        if around.id == id {
            return around.to;
        }
    }
    Destination::Into(Key(id.0))
}

/// A place once more.
pub fn copy_place(alloc: Global, place: &Place) -> Result<Place, NoMemory>
    ensures { IfOk result (λ copy. copy ≡ place.now) }
{
    Ok(Place {
        local: place.local,
        steps: place.steps.copy(alloc)?,
    })
}

/// The whole entry with a key.
pub fn whole(alloc: Global, key: Key) -> Place
    ensures { named result ≡ places.whole_local key.0 }
{
    Place {
        local: key.0,
        steps: Path::new(alloc),
    }
}

/// The place for which a key stands: a part in a guard, and otherwise its entry.
pub fn place_under(alloc: Global, key: Key, aliases: &[Alias]) -> Result<Place, NoMemory>
    ensures { IfOk result (λ place. named place ≡ place_of_key key.0 (aliases_of aliases.now)) }
{
    for alias in aliases {
        if alias.key == key {
            return copy_place(alloc, &alias.place);
        }
    }
    Ok(whole(alloc, key))
}

/// The loops around the body of a loop: itself, and those around it.
pub fn in_loop(
    alloc: Global,
    id: NodeId,
    to: Destination,
    loops: &[LoopAround],
) -> Result<List<LoopAround>, NoMemory>
    ensures { IfOk result (λ inner. loops_of inner ≡ (id.0, destination_of to) ∷ loops_of loops.now) }
{
    let mut inner = List::new(alloc);
    inner.push(LoopAround { id, to })?;
    for around in loops {
        inner.push(*around)?;
    }
    Ok(inner)
}

/// A key more that stands for a place.
fn add_alias(
    alloc: Global,
    key: Key,
    place: &Place,
    inner: &mut List<Alias>,
) -> Result<(), NoMemory>
    ensures { OnOk result (aliases_of inner.new ≡ aliases_of inner.old ++ (key.0, named place.now) ∷ []) }
{
    let place = copy_place(alloc, place)?;
    inner.push(Alias { key, place })
}

/// The names of an arm stand for their parts in its guard, besides those that stand for parts around it.
pub fn in_guard(
    alloc: Global,
    bindings: &[Binding],
    aliases: &[Alias],
) -> Result<List<Alias>, NoMemory>
    ensures { IfOk result (λ inner.
        aliases_of inner ≡ aliases_with (map bound_of bindings.now) (aliases_of aliases.now)) }
{
    let mut inner = List::new(alloc);
    for binding in bindings {
        add_alias(alloc, binding.key, &binding.from, &mut inner)?;
    }
    for alias in aliases {
        add_alias(alloc, alias.key, &alias.place, &mut inner)?;
    }
    Ok(inner)
}
