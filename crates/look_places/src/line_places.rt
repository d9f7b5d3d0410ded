//! The places of the lines of a program's raw graph.
ghost use Rattle.std.specs.Prelude.{◌≡◌, ◌++◌, OnOk, IfOk, map, flat_map};
ghost use Rattle.typed_tree.specs.Listed.{trees};
ghost use Rattle.typed_tree.specs.View.{body_of, program_of};
ghost use Rattle.lower_rules.specs.Listed.{ids_of};
ghost use Rattle.cfg_build.specs.Told.{AreTold};
ghost use Rattle.look_places.specs.LinePlaces as places_of;

use cfg_build::{PlaceNames, lower_body, node_with, rise};
use mir_base::{List, NoMemory, NodeId, Pos};
use mir_ty::Items;
use std::alloc::Global;
use typed_tree::{TBody, Typed, all_nodes};

/// The place of the node with a number.
fn place_in(names: PlaceNames, number: u32) -> Option<Pos>
    requires { AreTold names }
    ensures { result ≡ places_of.place_in (trees names.entry.nodes.now) number }
{
    match node_with(names, number) {
        Some(node) => Some(node.at),
        None => None,
    }
}

/// Puts the places of the lines of a block.
fn add_lines(
    names: PlaceNames,
    ids: &[NodeId],
    places: &mut List<Option<Pos>>,
) -> Result<(), NoMemory>
    requires { AreTold names }
    ensures { OnOk result (places.new ≡ places.old ++ map (places_of.place_in (trees names.entry.nodes.now)) (ids_of ids.now)) }
{
    for id in ids {
        places.push(place_in(names, id.0))?;
    }
    Ok(())
}

/// Puts the places of the lines of blocks.
fn add_blocks(
    names: PlaceNames,
    blocks: &[List<NodeId>],
    places: &mut List<Option<Pos>>,
) -> Result<(), NoMemory>
    requires { AreTold names }
    ensures { OnOk result (places.new ≡ places.old ++ places_of.places_in (trees names.entry.nodes.now) (map ids_of blocks.now)) }
{
    for ids in blocks {
        add_lines(names, ids.as_slice(), places)?;
    }
    Ok(())
}

/// Puts the places of the lines of a body.
fn add_body(
    alloc: Global,
    items: &Items,
    body: &TBody,
    places: &mut List<Option<Pos>>,
) -> Result<(), NoMemory>
    ensures { OnOk result (places.new ≡ places.old ++ places_of.body_places items.now (body_of body.now)) }
{
    let nodes = all_nodes(alloc, body)?;
    let lowered = lower_body(alloc, items, body)?;
    let all = nodes.as_slice();
    let names = PlaceNames {
        items,
        locals: lowered.locals.as_slice(),
        nodes: all,
        rise: rise(all),
    };
    add_blocks(names, lowered.nodes.as_slice(), places)
}

/// Puts the places of the lines of bodies.
fn add_bodies(
    alloc: Global,
    items: &Items,
    bodies: &[TBody],
    places: &mut List<Option<Pos>>,
) -> Result<(), NoMemory>
    ensures { OnOk result (places.new ≡ places.old ++ flat_map (places_of.body_places items.now) (map body_of bodies.now)) }
{
    for body in bodies {
        add_body(alloc, items, body, places)?;
    }
    Ok(())
}

/// The places of the lines of a program's raw graph: none first, and then one for each line, in the order of bodies,
/// blocks and lines.
///
/// # Errors
///
/// [`NoMemory`] where memory is wanted, and where 32 bits do not count the locals, blocks or lines of a body.
pub fn program_places(alloc: Global, typed: &Typed) -> Result<List<Option<Pos>>, NoMemory>
    ensures { IfOk result (λ places. places ≡ places_of.program_places (program_of typed.now)) }
{
    let mut places = List::new(alloc);
    places.push(None)?;
    add_bodies(alloc, &typed.items, typed.bodies.as_slice(), &mut places)?;
    Ok(places)
}
