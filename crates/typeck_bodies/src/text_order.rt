//! A body whose nodes are numbered in text order.
ghost use Rattle.std.specs.Prelude.{◌≡◌, map, IfOk, OnOk, OnErr};
ghost use Rattle.typeck_bodies.specs.Places.{placed};
ghost use Rattle.typeck_bodies.specs.Renumbered.{renumbered_body};
ghost use Rattle.typed_tree.specs.Nodes.{number_of, numbers_of};
ghost use Rattle.typed_tree.specs.View.{body_of, param_tree, tree_of};
ghost use Rattle.typing_rules.specs.Numbered.{in_text_order, param_renumbered};
ghost use Rattle.typed_tree.specs.Listed.{trees};

use crate::places::NumberPlaces;
use crate::renumber::renumber;
use mir_base::{List, NoMemory};
use std::alloc::Global;
use std::mem;
use typed_tree::{Node, Param, TBody, all_nodes};

fn numbers(alloc: Global, nodes: &[&Node]) -> Result<List<u32>, NoMemory>
    ensures { IfOk result (λ found. found ≡ map number_of (trees nodes.now)) }
{
    let mut found = List::new(alloc);
    for node in nodes {
        found.push(node.id.0)?;
    }
    Ok(found)
}

/// The numbers of a body's nodes, in text order.
fn numbers_in(alloc: Global, body: &TBody) -> Result<List<u32>, NoMemory>
    ensures { IfOk result (λ found. found ≡ numbers_of (body_of body.now)) }
{
    let nodes = all_nodes(alloc, body)?;
    numbers(alloc, nodes.as_slice())
}

fn renumber_params(params: List<Param>, places: &NumberPlaces) -> List<Param>
    ensures { map param_tree result ≡ map (param_renumbered (placed places.now)) (map param_tree params) }
{
    let mut params = params.into_vec();
    for param in params.iter_mut() {
        renumber(&mut param.pattern, places);
    }
    List::from_vec(params)
}

fn renumber_body(alloc: Global, body: &mut TBody, places: &NumberPlaces)
    ensures { body_of body.new ≡ renumbered_body (placed places.now) (body_of body.old) }
{
    let params = mem::replace(&mut body.params, List::new(alloc));
    body.params = renumber_params(params, places);
    renumber(&mut body.block, places);
}

/// Numbers the nodes of a body anew, each by its place in the text, from 0 on: those of its parameters' patterns, and
/// then those of its block. What a node names goes with the node that it names. It costs by the number of nodes and the
/// greatest of their numbers, and takes memory for a table of that.
///
/// # Errors
///
/// [`NoMemory`] where memory is wanted; then nothing has changed.
pub fn number_in_text_order(alloc: Global, body: &mut TBody) -> Result<(), NoMemory>
    ensures ordered { OnOk result (body_of body.new ≡ in_text_order (body_of body.old)) }
    ensures kept { OnErr result (body_of body.new ≡ body_of body.old) }
{
    let numbers = numbers_in(alloc, body)?;
    let places = NumberPlaces::of(alloc, numbers.as_slice())?;
    renumber_body(alloc, body, &places);
    Ok(())
}
