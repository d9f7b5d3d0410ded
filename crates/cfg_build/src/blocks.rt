//! The sites of blocks and of bodies.
ghost use Rattle.std.specs.Prelude.{◌≡◌, ◌++◌, [], OnOk, Some, map, slice_get};
ghost use Rattle.std.specs.Option.{unwrap_or};
ghost use Rattle.lower_rules.specs.Lower as low;
ghost use Rattle.typed_tree.specs.Tree.{BodyTree};
ghost use Rattle.cfg_build.specs.Told.{AreTold};
ghost use Rattle.cfg_build.specs.Lines.{AreOf};
ghost use Rattle.lower_rules.specs.Listed as listed;
ghost use Rattle.lower_rules.specs.Listed.{ids_of, nodes_of_body};

use crate::lines::{LineAt, add_stmt, add_term};
use crate::{PlaceNames, Site};
use cfg_graph::Block;
use mir_base::{List, NoMemory, NodeId};
use std::alloc::Global;

/// The number of the node of a line, and 0 where there is none.
fn id_at(ids: &[NodeId], line: usize) -> u32
    ensures { result ≡ unwrap_or (slice_get (ids_of ids.now) line) 0 }
{
    match ids.get(line) {
        Some(id) => id.0,
        None => 0,
    }
}

/// The nodes of the lines of a block, and none where there are none.
fn ids_at(ids: &[List<NodeId>], block: usize) -> &[NodeId]
    ensures { ids_of result.now ≡ unwrap_or (slice_get (map ids_of ids.now) block) [] }
{
    match ids.get(block) {
        Some(own) => own.as_slice(),
        None => &[],
    }
}

/// The sites of the lines of a block, behind others.
fn add_block(
    alloc: Global,
    names: PlaceNames,
    body: u32,
    block: u32,
    one: &Block,
    ids: &[NodeId],
    sites: &mut List<Site>,
) -> Result<(), NoMemory>
    requires { AreTold names }
    ensures { OnOk result ((tree : BodyTree) → AreOf names.entry tree →
        slice_get (low.body_of names.entry.items.now tree).blocks block ≡ Some one.now →
        unwrap_or (slice_get (nodes_of_body names.entry.items.now tree) block) [] ≡ ids_of ids.now →
        sites.new ≡ sites.old ++ listed.of_lines names.entry.items.now tree body block 0 one.now.stmts) }
{
    let stmts = one.stmts.as_slice();
    let mut line: u32 = 0;
    for stmt in stmts {
        let at = LineAt { body, block, line };
        add_stmt(alloc, names, at, id_at(ids, line as usize), stmt, sites)?;
        line = line.checked_add(1).ok_or(NoMemory::past_32_bits())?;
    }
    let at = LineAt { body, block, line };
    add_term(
        alloc,
        names,
        at,
        id_at(ids, line as usize),
        &one.term,
        sites,
    )
}

/// The sites of a body, whose blocks and the nodes of whose lines these are, in the order of its blocks and lines. For
/// each line that uses a place it costs a step, and one for each number that is left out among those of the nodes before.
///
/// # Errors
///
/// [`NoMemory`] where memory is wanted, and where there are more blocks or lines than 32 bits count.
pub fn body_sites(
    alloc: Global,
    names: PlaceNames,
    body: u32,
    blocks: &[Block],
    ids: &[List<NodeId>],
    sites: &mut List<Site>,
) -> Result<(), NoMemory>
    requires { AreTold names }
    ensures { OnOk result ((tree : BodyTree) → AreOf names.entry tree →
        blocks.now ≡ (low.body_of names.entry.items.now tree).blocks →
        map ids_of ids.now ≡ nodes_of_body names.entry.items.now tree →
        sites.new ≡ sites.old ++ listed.body_sites names.entry.items.now tree body) }
{
    let mut block: u32 = 0;
    for one in blocks {
        let own = ids_at(ids, block as usize);
        add_block(alloc, names, body, block, one, own, sites)?;
        block = block.checked_add(1).ok_or(NoMemory::past_32_bits())?;
    }
    Ok(())
}
