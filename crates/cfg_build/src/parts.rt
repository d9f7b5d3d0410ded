//! Blocks that are made, with the nodes of their lines, as parts of a body.
ghost use Rattle.std.specs.Prelude.{◌≡◌, ◌++◌, ◌∷◌, [], All, OnOk, map};
ghost use Rattle.lower_locals.specs.View.{tys as tys_of, entry_of};
ghost use Rattle.src_meaning.specs.Scopes as scopes;
ghost use Rattle.cfg_build.specs.Lowered.{HasFewLines, block_of, line_nodes};
ghost use Rattle.lower_rules.specs.Listed.{ids_of};

use cfg_graph::{Block, Kind, Term};
use lower_blocks::MadeBlock;
use lower_locals::Local;
use mir_base::{List, NoMemory, NodeId};
use mir_ty::TyId;
use std::alloc::Global;

/// The types of locals are put behind others.
pub fn add_tys(locals: &[Local], tys: &mut List<TyId>) -> Result<(), NoMemory>
    ensures { OnOk result (tys.new ≡ tys.old ++ tys_of (map entry_of locals.now)) }
{
    for local in locals {
        tys.push(local.ty)?;
    }
    Ok(())
}

/// So many members are too many for a number of 32 bits to count them and one more.
pub const MANY: usize = u32::MAX as usize;

/// A block, and the nodes of its lines, are put behind others. Where a number was given out and no block was made, which
/// there is not, a block stands that returns.
fn add_part(
    alloc: Global,
    made: Option<MadeBlock>,
    blocks: &mut List<Block>,
    nodes: &mut List<List<NodeId>>,
) -> Result<(), NoMemory>
    ensures { OnOk result ((blocks.new ≡ blocks.old ++ block_of made ∷ [])
        × (map ids_of nodes.new ≡ map ids_of nodes.old ++ line_nodes made ∷ [])
        × (All HasFewLines blocks.old → All HasFewLines blocks.new)) }
{
    match made {
        Some(made) => {
            let MadeBlock { block, nodes: own } = made;
            if block.stmts.len() >= MANY {
                return Err(NoMemory::past_32_bits());
            }
            blocks.push(block)?;
            nodes.push(own)
        }
        None => {
            blocks.push(Block {
                kind: Kind::Plain,
                rank: 0,
                stmts: List::new(alloc),
                term: Term::Return,
            })?;
            nodes.push(List::new(alloc))
        }
    }
}

/// Blocks and the nodes of their lines, apart.
pub fn add_parts(
    alloc: Global,
    made: List<Option<MadeBlock>>,
    blocks: &mut List<Block>,
    nodes: &mut List<List<NodeId>>,
) -> Result<(), NoMemory>
    ensures { OnOk result ((blocks.new ≡ blocks.old ++ map block_of made)
        × (map ids_of nodes.new ≡ map ids_of nodes.old ++ map line_nodes made)
        × (All HasFewLines blocks.old → All HasFewLines blocks.new)) }
{
    for one in made.into_vec() {
        add_part(alloc, one, blocks, nodes)?;
    }
    Ok(())
}
