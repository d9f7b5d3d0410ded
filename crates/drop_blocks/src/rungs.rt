//! Rungs of a ladder, each with its cleanup twin.
ghost use Rattle.std.specs.Prelude.{◌≡◌, IfOk};
ghost use Rattle.drop_blocks.specs.Ladders as chains;
ghost use Rattle.drop_blocks.specs.Ladders.{made_of, built_of};

use crate::NewBlocks;
use cfg_graph::{Kind, Place};
use mir_base::NoMemory;
use std::alloc::Global;

/// Where the rest of a ladder begins, and its cleanup twin, in which a panic goes on. Without a twin a panic ends the run.
#[derive(Clone, Copy)]
pub struct Chains {
    pub calm: u32,
    pub twin: Option<u32>,
}

/// All of a place is dropped, by a block of this kind and a cleanup twin of it.
pub fn entire(
    alloc: Global,
    kind: Kind,
    place: &Place,
    rest: Chains,
    blocks: &mut NewBlocks,
) -> Result<Chains, NoMemory>
    ensures { IfOk result (λ begun. built_of begun blocks.new
        ≡ chains.rung_before kind (chains.drop_rung place.now) rest (made_of blocks.old)) }
{
    let calm = blocks.add_drop(alloc, kind, place, rest.calm, rest.twin)?;
    match rest.twin {
        Some(to) => {
            let twin = blocks.add_drop(alloc, Kind::Cleanup, place, to, None)?;
            Ok(Chains {
                calm,
                twin: Some(twin),
            })
        }
        None => Ok(Chains { calm, twin: None }),
    }
}

/// The box of a place is freed, by a block of this kind and a cleanup twin of it.
pub fn freed(
    alloc: Global,
    kind: Kind,
    place: &Place,
    rest: Chains,
    blocks: &mut NewBlocks,
) -> Result<Chains, NoMemory>
    ensures { IfOk result (λ begun. built_of begun blocks.new
        ≡ chains.rung_before kind (chains.free_rung place.now) rest (made_of blocks.old)) }
{
    let calm = blocks.add_free(alloc, kind, place, rest.calm)?;
    match rest.twin {
        Some(to) => {
            let twin = blocks.add_free(alloc, Kind::Cleanup, place, to)?;
            Ok(Chains {
                calm,
                twin: Some(twin),
            })
        }
        None => Ok(Chains { calm, twin: None }),
    }
}
