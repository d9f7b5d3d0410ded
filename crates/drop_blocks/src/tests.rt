//! Tests of a ladder: what is there goes on in one chain, and what is not in another, each with its twin.
ghost use Rattle.std.specs.Prelude.{◌≡◌, IfOk};
ghost use Rattle.drop_blocks.specs.Ladders as chains;
ghost use Rattle.drop_blocks.specs.Ladders.{made_of, built_of};

use crate::rungs::freed;
use crate::{Chains, NewBlocks};
use cfg_graph::{Kind, Place};
use mir_base::NoMemory;
use std::alloc::Global;

/// What is there is done where the flag is set.
pub fn by_flag(
    alloc: Global,
    kind: Kind,
    flag: u32,
    there: Chains,
    rest: Chains,
    blocks: &mut NewBlocks,
) -> Result<Chains, NoMemory>
    ensures { IfOk result (λ begun. built_of begun blocks.new
        ≡ chains.test_before kind (chains.flag_test flag) there rest (made_of blocks.old)) }
{
    let calm = blocks.add_flag(alloc, kind, flag, there.calm, rest.calm)?;
    match rest.twin {
        Some(to) => {
            let yes = there.twin.unwrap_or(to);
            let twin = blocks.add_flag(alloc, Kind::Cleanup, flag, yes, to)?;
            Ok(Chains {
                calm,
                twin: Some(twin),
            })
        }
        None => Ok(Chains { calm, twin: None }),
    }
}

/// What is there is done where the value has a variant.
pub fn by_variant(
    alloc: Global,
    kind: Kind,
    place: &Place,
    variant: u32,
    there: Chains,
    other: Chains,
    blocks: &mut NewBlocks,
) -> Result<Chains, NoMemory>
    ensures { IfOk result (λ begun. built_of begun blocks.new
        ≡ chains.test_before kind (chains.case_test place.now variant) there other (made_of blocks.old)) }
{
    let calm = blocks.add_case(alloc, kind, place, variant, there.calm, other.calm)?;
    match other.twin {
        Some(to) => {
            let yes = there.twin.unwrap_or(to);
            let twin = blocks.add_case(alloc, Kind::Cleanup, place, variant, yes, to)?;
            Ok(Chains {
                calm,
                twin: Some(twin),
            })
        }
        None => Ok(Chains { calm, twin: None }),
    }
}

/// The box of a place is freed, where the flag is set, if there is one.
pub fn freed_by(
    alloc: Global,
    kind: Kind,
    guard: Option<u32>,
    place: &Place,
    rest: Chains,
    blocks: &mut NewBlocks,
) -> Result<Chains, NoMemory>
    ensures { IfOk result (λ begun. built_of begun blocks.new
        ≡ chains.freed_before kind guard place.now rest (made_of blocks.old)) }
{
    let there = freed(alloc, kind, place, rest, blocks)?;
    match guard {
        Some(flag) => by_flag(alloc, kind, flag, there, rest, blocks),
        None => Ok(there),
    }
}
