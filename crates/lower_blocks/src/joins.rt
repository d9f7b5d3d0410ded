//! Places to which several codes come, and what comes behind code.
ghost use Rattle.std.specs.Prelude.{◌≡◌, ◌||◌, ℕ, suc, true, IfOk, OnOk};
ghost use Rattle.lower_rules.specs.Build as build;
ghost use Rattle.lower_rules.specs.Codes.{lowers};
ghost use Rattle.cfg_graph.specs.declared.terminator.Term as graph;
ghost use Rattle.lower_code.specs.Code as plain;
ghost use Rattle.lower_blocks.specs.Building.{rest_of, building_of};
ghost use Rattle.lower_blocks.specs.Builds.{StandsAt, OneAt, IsBuiltBehind, IsReached, frame_at};

use crate::{Blocks, BuildContext, leave};
use cfg_graph::Kind;
use lower_passes::{TwoCodes, after, has_end};
use mir_base::NoMemory;
use std::alloc::Global;

/// Whether a run comes behind one of two codes.
pub fn one_has_end(at: &BuildContext, two: TwoCodes) -> bool
    ensures { (c d : plain.Code) (start : ℕ) →
        StandsAt at.entry.now c start two.one → StandsAt at.entry.now d (suc two.one) two.another →
        result ≡ ((lowers (frame_at at.entry.now) c).has_end || (lowers (frame_at at.entry.now) d).has_end) }
{
    if has_end(at.code, two.one) {
        return true;
    }
    has_end(at.code, two.another)
}

/// A place to which several codes come, if one does, is a block of its own; the number of that block.
pub fn join(alloc: Global, is_reached: bool, blocks: &mut Blocks) -> Result<u32, NoMemory>
    ensures { IfOk result (λ number. (node : ℕ) →
        (building_of blocks.new ≡ (build.joined is_reached node (rest_of blocks.old.rest) (building_of blocks.old)).1)
        × (is_reached ≡ true →
        (build.joined is_reached node (rest_of blocks.old.rest) (building_of blocks.old)).0
        ≡ build.ending (graph.Term.Goto number) node)) }
{
    if is_reached {
        blocks.close(alloc, Kind::Plain)
    } else {
        Ok(0)
    }
}

/// The block behind a loop, if a `break` leads there.
pub fn close_exit(alloc: Global, is_left: bool, blocks: &mut Blocks) -> Result<(), NoMemory>
    ensures { OnOk result (building_of blocks.new ≡
        build.with_exit is_left (rest_of blocks.old.rest) (building_of blocks.old)) }
{
    if is_left {
        blocks.close(alloc, Kind::Plain)?;
    }
    Ok(())
}

/// The innermost scope is left behind the code before a word, if that has an end.
pub fn leave_behind(
    alloc: Global,
    at: &BuildContext,
    end: usize,
    blocks: &mut Blocks,
) -> Result<(), NoMemory>
    requires { IsReached at.now }
    ensures { OnOk result ((c : plain.Code) (start : ℕ) → OneAt at.entry.now c start end →
        IsBuiltBehind at.entry.now (lowers (frame_at at.entry.now) c) (build.leave (frame_at at.entry.now)) blocks.old blocks.new) }
{
    let Some(inner) = end.checked_sub(1) else {
        return Ok(());
    };
    if !has_end(at.code, inner) {
        return Ok(());
    }
    let scopes = after(at.arena, at.code, at.reaches, inner, at.scopes)?;
    leave(alloc, at.frame, scopes, blocks)
}
