//! Scopes are left.
ghost use Rattle.std.specs.Prelude.{◌≡◌, ◌-◌, IfOk, OnOk, length};
ghost use Rattle.lower_rules.specs.Build as build;
ghost use Rattle.lower_passes.specs.Framed.{frame_of};
ghost use Rattle.lower_passes.specs.Scoped.{held, scopes_of};
ghost use Rattle.src_meaning.specs.Scopes.{needing_drop};
ghost use Rattle.lower_rules.specs.Spots as spots;
ghost use Rattle.lower_code.specs.View.{exit_of};
ghost use Rattle.lower_blocks.specs.Building.{built_of, rest_of, building_of, ways_of};

use crate::blocks::{Blocks, SharedEnd};
use crate::ways::{JumpWay, Ways, way_for};
use cfg_graph::Term;
use lower_code::Exit;
use lower_passes::{Entries, LoweringFrame, Scopes, depth, drops_none};
use mir_base::{NoMemory, NodeId};
use std::alloc::Global;

/// Entries are dropped as a scope is left. What is open may be a jump; then other places may share the drops.
fn leave_entries(
    alloc: Global,
    frame: LoweringFrame,
    entries: &Entries,
    around: &Scopes,
    blocks: &mut Blocks,
) -> Result<(), NoMemory>
    ensures { OnOk result (built_of blocks.new ≡ build.leave_by (frame_of frame.entry) (build.jump_of (rest_of blocks.old.rest))
        (needing_drop frame.entry.items.now (held entries.entry.now)) (scopes_of around.entry.now)
        (rest_of blocks.old.rest) (building_of blocks.old)) }
{
    if drops_none(frame.items, entries) {
        return Ok(());
    }
    match blocks.jump_of() {
        Some(block) => {
            let to = blocks.share(alloc, frame, SharedEnd::GoesTo(block))?;
            blocks.drops_to(alloc, frame, entries, around, to)
        }
        None => blocks.drop_all(alloc, frame, entries, around),
    }
}

/// The innermost scope is left.
pub fn leave(
    alloc: Global,
    frame: LoweringFrame,
    scopes: &Scopes,
    blocks: &mut Blocks,
) -> Result<(), NoMemory>
    ensures { OnOk result (built_of blocks.new ≡ build.leave_from (frame_of frame.entry) (scopes_of scopes.entry.now)
        (rest_of blocks.old.rest) (building_of blocks.old)) }
{
    match scopes {
        Scopes::Innermost(scope, around) => {
            leave_entries(alloc, frame, &scope.entries, around, blocks)
        }
        Scopes::NoScope => Ok(()),
    }
}

/// The shared block from which on the innermost scopes are left, so many of them, and then a block is entered.
fn shared_leaves(
    alloc: Global,
    frame: LoweringFrame,
    block: u32,
    count: usize,
    scopes: &Scopes,
    blocks: &mut Blocks,
) -> Result<u32, NoMemory>
    ensures { IfOk result (λ number. (plain : spots.JumpWay) → plain.block ≡ block →
        count ≡ length (scopes_of scopes.entry.now) - plain.base →
        (number, building_of blocks.new) ≡
        build.leaves_before (frame_of frame.entry) plain (scopes_of scopes.entry.now) (building_of blocks.old)) }
{
    match scopes {
        Scopes::Innermost(scope, around) => {
            if count == 0 {
                return blocks.share(alloc, frame, SharedEnd::GoesTo(block));
            }
            let to = shared_leaves(alloc, frame, block, count - 1, around, blocks)?;
            blocks.drops_before(alloc, frame, &scope.entries, around, to)
        }
        Scopes::NoScope => blocks.share(alloc, frame, SharedEnd::GoesTo(block)),
    }
}

/// The innermost scopes are left, so many of them, and then a block is entered.
fn leave_some(
    alloc: Global,
    frame: LoweringFrame,
    node: NodeId,
    block: u32,
    count: usize,
    scopes: &Scopes,
    blocks: &mut Blocks,
) -> Result<(), NoMemory>
    ensures { OnOk result ((plain : spots.JumpWay) → plain.block ≡ block →
        count ≡ length (scopes_of scopes.entry.now) - plain.base →
        built_of blocks.new ≡
        build.leaves_to (frame_of frame.entry) node.0 plain (scopes_of scopes.entry.now) (building_of blocks.old)) }
{
    match scopes {
        Scopes::Innermost(scope, around) => {
            if count == 0 {
                blocks.end(alloc, Term::Goto(block), node);
                return Ok(());
            }
            if drops_none(frame.items, &scope.entries) {
                return leave_some(alloc, frame, node, block, count - 1, around, blocks);
            }
            let to = shared_leaves(alloc, frame, block, count - 1, around, blocks)?;
            blocks.drops_to(alloc, frame, &scope.entries, around, to)
        }
        Scopes::NoScope => {
            blocks.end(alloc, Term::Goto(block), node);
            Ok(())
        }
    }
}

/// Scopes are left until so many stay, and then a block is entered.
fn leave_to(
    alloc: Global,
    frame: LoweringFrame,
    node: NodeId,
    way: JumpWay,
    scopes: &Scopes,
    blocks: &mut Blocks,
) -> Result<(), NoMemory>
    ensures { OnOk result ((plain : spots.JumpWay) → plain.base ≡ way.base → plain.block ≡ way.block →
        built_of blocks.new ≡
        build.leaves_to (frame_of frame.entry) node.0 plain (scopes_of scopes.entry.now) (building_of blocks.old)) }
{
    let count = depth(scopes)?.saturating_sub(way.base);
    leave_some(alloc, frame, node, way.block, count, scopes, blocks)
}

/// Scopes are left as far as a jump says.
///
/// # Errors
///
/// [`NoMemory`] where memory is wanted.
pub fn exit(
    alloc: Global,
    frame: LoweringFrame,
    node: NodeId,
    to: Exit,
    ways: Ways,
    scopes: &Scopes,
    blocks: &mut Blocks,
) -> Result<(), NoMemory>
    ensures { OnOk result (built_of blocks.new ≡ build.leaves_to (frame_of frame.entry) node.0
        (build.way_of (exit_of to) (ways_of ways.entry)) (scopes_of scopes.entry.now) (building_of blocks.old)) }
{
    leave_to(alloc, frame, node, way_for(to, ways), scopes, blocks)
}
