//! Effects, panics, and assignments whose old value is dropped.
ghost use Rattle.std.specs.Prelude.{◌≡◌, ◌∷◌, [], IfOk, OnOk};
ghost use Rattle.lower_rules.specs.Build as build;
ghost use Rattle.cfg_graph.specs.Places.{named};
ghost use Rattle.lower_passes.specs.Framed.{frame_of};
ghost use Rattle.lower_passes.specs.Scoped.{scopes_of};
ghost use Rattle.lower_code.specs.View.{effect_of};
ghost use Rattle.src_meaning.specs.Forms.{site_of_key};
ghost use Rattle.lower_blocks.specs.Building.{built_of, rest_of, building_of, ways_of};

use crate::blocks::Blocks;
use crate::ways::Ways;
use bumpalo::Bump;
use cfg_graph::{Kind, Operand, Place, Stmt, Term, Unwind};
use lower_code::Action;
use lower_passes::{LoweringFrame, Scopes, place, statement, take, terminator, whole_place};
use mir_base::{Key, NoMemory, NodeId, Why};
use std::alloc::Global;

/// An effect is done, as a statement, or as a terminator with its two ways on.
fn add_effect(
    alloc: Global,
    frame: LoweringFrame,
    node: NodeId,
    action: &Action,
    scopes: &Scopes,
    blocks: &mut Blocks,
) -> Result<(), NoMemory>
    ensures { OnOk result (built_of blocks.new ≡ build.done (frame_of frame.entry) node.0
        (build.done_by (frame_of frame.entry) (effect_of node.0 action.now)) (scopes_of scopes.entry.now)
        (rest_of blocks.old.rest) (building_of blocks.old)) }
{
    if let Action::Stmt(stmt) = action {
        let line = statement(alloc, frame, stmt)?;
        return blocks.add_line(line, node);
    }
    let then = blocks.close(alloc, Kind::Plain)?;
    let drops = blocks.panic_drops(alloc, frame, scopes)?;
    let unwind = blocks.unwind_to(alloc, frame, drops.as_slice())?;
    blocks.keep_room(drops);
    match terminator(alloc, frame, action, then, unwind)? {
        Some(term) => {
            blocks.end(alloc, term, node);
            Ok(())
        }
        None => Ok(()),
    }
}

/// An effect. No run comes behind the last one of a body, which stores into a place of type `!`: the block goes on to the
/// one that returns.
///
/// # Errors
///
/// [`NoMemory`] where memory is wanted.
pub fn act(
    alloc: Global,
    frame: LoweringFrame,
    node: NodeId,
    action: &Action,
    last: bool,
    ways: Ways,
    scopes: &Scopes,
    blocks: &mut Blocks,
) -> Result<(), NoMemory>
    ensures { OnOk result (built_of blocks.new ≡
        (build.act_by (frame_of frame.entry) last node.0 (build.done_by (frame_of frame.entry) (effect_of node.0 action.now))).build
        (ways_of ways.entry) (scopes_of scopes.entry.now) (rest_of blocks.old.rest) (building_of blocks.old)) }
{
    if last {
        blocks.end(alloc, Term::Goto(ways.returns), node);
    }
    add_effect(alloc, frame, node, action, scopes, blocks)
}

/// A panic starts.
///
/// # Errors
///
/// [`NoMemory`] where memory is wanted.
pub fn panic(
    alloc: Global,
    frame: LoweringFrame,
    node: NodeId,
    why: Why,
    scopes: &Scopes,
    blocks: &mut Blocks,
) -> Result<(), NoMemory>
    ensures { OnOk result (built_of blocks.new ≡ build.unwinding (frame_of frame.entry) (Term.Panic why) node.0
        (build.panic_drops (frame_of frame.entry) (scopes_of scopes.entry.now)) (building_of blocks.old)) }
{
    let drops = blocks.panic_drops(alloc, frame, scopes)?;
    let unwind = blocks.unwind_to(alloc, frame, drops.as_slice())?;
    blocks.keep_room(drops);
    blocks.end(alloc, Term::Panic { why, unwind }, node);
    Ok(())
}

/// What stands under a key is dropped.
///
/// # Errors
///
/// [`NoMemory`] where memory is wanted.
pub fn drop_under(
    alloc: Global,
    frame: LoweringFrame,
    key: Key,
    scopes: &Scopes,
    blocks: &mut Blocks,
) -> Result<(), NoMemory>
    ensures { OnOk result (built_of blocks.new ≡ build.drop_one (frame_of frame.entry) (site_of_key key.0)
        (build.panic_drops (frame_of frame.entry) (scopes_of scopes.entry.now)) (rest_of blocks.old.rest) (building_of blocks.old)) }
{
    let drops = blocks.panic_drops(alloc, frame, scopes)?;
    blocks.drop_one(alloc, frame, key, drops.as_slice())?;
    blocks.keep_room(drops);
    Ok(())
}

/// What stands under a key is stored at a place, before what is open.
fn store(
    alloc: Global,
    frame: LoweringFrame,
    node: NodeId,
    to: &Place,
    key: Key,
    blocks: &mut Blocks,
) -> Result<(), NoMemory>
    ensures { OnOk result (built_of blocks.new ≡ (
      build.with_line
          (build.put_into (frame_of frame.entry) (record { node = node.0; place = named to.now }) key.0) node.0
          (rest_of blocks.old.rest),
      building_of blocks.old,
    )) }
{
    let to = place(alloc, frame, to)?;
    let from = whole_place(alloc, frame, key)?;
    blocks.add_line(Stmt::Put(to, Operand::Moved(from)), node)
}

/// What stands under a key is stored at a place, in a block of its own.
fn store_in_block(
    alloc: Global,
    frame: LoweringFrame,
    node: NodeId,
    to: &Place,
    key: Key,
    kind: Kind,
    blocks: &mut Blocks,
) -> Result<u32, NoMemory>
    ensures { IfOk result (λ number. (number ≡ build.next_number (building_of blocks.old))
        × (building_of blocks.new ≡ build.closed kind
        (build.with_line
        (build.put_into (frame_of frame.entry) (record { node = node.0; place = named to.now }) key.0) node.0
        (rest_of blocks.old.rest))
        (building_of blocks.old))) }
{
    store(alloc, frame, node, to, key, blocks)?;
    blocks.close(alloc, kind)
}

/// What a place holds is dropped.
fn drop_at(
    alloc: Global,
    frame: LoweringFrame,
    node: NodeId,
    of: &Place,
    then: u32,
    unwind: Unwind,
    blocks: &mut Blocks,
) -> Result<(), NoMemory>
    ensures { OnOk result (built_of blocks.new ≡ (
      build.ending
          (Term.DropAt (build.place_of (frame_of frame.entry) (record { node = node.0; place = named of.now })) then unwind)
          node.0,
      building_of blocks.old,
    )) }
{
    let place = place(alloc, frame, of)?;
    let term = Term::DropAt {
        place,
        then,
        unwind,
    };
    blocks.end(alloc, term, node);
    Ok(())
}

/// What a panic drops once what stands under a key is taken.
fn unwind_without<'a>(
    alloc: Global,
    bump: &'a Bump,
    frame: LoweringFrame,
    key: Key,
    scopes: &'a Scopes<'a>,
    blocks: &mut Blocks,
) -> Result<u32, NoMemory>
    ensures { IfOk result (λ number. (number, building_of blocks.new) ≡ build.chain (frame_of frame.entry)
        (build.panic_drops (frame_of frame.entry) (build.taken (frame_of frame.entry) (key.0 ∷ []) (scopes_of scopes.entry.now)))
        (building_of blocks.old)) }
{
    let without = take(bump, &[key], scopes)?;
    let drops = blocks.panic_drops(alloc, frame, without)?;
    let number = blocks.chain(alloc, frame, drops.as_slice())?;
    blocks.keep_room(drops);
    Ok(number)
}

/// What a place holds is dropped, and what stands under a key is stored there, whether the drop panics or not.
///
/// # Errors
///
/// [`NoMemory`] where memory is wanted.
pub fn replace<'a>(
    alloc: Global,
    bump: &'a Bump,
    frame: LoweringFrame,
    node: NodeId,
    to: &Place,
    key: Key,
    scopes: &'a Scopes<'a>,
    blocks: &mut Blocks,
) -> Result<(), NoMemory>
    ensures { OnOk result (built_of blocks.new ≡ build.replaces_from (frame_of frame.entry)
        (record { node = node.0; place = named to.now }) key.0 (scopes_of scopes.entry.now)
        (rest_of blocks.old.rest) (building_of blocks.old)) }
{
    let then = store_in_block(alloc, frame, node, to, key, Kind::Plain, blocks)?;
    let down = unwind_without(alloc, bump, frame, key, scopes, blocks)?;
    blocks.end(alloc, Term::Goto(down), node);
    let unwind = store_in_block(alloc, frame, node, to, key, Kind::Cleanup, blocks)?;
    drop_at(alloc, frame, node, to, then, Unwind::Block(unwind), blocks)
}
