//! What a turn of a drop does to what a run has at hand.
ghost use Rattle.std.specs.Prelude.{◌≡◌, IfOk, OnOk};
ghost use Rattle.machine_steps.specs.Turns.{Clears, Frees, TurnLeft, left_if};
ghost use Rattle.machine_steps.specs.declared.drops.Turn.{Turn as a_turn};
ghost use Rattle.mir_base.specs.Trace.{Trace};
ghost use Rattle.machine_steps.specs.Worlds.{state_of, run_setting};
ghost use Rattle.store_model.specs.Concrete.State.{Bodies, State};
ghost use Rattle.store_model.specs.Concrete.Location.{stored_at};
ghost use Rattle.store_model.specs.Effects.{Out};
ghost use Rattle.store_model.specs.Values.Datum.{Gone};

use crate::found::{DropKind, is_still, read};
use crate::visit::visit;
use crate::{Drops, ToldEvents, Turn, World};
use machine_store::Dynamic;
use mir_base::{Event, NoMemory};
use std::alloc::Global;
use store_model::Addr;

/// Leaves an address gone, where what was found there is still found so; false where it is not, and then nothing
/// changes.
fn clear(
    alloc: Global,
    world: &mut World<'_>,
    address: &Addr,
    dynamic: Dynamic,
) -> Result<bool, NoMemory>
    ensures run { run_setting world.new ≡ run_setting world.old }
    ensures ticks { OnOk result (world.new.ticks ≡ world.old.ticks) }
    ensures cleared { IfOk result (λ went. (before : Trace) (run : Bodies) →
        Clears (run_setting world.old) run address.now dynamic (state_of before world.old) went
        (state_of before world.new)) }
{
    let Some(found) = read(alloc, world.graph, &world.store, address)? else {
        return Ok(false);
    };
    if !is_still(&world.graph.items, dynamic, found.dynamic) {
        return Ok(false);
    }
    take_away(alloc, world, address)?;
    Ok(true)
}

/// Leaves an address gone.
pub fn take_away(alloc: Global, world: &mut World<'_>, address: &Addr) -> Result<(), NoMemory>
    ensures run { run_setting world.new ≡ run_setting world.old }
    ensures ticks { OnOk result (world.new.ticks ≡ world.old.ticks) }
    ensures gone { OnOk result ((before : Trace) →
        state_of before world.new ≡ stored_at address.now Gone (state_of before world.old)) }
{
    let path = address.path.as_slice();
    let _gone = world
        .store
        .take(alloc, address.depth as usize, address.key.0, path)?;
    Ok(())
}

/// Frees the box that stands at an address, where what was found there is still found so; false where it is not, or
/// no box stands there, and then nothing changes.
fn free(
    alloc: Global,
    world: &mut World<'_>,
    address: &Addr,
    dynamic: Dynamic,
) -> Result<bool, NoMemory>
    ensures run { run_setting world.new ≡ run_setting world.old }
    ensures ticks { OnOk result (world.new.ticks ≡ world.old.ticks) }
    ensures freed { IfOk result (λ went. (before : Trace) (run : Bodies) →
        Frees (run_setting world.old) run address.now dynamic (state_of before world.old) went
        (state_of before world.new)) }
{
    let Some(found) = read(alloc, world.graph, &world.store, address)? else {
        return Ok(false);
    };
    if !is_still(&world.graph.items, dynamic, found.dynamic) {
        return Ok(false);
    }
    let DropKind::Boxed { serial, .. } = found.kind else {
        return Ok(false);
    };
    take_away(alloc, world, address)?;
    world.tell(ToldEvents::Event(Event::Freed(serial)))?;
    Ok(true)
}

fn leaves_if(went: bool) -> Turn
    ensures { result ≡ left_if went }
{
    if went { Turn::Leaves } else { Turn::Stuck }
}

/// Makes one turn of a drop. A turn that enters a `Drop` body, ends the drop or has no step is handed back as it is.
fn step(
    alloc: Global,
    world: &mut World<'_>,
    drops: &mut Drops,
    turn: Turn,
) -> Result<Turn, NoMemory>
    ensures run { run_setting world.new ≡ run_setting world.old }
    ensures ticks { OnOk result (world.new.ticks ≡ world.old.ticks) }
    ensures left { IfOk result (λ next. (before : Trace) (run : Bodies) (out : Out State) →
        TurnLeft (run_setting world.old) run (state_of before world.old) out drops.old turn →
        TurnLeft (run_setting world.old) run (state_of before world.new) out drops.new next) }
{
    match turn {
        Turn::Visits { has_run, expected } => visit(alloc, world, drops, has_run, expected),
        Turn::Goes => drops.go(&world.graph.items, world.ticks),
        Turn::Leaves => drops.leave(alloc),
        Turn::Clears(dynamic) => Ok(leaves_if(clear(alloc, world, &drops.address, dynamic)?)),
        Turn::Frees(dynamic) => Ok(leaves_if(free(alloc, world, &drops.address, dynamic)?)),
        Turn::Enters { .. } | Turn::Ends | Turn::Stuck => Ok(turn),
    }
}

/// Whether a turn enters a `Drop` body, ends the drop or has no step.
fn is_over(turn: Turn) -> bool {
    matches!(turn, Turn::Enters { .. } | Turn::Ends | Turn::Stuck)
}

/// How many turns are made one after another before what they told is handed on.
const MANY: u32 = 32;

/// Makes turns of a drop up to one that enters a `Drop` body, ends the drop or has no step, but not too many. Such a
/// turn is handed back as it is.
pub fn steps(
    alloc: Global,
    world: &mut World<'_>,
    drops: &mut Drops,
    turn: Turn,
) -> Result<Turn, NoMemory>
    ensures run { run_setting world.new ≡ run_setting world.old }
    ensures ticks { OnOk result (world.new.ticks ≡ world.old.ticks) }
    ensures left { IfOk result (λ next. (before : Trace) (run : Bodies) (out : Out State) →
        TurnLeft (run_setting world.old) run (state_of before world.old) out drops.old turn →
        TurnLeft (run_setting world.old) run (state_of before world.new) out drops.new next) }
{
    let mut now = turn;
    for _made in 0..MANY {
        if is_over(now) {
            return Ok(now);
        }
        now = step(alloc, world, drops, now)?;
    }
    Ok(now)
}
