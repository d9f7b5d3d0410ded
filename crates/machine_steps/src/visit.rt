//! The turn in which what stands at an address is read, and dropped in one go where no `Drop` body is to run in it.
ghost use Rattle.std.specs.Prelude.{◌≡◌, List as Listed, map, true, IfOk, OnOk};
ghost use Rattle.cfg_meaning.specs.Programs.{setting_of};
ghost use Rattle.machine_steps.specs.Seen.{IsSeen};
ghost use Rattle.machine_steps.specs.Swept.{with_events};
ghost use Rattle.machine_steps.specs.Turns.{TurnLeft};
ghost use Rattle.machine_steps.specs.declared.drops.Turn.{Turn as a_turn};
ghost use Rattle.mir_base.specs.Trace.{Trace};
ghost use Rattle.machine_steps.specs.Worlds.{event_of, run_setting, state_of};
ghost use Rattle.machine_store.specs.Activations.{activations_of};
ghost use Rattle.machine_store.specs.Standing.{with_activations};
ghost use Rattle.store_model.specs.Concrete.Location as location;
ghost use Rattle.store_model.specs.Concrete.Location.{stored_at};
ghost use Rattle.store_model.specs.Concrete.State.{Bodies, State};
ghost use Rattle.store_model.specs.Effects.{Out};
ghost use Rattle.store_model.specs.Values.Datum.{Gone};

use crate::found::{FoundValue, OwnDrop, is_expected, kind_of, own_drop};
use crate::sweep::{Pass, sweep_there};
use crate::turns::take_away;
use crate::{Drops, ToldEvents, Turn, World};
use cfg_graph::Graph;
use machine_store::{Dynamic, Store, located_at};
use mir_base::{List, NoMemory};
use std::alloc::Global;
use store_model::Addr;

/// What a visit sees.
#[derive(Clone, Copy)]
pub struct Sight {
    pub found: FoundValue,
    /// Its own `Drop` body, where that is still to run.
    pub own: Option<OwnDrop>,
    pub pass: Pass,
}

/// Reads what stands at an address, whose own `Drop` body may have run, and goes over it where that is tried; `None`
/// exactly where there is no such place. Where it is gone over, what its drop tells is told.
fn look(
    alloc: Global,
    graph: &Graph,
    store: &Store,
    told: &mut List<ToldEvents>,
    address: &Addr,
    has_run: bool,
    tries: bool,
) -> Result<Option<Sight>, NoMemory>
    ensures { IfOk result (λ sight. IsSeen graph.now.items has_run (location.located_at (setting_of true
        graph.now) (with_activations (activations_of store.now)) address.now) (map event_of told.old) (map event_of
        told.new) sight) }
{
    let Some(s) = located_at(alloc, graph, store, address)? else {
        return Ok(None);
    };
    let items = &graph.items;
    let kind = kind_of(items, &s);
    let found = FoundValue {
        dynamic: s.dynamic,
        kind,
    };
    let own = own_drop(items, has_run, s.dynamic);
    let pass = sweep_there(alloc, items, told, &s, has_run, tries && own.is_none())?;
    Ok(Some(Sight { found, own, pass }))
}

/// Tells of all of these.
fn tell_all(world: &mut World<'_>, told: &[ToldEvents]) -> Result<(), NoMemory>
    ensures run { run_setting world.new ≡ run_setting world.old }
    ensures told { OnOk result ((before : Trace) →
        state_of before world.new ≡ with_events (map event_of told.now) (state_of before world.old)) }
{
    for one in told {
        world.tell(*one)?;
    }
    Ok(())
}

/// Leaves an address gone, and tells of all of these.
fn put_aside(
    alloc: Global,
    world: &mut World<'_>,
    address: &Addr,
    told: &[ToldEvents],
) -> Result<(), NoMemory>
    ensures run { run_setting world.new ≡ run_setting world.old }
    ensures ticks { OnOk result (world.new.ticks ≡ world.old.ticks) }
    ensures gone { OnOk result ((before : Trace) → state_of before world.new ≡
        with_events (map event_of told.now) (stored_at address.now Gone (state_of before world.old))) }
{
    take_away(alloc, world, address)?;
    tell_all(world, told)
}

/// Drops what stands at the address, whose own `Drop` body may have run: in one go, where no other is to run in it.
pub fn visit(
    alloc: Global,
    world: &mut World<'_>,
    drops: &mut Drops,
    has_run: bool,
    expected: Option<Dynamic>,
) -> Result<Turn, NoMemory>
    ensures run { run_setting world.new ≡ run_setting world.old }
    ensures ticks { OnOk result (world.new.ticks ≡ world.old.ticks) }
    ensures left { IfOk result (λ turn. (before : Trace) (run : Bodies) (out : Out State) →
        TurnLeft (run_setting world.old) run (state_of before world.old) out drops.old
        (a_turn.Visits has_run expected) →
        TurnLeft (run_setting world.old) run (state_of before world.new) out drops.new turn) }
{
    let graph = world.graph;
    let ticks = world.ticks;
    let mut told = List::new(alloc);
    let address = &drops.address;
    let Some(sight) = look(
        alloc,
        graph,
        &world.store,
        &mut told,
        address,
        has_run,
        drops.sweeps,
    )?
    else {
        return Ok(Turn::Stuck);
    };
    if !is_expected(&graph.items, expected, sight.found.dynamic) {
        return Ok(Turn::Stuck);
    }
    match sight.pass {
        Pass::Over => {
            put_aside(alloc, world, address, told.as_slice())?;
            Ok(Turn::Leaves)
        }
        Pass::Ends { late } => {
            drops.sweeps &= !late;
            drops.begin(ticks, sight.own, sight.found)
        }
    }
}
