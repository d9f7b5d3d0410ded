//! Runs whose events are counted and not written.
ghost use Rattle.std.specs.Prelude.{◌≡◌, ◌≤◌, ◌∷◌, [], IfOk, OnOk, map, true};
ghost use Rattle.cfg_graph.specs.WellFormed.Faults.{IsWellFormed};
ghost use Rattle.cfg_meaning.specs.Programs.{graph_run};
ghost use Rattle.machine_steps.specs.Worlds.{event_of};
ghost use Rattle.mir_machine.specs.Runs.{Counting, ForRun, IsHandedOn, events_of};
ghost use Rattle.store_model.specs.Concrete.Bodies.{main_of};
ghost use Rattle.trace_summary.specs.Summary.{counts_of};

use crate::calls::enter;
use crate::runs::{end_of, main_number};
use crate::turns::turn;
use cfg_graph::Graph;
use machine_steps::{ToldEvents, World};
use machine_store::Store;
use mir_base::{End, Event, List, NoMemory};
use std::alloc::Global;
use trace_summary::Counts;

/// Counts an event that was told.
fn count_one(counts: &mut Counts, told: &ToldEvents) -> Result<(), NoMemory>
    ensures { OnOk result (Counting counts.old counts.new (event_of told.now ∷ [])) }
{
    match told {
        ToldEvents::Event(event) => counts.count(event),
        ToldEvents::Printed(_) => counts.count_print(),
    }
}

/// Counts events that were told.
fn count_all(counts: &mut Counts, told: &[ToldEvents]) -> Result<(), NoMemory>
    ensures { OnOk result (Counting counts.old counts.new (map event_of told.now)) }
{
    for one in told {
        count_one(counts, one)?;
    }
    Ok(())
}

/// Counts what was told, and lets it go.
fn count_told(world: &mut World<'_>, counts: &mut Counts) -> Result<(), NoMemory>
    ensures same { OnOk result (IsHandedOn world.old world.new) }
    ensures counts { OnOk result (Counting counts.old counts.new (events_of world.old.told)) }
{
    count_all(counts, world.told.as_slice())?;
    world.told.truncate(0);
    Ok(())
}

/// Turns until the run ends; what each of them told is counted before the next.
fn turns_counted(
    alloc: Global,
    graph: &Graph,
    world: &mut World<'_>,
    main: u32,
) -> Result<(End, Counts), NoMemory>
    requires { main ≡ main_of graph.now.items }
    ensures { IfOk result (λ ran. ForRun graph.now world.old (λ run. (run.1 ≡ ran.0) × (ran.1 ≡ counts_of run.0))) }
{
    let mut tasks = List::new(alloc);
    let entered = enter(
        alloc,
        graph,
        world,
        &tasks,
        Event::Call(main),
        main,
        List::new(alloc),
    );
    let mut doing = match entered {
        Ok(doing) => doing,
        Err(NoMemory) => return Err(NoMemory),
    };
    let mut counts = Counts::none();
    for _turn in 0..u64::MAX {
        if let Err(NoMemory) = count_told(world, &mut counts) {
            drop(doing);
            return Err(NoMemory);
        }
        if let Some(end) = end_of(&doing) {
            drop(doing);
            return Ok((end, counts));
        }
        match turn(alloc, graph, world, &mut tasks, doing) {
            Ok(next) => doing = next,
            Err(NoMemory) => return Err(NoMemory),
        }
    }
    drop(doing);
    // Behind all turns that a `u64` counts: no run comes so far.
    Err(NoMemory)
}

/// Runs the body `main` of a well formed graph by strict steps, as [`run`](crate::run) does, and writes nothing: it
/// answers how the run ended and how many events of each kind it told. No trace is kept.
///
/// # Errors
///
/// [`NoMemory`] where memory is wanted.
pub fn run_counted(
    alloc: Global,
    graph: &Graph,
    asks: &[i32],
    ticks: u64,
) -> Result<(End, Counts), NoMemory>
    requires well_formed { IsWellFormed graph.now }
    requires within { ticks ≤ 1000000000 }
    ensures end { IfOk result (λ ran. ran.0 ≡ (graph_run graph.now asks.now ticks).1) }
    ensures counts { IfOk result (λ ran. ran.1 ≡ counts_of (graph_run graph.now asks.now ticks).0) }
{
    let main = main_number(&graph.items);
    let mut world = World {
        graph,
        strict: true,
        asks,
        ticks,
        serial: 1,
        store: Store::new(alloc),
        told: List::new(alloc),
    };
    let ran = turns_counted(alloc, graph, &mut world, main);
    drop(world);
    ran
}
