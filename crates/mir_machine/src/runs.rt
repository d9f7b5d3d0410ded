//! Whole runs.
ghost use Rattle.std.specs.Prelude.{◌≡◌, ◌≤◌, ◌++◌, [], Some, true, codes, string_bytes, IfOk, IfErr, OnOk};
ghost use Rattle.std.specs.Cmp.Lexicographic.{pointwise};
ghost use Rattle.std.specs.Prelude.{nat_eq};
ghost use Rattle.cfg_graph.specs.WellFormed.Faults.{IsWellFormed};
ghost use Rattle.mir_base.specs.Lines.{end_line};
ghost use Rattle.mir_edge.specs.Faults.{HasRisen};
ghost use Rattle.mir_edge.specs.Told.{WhereTold};
ghost use Rattle.cfg_meaning.specs.Programs.{graph_run, raw_graph_run};
ghost use Rattle.mir_machine.specs.Flows.{FlowsOn, StopsIn};
ghost use Rattle.mir_machine.specs.Runs.{ForRun, IsHandedOn, ended_by, events_of, lines_in, run_by, run_text};
ghost use Rattle.mir_machine.specs.Errors.{IsWriteFault, TookPart};
ghost use Rattle.store_model.specs.Concrete.Bodies.{main_of};

use crate::calls::enter;
use crate::tasks::Doing;
use crate::turns::turn;
use crate::{RunError, TextFlow};
use cfg_graph::Graph;
use machine_steps::World;
use machine_store::Store;
use mir_base::{End, Event, List, Name, NoMemory};
use mir_edge::Sink;
use mir_ty::Items;
use std::alloc::Global;

fn is_main(name: &Name) -> bool
    ensures { result ≡ pointwise nat_eq name.now (codes "main") }
{
    name.as_str() == "main"
}

/// The number of the body with the name `main`, or 0.
pub fn main_number(items: &Items) -> u32
    ensures { result ≡ main_of items.now }
{
    for n in 0..u32::MAX {
        match items.body_sig(n) {
            Some(sig) => {
                if is_main(&sig.name) {
                    return n;
                }
            }
            None => return 0,
        }
    }
    unreachable!()
}

/// How a run has ended, if it has.
pub fn end_of(doing: &Doing) -> Option<End>
    ensures { result ≡ ended_by doing.now }
{
    match doing {
        Doing::Ended(end) => Some(*end),
        _ => None,
    }
}

/// Hands on what was told.
fn hand_on<K: Sink>(
    alloc: Global,
    graph: &Graph,
    world: &mut World<'_>,
    flow: &mut TextFlow,
    out: &mut K,
) -> Result<(), RunError>
    ensures counts { K.faults out.old ≤ K.faults out.new }
    ensures fault { IfErr result (λ error. IsWriteFault error → HasRisen (K.faults out.old) (K.faults out.new)) }
    ensures same { OnOk result (IsHandedOn world.old world.new) }
    ensures flows { OnOk result (FlowsOn (K.taken out.old) (K.taken out.new) flow.old flow.new
        (lines_in graph.now (events_of world.old.told))) }
    ensures stops { IfErr result (StopsIn (K.taken out.old) (K.taken out.new) flow.old
        (lines_in graph.now (events_of world.old.told))) }
{
    if let Err(error) = flow.tell(alloc, &graph.items, world.told.as_slice(), out) {
        return Err(error);
    }
    world.told.truncate(0);
    Ok(())
}

/// Writes the last line, and answers how the run ended.
fn finish<K: Sink>(
    alloc: Global,
    flow: &mut TextFlow,
    end: End,
    out: &mut K,
) -> Result<End, RunError>
    ensures counts { K.faults out.old ≤ K.faults out.new }
    ensures fault { IfErr result (λ error. IsWriteFault error → HasRisen (K.faults out.old) (K.faults out.new)) }
    ensures end { IfOk result (λ answer. answer ≡ end) }
    ensures flows { OnOk result (FlowsOn (K.taken out.old) (K.taken out.new) flow.old flow.new (end_line end)
        × (string_bytes flow.new.piece ≡ [])) }
    ensures stops { IfErr result (StopsIn (K.taken out.old) (K.taken out.new) flow.old (end_line end)) }
{
    match flow.end(alloc, &end, out) {
        Ok(()) => Ok(end),
        Err(error) => Err(error),
    }
}

/// Turns until the run ends, each of which hands on what the one before it told.
fn turns<K: Sink>(
    alloc: Global,
    graph: &Graph,
    world: &mut World<'_>,
    main: u32,
    out: &mut K,
) -> Result<End, RunError>
    requires { main ≡ main_of graph.now.items }
    ensures counts { K.faults out.old ≤ K.faults out.new }
    ensures fault { IfErr result (λ error. IsWriteFault error → HasRisen (K.faults out.old) (K.faults out.new)) }
    ensures end { IfOk result (λ end. ForRun graph.now world.old (λ run. run.1 ≡ end)) }
    ensures text { OnOk result (ForRun graph.now world.old (λ run. WhereTold (K.taken out.old) (λ taken.
        K.taken out.new ≡ Some (taken ++ run_text graph.now run)))) }
    ensures part { IfErr result (λ error. ForRun graph.now world.old (λ run.
        TookPart (run_text graph.now run) (K.taken out.old) (K.taken out.new) error)) }
{
    let mut tasks = List::new(alloc);
    let entered = enter(
        alloc,
        graph,
        world,
        &tasks,
        Event::Call(main),
        main,
        List::new(alloc),
    );
    let mut doing = match entered {
        Ok(doing) => doing,
        Err(NoMemory) => return Err(RunError::Memory),
    };
    let mut flow = TextFlow::new(alloc);
    for _turn in 0..u64::MAX {
        if let Err(error) = hand_on(alloc, graph, world, &mut flow, out) {
            drop(doing);
            return Err(error);
        }
        if let Some(end) = end_of(&doing) {
            drop(doing);
            return finish(alloc, &mut flow, end, out);
        }
        match turn(alloc, graph, world, &mut tasks, doing) {
            Ok(next) => doing = next,
            Err(NoMemory) => return Err(RunError::Memory),
        }
    }
    drop(doing);
    // Behind all turns that a `u64` counts: no run comes so far.
    Err(RunError::Memory)
}

/// Runs `main`.
fn run_graph<K: Sink>(
    alloc: Global,
    graph: &Graph,
    strict: bool,
    asks: &[i32],
    ticks: u64,
    out: &mut K,
) -> Result<End, RunError>
    requires { IsWellFormed graph.now }
    ensures counts { K.faults out.old ≤ K.faults out.new }
    ensures end { IfOk result (λ end. end ≡ (run_by strict graph.now asks.now ticks).1) }
    ensures text { OnOk result (WhereTold (K.taken out.old) (λ taken.
        K.taken out.new ≡ Some (taken ++ run_text graph.now (run_by strict graph.now asks.now ticks)))) }
    ensures fault { IfErr result (λ error. IsWriteFault error → HasRisen (K.faults out.old) (K.faults out.new)) }
    ensures part { IfErr result (TookPart (run_text graph.now (run_by strict graph.now asks.now ticks)) (K.taken out.old)
        (K.taken out.new)) }
{
    let main = main_number(&graph.items);
    let mut world = World {
        graph,
        strict,
        asks,
        ticks,
        serial: 1,
        store: Store::new(alloc),
        told: List::new(alloc),
    };
    let end = turns(alloc, graph, &mut world, main, out);
    drop(world);
    end
}

/// Runs the body `main` of a well formed graph by strict steps, with these numbers to be asked and at most 1,000,000,000
/// ticks, and writes the text of the run with its last line, as its events come, in pieces of at most 8,192 bytes or of
/// one longer line. It answers how the run ended; [`RunError::WriteFault`] only where the sink's count of faults rose,
/// with how many bytes of the text were taken; or [`RunError::Memory`], and then some first bytes were taken.
pub fn run<K: Sink>(
    alloc: Global,
    graph: &Graph,
    asks: &[i32],
    ticks: u64,
    out: &mut K,
) -> Result<End, RunError>
    requires well_formed { IsWellFormed graph.now }
    requires within { ticks ≤ 1000000000 }
    ensures counts { K.faults out.old ≤ K.faults out.new }
    ensures end { IfOk result (λ end. end ≡ (graph_run graph.now asks.now ticks).1) }
    ensures text { OnOk result (WhereTold (K.taken out.old) (λ taken.
        K.taken out.new ≡ Some (taken ++ run_text graph.now (graph_run graph.now asks.now ticks)))) }
    ensures fault { IfErr result (λ error. IsWriteFault error → HasRisen (K.faults out.old) (K.faults out.new)) }
    ensures part { IfErr result (TookPart (run_text graph.now (graph_run graph.now asks.now ticks)) (K.taken out.old)
        (K.taken out.new)) }
{
    run_graph(alloc, graph, true, asks, ticks, out)
}

/// The same as [`run`] by raw steps, where a drop drops what remains of its place.
pub fn run_raw<K: Sink>(
    alloc: Global,
    graph: &Graph,
    asks: &[i32],
    ticks: u64,
    out: &mut K,
) -> Result<End, RunError>
    requires well_formed { IsWellFormed graph.now }
    requires within { ticks ≤ 1000000000 }
    ensures counts { K.faults out.old ≤ K.faults out.new }
    ensures end { IfOk result (λ end. end ≡ (raw_graph_run graph.now asks.now ticks).1) }
    ensures text { OnOk result (WhereTold (K.taken out.old) (λ taken.
        K.taken out.new ≡ Some (taken ++ run_text graph.now (raw_graph_run graph.now asks.now ticks)))) }
    ensures fault { IfErr result (λ error. IsWriteFault error → HasRisen (K.faults out.old) (K.faults out.new)) }
    ensures part { IfErr result (TookPart (run_text graph.now (raw_graph_run graph.now asks.now ticks)) (K.taken out.old)
        (K.taken out.new)) }
{
    run_graph(alloc, graph, false, asks, ticks, out)
}
