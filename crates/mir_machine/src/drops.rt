//! Drops of places, and their turns.
ghost use Rattle.std.specs.Prelude.{◌≡◌, ◌∷◌, [], List as Listed, All, IfOk, map, true, false};
ghost use Rattle.cfg_graph.specs.declared.graph.Graph.{Graph as a_graph};
ghost use Rattle.cfg_graph.specs.declared.terminator.Term.{Term as a_term};
ghost use Rattle.cfg_graph.specs.declared.terminator.Unwind.{Unwind as an_unwind};
ghost use Rattle.cfg_meaning.specs.Actions.{mode_of};
ghost use Rattle.machine_steps.specs.Turns.{mode_by};
ghost use Rattle.machine_steps.specs.declared.drops.Turn.{Turn as a_turn};
ghost use Rattle.mir_base.specs.declared.trace.Event.{Event as an_event};
ghost use Rattle.mir_machine.specs.Tasks.{AtTerm, AtTurn, DropsThat, Keeps, Next, drop_outcome};
ghost use Rattle.std.specs.Prelude.{ℕ as Number};
ghost use Rattle.mir_machine.specs.declared.tasks.Task.{Task as a_task};
ghost use Rattle.store_model.specs.Values.Datum.{Address, datum_of};
ghost use Rattle.store_model.specs.Values.Wholeness.{IsWhole};

use crate::calls::enter;
use crate::control::{go_on, stuck};
use crate::tasks::{Doing, Post, Task};
use cfg_graph::{Graph, Place, Unwind};
use machine_steps::{Drops, Outcome, Turn, World, steps};
use machine_store::{Dynamic, Reached, reach, whole_at};
use mir_base::{Event, List, NoMemory};
use std::alloc::Global;
use store_model::{Addr, Value};

/// Whether a drop is made while a panic unwinds.
fn unwinds(unwind: Unwind) -> bool
    ensures { mode_by result ≡ mode_of unwind }
{
    match unwind {
        Unwind::Abort => true,
        Unwind::Block(_) | Unwind::Resume => false,
    }
}

/// What stands at an address, found so, is to be dropped.
fn drop_of(alloc: Global, post: Post, address: Addr, dynamic: Dynamic) -> Doing
    ensures { DropsThat post address dynamic result }
{
    Doing::Drops {
        post,
        drops: Drops::of(alloc, address, unwinds(post.unwind)),
        turn: Turn::Visits {
            has_run: false,
            expected: Some(dynamic),
        },
    }
}

/// Drops a value, which has to be whole.
fn drop_whole(
    alloc: Global,
    world: &World<'_>,
    post: Post,
    place: &Place,
) -> Result<Doing, NoMemory>
    ensures { IfOk result (λ doing. world.now.strict ≡ true → (graph : a_graph) (tasks : Listed a_task) →
        Keeps graph world.now world.now
        (AtTerm graph tasks post.number post.block (a_term.DropAt place.now post.onward post.unwind))
        (Next graph tasks doing)) }
{
    match whole_at(alloc, world.graph, &world.store, place)? {
        Some(s) => Ok(drop_of(alloc, post, s.address, s.dynamic)),
        None => Ok(stuck(post.number, post.block)),
    }
}

/// Drops what remains of a value.
fn drop_rest(alloc: Global, world: &World<'_>, post: Post, place: &Place) -> Result<Doing, NoMemory>
    ensures { IfOk result (λ doing. world.now.strict ≡ false → (graph : a_graph) (tasks : Listed a_task) →
        Keeps graph world.now world.now
        (AtTerm graph tasks post.number post.block (a_term.DropAt place.now post.onward post.unwind))
        (Next graph tasks doing)) }
{
    match reach(alloc, world.graph, &world.store, place)? {
        Reached::Reaches(s) => Ok(drop_of(alloc, post, s.address, s.dynamic)),
        Reached::CutOff => Ok(Doing::Walks {
            number: post.number,
            block: post.onward,
        }),
        Reached::Nowhere => Ok(stuck(post.number, post.block)),
    }
}

/// A place is dropped.
pub fn drop_place(
    alloc: Global,
    world: &World<'_>,
    post: Post,
    place: &Place,
) -> Result<Doing, NoMemory>
    ensures { IfOk result (λ doing. (graph : a_graph) (tasks : Listed a_task) → Keeps graph world.now world.now
        (AtTerm graph tasks post.number post.block (a_term.DropAt place.now post.onward post.unwind))
        (Next graph tasks doing)) }
{
    if world.strict {
        return drop_whole(alloc, world, post, place);
    }
    drop_rest(alloc, world, post, place)
}

/// What a drop that has ended comes to.
fn outcome_of_drops(drops: &Drops) -> Outcome
    ensures { result ≡ drop_outcome drops.now.panicked }
{
    if drops.panicked {
        Outcome::Panics
    } else {
        Outcome::Goes
    }
}

/// What a `Drop` body is called with: the address of what is dropped.
fn drop_args(alloc: Global, address: &Addr) -> Result<List<Value>, NoMemory>
    ensures data { IfOk result (λ args. map datum_of args ≡ Address address.now ∷ []) }
    ensures whole { IfOk result (λ args. All (λ arg. IsWhole (datum_of arg)) args) }
{
    let address = address.copy(alloc)?;
    let mut args = List::new(alloc);
    args.push(Value::Address(address))?;
    Ok(args)
}

/// The `Drop` body of what a drop found so is entered, and the drop waits for it.
fn enter_drop(
    alloc: Global,
    graph: &Graph,
    world: &mut World<'_>,
    tasks: &mut List<Task>,
    post: Post,
    drops: Drops,
    dynamic: Dynamic,
    event: Event,
    body: u32,
) -> Result<Doing, NoMemory>
    ensures { IfOk result (λ doing. (adt serial : Number) → event ≡ an_event.Dropped adt serial →
        Keeps graph.now world.old world.new (AtTurn graph.now tasks.old post drops (a_turn.Enters adt serial body dynamic))
        (Next graph.now tasks.new doing)) }
{
    match drop_args(alloc, &drops.address) {
        Ok(args) => {
            tasks.push(Task::Drop {
                post,
                drops,
                dynamic,
            })?;
            enter(alloc, graph, world, tasks, event, body, args)
        }
        Err(error) => {
            drop(drops);
            Err(error)
        }
    }
}

/// A drop makes a turn.
pub fn drop_turn(
    alloc: Global,
    graph: &Graph,
    world: &mut World<'_>,
    tasks: &mut List<Task>,
    post: Post,
    mut drops: Drops,
    turn: Turn,
) -> Result<Doing, NoMemory>
    ensures { IfOk result (λ doing. Keeps graph.now world.old world.new (AtTurn graph.now tasks.old post drops turn)
        (Next graph.now tasks.new doing)) }
{
    match turn {
        Turn::Enters {
            adt,
            serial,
            body,
            dynamic,
        } => enter_drop(
            alloc,
            graph,
            world,
            tasks,
            post,
            drops,
            dynamic,
            Event::Dropped { adt, serial },
            body,
        ),
        Turn::Ends => {
            let outcome = outcome_of_drops(&drops);
            drop(drops);
            go_on(world, post, outcome)
        }
        Turn::Stuck => {
            drop(drops);
            Ok(stuck(post.number, post.block))
        }
        _ => {
            let next = steps(alloc, world, &mut drops, turn)?;
            Ok(Doing::Drops {
                post,
                drops,
                turn: next,
            })
        }
    }
}
