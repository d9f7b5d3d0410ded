//! The turns of the machine.
ghost use Rattle.std.specs.Prelude.{◌≡◌, List as Listed, IfOk, option_map};
ghost use Rattle.cfg_graph.specs.declared.graph.Graph.{Graph as a_graph};
ghost use Rattle.mir_machine.specs.declared.tasks.Task.{Task as a_task};
ghost use Rattle.store_model.specs.Values.Datum.{datum_of};
ghost use Rattle.store_model.specs.Values.Wholeness.{IsWhole};
ghost use Rattle.mir_machine.specs.Tasks.{AtResult, AtReturn, AtUnwound, Keeps, Next, ResumesSo, destination_in, result_of};

use crate::control::{go_on, stuck};
use crate::drops::drop_turn;
use crate::statements::walk;
use crate::tasks::{Doing, Post, Task};
use crate::whole::Whole;
use cfg_graph::{Graph, Place, Term};
use machine_steps::{Drops, Outcome, World, stop_if};
use machine_store::Dynamic;
use mir_base::{End, List, NoMemory};
use std::alloc::Global;
use store_model::Value;

/// The place into which a terminator stores the result of a body.
fn result_place(term: &Term) -> Option<&Place>
    ensures { option_map (λ place. place.now) result ≡ result_of term.now }
{
    match term {
        Term::Call { to, .. } | Term::Virtual { to, .. } => Some(to),
        _ => None,
    }
}

/// The place into which the terminator of a block stores the result of a body.
fn destination(graph: &Graph, number: u32, block: u32) -> Option<&Place>
    ensures { option_map (λ place. place.now) result ≡ destination_in graph.now number block }
{
    let body = graph.bodies.get(number as usize)?;
    let found = body.blocks.get(block as usize)?;
    result_place(&found.term)
}

/// A call stores the result of the body that it called.
fn store_result(
    alloc: Global,
    graph: &Graph,
    world: &mut World<'_>,
    post: Post,
    lost: bool,
    value: Value,
) -> Result<Doing, NoMemory>
    requires { IsWhole (datum_of value) }
    ensures { IfOk result (λ doing. (tasks : Listed a_task) → Keeps graph.now world.old world.new
        (AtResult graph.now tasks post lost (datum_of value)) (Next graph.now tasks doing)) }
{
    let Some(to) = destination(graph, post.number, post.block) else {
        return Ok(stuck(post.number, post.block));
    };
    let outcome = world.put(alloc, to, value)?;
    go_on(world, post, stop_if(lost, outcome))
}

/// A drop goes on after a `Drop` body has returned.
fn resume_drop(post: Post, mut drops: Drops, dynamic: Dynamic, panicked: bool) -> Doing
    ensures { ResumesSo post drops dynamic panicked result }
{
    match drops.resume(dynamic, panicked) {
        Some(turn) => Doing::Drops { post, drops, turn },
        None => Doing::Ended(End::Aborted),
    }
}

/// The youngest body has returned.
fn return_from_body(
    alloc: Global,
    graph: &Graph,
    world: &mut World<'_>,
    tasks: &mut List<Task>,
    value: Whole,
) -> Result<Doing, NoMemory>
    ensures { IfOk result (λ doing. Keeps graph.now world.old world.new (AtReturn graph.now tasks.old value)
        (Next graph.now tasks.new doing)) }
{
    match tasks.pop() {
        None => Ok(Doing::Ended(End::Returned)),
        Some(Task::Call { post, lost }) => {
            store_result(alloc, graph, world, post, lost, value.into_value())
        }
        Some(
            Task::Drop {
                post,
                drops,
                dynamic,
            },
        ) => Ok(resume_drop(post, drops, dynamic, false)),
    }
}

/// The youngest body has ended by unwinding.
fn unwound(world: &mut World<'_>, tasks: &mut List<Task>) -> Result<Doing, NoMemory>
    ensures { IfOk result (λ doing. (graph : a_graph) → Keeps graph world.old world.new (AtUnwound graph tasks.old)
        (Next graph tasks.new doing)) }
{
    match tasks.pop() {
        None => Ok(Doing::Ended(End::Panicked)),
        Some(Task::Call { post, .. }) => go_on(world, post, Outcome::Panics),
        Some(
            Task::Drop {
                post,
                drops,
                dynamic,
            },
        ) => Ok(resume_drop(post, drops, dynamic, true)),
    }
}

/// Does what is done next.
pub fn turn(
    alloc: Global,
    graph: &Graph,
    world: &mut World<'_>,
    tasks: &mut List<Task>,
    doing: Doing,
) -> Result<Doing, NoMemory>
    ensures { IfOk result (λ next. Keeps graph.now world.old world.new (Next graph.now tasks.old doing)
        (Next graph.now tasks.new next)) }
{
    match doing {
        Doing::Walks { number, block } => walk(alloc, graph, world, tasks, number, block),
        Doing::Drops { post, drops, turn } => {
            drop_turn(alloc, graph, world, tasks, post, drops, turn)
        }
        Doing::Returned(value) => return_from_body(alloc, graph, world, tasks, value),
        Doing::Unwound => unwound(world, tasks),
        Doing::Ended(end) => Ok(Doing::Ended(end)),
    }
}
