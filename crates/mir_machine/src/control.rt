//! How a body goes on after a terminator, and how it ends.
ghost use Rattle.std.specs.Prelude.{◌≡◌, List as Listed, OnOk, IfOk};
ghost use Rattle.mir_base.specs.Trace.{Trace};
ghost use Rattle.mir_base.specs.declared.trace.Event.{Event as an_event};
ghost use Rattle.mir_machine.specs.Tasks.{AtOutcome, Keeps, Next};
ghost use Rattle.mir_machine.specs.declared.tasks.Task.{Task as a_task};
ghost use Rattle.mir_machine.specs.declared.tasks.Doing.{Doing as a_doing};
ghost use Rattle.mir_base.specs.declared.trace.End.{End as an_end};
ghost use Rattle.cfg_graph.specs.declared.graph.Graph.{Graph as a_graph};
ghost use Rattle.machine_steps.specs.declared.actions.Outcome.{Outcome as an_outcome};
ghost use Rattle.machine_steps.specs.Worlds.{state_of, run_setting};
ghost use Rattle.store_model.specs.Concrete.State.{with_event, without_activation};

use crate::tasks::{Doing, Post};
use cfg_graph::Unwind;
use machine_steps::{Outcome, ToldEvents, World};
use mir_base::{End, Event, NoMemory};

/// The youngest body ends by unwinding.
pub fn leave_unwinding(world: &mut World<'_>, number: u32) -> Result<(), NoMemory>
    ensures run { run_setting world.new ≡ run_setting world.old }
    ensures left { OnOk result ((before : Trace) → state_of before world.new ≡
        with_event (an_event.Unwind number) (without_activation (state_of before world.old))) }
{
    let _left = world.store.leave();
    world.tell(ToldEvents::Event(Event::Unwind(number)))
}

/// The youngest body ends by returning.
pub fn leave_returning(world: &mut World<'_>, number: u32) -> Result<(), NoMemory>
    ensures run { run_setting world.new ≡ run_setting world.old }
    ensures left { OnOk result ((before : Trace) → state_of before world.new ≡
        with_event (an_event.Return number) (without_activation (state_of before world.old))) }
{
    let _left = world.store.leave();
    world.tell(ToldEvents::Event(Event::Return(number)))
}

/// A body has no step in a block.
pub fn stuck(number: u32, block: u32) -> Doing
    ensures { result ≡ a_doing.Ended (an_end.Stuck number block) }
{
    Doing::Ended(End::Stuck {
        body: number,
        block,
    })
}

/// A panic goes on in a cleanup block, ends the body, or aborts the run.
pub fn unwind_on(world: &mut World<'_>, post: Post) -> Result<Doing, NoMemory>
    ensures { IfOk result (λ doing. (graph : a_graph) (tasks : Listed a_task) → Keeps graph world.old world.new
        (AtOutcome graph tasks post an_outcome.Panics) (Next graph tasks doing)) }
{
    match post.unwind {
        Unwind::Block(block) => Ok(Doing::Walks {
            number: post.number,
            block,
        }),
        Unwind::Resume => {
            leave_unwinding(world, post.number)?;
            Ok(Doing::Unwound)
        }
        Unwind::Abort => Ok(Doing::Ended(End::Aborted)),
    }
}

/// The body goes on after its terminator has come to this.
pub fn go_on(world: &mut World<'_>, post: Post, outcome: Outcome) -> Result<Doing, NoMemory>
    ensures { IfOk result (λ doing. (graph : a_graph) (tasks : Listed a_task) → Keeps graph world.old world.new
        (AtOutcome graph tasks post outcome) (Next graph tasks doing)) }
{
    match outcome {
        Outcome::Goes => Ok(Doing::Walks {
            number: post.number,
            block: post.onward,
        }),
        Outcome::Panics => unwind_on(world, post),
        Outcome::Stuck => Ok(stuck(post.number, post.block)),
    }
}
