//! How bodies are entered, and calls.
ghost use Rattle.std.specs.Prelude.{◌≡◌, ◌++◌, ◌∷◌, [], true, All, IfOk, map, option_map, option_and_then, slice_get};
ghost use Rattle.cfg_graph.specs.declared.terminator.Term.{Term as a_term};
ghost use Rattle.cfg_meaning.specs.Programs.{setting_of};
ghost use Rattle.mir_base.specs.declared.trace.End.{End as an_end};
ghost use Rattle.mir_machine.specs.Tasks.{AtEntry, AtTerm, Keeps, Next, last_end, lost_end, row_of_object, stuck_end};
ghost use Rattle.machine_store.specs.Activations.{activations_of};
ghost use Rattle.machine_store.specs.Standing.{dynamic_of, with_activations};
ghost use Rattle.mir_ty.specs.ItemTable.{type_at};
ghost use Rattle.store_model.specs.Concrete.Effects.{virtual_body as virtual_body_of};
ghost use Rattle.store_model.specs.Places.TypeForms.{is_dyn_of as is_dyn_type_of};
ghost use Rattle.store_model.specs.Values.Datum.{datum_of};
ghost use Rattle.store_model.specs.Values.Wholeness.{IsWhole};

use crate::control::stuck;
use crate::tasks::{Doing, Post, Task};
use cfg_graph::{Graph, Operand, Place};
use machine_steps::{ToldEvents, World};
use machine_store::{Dynamic, Store, located_at};
use mir_base::{End, Event, List, NoMemory};
use mir_ty::{Items, Ty, TyId};
use std::alloc::Global;
use store_model::Value;

fn end_in(task: &Task) -> End
    ensures { result ≡ stuck_end task.now }
{
    match task {
        Task::Call { post, .. } | Task::Drop { post, .. } => End::Stuck {
            body: post.number,
            block: post.block,
        },
    }
}

/// How a run ends where the youngest body has no step and no block: it is stuck in the block that waits for it.
pub fn end_of_lost(tasks: &List<Task>) -> End
    ensures { result ≡ lost_end tasks.now }
{
    let mut end = End::Stuck { body: 0, block: 0 };
    for task in tasks.as_slice() {
        end = end_in(task);
    }
    end
}

/// A body is entered: a tick is spent, its line is told, and it walks from its first block.
pub fn enter(
    alloc: Global,
    graph: &Graph,
    world: &mut World<'_>,
    tasks: &List<Task>,
    event: Event,
    number: u32,
    args: List<Value>,
) -> Result<Doing, NoMemory>
    requires { All (λ arg. IsWhole (datum_of arg)) args }
    ensures { IfOk result (λ doing. Keeps graph.now world.old world.new
        (AtEntry graph.now tasks.now event number (map datum_of args)) (Next graph.now tasks.now doing)) }
{
    let Some(left) = world.ticks.checked_sub(1) else {
        return Ok(Doing::Ended(End::OutOfTicks));
    };
    world.ticks = left;
    world.tell(ToldEvents::Event(event))?;
    world.store.enter(alloc, number, args)?;
    match graph.bodies.get(number as usize) {
        Some(_) => Ok(Doing::Walks { number, block: 0 }),
        None => Ok(Doing::Ended(end_of_lost(tasks))),
    }
}

/// A body is called with what operands give, and the caller waits for its result.
pub fn call(
    alloc: Global,
    graph: &Graph,
    world: &mut World<'_>,
    tasks: &mut List<Task>,
    post: Post,
    to: &Place,
    body: u32,
    args: &[Operand],
) -> Result<Doing, NoMemory>
    ensures { IfOk result (λ doing. Keeps graph.now world.old world.new
        (AtTerm graph.now tasks.old post.number post.block (a_term.Call to.now body args.now post.onward post.unwind))
        (Next graph.now tasks.new doing)) }
{
    let lost = world.is_never(to);
    let Some(values) = world.evaluate_all(alloc, args)? else {
        return Ok(stuck(post.number, post.block));
    };
    tasks.push(Task::Call { post, lost })?;
    enter(alloc, graph, world, tasks, Event::Call(body), body, values)
}

fn is_dyn_of(items: &Items, trait_no: u32, id: TyId) -> bool
    ensures { result ≡ is_dyn_type_of trait_no (type_at items.now id) }
{
    match items.ty(id) {
        Some(Ty::Dyn(found)) => trait_no == *found,
        _ => false,
    }
}

/// The body of a method in the row of an impl.
fn row_body(items: &Items, method: u32, impl_no: u32) -> Option<u32>
    ensures { result ≡ option_and_then (λ impl. slice_get impl.bodies method) (slice_get items.now.impls impl_no) }
{
    let row = items.impl_def(impl_no)?;
    row.bodies.get(method as usize).copied()
}

/// The body of a trait's method for what is found so, where that is an object of the trait.
fn object_body(items: &Items, trait_no: u32, method: u32, dynamic: Dynamic) -> Option<u32>
    ensures { result ≡ row_of_object items.now trait_no method (dynamic_of dynamic) }
{
    let Dynamic::OfObject(id, impl_no) = dynamic else {
        return None;
    };
    if is_dyn_of(items, trait_no, id) {
        return row_body(items, method, impl_no);
    }
    None
}

/// The body of a trait's method, by the row of the trait object that the first argument names.
fn virtual_body(
    alloc: Global,
    graph: &Graph,
    store: &Store,
    trait_no: u32,
    method: u32,
    args: &[Value],
) -> Result<Option<u32>, NoMemory>
    ensures { IfOk result (λ body. body ≡ virtual_body_of (setting_of true graph.now) trait_no method
        (with_activations (activations_of store.now)) (map datum_of args.now)) }
{
    let Some(Value::Address(address)) = args.first() else {
        return Ok(None);
    };
    match located_at(alloc, graph, store, address)? {
        Some(s) => Ok(object_body(&graph.items, trait_no, method, s.dynamic)),
        None => Ok(None),
    }
}

/// A trait's method is called by the row of the trait object that the first argument names.
pub fn call_virtual(
    alloc: Global,
    graph: &Graph,
    world: &mut World<'_>,
    tasks: &mut List<Task>,
    post: Post,
    to: &Place,
    trait_no: u32,
    method: u32,
    args: &[Operand],
) -> Result<Doing, NoMemory>
    ensures { IfOk result (λ doing. Keeps graph.now world.old world.new
        (AtTerm graph.now tasks.old post.number post.block (a_term.Virtual to.now trait_no method args.now post.onward
        post.unwind)) (Next graph.now tasks.new doing)) }
{
    let lost = world.is_never(to);
    let Some(values) = world.evaluate_all(alloc, args)? else {
        return Ok(stuck(post.number, post.block));
    };
    let Some(body) = virtual_body(
        alloc,
        world.graph,
        &world.store,
        trait_no,
        method,
        values.as_slice(),
    )?
    else {
        return Ok(stuck(post.number, post.block));
    };
    tasks.push(Task::Call { post, lost })?;
    enter(alloc, graph, world, tasks, Event::Call(body), body, values)
}
