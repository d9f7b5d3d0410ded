//! How a body walks: the statements of a block, and its terminator.
ghost use Rattle.std.specs.Prelude.{◌≡◌, ◌≤◌, List as Listed, IfOk};
ghost use Rattle.cfg_graph.specs.declared.graph.Graph.{Graph as a_graph};
ghost use Rattle.cfg_graph.specs.declared.terminator.Term.{Term as a_term};
ghost use Rattle.mir_base.specs.Trace.{Trace};
ghost use Rattle.mir_machine.specs.Tasks.{AtBlock, AtTerm, BeginsSo, DoesStmts, Keeps, Next, TakesResult, chosen_doing, target_of};
ghost use Rattle.mir_machine.specs.Ways.{post_of, ways_of};
ghost use Rattle.mir_machine.specs.declared.tasks.Task.{Task as a_task};
ghost use Rattle.machine_steps.specs.Worlds.{state_of, run_setting};
ghost use Rattle.machine_steps.specs.declared.actions.Outcome.{Outcome as an_outcome};

use crate::calls::{call, call_virtual, end_of_lost};
use crate::control::{go_on, leave_returning, leave_unwinding, stuck, unwind_on};
use crate::drops::drop_place;
use crate::tasks::{Doing, Post, Task};
use crate::whole::Whole;
use cfg_graph::{Graph, Kind, Operand, Place, Steps, Stmt, Term, Unwind};
use machine_steps::{Outcome, World};
use mir_base::{End, List, Math, NoMemory, Why};
use std::alloc::Global;
use store_model::Value;

/// A block begins: a turn block spends a tick. False where there is none, and then nothing changes.
fn begin_block(world: &mut World<'_>, kind: Kind) -> bool
    ensures run { run_setting world.new ≡ run_setting world.old }
    ensures begins { (before : Trace) → BeginsSo kind (state_of before world.old) result (state_of before world.new) }
{
    if kind != Kind::Turn {
        return true;
    }
    match world.ticks.checked_sub(1) {
        Some(left) => {
            world.ticks = left;
            true
        }
        None => false,
    }
}

/// Does the statements of a block.
fn statements(alloc: Global, world: &mut World<'_>, stmts: &[Stmt]) -> Result<Outcome, NoMemory>
    ensures run { run_setting world.new ≡ run_setting world.old }
    ensures ticks { IfOk result (λ outcome. outcome ≡ an_outcome.Goes → world.new.ticks ≤ world.old.ticks) }
    ensures does { IfOk result (λ outcome. DoesStmts stmts.now world.old outcome world.new) }
{
    for stmt in stmts {
        match world.statement(alloc, stmt)? {
            Outcome::Goes => {}
            Outcome::Panics => return Ok(Outcome::Panics),
            Outcome::Stuck => return Ok(Outcome::Stuck),
        }
    }
    Ok(Outcome::Goes)
}

/// A body goes on by a choice.
fn choose(number: u32, block: u32, choice: Option<bool>, yes: u32, no: u32) -> Doing
    ensures { result ≡ chosen_doing number block choice yes no }
{
    match choice {
        Some(choice) => Doing::Walks {
            number,
            block: target(choice, yes, no),
        },
        None => stuck(number, block),
    }
}

fn target(choice: bool, yes: u32, no: u32) -> u32
    ensures { result ≡ target_of choice yes no }
{
    if choice { yes } else { no }
}

fn branch_if(
    alloc: Global,
    world: &mut World<'_>,
    number: u32,
    block: u32,
    on: &Operand,
    yes: u32,
    no: u32,
) -> Result<Doing, NoMemory>
    ensures { IfOk result (λ doing. (graph : a_graph) (tasks : Listed a_task) → Keeps graph world.old world.new
        (AtTerm graph tasks number block (a_term.If on.now yes no)) (Next graph tasks doing)) }
{
    let choice = world.choose_truth(alloc, on)?;
    Ok(choose(number, block, choice, yes, no))
}

fn branch_case(
    alloc: Global,
    world: &World<'_>,
    number: u32,
    block: u32,
    on: &Place,
    variant: u32,
    yes: u32,
    no: u32,
) -> Result<Doing, NoMemory>
    ensures { IfOk result (λ doing. (graph : a_graph) (tasks : Listed a_task) → Keeps graph world.now world.now
        (AtTerm graph tasks number block (a_term.Case on.now variant yes no)) (Next graph tasks doing)) }
{
    let choice = world.choose_variant(alloc, on, variant)?;
    Ok(choose(number, block, choice, yes, no))
}

fn compute(
    alloc: Global,
    world: &mut World<'_>,
    post: Post,
    to: &Place,
    operator: Math,
    left: &Operand,
    right: &Operand,
) -> Result<Doing, NoMemory>
    ensures { IfOk result (λ doing. (graph : a_graph) (tasks : Listed a_task) → Keeps graph world.old world.new
        (AtTerm graph tasks post.number post.block (a_term.Math to.now operator left.now right.now post.onward
        post.unwind)) (Next graph tasks doing)) }
{
    let outcome = world.math(alloc, to, operator, left, right)?;
    go_on(world, post, outcome)
}

fn negate(
    alloc: Global,
    world: &mut World<'_>,
    post: Post,
    to: &Place,
    of: &Operand,
) -> Result<Doing, NoMemory>
    ensures { IfOk result (λ doing. (graph : a_graph) (tasks : Listed a_task) → Keeps graph world.old world.new
        (AtTerm graph tasks post.number post.block (a_term.Negate to.now of.now post.onward post.unwind))
        (Next graph tasks doing)) }
{
    let outcome = world.opposite(alloc, to, of)?;
    go_on(world, post, outcome)
}

fn check_index(
    alloc: Global,
    world: &mut World<'_>,
    post: Post,
    index: &Operand,
    length: u32,
) -> Result<Doing, NoMemory>
    ensures { IfOk result (λ doing. (graph : a_graph) (tasks : Listed a_task) → Keeps graph world.old world.new
        (AtTerm graph tasks post.number post.block (a_term.Bounds index.now length post.onward post.unwind))
        (Next graph tasks doing)) }
{
    let outcome = world.check_index(alloc, index, length)?;
    go_on(world, post, outcome)
}

fn ask(alloc: Global, world: &mut World<'_>, post: Post, to: &Place) -> Result<Doing, NoMemory>
    ensures { IfOk result (λ doing. (graph : a_graph) (tasks : Listed a_task) → Keeps graph world.old world.new
        (AtTerm graph tasks post.number post.block (a_term.Ask to.now post.onward post.unwind))
        (Next graph tasks doing)) }
{
    let outcome = world.answer(alloc, to)?;
    go_on(world, post, outcome)
}

/// A panic starts.
fn panic(
    world: &mut World<'_>,
    number: u32,
    block: u32,
    why: Why,
    unwind: Unwind,
) -> Result<Doing, NoMemory>
    ensures { IfOk result (λ doing. (graph : a_graph) (tasks : Listed a_task) → Keeps graph world.old world.new
        (AtTerm graph tasks number block (a_term.Panic why unwind)) (Next graph tasks doing)) }
{
    world.panic(why)?;
    let post = Post {
        number,
        block,
        onward: 0,
        unwind,
    };
    unwind_on(world, post)
}

/// The result of the youngest body; `None` where it is not whole, and then nothing changes.
fn take_result(alloc: Global, world: &mut World<'_>) -> Result<Option<Value>, NoMemory>
    ensures run { run_setting world.new ≡ run_setting world.old }
    ensures taken { IfOk result (λ taken. TakesResult world.old taken world.new) }
{
    let result = Operand::Moved(Place {
        local: 0,
        steps: Steps::new(alloc),
    });
    world.evaluate(alloc, &result)
}

/// A body returns the value of its result, which is whole.
fn give(alloc: Global, world: &mut World<'_>, number: u32, block: u32) -> Result<Doing, NoMemory>
    ensures { IfOk result (λ doing. (graph : a_graph) (tasks : Listed a_task) → Keeps graph world.old world.new
        (AtTerm graph tasks number block a_term.Return) (Next graph tasks doing)) }
{
    let Some(value) = take_result(alloc, world)? else {
        return Ok(stuck(number, block));
    };
    leave_returning(world, number)?;
    Ok(Doing::Returned(Whole::new(value)))
}

/// A body ends by unwinding.
fn resume(world: &mut World<'_>, number: u32, block: u32) -> Result<Doing, NoMemory>
    ensures { IfOk result (λ doing. (graph : a_graph) (tasks : Listed a_task) → Keeps graph world.old world.new
        (AtTerm graph tasks number block a_term.Resume) (Next graph tasks doing)) }
{
    let _ = block;
    leave_unwinding(world, number)?;
    Ok(Doing::Unwound)
}

/// The block in which a body goes on after its terminator, and where a panic of it goes on.
fn ways(term: &Term) -> (u32, Unwind)
    ensures { result ≡ ways_of term.now }
{
    match term {
        Term::Math { then, unwind, .. }
        | Term::Negate { then, unwind, .. }
        | Term::Bounds { then, unwind, .. }
        | Term::Call { then, unwind, .. }
        | Term::Virtual { then, unwind, .. }
        | Term::Ask { then, unwind, .. }
        | Term::DropAt { then, unwind, .. } => (*then, *unwind),
        _ => (0, Unwind::Resume),
    }
}

/// A block that waits for what its terminator does.
fn post_at(number: u32, block: u32, term: &Term) -> Post
    ensures { result ≡ post_of number block term.now }
{
    let (onward, unwind) = ways(term);
    Post {
        number,
        block,
        onward,
        unwind,
    }
}

/// Does what the terminator of a block does.
fn terminate(
    alloc: Global,
    graph: &Graph,
    world: &mut World<'_>,
    tasks: &mut List<Task>,
    number: u32,
    block: u32,
    term: &Term,
) -> Result<Doing, NoMemory>
    ensures { IfOk result (λ doing. Keeps graph.now world.old world.new
        (AtTerm graph.now tasks.old number block term.now) (Next graph.now tasks.new doing)) }
{
    let post = post_at(number, block, term);
    match term {
        Term::Goto(to) => Ok(Doing::Walks { number, block: *to }),
        Term::If { on, yes, no } => branch_if(alloc, world, number, block, on, *yes, *no),
        Term::Case {
            on,
            variant,
            yes,
            no,
        } => branch_case(alloc, world, number, block, on, *variant, *yes, *no),
        Term::Math {
            to,
            op,
            left,
            right,
            ..
        } => compute(alloc, world, post, to, *op, left, right),
        Term::Negate { to, of, .. } => negate(alloc, world, post, to, of),
        Term::Bounds { index, length, .. } => check_index(alloc, world, post, index, *length),
        Term::Call { to, body, args, .. } => {
            call(alloc, graph, world, tasks, post, to, *body, args.as_slice())
        }
        Term::Virtual {
            to,
            trait_no,
            method,
            args,
            ..
        } => {
            let args = args.as_slice();
            call_virtual(
                alloc, graph, world, tasks, post, to, *trait_no, *method, args,
            )
        }
        Term::Ask { to, .. } => ask(alloc, world, post, to),
        Term::DropAt { place, .. } => drop_place(alloc, world, post, place),
        Term::Panic { why, unwind } => panic(world, number, block, *why, *unwind),
        Term::Return => give(alloc, world, number, block),
        Term::Resume => resume(world, number, block),
    }
}

/// A body goes on in a block.
pub fn walk(
    alloc: Global,
    graph: &Graph,
    world: &mut World<'_>,
    tasks: &mut List<Task>,
    number: u32,
    block: u32,
) -> Result<Doing, NoMemory>
    ensures { IfOk result (λ doing. Keeps graph.now world.old world.new (AtBlock graph.now tasks.old number block)
        (Next graph.now tasks.new doing)) }
{
    let Some(body) = graph.bodies.get(number as usize) else {
        return Ok(stuck(number, block));
    };
    let Some(found) = body.blocks.get(block as usize) else {
        return Ok(stuck(number, block));
    };
    if !begin_block(world, found.kind) {
        return Ok(Doing::Ended(End::OutOfTicks));
    }
    match statements(alloc, world, found.stmts.as_slice())? {
        Outcome::Goes => terminate(alloc, graph, world, tasks, number, block, &found.term),
        // No statement panics; the definition has no step there.
        Outcome::Panics => Ok(Doing::Ended(end_of_lost(tasks))),
        Outcome::Stuck => Ok(stuck(number, block)),
    }
}
