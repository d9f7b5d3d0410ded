//! What a path does with places before a line of its last block.
ghost use Rattle.std.specs.Prelude.{◌≡◌, ◌++◌, suc, OnOk, IfOk, length, take};
ghost use Rattle.cfg_graph.specs.Moves.Actions as moves;
ghost use Rattle.move_paths.specs.Uses.{listed};
ghost use Rattle.look_moves.specs.Actions as actions;

use cfg_graph::{Block, Body, Place, Stmt, Term};
use mir_base::{List, NoMemory};
use move_paths::{Use, Used, result_place, stmt_uses, term_uses};
use std::alloc::Global;

/// What is done with a place, at a line of a block.
#[derive(Clone, Copy)]
pub struct Action<'a> {
    pub how: Use,
    pub place: &'a Place,
    pub block: u32,
    pub line: u32,
}

fn add_uses<'a>(
    out: &mut List<Action<'a>>,
    block: u32,
    line: u32,
    uses: &[Used<'a>],
) -> Result<(), NoMemory>
    ensures { OnOk result (actions.seen out.new ≡ actions.seen out.old ++ moves.at_line block line (listed uses.now)) }
{
    for used in uses {
        out.push(Action {
            how: used.how,
            place: used.place,
            block,
            line,
        })?;
    }
    Ok(())
}

/// The line behind another.
fn line_behind(line: u32) -> Result<u32, NoMemory>
    ensures { IfOk result (λ next. next ≡ suc line) }
{
    line.checked_add(1).ok_or(NoMemory::past_32_bits())
}

/// Adds what statements do, the first of which has the line 0.
fn add_stmts<'a>(
    alloc: Global,
    out: &mut List<Action<'a>>,
    block: u32,
    stmts: &'a [Stmt],
) -> Result<(), NoMemory>
    ensures { OnOk result (actions.seen out.new ≡ actions.seen out.old ++ moves.stmt_actions block 0 stmts.now) }
{
    let mut line = 0;
    for stmt in stmts {
        let uses = stmt_uses(alloc, stmt)?;
        add_uses(out, block, line, uses.as_slice())?;
        line = line_behind(line)?;
    }
    Ok(())
}

/// The line of the terminator of a block.
fn last_line(block: &Block) -> Result<u32, NoMemory>
    ensures { IfOk result (λ line. line ≡ length block.now.stmts) }
{
    match u32::try_from(block.stmts.len()) {
        Ok(line) => Ok(line),
        Err(_) => Err(NoMemory::past_32_bits()),
    }
}

/// Adds what a block does before it takes a way out.
fn add_block<'a>(
    alloc: Global,
    out: &mut List<Action<'a>>,
    n: u32,
    block: &'a Block,
) -> Result<(), NoMemory>
    ensures { OnOk result (actions.seen out.new ≡ actions.seen out.old ++ moves.block_actions n block.now) }
{
    let line = last_line(block)?;
    add_stmts(alloc, out, n, block.stmts.as_slice())?;
    let uses = term_uses(alloc, &block.term)?;
    add_uses(out, n, line, uses.as_slice())
}

/// Whether a terminator goes on in a block without a panic.
fn goes_on_to(term: &Term, next: u32) -> bool
    ensures { result ≡ actions.goes_on_to term.now next }
{
    match term {
        Term::Goto(to)
        | Term::Math { then: to, .. }
        | Term::Negate { then: to, .. }
        | Term::Bounds { then: to, .. }
        | Term::Call { then: to, .. }
        | Term::Virtual { then: to, .. }
        | Term::Ask { then: to, .. }
        | Term::DropAt { then: to, .. } => next == *to,
        Term::If { yes, no, .. } | Term::Case { yes, no, .. } => next == *no || next == *yes,
        Term::Panic { .. } | Term::Return | Term::Resume => false,
    }
}

/// Adds the store of the result of a terminator on its way on to a block.
fn add_result<'a>(
    out: &mut List<Action<'a>>,
    n: u32,
    next: u32,
    block: &'a Block,
) -> Result<(), NoMemory>
    ensures { OnOk result (actions.seen out.new ≡ actions.seen out.old ++ moves.result_actions n next block.now) }
{
    if !goes_on_to(&block.term, next) {
        return Ok(());
    }
    let line = last_line(block)?;
    match result_place(&block.term) {
        Some(place) => out.push(Action {
            how: Use::Stores,
            place,
            block: n,
            line,
        }),
        None => Ok(()),
    }
}

/// Adds what is done from the entry to a block to that of another.
fn add_step<'a>(
    alloc: Global,
    out: &mut List<Action<'a>>,
    body: &'a Body,
    n: u32,
    next: u32,
) -> Result<(), NoMemory>
    ensures { OnOk result (actions.seen out.new ≡ actions.seen out.old ++ actions.step_actions body.now n next) }
{
    match body.blocks.get(n as usize) {
        Some(block) => {
            add_block(alloc, out, n, block)?;
            add_result(out, n, next, block)
        }
        None => Ok(()),
    }
}

/// The first statements, as many as there are.
fn first_stmts(stmts: &[Stmt], count: u32) -> &[Stmt]
    ensures { result.now ≡ take count stmts.now }
{
    if (count as usize) < stmts.len() {
        &stmts[..count as usize]
    } else {
        stmts
    }
}

/// Adds what the statements of a block before a line do.
fn add_last<'a>(
    alloc: Global,
    out: &mut List<Action<'a>>,
    body: &'a Body,
    n: u32,
    line: u32,
) -> Result<(), NoMemory>
    ensures { OnOk result (actions.seen out.new ≡ actions.seen out.old ++ actions.last_actions body.now line n) }
{
    match body.blocks.get(n as usize) {
        Some(block) => add_stmts(alloc, out, n, first_stmts(block.stmts.as_slice(), line)),
        None => Ok(()),
    }
}

/// Adds what a path does that goes on from a block, before a line of its last block.
fn add_from<'a>(
    alloc: Global,
    out: &mut List<Action<'a>>,
    body: &'a Body,
    line: u32,
    first: u32,
    path: &[u32],
) -> Result<(), NoMemory>
    ensures { OnOk result (actions.seen out.new ≡ actions.seen out.old ++ actions.actions_from body.now line first path.now) }
{
    let mut from = first;
    for next in path {
        add_step(alloc, out, body, from, *next)?;
        from = *next;
    }
    add_last(alloc, out, body, from, line)
}

/// What a path of a body does before a line of its last block.
pub fn actions_before<'a>(
    alloc: Global,
    body: &'a Body,
    line: u32,
    path: &[u32],
) -> Result<List<Action<'a>>, NoMemory>
    ensures { IfOk result (λ out. actions.seen out ≡ actions.actions_before body.now line path.now) }
{
    let mut out = List::new(alloc);
    match path.split_first() {
        Some((first, rest)) => add_from(alloc, &mut out, body, line, *first, rest)?,
        None => {}
    }
    Ok(out)
}
