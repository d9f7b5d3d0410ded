//! What is done at a point of a body.
ghost use Rattle.std.specs.Prelude.{◌≡◌, ℕ, ◌+◌, ◌++◌, [], map, length, IfOk, OnOk};
ghost use Rattle.std.specs.Option.{option_copied};
ghost use Rattle.cfg_graph.specs.Uses as graph;
ghost use Rattle.move_paths.specs.Uses.{listed, optional};
ghost use Rattle.move_errors.specs.Runs as runs;

use crate::point::{Point, Stage};
use cfg_graph::{Block, Body, Place, Stmt, Term};
use init_flow::target;
use mir_base::{List, NoMemory};
use mir_ty::Items;
use move_paths::{Use, Used, add_stmt_uses, add_term_uses};
use std::alloc::Global;

/// A use of a place, at a line of its block.
#[derive(Clone, Copy)]
pub struct Act<'a> {
    pub line: u32,
    pub how: Use,
    pub place: &'a Place,
}

fn add_uses<'a>(acts: &mut List<Act<'a>>, line: u32, uses: &[Used<'a>]) -> Result<(), NoMemory>
    ensures { OnOk result ((block : ℕ) → runs.actions_of block acts.new ≡ runs.actions_of block acts.old ++ runs.at_line block line (listed uses.now)) }
{
    for used in uses {
        acts.push(Act {
            line,
            how: used.how,
            place: used.place,
        })?;
    }
    Ok(())
}

fn add_stmts<'a>(
    acts: &mut List<Act<'a>>,
    uses: &mut List<Used<'a>>,
    stmts: &'a [Stmt],
) -> Result<(), NoMemory>
    ensures { OnOk result ((block : ℕ) → runs.actions_of block acts.new ≡ runs.actions_of block acts.old ++ runs.stmt_actions block 0 stmts.now) }
{
    let mut line = 0;
    for stmt in stmts {
        uses.truncate(0);
        add_stmt_uses(uses, stmt)?;
        add_uses(acts, line, uses.as_slice())?;
        line = next_line(line)?;
    }
    Ok(())
}

fn next_line(line: u32) -> Result<u32, NoMemory>
    ensures { IfOk result (λ next. next ≡ line + 1) }
{
    match line.checked_add(1) {
        Some(next) => Ok(next),
        None => Err(NoMemory::past_32_bits()),
    }
}

fn block_acts<'a>(
    acts: &mut List<Act<'a>>,
    uses: &mut List<Used<'a>>,
    block: &'a Block,
) -> Result<(), NoMemory>
    ensures { OnOk result ((n : ℕ) → runs.actions_of n acts.new ≡ runs.stmt_actions n 0 block.now.stmts ++ runs.at_line n (length block.now.stmts) (graph.term_uses block.now.term)) }
{
    let Ok(line) = u32::try_from(block.stmts.len()) else {
        return Err(NoMemory::past_32_bits());
    };
    acts.truncate(0);
    add_stmts(acts, uses, block.stmts.as_slice())?;
    uses.truncate(0);
    add_term_uses(uses, &block.term)?;
    add_uses(acts, line, uses.as_slice())
}

/// Where a terminator stores its result on its way to a block.
fn stored_place(term: &Term, next: u32) -> Option<&Place>
    ensures { optional (option_copied result) ≡ runs.stored_towards term.now next }
{
    match term {
        Term::Math { to, then, .. }
        | Term::Negate { to, then, .. }
        | Term::Call { to, then, .. }
        | Term::Virtual { to, then, .. }
        | Term::Ask { to, then, .. }
            if *then == next => { Some(to) }
        _ => None,
    }
}

fn store_acts<'a>(acts: &mut List<Act<'a>>, block: &'a Block, next: u32) -> Result<(), NoMemory>
    ensures { OnOk result ((n : ℕ) → runs.actions_of n acts.new ≡ runs.at_line n (length block.now.stmts) (map (λ place. (graph.Stores, place)) (runs.stored_towards block.now.term next))) }
{
    let Ok(line) = u32::try_from(block.stmts.len()) else {
        return Err(NoMemory::past_32_bits());
    };
    acts.truncate(0);
    match stored_place(&block.term, next) {
        Some(place) => acts.push(Act {
            line,
            how: Use::Stores,
            place,
        }),
        None => Ok(()),
    }
}

fn way_acts<'a>(
    acts: &mut List<Act<'a>>,
    block: &'a Block,
    next: Option<u32>,
) -> Result<(), NoMemory>
    ensures { OnOk result ((n : ℕ) → runs.actions_of n acts.new ≡ runs.stored_between block.now n next) }
{
    match next {
        Some(next) => store_acts(acts, block, next),
        None => {
            acts.truncate(0);
            Ok(())
        }
    }
}

/// What is done at a point of a body, in order, and room for the uses of a line.
#[derive(Drop)]
pub struct Acts<'a> {
    pub acts: List<Act<'a>>,
    pub uses: List<Used<'a>>,
}

impl<'a> Acts<'a> {
    /// Nothing.
    pub fn new(alloc: Global) -> Acts<'a>
        ensures { result.acts ≡ [] }
    {
        Acts {
            acts: List::new(alloc),
            uses: List::new(alloc),
        }
    }

    /// Makes them what is done at a point of a body, in order: within a block its uses, on a way out of it the store of
    /// its result.
    pub fn fill(&mut self, items: &Items, body: &'a Body, at: Point) -> Result<(), NoMemory>
        ensures { OnOk result (runs.actions_of at.block self.new.acts ≡ runs.acts_at items.now body.now at.block at.stage) }
    {
        let Some(block) = body.blocks.get(at.block as usize) else {
            self.acts.truncate(0);
            return Ok(());
        };
        match at.stage {
            Stage::Entry => {
                self.acts.truncate(0);
                Ok(())
            }
            Stage::Inside => block_acts(&mut self.acts, &mut self.uses, block),
            Stage::Leaving(way) => way_acts(
                &mut self.acts,
                block,
                target(items, body, at.block, way as u32),
            ),
        }
    }
}
