//! Blocks that are made, and the lines of the one that is open.
ghost use Rattle.std.specs.Prelude.{◌≡◌, ◌++◌, ◌∷◌, [], IfOk, OnOk, map, reverse};
ghost use Rattle.lower_rules.specs.Build as build;
ghost use Rattle.lower_blocks.specs.Building.{line_of, rest_of, made_of, building_of, built_of};

use cfg_graph::{Block, Kind, Stmt, Term, Unwind};
use lower_code::Entry;
use mir_base::{Key, List, NoMemory, NodeId};
use std::alloc::Global;
use std::mem;

/// A statement, and the number of its node.
#[derive(Drop)]
pub struct NodeLine {
    pub stmt: Stmt,
    pub node: NodeId,
}

/// The end of a block: its lines from the last to the first, its terminator, and the terminator's node.
#[derive(Drop)]
pub struct Open {
    pub lines: List<NodeLine>,
    pub term: Term,
    pub node: NodeId,
}

/// A block, and the nodes of its lines, its terminator's the last.
#[derive(Drop)]
pub struct MadeBlock {
    pub block: Block,
    pub nodes: List<NodeId>,
}

/// How a block ends to which more than one place may lead, which is all that there is of it: a panic leaves the body; a
/// block is entered by a jump; or what stands under a key is dropped, and another block is entered.
#[derive(Clone, Copy)]
pub enum SharedEnd {
    Resumes,
    GoesTo(u32),
    DropsThen {
        key: Key,
        onward: u32,
        unwind: Unwind,
    },
}

/// A block that is shared, by how it ends.
#[derive(Clone, Copy)]
pub struct SharedBlock {
    pub end: SharedEnd,
    pub block: u32,
}

/// The blocks so far, `None` where a number is given out and the block is still to be made; those that are shared, by the
/// key that they drop; what is open; and a list whose memory is taken where it is asked what a panic drops, whatever it
/// holds.
#[derive(Drop)]
pub struct Blocks {
    pub made: List<Option<MadeBlock>>,
    pub shared: List<List<SharedBlock>>,
    pub rest: Open,
    pub room: List<Entry>,
}

/// Lists with room for the statements and the nodes of so many lines and a terminator.
fn lists_for(alloc: Global, count: usize) -> Result<(List<Stmt>, List<NodeId>), NoMemory>
    ensures { IfOk result (λ lists. (lists.0 ≡ []) × (lists.1 ≡ [])) }
{
    let nodes = Vec::with_capacity(alloc, count.saturating_add(1))?;
    let stmts = Vec::with_capacity(alloc, count)?;
    Ok((List::from_vec(stmts), List::from_vec(nodes)))
}

/// Lines are taken apart, from the last to the first.
fn take_lines(
    lines: &mut List<NodeLine>,
    stmts: &mut List<Stmt>,
    nodes: &mut List<NodeId>,
) -> Result<(), NoMemory>
    ensures { OnOk result ((lines.new ≡ [])
        × ((stmts.new ≡ stmts.old ++ map (λ l. l.stmt) (reverse (map line_of lines.old)))
        × (map (λ n. n.0) nodes.new ≡ map (λ n. n.0) nodes.old ++ map (λ l. l.node) (reverse (map line_of lines.old))))) }
{
    while let Some(line) = lines.pop() {
        let NodeLine { stmt, node } = line;
        stmts.push(stmt)?;
        nodes.push(node)?;
    }
    Ok(())
}

/// All lines are taken apart, and the node of the terminator is the last.
fn take_all(
    lines: &mut List<NodeLine>,
    last: NodeId,
    stmts: &mut List<Stmt>,
    nodes: &mut List<NodeId>,
) -> Result<(), NoMemory>
    ensures { OnOk result ((lines.new ≡ [])
        × ((stmts.new ≡ stmts.old ++ map (λ l. l.stmt) (reverse (map line_of lines.old)))
        × (map (λ n. n.0) nodes.new
        ≡ (map (λ n. n.0) nodes.old ++ map (λ l. l.node) (reverse (map line_of lines.old))) ++ last.0 ∷ []))) }
{
    take_lines(lines, stmts, nodes)?;
    nodes.push(last)
}

/// The statements of lines, and their nodes with the terminator's behind them.
fn split_lines(
    alloc: Global,
    lines: &mut List<NodeLine>,
    last: NodeId,
) -> Result<(List<Stmt>, List<NodeId>), NoMemory>
    ensures { IfOk result (λ lists. (lines.new ≡ [])
        × ((lists.0 ≡ map (λ l. l.stmt) (reverse (map line_of lines.old)))
        × (map (λ n. n.0) lists.1 ≡ map (λ l. l.node) (reverse (map line_of lines.old)) ++ last.0 ∷ []))) }
{
    let (mut stmts, mut nodes) = lists_for(alloc, lines.len())?;
    match take_all(lines, last, &mut stmts, &mut nodes) {
        Ok(()) => Ok((stmts, nodes)),
        Err(error) => {
            drop(stmts);
            Err(error)
        }
    }
}

impl Open {
    /// Only a terminator is open.
    fn ending(alloc: Global, term: Term, node: NodeId) -> Open
        ensures { rest_of result ≡ build.ending term node.0 }
    {
        Open {
            lines: List::new(alloc),
            term,
            node,
        }
    }

    /// What is open becomes a block, and what goes to another block is open behind it.
    fn finish(
        &mut self,
        alloc: Global,
        kind: Kind,
        rank: u32,
        to: u32,
    ) -> Result<MadeBlock, NoMemory>
        ensures { IfOk result (λ made. (made_of made ≡ build.made kind rank (rest_of self.old))
            × (rest_of self.new ≡ build.ending (Term.Goto to) self.old.node.0)) }
    {
        let (stmts, nodes) = split_lines(alloc, &mut self.lines, self.node)?;
        let term = mem::replace(&mut self.term, Term::Goto(to));
        let block = Block {
            kind,
            rank,
            stmts,
            term,
        };
        Ok(MadeBlock { block, nodes })
    }
}

impl Blocks {
    /// No block, with what is open, and room for so many blocks.
    pub fn new(alloc: Global, room: usize, term: Term, node: NodeId) -> Result<Blocks, NoMemory>
        ensures { IfOk result (λ blocks. built_of blocks ≡ (build.ending term node.0, record { blocks = []; shared = λ i. [] })) }
    {
        match Vec::with_capacity(alloc, room) {
            Ok(made) => Ok(Blocks {
                made: List::from_vec(made),
                shared: List::new(alloc),
                rest: Open::ending(alloc, term, node),
                room: List::new(alloc),
            }),
            Err(_) => {
                drop(term);
                Err(NoMemory)
            }
        }
    }

    /// The number of the next block.
    pub fn next_number(&self) -> Result<u32, NoMemory>
        ensures { IfOk result (λ number. number ≡ build.next_number (building_of self.now)) }
    {
        let count = self.made.len();
        if count > u32::MAX as usize {
            return Err(NoMemory::past_32_bits());
        }
        Ok(count as u32)
    }

    /// What is open becomes a block, to which what is open then goes.
    pub fn close(&mut self, alloc: Global, kind: Kind) -> Result<u32, NoMemory>
        ensures { IfOk result (λ number. (number ≡ build.next_number (building_of self.old))
            × (built_of self.new ≡ (
              build.ending (Term.Goto number) self.old.rest.node.0,
              build.closed kind (rest_of self.old.rest) (building_of self.old),
            ))) }
    {
        let number = self.next_number()?;
        let made = self.rest.finish(alloc, kind, number, number)?;
        self.made.push(Some(made))?;
        Ok(number)
    }

    /// A number is given out for a block that is made later.
    pub fn reserve(&mut self) -> Result<u32, NoMemory>
        ensures { IfOk result (λ number. (number ≡ build.next_number (building_of self.old))
            × (built_of self.new ≡ (rest_of self.old.rest, build.reserved (building_of self.old)))) }
    {
        let number = self.next_number()?;
        self.made.push(None)?;
        Ok(number)
    }

    /// What is open becomes the block with a number that was given out; then what is open goes to it.
    pub fn fill(&mut self, alloc: Global, kind: Kind, number: u32) -> Result<(), NoMemory>
        ensures { OnOk result (built_of self.new ≡ (
          build.ending (Term.Goto number) self.old.rest.node.0,
          build.filled kind number (rest_of self.old.rest) (building_of self.old),
        )) }
    {
        let rank = self.next_number()?;
        let made = self.rest.finish(alloc, kind, rank, number)?;
        if (number as usize) < self.made.len() {
            self.made.set(number as usize, Some(made));
        } else {
            drop(made);
        }
        Ok(())
    }

    /// The block that what is open enters, where it does nothing else and stands for no node.
    pub fn jump_of(&self) -> Option<u32>
        ensures { result ≡ build.jump_of (rest_of self.now.rest) }
    {
        if self.rest.node.0 != 0 || !self.rest.lines.is_empty() {
            return None;
        }
        match self.rest.term {
            Term::Goto(block) => Some(block),
            _ => None,
        }
    }

    /// Only a terminator is open.
    pub fn end(&mut self, alloc: Global, term: Term, node: NodeId)
        ensures { built_of self.new ≡ (build.ending term node.0, building_of self.old) }
    {
        drop(mem::replace(&mut self.rest, Open::ending(alloc, term, node)));
    }

    /// A statement stands before what is open.
    pub fn add_line(&mut self, stmt: Stmt, node: NodeId) -> Result<(), NoMemory>
        ensures { OnOk result (built_of self.new ≡
            (build.with_line stmt node.0 (rest_of self.old.rest), building_of self.old)) }
    {
        self.rest.lines.push(NodeLine { stmt, node })
    }
}
