//! New blocks of a body, behind its own.
ghost use Rattle.std.specs.Prelude.{◌≡◌, [], ◌∷◌, IfOk};
ghost use Rattle.cfg_graph.specs.declared.place.Operand.{Operand as From};
ghost use Rattle.cfg_graph.specs.declared.statement.Stmt.{Stmt as Line};
ghost use Rattle.cfg_graph.specs.declared.terminator.Term.{Term as Turn};
ghost use Rattle.drop_elaborate.specs.Build as build;
ghost use Rattle.drop_elaborate.specs.Ladder as ladders;
ghost use Rattle.drop_elaborate.specs.Ladder.{local_place};
ghost use Rattle.drop_blocks.specs.Ladders.{made_of, begun_of, drop_rung, ending_of, with_one, no_block};

use cfg_graph::{Block, Kind, Operand, Place, Stmt, Term, Unwind};
use drop_copies::{copy_place, whole_local};
use mir_base::{List, NoMemory};
use std::alloc::Global;

/// New blocks, and the number of the first of them. The rank of each is its number.
#[derive(Drop)]
pub struct NewBlocks {
    pub first: u32,
    pub made: List<Block>,
}

/// Where a panic in a chain goes on.
fn unwind_in(twin: Option<u32>) -> Unwind
    ensures { result ≡ ladders.unwind_in (ending_of twin) }
{
    match twin {
        Some(block) => Unwind::Block(block),
        None => Unwind::Abort,
    }
}

impl NewBlocks {
    /// No block yet; the first one gets this number.
    pub fn new(alloc: Global, first: u32) -> NewBlocks
        ensures { made_of result ≡ no_block first }
    {
        NewBlocks {
            first,
            made: List::new(alloc),
        }
    }

    /// The number of the next block.
    pub fn next_number(&self) -> Result<u32, NoMemory>
        ensures { IfOk result (λ number. number ≡ build.next_number (made_of self.now)) }
    {
        let count = self.made.len();
        if count > u32::MAX as usize {
            return Err(NoMemory::past_32_bits());
        }
        self.first
            .checked_add(count as u32)
            .ok_or(NoMemory::past_32_bits())
    }

    /// A block more; its number.
    pub fn add(&mut self, kind: Kind, stmts: List<Stmt>, term: Term) -> Result<u32, NoMemory>
        ensures { IfOk result (λ number. begun_of number self.new ≡ with_one kind stmts term (made_of self.old)) }
    {
        let number = self.next_number()?;
        self.made.push(Block {
            kind,
            rank: number,
            stmts,
            term,
        })?;
        Ok(number)
    }

    /// A block that drops a place and goes on in another one.
    pub fn add_drop(
        &mut self,
        alloc: Global,
        kind: Kind,
        place: &Place,
        to: u32,
        twin: Option<u32>,
    ) -> Result<u32, NoMemory>
        ensures { IfOk result (λ number. begun_of number self.new
            ≡ drop_rung place.now kind to (ending_of twin) (made_of self.old)) }
    {
        let place = copy_place(alloc, place)?;
        let unwind = unwind_in(twin);
        let term = Term::DropAt {
            place,
            then: to,
            unwind,
        };
        self.add(kind, List::new(alloc), term)
    }

    /// A block that frees the box of a place and goes on in another one.
    pub fn add_free(
        &mut self,
        alloc: Global,
        kind: Kind,
        place: &Place,
        to: u32,
    ) -> Result<u32, NoMemory>
        ensures { IfOk result (λ number. begun_of number self.new
            ≡ with_one kind (Line.Free place.now ∷ []) (Turn.Goto to) (made_of self.old)) }
    {
        let place = copy_place(alloc, place)?;
        let mut stmts = List::new(alloc);
        stmts.push(Stmt::Free(place))?;
        self.add(kind, stmts, Term::Goto(to))
    }

    /// A block that goes on in one of two others by a flag.
    pub fn add_flag(
        &mut self,
        alloc: Global,
        kind: Kind,
        flag: u32,
        there: u32,
        to: u32,
    ) -> Result<u32, NoMemory>
        ensures { IfOk result (λ number. begun_of number self.new
            ≡ with_one kind [] (Turn.If (From.Copied (local_place flag)) there to) (made_of self.old)) }
    {
        let on = Operand::Copied(whole_local(alloc, flag));
        let term = Term::If {
            on,
            yes: there,
            no: to,
        };
        self.add(kind, List::new(alloc), term)
    }

    /// A block that goes on in one of two others by whether a value has a variant.
    pub fn add_case(
        &mut self,
        alloc: Global,
        kind: Kind,
        place: &Place,
        variant: u32,
        there: u32,
        other: u32,
    ) -> Result<u32, NoMemory>
        ensures { IfOk result (λ number. begun_of number self.new
            ≡ with_one kind [] (Turn.Case place.now variant there other) (made_of self.old)) }
    {
        let on = copy_place(alloc, place)?;
        let term = Term::Case {
            on,
            variant,
            yes: there,
            no: other,
        };
        self.add(kind, List::new(alloc), term)
    }
}
