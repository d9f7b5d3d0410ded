//! Blocks to which more than one place may lead, each of which is made once: chains of drops while a panic unwinds, and what
//! is dropped before a jump.
ghost use Rattle.std.specs.Prelude.{◌≡◌, ◌<◌, ◌∷◌, ◌++◌, ℕ, List, [], IfOk, OnOk, length, slice_set};
ghost use Rattle.cfg_graph.specs.declared.terminator.Unwind.{Unwind};
ghost use Rattle.src_meaning.specs.Scopes as plain;
ghost use Rattle.lower_rules.specs.Build as build;
ghost use Rattle.lower_passes.specs.Framed.{frame_of};
ghost use Rattle.lower_passes.specs.Scoped.{entries_of};
ghost use Rattle.lower_blocks.specs.Building.{IsKnownDown, blocks_at, building_of, end_of, listed_in, rest_of};

use crate::blocks::{Blocks, SharedBlock, SharedEnd};
use cfg_graph::{Kind, Term, Unwind};
use lower_code::Entry;
use lower_passes::{LoweringFrame, whole_place};
use mir_base::{Key, List, NoMemory, NodeId};
use std::alloc::Global;

/// Whether a panic goes on to the same place.
fn unwind_alike(one: Unwind, other: Unwind) -> bool
    ensures { result ≡ build.same_unwind one other }
{
    match one {
        Unwind::Block(number) => match other {
            Unwind::Block(block) => number == block,
            Unwind::Resume | Unwind::Abort => false,
        },
        Unwind::Resume => match other {
            Unwind::Resume => true,
            Unwind::Block(_) | Unwind::Abort => false,
        },
        Unwind::Abort => match other {
            Unwind::Abort => true,
            Unwind::Block(_) | Unwind::Resume => false,
        },
    }
}

/// Whether two blocks end alike.
fn end_alike(one: SharedEnd, other: SharedEnd) -> bool
    ensures { result ≡ build.same_end (end_of one) (end_of other) }
{
    match one {
        SharedEnd::Resumes => match other {
            SharedEnd::Resumes => true,
            SharedEnd::GoesTo(_) | SharedEnd::DropsThen { .. } => false,
        },
        SharedEnd::GoesTo(number) => match other {
            SharedEnd::GoesTo(block) => number == block,
            SharedEnd::Resumes | SharedEnd::DropsThen { .. } => false,
        },
        SharedEnd::DropsThen {
            key,
            onward,
            unwind,
        } => match other {
            SharedEnd::DropsThen {
                key: of,
                onward: to,
                unwind: down,
            } => key == of && onward == to && unwind_alike(unwind, down),
            SharedEnd::Resumes | SharedEnd::GoesTo(_) => false,
        },
    }
}

/// The newest of these blocks that ends so.
fn newest_alike(blocks: &[SharedBlock], end: SharedEnd) -> Option<u32>
    ensures { result ≡ build.end_among (end_of end) (listed_in blocks.now) }
{
    let mut left = blocks.len();
    while left > 0 {
        left -= 1;
        let shared = &blocks[left];
        if end_alike(end, shared.end) {
            return Some(shared.block);
        }
    }
    None
}

/// The key that a block drops, and 0 where it drops none.
fn listed_at(end: SharedEnd) -> u32
    ensures { result ≡ build.listed_at (end_of end) }
{
    match end {
        SharedEnd::DropsThen { key, .. } => key.0,
        SharedEnd::Resumes | SharedEnd::GoesTo(_) => 0,
    }
}

/// The kind of a block that ends so: after a panic out of a drop while a panic unwinds the run ends.
fn kind_of(end: SharedEnd) -> Kind
    ensures { (f : build.LoweringFrame) → result ≡ build.end_kind f (end_of end) }
{
    match end {
        SharedEnd::Resumes => Kind::Cleanup,
        SharedEnd::GoesTo(_) => Kind::Plain,
        SharedEnd::DropsThen { unwind, .. } => match unwind {
            Unwind::Abort => Kind::Cleanup,
            Unwind::Block(_) | Unwind::Resume => Kind::Plain,
        },
    }
}

/// There is a list for each place up to this one.
fn list_up_to(
    alloc: Global,
    place: u32,
    lists: &mut List<List<SharedBlock>>,
) -> Result<(), NoMemory>
    ensures there { OnOk result (place < length lists.new) }
    ensures same { OnOk result ((i : ℕ) → blocks_at lists.new i ≡ blocks_at lists.old i) }
{
    while lists.len() <= place as usize {
        lists.push(List::new(alloc))?;
    }
    Ok(())
}

/// A block is listed at a place, as the newest.
fn list_at(
    place: u32,
    shared: SharedBlock,
    lists: &mut List<List<SharedBlock>>,
) -> Result<(), NoMemory>
    requires { place < length lists.old }
    ensures { OnOk result (lists.new ≡ slice_set lists.old place (blocks_at lists.old place ++ shared ∷ [])) }
{
    lists.element_mut(place as usize).push(shared)
}

impl Blocks {
    /// The shared block that ends so, if it is made.
    fn find(&self, place: u32, end: SharedEnd) -> Option<u32>
        ensures { result ≡ build.end_among (end_of end) ((building_of self.now).shared place) }
    {
        match self.shared.get(place as usize) {
            Some(blocks) => newest_alike(blocks.as_slice(), end),
            None => None,
        }
    }

    /// What ends so is open.
    fn open_end(
        &mut self,
        alloc: Global,
        frame: LoweringFrame,
        end: SharedEnd,
    ) -> Result<(), NoMemory>
        ensures rest { OnOk result (rest_of self.new.rest ≡ build.end_rest (frame_of frame.entry) (end_of end)) }
        ensures building { OnOk result (building_of self.new ≡ building_of self.old) }
    {
        match end {
            SharedEnd::Resumes => self.end(alloc, Term::Resume, NodeId(0)),
            SharedEnd::GoesTo(block) => self.end(alloc, Term::Goto(block), NodeId(0)),
            SharedEnd::DropsThen {
                key,
                onward,
                unwind,
            } => {
                let place = whole_place(alloc, frame, key)?;
                let term = Term::DropAt {
                    place,
                    then: onward,
                    unwind,
                };
                self.end(alloc, term, NodeId(key.0));
            }
        }
        Ok(())
    }

    /// A block is listed as shared.
    fn keep(
        &mut self,
        alloc: Global,
        place: u32,
        end: SharedEnd,
        block: u32,
    ) -> Result<(), NoMemory>
        ensures { OnOk result (place ≡ build.listed_at (end_of end) →
            building_of self.new ≡ build.with_shared (end_of end) block (building_of self.old)) }
    {
        list_up_to(alloc, place, &mut self.shared)?;
        list_at(place, SharedBlock { end, block }, &mut self.shared)
    }

    /// The block that ends so: the one that is made already, or a new one.
    pub fn share(
        &mut self,
        alloc: Global,
        frame: LoweringFrame,
        end: SharedEnd,
    ) -> Result<u32, NoMemory>
        ensures { IfOk result (λ number. (number, building_of self.new) ≡
            build.share (frame_of frame.entry) (end_of end) (building_of self.old)) }
    {
        let place = listed_at(end);
        if let Some(number) = self.find(place, end) {
            return Ok(number);
        }
        self.open_end(alloc, frame, end)?;
        let number = self.close(alloc, kind_of(end))?;
        self.keep(alloc, place, end, number)?;
        Ok(number)
    }

    /// The block that drops one entry more, the youngest, while a panic unwinds, and then goes on to another.
    fn add_to_chain(
        &mut self,
        alloc: Global,
        frame: LoweringFrame,
        key: Key,
        onward: u32,
    ) -> Result<u32, NoMemory>
        ensures { IfOk result (λ number. (number, building_of self.new) ≡
            build.share (frame_of frame.entry) (build.DropsThen key.0 onward Unwind.Abort) (building_of self.old)) }
    {
        let unwind = Unwind::Abort;
        self.share(
            alloc,
            frame,
            SharedEnd::DropsThen {
                key,
                onward,
                unwind,
            },
        )
    }

    /// The block that drops these entries, the youngest last, while a panic unwinds, and then leaves the body.
    pub fn chain(
        &mut self,
        alloc: Global,
        frame: LoweringFrame,
        entries: &[Entry],
    ) -> Result<u32, NoMemory>
        ensures { IfOk result (λ number. (number, building_of self.new) ≡
            build.chain (frame_of frame.entry) (entries_of entries.now) (building_of self.old)) }
    {
        let mut number = self.share(alloc, frame, SharedEnd::Resumes)?;
        for entry in entries {
            number = self.add_to_chain(alloc, frame, entry.key, number)?;
        }
        Ok(number)
    }

    /// Where a panic goes on that drops these entries, the youngest last.
    pub fn unwind_to(
        &mut self,
        alloc: Global,
        frame: LoweringFrame,
        entries: &[Entry],
    ) -> Result<Unwind, NoMemory>
        ensures { IfOk result (λ unwind. (unwind, building_of self.new) ≡
            build.unwind_to (frame_of frame.entry) (entries_of entries.now) (building_of self.old)) }
    {
        if entries.is_empty() {
            return Ok(Unwind::Resume);
        }
        let block = self.chain(alloc, frame, entries)?;
        Ok(Unwind::Block(block))
    }

    /// The block that drops the entries of which it is known where a panic goes on, and leaves the body where that is all
    /// that is left.
    fn chain_below(
        &mut self,
        alloc: Global,
        frame: LoweringFrame,
        unwind: Unwind,
    ) -> Result<u32, NoMemory>
        ensures { IfOk result (λ number. (es : List plain.Entry) →
            IsKnownDown (frame_of frame.entry) es unwind (building_of self.old) →
            (number, building_of self.new) ≡ build.chain (frame_of frame.entry) es (building_of self.old)) }
    {
        match unwind {
            Unwind::Block(block) => Ok(block),
            Unwind::Resume | Unwind::Abort => self.share(alloc, frame, SharedEnd::Resumes),
        }
    }

    /// Where a panic goes on that drops one entry more, the youngest, where it is known for the others.
    pub fn unwind_above(
        &mut self,
        alloc: Global,
        frame: LoweringFrame,
        key: Key,
        unwind: Unwind,
    ) -> Result<Unwind, NoMemory>
        ensures { IfOk result (λ above. (e : plain.Entry) (es : List plain.Entry) → e.key ≡ key.0 →
            IsKnownDown (frame_of frame.entry) es unwind (building_of self.old) →
            (above, building_of self.new) ≡ build.unwind_to (frame_of frame.entry) (e ∷ es) (building_of self.old)) }
    {
        let onward = self.chain_below(alloc, frame, unwind)?;
        let block = self.add_to_chain(alloc, frame, key, onward)?;
        Ok(Unwind::Block(block))
    }
}
