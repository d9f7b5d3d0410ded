//! Drops.
ghost use Rattle.std.specs.Prelude.{◌≡◌, ◌≢◌, ◌∷◌, ◌++◌, List, [], IfOk, OnOk};
ghost use Rattle.cfg_graph.specs.declared.terminator.Term.{Term};
ghost use Rattle.lower_rules.specs.Build as build;
ghost use Rattle.lower_passes.specs.Framed.{frame_of};
ghost use Rattle.lower_passes.specs.Scoped.{entries_of, held, scopes_of};
ghost use Rattle.src_meaning.specs.Forms.{site_of_key};
ghost use Rattle.src_meaning.specs.Scopes as plain;
ghost use Rattle.src_meaning.specs.Scopes.{needing_drop};
ghost use Rattle.lower_blocks.specs.Building.{IsBelow, built_of, rest_of, building_of, drop_shared};

use crate::blocks::{Blocks, SharedEnd};
use cfg_graph::{Kind, Term, Unwind};
use lower_code::Entry;
use lower_passes::{Entries, LoweringFrame, Scopes, drops_none, panic_drops, whole_place};
use mir_base::{Key, List, NoMemory, NodeId};
use std::alloc::Global;
use std::mem;

/// What is dropped below the next entry: what a panic drops in the scopes around; of the entries that are dropped already
/// the youngest, and where a panic goes on out of its drop.
#[derive(Drop)]
struct Below {
    around: List<Entry>,
    unwind: Unwind,
    youngest: Option<Key>,
}

impl Blocks {
    /// What a panic drops in these scopes, the youngest last, in the list that is kept for it.
    pub fn panic_drops(
        &mut self,
        alloc: Global,
        frame: LoweringFrame,
        scopes: &Scopes,
    ) -> Result<List<Entry>, NoMemory>
        ensures drops { IfOk result (λ drops. entries_of drops ≡ build.panic_drops (frame_of frame.entry) (scopes_of scopes.entry.now)) }
        ensures rest { OnOk result (rest_of self.new.rest ≡ rest_of self.old.rest) }
        ensures building { OnOk result (building_of self.new ≡ building_of self.old) }
    {
        let room = mem::replace(&mut self.room, List::new(alloc));
        panic_drops(frame.items, scopes, room)
    }

    /// A list is kept for what the next panic drops.
    pub fn keep_room(&mut self, list: List<Entry>)
        ensures rest { rest_of self.new.rest ≡ rest_of self.old.rest }
        ensures building { building_of self.new ≡ building_of self.old }
    {
        self.room = list;
    }

    /// What stands under a key is dropped, and these entries, the youngest last, after a panic out of it.
    pub fn drop_one(
        &mut self,
        alloc: Global,
        frame: LoweringFrame,
        key: Key,
        entries: &[Entry],
    ) -> Result<(), NoMemory>
        ensures { OnOk result (built_of self.new ≡ build.drop_one (frame_of frame.entry) (site_of_key key.0)
            (entries_of entries.now) (rest_of self.old.rest) (building_of self.old)) }
    {
        let then = self.close(alloc, Kind::Plain)?;
        let unwind = self.unwind_to(alloc, frame, entries)?;
        let place = whole_place(alloc, frame, key)?;
        let term = Term::DropAt {
            place,
            then,
            unwind,
        };
        self.end(alloc, term, NodeId(key.0));
        Ok(())
    }

    /// Where a panic goes on out of a drop of the next entry.
    fn unwind_below(
        &mut self,
        alloc: Global,
        frame: LoweringFrame,
        below: &Below,
    ) -> Result<Unwind, NoMemory>
        ensures { IfOk result (λ unwind. (drops : List plain.Entry) →
            IsBelow (frame_of frame.entry) below.now drops (building_of self.old) →
            (unwind, building_of self.new) ≡ build.unwind_to (frame_of frame.entry) drops (building_of self.old)) }
    {
        match below.youngest {
            None => self.unwind_to(alloc, frame, below.around.as_slice()),
            Some(key) => self.unwind_above(alloc, frame, key, below.unwind),
        }
    }

    /// What stands under a key is dropped before a block is entered, and what is below it after a panic out of it.
    fn open_drop(
        &mut self,
        alloc: Global,
        frame: LoweringFrame,
        key: Key,
        then: u32,
        below: &mut Below,
    ) -> Result<(), NoMemory>
        ensures { OnOk result ((e : plain.Entry) (drops : List plain.Entry) → e.key ≡ key.0 →
            IsBelow (frame_of frame.entry) below.old drops (building_of self.old) →
            (built_of self.new ≡ build.unwinding (frame_of frame.entry)
            (Term.DropAt (build.place_of (frame_of frame.entry) (site_of_key key.0)) then) key.0 drops (building_of self.old))
            × IsBelow (frame_of frame.entry) below.new (e ∷ drops) (building_of self.new)) }
    {
        let unwind = self.unwind_below(alloc, frame, below)?;
        let place = whole_place(alloc, frame, key)?;
        let term = Term::DropAt {
            place,
            then,
            unwind,
        };
        self.end(alloc, term, NodeId(key.0));
        below.unwind = unwind;
        below.youngest = Some(key);
        Ok(())
    }

    /// Entries are dropped, the youngest first; the code of the oldest is built first.
    fn drop_each(
        &mut self,
        alloc: Global,
        frame: LoweringFrame,
        entries: &Entries,
        below: &mut Below,
    ) -> Result<(), NoMemory>
        ensures { OnOk result ((S : plain.Scopes) →
            IsBelow (frame_of frame.entry) below.old (build.panic_drops (frame_of frame.entry) S) (building_of self.old) →
            (built_of self.new ≡ build.drop_all (frame_of frame.entry)
            (needing_drop frame.entry.items.now (held entries.entry.now)) S (rest_of self.old.rest) (building_of self.old))
            × IsBelow (frame_of frame.entry) below.new (needing_drop frame.entry.items.now (held entries.entry.now)
            ++ build.panic_drops (frame_of frame.entry) S) (building_of self.new)) }
    {
        match entries {
            Entries::NoEntry => Ok(()),
            Entries::Youngest(entry, older) => {
                self.drop_each(alloc, frame, older, below)?;
                if !frame.items.needs_drop(entry.ty) {
                    return Ok(());
                }
                let then = self.close(alloc, Kind::Plain)?;
                self.open_drop(alloc, frame, entry.key, then, below)
            }
        }
    }

    /// What a panic drops in these scopes, and nothing above it yet.
    fn below(
        &mut self,
        alloc: Global,
        frame: LoweringFrame,
        around: &Scopes,
    ) -> Result<Below, NoMemory>
        ensures below { IfOk result (λ below. IsBelow (frame_of frame.entry) below
            (build.panic_drops (frame_of frame.entry) (scopes_of around.entry.now)) (building_of self.new)) }
        ensures built { OnOk result (built_of self.new ≡ built_of self.old) }
    {
        Ok(Below {
            around: self.panic_drops(alloc, frame, around)?,
            unwind: Unwind::Resume,
            youngest: None,
        })
    }

    /// Entries are dropped, the youngest first; after a panic the rest of them and what is in the scopes around.
    pub fn drop_all(
        &mut self,
        alloc: Global,
        frame: LoweringFrame,
        entries: &Entries,
        around: &Scopes,
    ) -> Result<(), NoMemory>
        ensures { OnOk result (built_of self.new ≡ build.drop_all (frame_of frame.entry)
            (needing_drop frame.entry.items.now (held entries.entry.now)) (scopes_of around.entry.now)
            (rest_of self.old.rest) (building_of self.old)) }
    {
        if drops_none(frame.items, entries) {
            return Ok(());
        }
        let mut below = self.below(alloc, frame, around)?;
        self.drop_each(alloc, frame, entries, &mut below)?;
        self.keep_room(below.around);
        Ok(())
    }

    /// The shared block that drops one entry more, the youngest.
    fn share_drop(
        &mut self,
        alloc: Global,
        frame: LoweringFrame,
        key: Key,
        onward: u32,
        below: &mut Below,
    ) -> Result<u32, NoMemory>
        ensures { IfOk result (λ number. (e : plain.Entry) (drops : List plain.Entry) → e.key ≡ key.0 →
            IsBelow (frame_of frame.entry) below.old drops (building_of self.old) →
            ((number, building_of self.new) ≡ drop_shared (frame_of frame.entry) e drops onward (building_of self.old))
            × IsBelow (frame_of frame.entry) below.new (e ∷ drops) (building_of self.new)) }
    {
        let unwind = self.unwind_below(alloc, frame, below)?;
        below.unwind = unwind;
        below.youngest = Some(key);
        self.share(
            alloc,
            frame,
            SharedEnd::DropsThen {
                key,
                onward,
                unwind,
            },
        )
    }

    /// The shared block from which on entries are dropped, the youngest first, and then a block is entered.
    fn share_each(
        &mut self,
        alloc: Global,
        frame: LoweringFrame,
        entries: &Entries,
        to: u32,
        below: &mut Below,
    ) -> Result<u32, NoMemory>
        ensures { IfOk result (λ number. (S : plain.Scopes) →
            IsBelow (frame_of frame.entry) below.old (build.panic_drops (frame_of frame.entry) S) (building_of self.old) →
            ((number, building_of self.new) ≡ build.drops_before (frame_of frame.entry)
            (needing_drop frame.entry.items.now (held entries.entry.now)) S (to, building_of self.old))
            × IsBelow (frame_of frame.entry) below.new (needing_drop frame.entry.items.now (held entries.entry.now)
            ++ build.panic_drops (frame_of frame.entry) S) (building_of self.new)) }
    {
        match entries {
            Entries::NoEntry => Ok(to),
            Entries::Youngest(entry, older) => {
                let onward = self.share_each(alloc, frame, older, to, below)?;
                if !frame.items.needs_drop(entry.ty) {
                    return Ok(onward);
                }
                self.share_drop(alloc, frame, entry.key, onward, below)
            }
        }
    }

    /// The shared block from which on entries are dropped, and then a block is entered.
    pub fn drops_before(
        &mut self,
        alloc: Global,
        frame: LoweringFrame,
        entries: &Entries,
        around: &Scopes,
        to: u32,
    ) -> Result<u32, NoMemory>
        ensures { IfOk result (λ number. (number, building_of self.new) ≡ build.drops_before (frame_of frame.entry)
            (needing_drop frame.entry.items.now (held entries.entry.now)) (scopes_of around.entry.now) (to, building_of self.old)) }
    {
        if drops_none(frame.items, entries) {
            return Ok(to);
        }
        let mut below = self.below(alloc, frame, around)?;
        let number = self.share_each(alloc, frame, entries, to, &mut below)?;
        self.keep_room(below.around);
        Ok(number)
    }

    /// The youngest that needs a drop is dropped here, the others in blocks that are shared.
    fn youngest_to(
        &mut self,
        alloc: Global,
        frame: LoweringFrame,
        entries: &Entries,
        to: u32,
        below: &mut Below,
    ) -> Result<(), NoMemory>
        ensures { OnOk result ((S : plain.Scopes) (none : build.BlockRest × build.Building) →
            IsBelow (frame_of frame.entry) below.old (build.panic_drops (frame_of frame.entry) S) (building_of self.old) →
            needing_drop frame.entry.items.now (held entries.entry.now) ≢ [] →
            built_of self.new ≡ build.drops_to (frame_of frame.entry)
            (needing_drop frame.entry.items.now (held entries.entry.now)) S (to, building_of self.old) none) }
    {
        match entries {
            Entries::NoEntry => Ok(()),
            Entries::Youngest(entry, older) => {
                if !frame.items.needs_drop(entry.ty) {
                    return self.youngest_to(alloc, frame, older, to, below);
                }
                let then = self.share_each(alloc, frame, older, to, below)?;
                self.open_drop(alloc, frame, entry.key, then, below)
            }
        }
    }

    /// Entries are dropped, of which one needs it, and then a shared block is entered.
    pub fn drops_to(
        &mut self,
        alloc: Global,
        frame: LoweringFrame,
        entries: &Entries,
        around: &Scopes,
        to: u32,
    ) -> Result<(), NoMemory>
        ensures { OnOk result ((none : build.BlockRest × build.Building) →
            needing_drop frame.entry.items.now (held entries.entry.now) ≢ [] →
            built_of self.new ≡ build.drops_to (frame_of frame.entry)
            (needing_drop frame.entry.items.now (held entries.entry.now)) (scopes_of around.entry.now)
            (to, building_of self.old) none) }
    {
        let mut below = self.below(alloc, frame, around)?;
        self.youngest_to(alloc, frame, entries, to, &mut below)?;
        self.keep_room(below.around);
        Ok(())
    }
}
