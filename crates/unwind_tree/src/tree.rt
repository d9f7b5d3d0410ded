ghost use Rattle.std.specs.Prelude.{◌≡◌, ◌<◌, ◌≤◌, [], ◌∷◌, ◌++◌, ◌-◌, drop, take, length, IfOk, OnOk, OnErr};
ghost use Rattle.unwind_tree.specs.Trees.{a_scope, changed_at, with_entry, with_pending, left_by_exit, left_by_panic, IsPending, IsCompleted};
ghost use Rattle.unwind_tree.specs.declared.scheduled.Scheduled.{Scheduled as an_entry};
ghost use Rattle.unwind_tree.specs.declared.scope.Pending.{Pending as a_destination};

use crate::Scheduled;
use crate::changes::{add_entry, add_pending, fill, make_room};
use crate::exits::{exit_places, from_number, panic_places};
use crate::pending::take_pending;
use crate::scope::{Pending, Scope, new_scope};
use cfg_graph::Place;
use mir_base::{Key, List, NoMemory};
use std::alloc::Global;
use std::marker::Model;

/// The open scopes of a body, numbered from 0, the outermost. Contracts see their list: of each its entries and its
/// pending destinations, the oldest first.
#[derive(Drop)]
pub struct ExitTree {
    alloc: Global,
    scopes: List<Scope>,
}

impl Model for ExitTree {
    ghost use Rattle.std.specs.Prelude.{List as Listed};
    ghost use Rattle.unwind_tree.specs.Rooms.{IsRoomy, seen_all};
    ghost use Rattle.unwind_tree.specs.Trees.{OpenScope};

    ghost Value = { Listed OpenScope };

    ghost view = { λ tree. seen_all tree.scopes };

    ghost invariant = { λ tree. IsRoomy tree.scopes };
}

impl ExitTree {
    /// No scope is open. It takes no memory.
    pub fn new(alloc: Global) -> ExitTree
        ensures { result ≡ [] }
    {
        ExitTree {
            alloc,
            scopes: List::new(alloc),
        }
    }

    /// Opens a scope, the innermost.
    ///
    /// # Errors
    ///
    /// [`NoMemory`] where memory is wanted; the tree is then as it was.
    pub fn enter(&mut self) -> Result<(), NoMemory>
        ensures entered { OnOk result (self.new ≡ self.old ++ a_scope ∷ []) }
        ensures refused { OnErr result (self.new ≡ self.old) }
    {
        self.scopes.push(new_scope(self.alloc))?;
        Ok(())
    }

    /// Makes a youngest entry of the scope with the number `depth`, which is open: `place` is dropped as the scope is
    /// left.
    ///
    /// # Errors
    ///
    /// [`NoMemory`] where memory is wanted; the tree is then as it was.
    pub fn schedule(&mut self, depth: u32, key: Key, place: Place) -> Result<(), NoMemory>
        requires { depth < length self.old }
        ensures scheduled { OnOk result
            (self.new ≡ changed_at depth (with_entry (record { key = key; place = place })) self.old) }
        ensures refused { OnErr result (self.new ≡ self.old) }
    {
        add_entry(&mut self.scopes, depth as usize, Scheduled { key, place })?;
        Ok(())
    }

    /// Adds a pending destination to the scope with the number `depth`, which is open, and takes the memory that its
    /// completion needs. It is to become an entry of the scope `into`, which is that scope or one around it. No
    /// destination with this key may be pending.
    ///
    /// # Errors
    ///
    /// [`NoMemory`] where memory is wanted; the tree is then as it was.
    pub fn pending(&mut self, depth: u32, into: u32, key: Key, place: Place) -> Result<(), NoMemory>
        requires open { depth < length self.old }
        requires within { into ≤ depth }
        requires new { ¬ IsPending key self.old }
        ensures pending { OnOk result (self.new ≡ changed_at depth
            (with_pending (record { into = into; scheduled = record { key = key; place = place } })) self.old) }
        ensures refused { OnErr result (self.new ≡ self.old) }
    {
        make_room(&mut self.scopes, into as usize)?;
        let scheduled = Scheduled { key, place };
        add_pending(
            &mut self.scopes,
            depth as usize,
            Pending { into, scheduled },
        )?;
        Ok(())
    }

    /// Takes the destination with this key, which is pending, away, and makes it the youngest entry of the scope into
    /// which it was to go. It takes no memory. It costs as many steps as there are scopes and pending destinations
    /// further in.
    pub fn complete(&mut self, key: Key)
        requires { IsPending key self.old }
        ensures { IsCompleted key self.old self.new }
    {
        if let Some(destination) = take_pending(&mut self.scopes, key) {
            fill(
                &mut self.scopes,
                destination.into as usize,
                destination.scheduled,
            );
        }
    }

    /// The places that are dropped as the scopes numbered `depth` and above are left by a value, `break`, `continue` or
    /// `return`, in the order of their drops: the innermost scope first, in each the youngest entry first. It costs as
    /// many steps as these scopes have entries.
    ///
    /// # Errors
    ///
    /// [`NoMemory`] where memory is wanted.
    pub fn exit_to(&self, alloc: Global, depth: u32) -> Result<List<Place>, NoMemory>
        requires { depth ≤ length self.now }
        ensures { IfOk result (λ places. places ≡ left_by_exit (drop depth self.now)) }
    {
        exit_places(alloc, from_number(self.scopes.as_slice(), depth as usize))
    }

    /// The places that are dropped while a panic unwinds all open scopes, in the order of their drops: the innermost
    /// scope first, in each the youngest pending destination first, and then the youngest entry first. It costs as many
    /// steps as there are entries and pending destinations.
    ///
    /// # Errors
    ///
    /// [`NoMemory`] where memory is wanted.
    pub fn unwind_from(&self, alloc: Global) -> Result<List<Place>, NoMemory>
        ensures { IfOk result (λ places. places ≡ left_by_panic self.now) }
    {
        panic_places(alloc, self.scopes.as_slice())
    }

    /// Closes the innermost scope, which is open: it goes with its entries and its pending destinations.
    pub fn leave(&mut self)
        requires { 0 < length self.old }
        ensures { self.new ≡ take (length self.old - 1) self.old }
    {
        self.scopes.truncate(self.scopes.len() - 1);
    }
}
