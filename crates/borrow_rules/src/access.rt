//! What is done to places.
ghost use Rattle.std.specs.Prelude.{◌≡◌, IfOk, OnOk, map};
ghost use Rattle.typing_rules.specs.Accesses as rules;
ghost use Rattle.typing_rules.specs.Accesses.{◌⊕◌};
ghost use Rattle.borrow_rules.specs.AccessView.{access_if_any, access_in, bound_in, key_if_any, place_if_any, told_in};

use crate::AccessPlace;
use crate::bindings::BoundPart;
use crate::place::copy_place;
use mir_base::{Key, NoMemory, Pos};
use std::alloc::Global;
use typed_tree::Use;

/// What is done to a place.
#[derive(Clone, Copy)]
pub enum Access {
    Reads,
    Moves,
    Stores,
    Borrows,
    BorrowsUniquely,
}

/// An access to a place, which may be a temporary; the key at the place's root; where it stands.
#[derive(Drop)]
pub struct Accessed {
    pub access: Access,
    pub place: Option<AccessPlace>,
    pub root: Option<Key>,
    pub at: Pos,
}

/// What an expression does to places, in order, and where it conflicts within itself.
#[derive(Drop)]
pub struct CollectedAccesses {
    pub accesses: Vec<Accessed>,
    pub conflicts: Vec<Pos>,
}

/// Whether an access moves, stores, or borrows by `&mut`.
pub fn changes(access: Access) -> bool
    ensures { result ≡ rules.changes (access_in access) }
{
    match access {
        Access::Moves | Access::Stores | Access::BorrowsUniquely => true,
        Access::Reads | Access::Borrows => false,
    }
}

/// Whether an access stores, or borrows by `&mut`.
pub fn replaces(access: Access) -> bool
    ensures { result ≡ rules.replaces (access_in access) }
{
    match access {
        Access::Stores | Access::BorrowsUniquely => true,
        Access::Reads | Access::Moves | Access::Borrows => false,
    }
}

/// The access of a place that is used so.
pub fn access_by(by: Option<Use>) -> Option<Access>
    ensures { access_if_any result ≡ rules.access_by by }
{
    match by {
        Some(Use::Move) => Some(Access::Moves),
        Some(Use::Copy) => Some(Access::Reads),
        Some(Use::Borrow) => Some(Access::Borrows),
        Some(Use::BorrowMut) => Some(Access::BorrowsUniquely),
        _ => None,
    }
}

impl CollectedAccesses {
    /// Nothing so far.
    pub fn quiet(alloc: Global) -> CollectedAccesses
        ensures { told_in result ≡ rules.quiet }
    {
        CollectedAccesses {
            accesses: Vec::new(alloc),
            conflicts: Vec::new(alloc),
        }
    }

    /// One access more.
    pub fn push(
        &mut self,
        access: Access,
        place: Option<AccessPlace>,
        root: Option<Key>,
        at: Pos,
    ) -> Result<(), NoMemory>
        ensures { OnOk result (told_in self.new ≡
            told_in self.old ⊕ rules.one (access_in access) (place_if_any place) (key_if_any root) at) }
    {
        self.accesses.push(Accessed {
            access,
            place,
            root,
            at,
        })?;
        Ok(())
    }

    /// What else is told.
    pub fn append(&mut self, mut told: CollectedAccesses) -> Result<(), NoMemory>
        ensures { OnOk result (told_in self.new ≡ told_in self.old ⊕ told_in told) }
    {
        self.accesses.append(&mut told.accesses)?;
        self.conflicts.append(&mut told.conflicts)?;
        Ok(())
    }

    /// Conflicts more.
    pub fn append_conflicts(&mut self, mut conflicts: Vec<Pos>) -> Result<(), NoMemory>
        ensures { OnOk result (told_in self.new ≡ told_in self.old ⊕ rules.conflicting conflicts.items) }
    {
        self.conflicts.append(&mut conflicts)?;
        Ok(())
    }

    /// What bindings take.
    pub fn append_bound(&mut self, alloc: Global, bounds: &[BoundPart]) -> Result<(), NoMemory>
        ensures { OnOk result (told_in self.new ≡ told_in self.old ⊕ rules.accesses_of (map bound_in bounds.now)) }
    {
        for bound in bounds {
            let taken = &bound.taken;
            let place = copy_place(alloc, &taken.place)?;
            self.push(taken.access, place, taken.root, taken.at)?;
        }
        Ok(())
    }
}
