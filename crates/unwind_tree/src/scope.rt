ghost use Rattle.std.specs.Prelude.{◌≡◌, []};

use crate::Scheduled;
use crate::entries::Entries;
use std::alloc::Global;

/// A destination that is pending: what is dropped while a panic unwinds, and the number of the scope whose entry it
/// becomes.
#[derive(Drop)]
pub struct Pending {
    pub into: u32,
    pub scheduled: Scheduled,
}

/// A scope that is open: its entries, with room for those that are pending for it, and the destinations that are
/// pending in it, the oldest first.
#[derive(Drop)]
pub struct Scope {
    pub entries: Entries,
    pub pending: Vec<Pending>,
}

/// A scope without entries.
pub fn new_scope(alloc: Global) -> Scope
    ensures entries { result.entries ≡ record { items = []; room = 0 } }
    ensures pending { result.pending.items ≡ [] }
{
    Scope {
        entries: Entries::new(alloc),
        pending: Vec::new(alloc),
    }
}
