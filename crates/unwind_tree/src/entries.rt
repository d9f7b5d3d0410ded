ghost use Rattle.std.specs.Prelude.{◌≡◌, ◌<◌, ◌-◌, ◌+◌, [], ◌∷◌, ◌++◌, OnOk, OnErr};

use crate::Scheduled;
use mir_base::NoMemory;
use std::alloc::Global;
use std::marker::Model;

/// The entries of a scope, the oldest first, with room for more that come without taking memory.
#[derive(Drop)]
pub struct Entries {
    items: Vec<Scheduled>,
    room: usize,
}

impl Model for Entries {
    ghost use Rattle.std.specs.Prelude.{◌≤◌, ◌+◌, vec_len, vec_capacity};
    ghost use Rattle.unwind_tree.specs.Roomy.{Roomy};

    ghost Value = { Roomy };

    ghost view = { λ entries. record { items = entries.items.items; room = entries.room } };

    ghost invariant = { λ entries. vec_len entries.items + entries.room ≤ vec_capacity entries.items };
}

impl Entries {
    pub fn new(alloc: Global) -> Entries
        ensures { result ≡ record { items = []; room = 0 } }
    {
        Entries {
            items: Vec::new(alloc),
            room: 0,
        }
    }

    pub fn as_slice(&self) -> &[Scheduled]
        ensures { result.now ≡ self.now.items }
    {
        self.items.as_slice()
    }

    /// Makes room for one more entry.
    pub fn make_room(&mut self) -> Result<(), NoMemory>
        ensures made { OnOk result (self.new ≡ record self.old { room = self.old.room + 1 }) }
        ensures refused { OnErr result (self.new ≡ self.old) }
    {
        let Some(room) = self.room.checked_add(1) else {
            return Err(NoMemory::past_32_bits());
        };
        self.items.reserve(room)?;
        self.room = room;
        Ok(())
    }

    /// Adds the youngest entry, and keeps the room.
    pub fn add(&mut self, entry: Scheduled) -> Result<(), NoMemory>
        ensures added { OnOk result (self.new ≡ record self.old { items = self.old.items ++ entry ∷ [] }) }
        ensures refused { OnErr result (self.new ≡ self.old) }
        ensures room { self.new.room ≡ self.old.room }
    {
        self.make_room()?;
        self.fill(entry);
        Ok(())
    }

    /// Adds the youngest entry where there is room for it.
    pub fn fill(&mut self, entry: Scheduled)
        requires { 0 < self.old.room }
        ensures { self.new ≡ record { items = self.old.items ++ entry ∷ []; room = self.old.room - 1 } }
    {
        self.items.push(entry).unwrap();
        self.room -= 1;
    }
}
