//! The numbers of locals by keys.
ghost use Rattle.std.specs.Prelude.{◌≡◌, ℕ, IfOk, None, OnOk, Some, cond, nat_eq};
ghost use Rattle.lower_locals.specs.Places.{found, near_at, of_row};

use mir_base::{Key, List, NoMemory};
use std::alloc::Global;
use std::collections::HashMap;

/// A number for each of some keys. Those from the first one on, up to so many, stand in a row by their distance from it,
/// where finding one is a step: 0 stands for none, and else one more than the number. The others stand in a table.
#[derive(Drop)]
pub struct NumbersByKey {
    pub first: u32,
    pub near: List<u32>,
    pub far: HashMap<u32, u32>,
}

/// The number that stands in a row.
fn of_row(stored: u32) -> Option<u32>
    ensures { result ≡ of_row stored }
{
    if stored == 0 { None } else { Some(stored - 1) }
}

impl NumbersByKey {
    /// No key has a number yet; there is a row for so many keys from the first one on.
    pub fn new(alloc: Global, first: Key, count: usize) -> Result<NumbersByKey, NoMemory>
        ensures { IfOk result (λ places. (key : ℕ) → found places key ≡ None) }
    {
        Ok(NumbersByKey {
            first: first.0,
            near: List::from_vec(vec![in alloc; 0u32; count]?),
            far: HashMap::new(alloc),
        })
    }

    /// What stands in the row under a key; `None` where it is not of the row.
    fn near_at(&self, key: Key) -> Option<u32>
        ensures { result ≡ near_at self.now.first self.now.near key.0 }
    {
        if key.0 < self.first {
            None
        } else {
            self.near.get((key.0 - self.first) as usize).copied()
        }
    }

    /// The number of a key; `None` where it has none.
    pub fn find(&self, key: Key) -> Option<u32>
        ensures { result ≡ found self.now key.0 }
    {
        match self.near_at(key) {
            Some(stored) => of_row(stored),
            None => self.far.get(&key.0).copied(),
        }
    }

    /// A key gets a number, in place of the one that it has.
    pub fn put(&mut self, key: Key, number: u32) -> Result<(), NoMemory>
        ensures { OnOk result ((other : ℕ) →
            found self.new other ≡ cond (nat_eq key.0 other) (Some number) (found self.old other)) }
    {
        match self.near_at(key) {
            Some(_) => {
                let at = (key.0 - self.first) as usize;
                let stored = number.checked_add(1).ok_or(NoMemory::past_32_bits())?;
                self.near.set(at, stored);
            }
            None => {
                self.far.insert(key.0, number)?;
            }
        }
        Ok(())
    }
}
