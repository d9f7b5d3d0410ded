//! Where numbers stand in a list, by a table.
ghost use Rattle.std.specs.Prelude.{◌≡◌, ℕ, ◌<◌, [], length, IfOk, OnOk};
ghost use Rattle.typeck_bodies.specs.Places.{IsPlacedFrom, place_by};
ghost use Rattle.typing_rules.specs.Numbered.{place_among};

use mir_base::{List, NoMemory};
use std::alloc::Global;

/// Where the numbers of a list stand in it.
#[derive(Drop)]
pub struct NumberPlaces {
    /// By a number: its first place in the list; how many the list has for one that is not in it.
    table: List<u32>,
    /// How many numbers the list has.
    count: u32,
}

/// Makes room for a number, which is not in the list yet.
fn widen(table: &mut List<u32>, number: u32, count: u32) -> Result<(), NoMemory>
    ensures same { (k : ℕ) → place_by table.new count k ≡ place_by table.old count k }
    ensures wide { OnOk result (number < length table.new) }
{
    while table.len() <= number as usize {
        table.push(count)?;
    }
    Ok(())
}

/// The places of the numbers of a list, from its end to its beginning, so that the first place of a number counts.
fn fill(table: &mut List<u32>, numbers: &[u32], count: u32) -> Result<(), NoMemory>
    requires counted { length numbers.now ≡ count }
    requires empty { table.old ≡ [] }
    ensures { OnOk result (IsPlacedFrom numbers.now count 0 table.new) }
{
    for done in 0..numbers.len() {
        let at = numbers.len() - 1 - done;
        let number = numbers[at];
        let Ok(place) = u32::try_from(at) else {
            return Err(NoMemory::past_32_bits());
        };
        widen(table, number, count)?;
        table.set(number as usize, place);
    }
    Ok(())
}

impl NumberPlaces {
    /// The places of the numbers of a list. It takes memory by the greatest of them.
    pub fn of(alloc: Global, numbers: &[u32]) -> Result<NumberPlaces, NoMemory>
        ensures { IfOk result (λ places. (k : ℕ) → place_by places.table places.count k ≡ place_among numbers.now k) }
    {
        let Ok(count) = u32::try_from(numbers.len()) else {
            return Err(NoMemory::past_32_bits());
        };
        let mut table = List::new(alloc);
        fill(&mut table, numbers, count)?;
        Ok(NumberPlaces { table, count })
    }

    /// The first place of a number in the list, and how many the list has where it is not in it.
    pub fn get(&self, number: u32) -> u32
        ensures { result ≡ place_by self.now.table self.now.count number }
    {
        match self.table.get(number as usize) {
            Some(place) => *place,
            None => self.count,
        }
    }
}
