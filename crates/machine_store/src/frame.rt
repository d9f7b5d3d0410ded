ghost use Rattle.std.specs.Prelude.{◌≡◌, ℕ, suc, ◌<◌, ◌++◌, ◌∷◌, [], length, IfOk, OnOk, OnErr, MatchOption, Some};
ghost use Rattle.std.specs.Prelude.{None, option_map, option_and_then, slice_get};
ghost use Rattle.std.specs.Option.{option_copied};
ghost use Rattle.machine_store.specs.Frames.{place_in, place_of, entry_of, cells_of};
ghost use Rattle.store_model.specs.Concrete.State.{cell, with_cell};
ghost use Rattle.store_model.specs.Values.Datum.{Gone, datum_of};
ghost use Rattle.store_model.specs.Values.Access.{value_at, replaced};
ghost use Rattle.store_model.specs.Values.Wholeness.{IsWhole};

use crate::Cell;
use mir_base::{List, NoMemory};
use std::alloc::Global;
use std::marker::Model;
use store_model::{At, Value};

/// A local that was stored into.
#[derive(Drop)]
pub struct StoredLocal {
    pub key: u32,
    pub cell: Cell,
}

/// The locals of a body that runs: those that were stored into, in the order of their first stores. A local is found by
/// its number without a search.
#[derive(Drop)]
pub struct MachineFrame {
    body: u32,
    entries: List<StoredLocal>,
    /// By the number of a local: 0, or one more than its place among the entries.
    index: List<u32>,
}

impl Model for MachineFrame {
    ghost use Rattle.std.specs.Prelude.{◌≡◌, ℕ, List as Listed};
    ghost use Rattle.std.specs.Coded.{codes};
    ghost use Rattle.machine_store.specs.contracts.cell.Cell as held;
    ghost use Rattle.machine_store.specs.declared.frame.StoredLocal.{StoredLocal as an_entry};
    ghost use Rattle.machine_store.specs.Frames.{place_in, place_of};

    ghost Value = { ℕ × Listed an_entry };

    ghost coded = { Prim.hlevel (codes, held.the_row.coded) };

    ghost view = { λ frame. (frame.body, frame.entries) };

    ghost invariant = { λ frame. (key : ℕ) → place_in frame.index key ≡ place_of key frame.entries };
}

/// The place of a local among the entries.
fn place_of_local(index: &List<u32>, key: u32) -> Option<usize>
    ensures { result ≡ place_in index.now key }
{
    match index.get(key as usize) {
        Some(number) => (*number as usize).checked_sub(1),
        None => None,
    }
}

/// How an index writes a place among the entries.
fn number_of_place(place: usize) -> Result<u32, NoMemory>
    ensures { IfOk result (λ number. number ≡ suc place) }
{
    match u32::try_from(place) {
        Ok(place) => match place.checked_add(1) {
            Some(number) => Ok(number),
            None => Err(NoMemory::past_32_bits()),
        },
        Err(_) => Err(NoMemory::past_32_bits()),
    }
}

/// A local into which nothing was stored, with a value put at a place of it. Only the whole local is a place of it.
fn new_cell(alloc: Global, place: &[At], value: Value) -> Result<Cell, NoMemory>
    requires { IsWhole (datum_of value) }
    ensures { IfOk result (λ cell. datum_of cell ≡ replaced place.now (datum_of value) Gone) }
{
    if place.is_empty() {
        return Ok(Cell::holding(alloc, value));
    }
    Cell::vacant(alloc)
}

/// What is taken at a place of a local into which nothing was stored.
pub fn taken_of_nothing(place: &[At]) -> Option<Value>
    ensures { option_map datum_of result ≡ value_at place.now Gone }
{
    if place.is_empty() {
        return Some(Value::Gone);
    }
    None
}

/// Makes room for a local in an index.
fn widen(index: &mut List<u32>, key: u32) -> Result<(), NoMemory>
    ensures same { (other : ℕ) → place_in index.new other ≡ place_in index.old other }
    ensures wide { OnOk result (key < length index.new) }
{
    while index.len() <= key as usize {
        index.push(0)?;
    }
    Ok(())
}

impl MachineFrame {
    /// A body that has just been entered: nothing was stored yet.
    pub fn new(alloc: Global, body: u32) -> MachineFrame
        ensures { result ≡ (body, []) }
    {
        MachineFrame {
            body,
            entries: List::new(alloc),
            index: List::new(alloc),
        }
    }

    /// The number of the body.
    pub fn body(&self) -> u32
        ensures { result ≡ self.now.0 }
    {
        self.body
    }

    /// What a local holds; `None` where nothing was stored into it.
    pub fn cell(&self, key: u32) -> Option<&Cell>
        ensures { option_copied result ≡ entry_of key self.now.1 }
    {
        let place = place_of_local(&self.index, key)?;
        match self.entries.get(place) {
            Some(entry) => Some(&entry.cell),
            None => None,
        }
    }

    /// Makes an entry of a local into which nothing was stored.
    fn add(&mut self, entry: StoredLocal) -> Result<(), NoMemory>
        requires { place_of entry.key self.old.1 ≡ None }
        ensures body { self.new.0 ≡ self.old.0 }
        ensures added { OnOk result (self.new ≡ (self.old.0, self.old.1 ++ entry ∷ [])) }
    {
        let key = entry.key;
        let Ok(number) = number_of_place(self.entries.len()) else {
            drop(entry);
            return Err(NoMemory);
        };
        let Ok(()) = widen(&mut self.index, key) else {
            drop(entry);
            return Err(NoMemory);
        };
        self.entries.push(entry)?;
        self.index.set(key as usize, number);
        Ok(())
    }

    /// Puts a whole value at a place of a local, whatever stood there. Where there is no such place it is let go.
    pub fn put(
        &mut self,
        alloc: Global,
        key: u32,
        place: &[At],
        value: Value,
    ) -> Result<(), NoMemory>
        requires { IsWhole (datum_of value) }
        ensures body { self.new.0 ≡ self.old.0 }
        ensures cells { OnOk result (cells_of self.new.1 ≡ with_cell key (replaced place.now (datum_of value)
            (cell key (cells_of self.old.1))) (cells_of self.old.1)) }
    {
        match place_of_local(&self.index, key) {
            Some(number) => {
                self.entries.element_mut(number).cell.put(place, value);
                Ok(())
            }
            None => {
                let cell = new_cell(alloc, place, value)?;
                self.add(StoredLocal { key, cell })
            }
        }
    }

    /// Takes what stands at a place of a local, and leaves it gone. `None` comes exactly where there is no such place;
    /// of a local into which nothing was stored the whole is a place, at which nothing stands. Memory is for the mark.
    pub fn take(&mut self, alloc: Global, key: u32, place: &[At]) -> Result<Option<Value>, NoMemory>
        ensures body { self.new.0 ≡ self.old.0 }
        ensures taken { IfOk result (λ taken. option_map datum_of taken ≡
            value_at place.now (cell key (cells_of self.old.1))) }
        ensures cells { OnOk result (cells_of self.new.1 ≡ with_cell key (replaced place.now Gone
            (cell key (cells_of self.old.1))) (cells_of self.old.1)) }
    {
        match place_of_local(&self.index, key) {
            Some(number) => self.entries.element_mut(number).cell.take(alloc, place),
            None => {
                let cell = Cell::vacant(alloc)?;
                self.add(StoredLocal { key, cell })?;
                Ok(taken_of_nothing(place))
            }
        }
    }
}
