ghost use Rattle.std.specs.Prelude.{◌≡◌, Some, IfOk, OnOk, option_map};
ghost use Rattle.std.specs.List.{list_any, filter};
ghost use Rattle.machine_store.specs.Marks.{leads_into, is_outside};
ghost use Rattle.store_model.specs.Values.Datum.{Datum, Gone, datum_of};
ghost use Rattle.store_model.specs.Values.Access.{value_at, replaced};
ghost use Rattle.store_model.specs.Values.Wholeness.{IsWhole, is_whole};

use mir_base::NoMemory;
use std::alloc::Global;
use std::marker::Model;
use store_model::{self, At, AtPath, Value};

/// What a local holds, and at which places in it nothing stands, so that no value is searched to see whether it is
/// whole. Contracts see it as the value.
///
/// A call costs by the length of its path, by the number of places of the local that are gone, and not by the size of
/// the value.
#[derive(Drop)]
pub struct Cell {
    value: Value,
    gone: Vec<AtPath>,
}

impl Model for Cell {
    ghost use Rattle.store_model.specs.declared.value.Value.{Value as Held};
    ghost use Rattle.store_model.specs.Values.Datum.{datum_of};
    ghost use Rattle.machine_store.specs.Marks.{GoneMarks};
    ghost use Rattle.store_model.specs.contracts.value.Value as held;
    ghost use Rattle.std.specs.Coded.{codes};

    ghost Value = { Held };

    ghost coded = { Prim.hlevel (codes, held.the_row.coded) };

    ghost view = { λ cell. cell.value };

    ghost invariant = { λ cell. GoneMarks (datum_of cell.value) cell.gone.items };
}

/// Whether a path leads to a place or into it.
fn leads_to(path: &[At], place: &[At]) -> bool
    ensures { result ≡ leads_into path.now place.now }
{
    path.starts_with(place)
}

/// Whether one of these paths leads to a place or into it.
fn one_leads_to(paths: &Vec<AtPath>, place: &[At]) -> bool
    ensures { result ≡ list_any (λ path. leads_into path place.now) paths.now.items }
{
    paths.iter().any(|path| leads_to(path.as_slice(), place))
}

/// Whether a path does not lead into a place, nor to it where that counts too.
fn stays_outside(path: &[At], place: &[At], counts: bool) -> bool
    ensures { result ≡ is_outside counts place.now path.now }
{
    !leads_to(path, place) || (!counts && path.len() == place.len())
}

/// Removes the paths that lead into a place, and those to it where that counts too.
fn remove_within(paths: &mut Vec<AtPath>, place: &[At], counts: bool)
    ensures { paths.new.items ≡ filter (is_outside counts place.now) paths.old.items }
{
    paths.retain(|path| stays_outside(path.as_slice(), place, counts));
}

impl Cell {
    /// A local that holds a whole value. It takes no memory.
    pub fn holding(alloc: Global, value: Value) -> Cell
        requires { IsWhole (datum_of value) }
        ensures { datum_of result ≡ datum_of value }
    {
        Cell {
            value,
            gone: Vec::new(alloc),
        }
    }

    /// A local in which nothing stands.
    pub fn vacant(alloc: Global) -> Result<Cell, NoMemory>
        ensures { IfOk result (λ cell. datum_of cell ≡ Gone) }
    {
        let mut gone = Vec::new(alloc);
        gone.push(AtPath::new(alloc))?;
        Ok(Cell {
            value: Value::Gone,
            gone,
        })
    }

    /// The value, any part of which may be gone.
    pub fn value(&self) -> &Value
        ensures { datum_of result.now ≡ datum_of self.now }
    {
        &self.value
    }

    /// Whether what stands at a place is whole.
    pub fn is_whole_at(&self, place: &[At]) -> bool
        ensures { (inner : Datum) → value_at place.now (datum_of self.now) ≡ Some inner → result ≡ is_whole inner }
    {
        !one_leads_to(&self.gone, place)
    }

    /// Puts a whole value at a place, whatever stood there. Where there is no such place nothing changes.
    pub fn put(&mut self, place: &[At], value: Value)
        requires { IsWhole (datum_of value) }
        ensures { datum_of self.new ≡ replaced place.now (datum_of value) (datum_of self.old) }
    {
        remove_within(&mut self.gone, place, true);
        let _stood = store_model::put(&mut self.value, place, value);
    }

    /// Takes what stands at a place, and leaves it gone; `None` comes exactly where there is no such place, and then
    /// nothing changes. Memory is for the mark.
    pub fn take(&mut self, alloc: Global, place: &[At]) -> Result<Option<Value>, NoMemory>
        ensures value { IfOk result (λ taken. option_map datum_of taken ≡ value_at place.now (datum_of self.old)) }
        ensures after { OnOk result (datum_of self.new ≡ replaced place.now Gone (datum_of self.old)) }
    {
        if store_model::read(&self.value, place).is_none() {
            return Ok(None);
        }
        self.gone.push(AtPath::from_slice(alloc, place)?)?;
        remove_within(&mut self.gone, place, false);
        Ok(store_model::take(&mut self.value, place))
    }
}
