//! The paths at or below each path of a forest.
ghost use Rattle.std.specs.Prelude.{◌≡◌, ◌<◌, ◌*◌, ℕ, length, replicate, slice_get, slice_set, slice_index_or, IfOk, OnOk, None, Some, true, []};
ghost use Rattle.std.specs.Option.{is_some, option_map};
ghost use Rattle.bit_rows.specs.Words.{any_both};
ghost use Rattle.init_flow.specs.Carried.{Bits};
ghost use Rattle.move_paths.specs.Trie.{AreOnce};
ghost use Rattle.init_flow.specs.Moved.{masks_of};
ghost use Rattle.init_flow.specs.Marks.{IsMarked, IsSquare, marked, masks_from, single};
ghost use Rattle.init_flow.specs.Switches.{by_mask, switched};

use bit_rows::BitRow;
use mir_base::{List, NoMemory};
use move_paths::Forest;
use std::alloc::Global;
use std::marker::Model;

/// For each path of a forest the mask of the paths at or below it. The mask of a path with none below it is that path
/// alone, and takes no row.
#[derive(Drop)]
pub struct Masks {
    bits: u32,
    rows: List<Option<BitRow>>,
}

impl Model for Masks {
    ghost use Rattle.std.specs.Prelude.{◌≡◌, length, List as Listed, Bool};
    ghost use Rattle.init_flow.specs.Marks.{masks_from};

    ghost Value = { Listed (Listed Bool) };

    ghost view = { λ masks. masks_from masks.bits 0 masks.rows };

    ghost invariant = { λ masks. length masks.rows ≡ masks.bits };
}

/// Turns the bits of a mask on or off in a row of as many bits.
fn turn(mask: &BitRow, on: bool, row: &mut BitRow)
    ensures { row.new ≡ switched mask.now on row.old }
{
    if mask.len() != row.len() {
        return;
    }
    if on {
        mask.or_into(row);
    } else {
        mask.and_not_into(row);
    }
}

/// Turns one bit on or off in a row of so many.
fn turn_one(bits: u32, path: u32, on: bool, row: &mut BitRow)
    requires { path < bits }
    ensures { row.new ≡ switched (single bits path) on row.old }
{
    if row.len() == bits {
        row.set(path, on);
    }
}

/// Whether one bit is on in a row of so many.
fn is_on(bits: u32, path: u32, row: &BitRow) -> bool
    requires path { path < bits }
    requires row { length row.now ≡ bits }
    ensures { result ≡ any_both (single bits path) row.now }
{
    row.get(path)
}

impl Masks {
    /// Turns the bits of a path and of all paths below it on or off. A row of another length stays as it is, and so does
    /// every row where there is no such path.
    pub fn turn(&self, path: u32, on: bool, row: &mut BitRow)
        ensures { row.new ≡ by_mask (slice_get self.now path) on row.old }
    {
        if path >= self.bits {
            return;
        }
        match &self.rows.as_slice()[path as usize] {
            Some(mask) => turn(mask, on, row),
            None => turn_one(self.bits, path, on, row),
        }
    }

    /// Whether the bit of a path or of one below it is on in a row of as many bits as there are paths.
    pub fn meets(&self, path: u32, row: &BitRow) -> bool
        requires path { path < length self.now }
        requires paths { length row.now ≡ length self.now }
        requires mask { length row.now ≡ length (slice_index_or self.now path []) }
        ensures { result ≡ any_both (slice_index_or self.now path []) row.now }
    {
        match &self.rows.as_slice()[path as usize] {
            Some(mask) => mask.meets(row),
            None => is_on(self.bits, path, row),
        }
    }
}

fn no_rows(alloc: Global, bits: u32) -> Result<List<Option<BitRow>>, NoMemory>
    ensures { IfOk result (λ rows. rows ≡ replicate bits None) }
{
    let mut rows = List::from_vec(Vec::with_capacity(alloc, bits as usize)?);
    for _ in 0..bits {
        rows.push(None)?;
    }
    Ok(rows)
}

fn has_row(rows: &[Option<BitRow>], of: u32) -> bool
    requires { of < length rows.now }
    ensures { result ≡ is_some (slice_index_or rows.now of None) }
{
    rows[of as usize].is_some()
}

/// Marks a path in the row of another one.
fn mark_row(rows: &mut List<Option<BitRow>>, of: u32, path: u32)
    requires of { of < length rows.old }
    requires path { (row : Bits) → slice_index_or rows.old of None ≡ Some row → path < length row }
    ensures { rows.new ≡ slice_set rows.old of (option_map (λ row. slice_set row path true) (slice_index_or rows.old of None)) }
{
    if let Some(row) = rows.element_mut(of as usize) {
        row.set(path, true);
    }
}

/// The row of a path that has another one below it.
fn first_row(alloc: Global, bits: u32, of: u32, path: u32) -> Result<BitRow, NoMemory>
    requires of { of < bits }
    requires path { path < bits }
    ensures { IfOk result (λ row. row ≡ slice_set (single bits of) path true) }
{
    let mut row = BitRow::new(alloc, bits)?;
    row.set(of, true);
    row.set(path, true);
    Ok(row)
}

/// Marks a path in the mask of another one.
fn set_mark(
    alloc: Global,
    rows: &mut List<Option<BitRow>>,
    bits: u32,
    of: u32,
    path: u32,
) -> Result<(), NoMemory>
    requires long { length rows.old ≡ bits }
    requires square { IsSquare (masks_from bits 0 rows.old) }
    requires of { of < bits }
    requires path { path < bits }
    ensures long { OnOk result (length rows.new ≡ bits) }
    ensures marked { OnOk result (masks_from bits 0 rows.new ≡ marked (masks_from bits 0 rows.old) of path) }
{
    if has_row(rows.as_slice(), of) {
        mark_row(rows, of, path);
        return Ok(());
    }
    if of == path {
        return Ok(());
    }
    let row = first_row(alloc, bits, of, path)?;
    rows.set(of as usize, Some(row));
    Ok(())
}

/// Marks a path in the masks of itself and of all paths above it.
fn mark(
    alloc: Global,
    forest: &Forest,
    rows: &mut List<Option<BitRow>>,
    bits: u32,
    path: u32,
) -> Result<(), NoMemory>
    requires long { length rows.old ≡ bits }
    requires bits { bits ≡ length forest.now.paths }
    requires square { IsSquare (masks_from bits 0 rows.old) }
    requires path { path < bits }
    requires once { AreOnce forest.now.paths }
    ensures long { OnOk result (length rows.new ≡ bits) }
    ensures marked { OnOk result (IsMarked forest.now.paths (masks_from bits 0 rows.old) (masks_from bits 0 rows.new) path) }
{
    let mut at = Some(path);
    while let Some(of) = at {
        set_mark(alloc, rows, bits, of, path)?;
        at = forest.parent(of);
    }
    Ok(())
}

/// For each path of a forest the mask of the paths at or below it. It costs a step for each path and each path above it,
/// and a row for each path that has others below it.
pub fn masks_of_paths(alloc: Global, forest: &Forest) -> Result<Masks, NoMemory>
    ensures { IfOk result (λ masks. masks ≡ masks_of forest.now.paths) }
{
    let bits = forest.len();
    let mut rows = no_rows(alloc, bits)?;
    for path in 0..bits {
        mark(alloc, forest, &mut rows, bits, path)?;
    }
    Ok(Masks { bits, rows })
}
