//! Rows of bits, beside a loop over their bits.
use bit_rows::BitRow;
use mir_base::NoMemory;
use std::alloc::Global;

/// Lengths around those of a word, and of eight words, which the calls take at once.
static LENGTHS: [u32; 8] = [0, 1, 63, 64, 65, 511, 512, 513];

fn is_multiple(number: u32, of: u32) -> bool {
    of != 0 && number % of == 0
}

/// A row of so many bits, of which the multiples of a number are on.
fn multiples(alloc: Global, len: u32, of: u32) -> Result<BitRow, NoMemory> {
    let mut row = BitRow::new(alloc, len)?;
    for at in 0..len {
        if at < row.len() {
            row.set(at, is_multiple(at, of));
        }
    }
    Ok(row)
}

fn bit(row: &BitRow, at: u32) -> bool {
    at < row.len() && row.get(at)
}

/// Whether a row is the union of two others, or what is on in the second and not in the first.
fn is_of(one: &BitRow, before: &BitRow, after: &BitRow, unites: bool) -> bool {
    for at in 0..after.len() {
        let wanted = if unites {
            bit(one, at) || bit(before, at)
        } else {
            !bit(one, at) && bit(before, at)
        };
        if bit(after, at) != wanted {
            return false;
        }
    }
    true
}

fn are_equal(one: &BitRow, other: &BitRow) -> bool {
    for at in 0..one.len() {
        if bit(one, at) != bit(other, at) {
            return false;
        }
    }
    true
}

/// Whether a call changes a row as a loop over the bits would, and says whether it did.
fn changes(one: &BitRow, into: &mut BitRow, unites: bool) -> bool {
    if one.len() != into.len() {
        return false;
    }
    if unites {
        one.or_into(into)
    } else {
        one.and_not_into(into)
    }
}

fn is_changed(alloc: Global, len: u32, of: u32, unites: bool) -> Result<bool, NoMemory> {
    let one = multiples(alloc, len, of)?;
    let before = multiples(alloc, len, 5)?;
    let mut after = multiples(alloc, len, 5)?;
    let changed = changes(&one, &mut after, unites);
    Ok(is_of(&one, &before, &after, unites) && changed == !are_equal(&before, &after))
}

/// Whether rows of a length are united and taken from as a loop does, where that changes them and where it may not.
fn stands(alloc: Global, len: u32) -> Result<bool, NoMemory> {
    Ok(
        is_changed(alloc, len, 3, true)?
            && is_changed(alloc, len, 3, false)?
            && is_changed(alloc, len, 5, true)?
            && is_changed(alloc, len, 1000, false)?,
    )
}

/// `or_into` and `and_not_into` of rows of many lengths.
pub fn rows_of_bits(alloc: Global) -> Option<usize> {
    for (step, len) in LENGTHS.iter().enumerate() {
        if stands(alloc, *len) != Ok(true) {
            return Some(step);
        }
    }
    None
}
