//! The lines of impls and closures.
ghost use Rattle.std.specs.Prelude.{◌≡◌, IfOk};
ghost use Rattle.std.specs.Option.{option_copied};
ghost use Rattle.listing_write.specs.Reading.Rows.{many};
ghost use Rattle.listing_parts.specs.Found.{Finds, seen};
ghost use Rattle.listing_parts.specs.Table.{AreRead};
ghost use Rattle.listing_lines.specs.LineReading as reading;
ghost use Rattle.listing_lines.specs.LinesRead.{FindsClosure};

use crate::words::{due_number, known_adt, known_trait};
use listing_parts::{Heads, ReadError, plain_number, read_types, strip};
use mir_base::{List, NoMemory};
use mir_ty::{ClosureDef, ImplDef, Items};
use std::alloc::Global;

fn closure_head(n: u32, text: &[u8]) -> Option<&[u8]>
    ensures { option_copied result ≡ reading.closure_head n text.now }
{
    strip(due_number(n, strip(text, "closure ")?)?, " ")
}

/// A blank, and the number that ends the line.
fn last_number(text: &[u8]) -> Option<(u32, &[u8])>
    ensures { seen result ≡ reading.last_number text.now }
{
    let (n, rest) = plain_number(strip(text, " ")?)?;
    Some((n, strip(rest, "\n")?))
}

/// The closure with number `n`, and what stands behind its line. `Unreadable` comes where the text does not begin with
/// it; the table of the types may have grown then too.
pub fn closure_line<'a>(
    alloc: Global,
    heads: &Heads,
    items: &mut Items,
    n: u32,
    text: &'a [u8],
) -> Result<(ClosureDef, &'a [u8]), ReadError>
    requires { AreRead heads.now items.old.types }
    ensures { FindsClosure heads.now items.old items.new result (reading.closure_read heads.now n text.now) }
{
    match closure_head(n, text) {
        Some(rest) => match read_types(alloc, heads, items, rest) {
            Ok((captures, rest)) => match last_number(rest) {
                Some((body, rest)) => Ok((ClosureDef { captures, body }, rest)),
                None => Err(ReadError::Unreadable),
            },
            Err(error) => Err(error),
        },
        None => Err(ReadError::Unreadable),
    }
}

fn blank_number(text: &[u8]) -> Option<(u32, &[u8])>
    ensures { seen result ≡ reading.blank_number text.now }
{
    plain_number(strip(text, " ")?)
}

/// As many numbers as there are behind blanks. Each has a byte, so there are no more than bytes.
fn blank_numbers(alloc: Global, text: &[u8]) -> Result<(List<u32>, &[u8]), NoMemory>
    ensures { IfOk result (λ found. (found.0, found.1.now) ≡ many reading.blank_number text.now) }
{
    let mut numbers = List::new(alloc);
    let mut rest = text;
    for _ in 0..text.len() {
        match blank_number(rest) {
            Some((n, behind)) => {
                numbers.push(n)?;
                rest = behind;
            }
            None => return Ok((numbers, rest)),
        }
    }
    Ok((numbers, rest))
}

/// The trait and the struct or enum of an impl, before its bodies.
fn impl_head<'a>(heads: &Heads, text: &'a [u8]) -> Option<((u32, u32), &'a [u8])>
    ensures { seen result ≡ reading.impl_head heads.now text.now }
{
    let (trait_no, rest) = known_trait(heads, strip(text, "impl ")?)?;
    let (adt, rest) = known_adt(heads, strip(rest, " for ")?)?;
    Some(((trait_no, adt), rest))
}

/// The impl whose line a text begins with, and what stands behind the line. `Unreadable` comes where the text does not
/// begin with the line of an impl, or with that of a trait, a struct or an enum that has no head.
pub fn impl_line<'a>(
    alloc: Global,
    heads: &Heads,
    text: &'a [u8],
) -> Result<(ImplDef, &'a [u8]), ReadError>
    ensures { Finds result (reading.impl_read heads.now text.now) }
{
    match impl_head(heads, text) {
        Some(((trait_no, adt), rest)) => {
            let (bodies, rest) = blank_numbers(alloc, rest)?;
            let def = ImplDef {
                trait_no,
                adt,
                bodies,
            };
            match strip(rest, "\n") {
                Some(rest) => Ok((def, rest)),
                None => Err(ReadError::Unreadable),
            }
        }
        None => Err(ReadError::Unreadable),
    }
}
