//! Operands.
ghost use Rattle.std.specs.Prelude.{◌≡◌, ◌++◌, IfOk};
ghost use Rattle.listing_write.specs.Reading.Parts as reading;
ghost use Rattle.listing_write.specs.Reading.Rows.{comma, many, row};
ghost use Rattle.listing_write.specs.Reading.Words.{bind, signed as signed_read};
ghost use Rattle.listing_parts.specs.Found.{Finds, seen};

use crate::ReadError;
use crate::places::read_place;
use crate::words::{read_signed, strip};
use cfg_graph::Operand;
use mir_base::{IntKind, List, NoMemory};
use std::alloc::Global;

fn int_kind(text: &[u8]) -> Option<(IntKind, &[u8])>
    ensures { seen result ≡ reading.kind_read text.now }
{
    if let Some(rest) = strip(text, "i32") {
        Some((IntKind::I32, rest))
    } else if let Some(rest) = strip(text, "i64") {
        Some((IntKind::I64, rest))
    } else if let Some(rest) = strip(text, "u32") {
        Some((IntKind::U32, rest))
    } else if let Some(rest) = strip(text, "u64") {
        Some((IntKind::U64, rest))
    } else {
        Some((IntKind::Usize, strip(text, "usize")?))
    }
}

fn number_constant(text: &[u8]) -> Option<(Operand, &[u8])>
    ensures { seen result ≡ bind (signed_read text.now) reading.constant_from }
{
    let (value, rest) = read_signed(text)?;
    let (kind, rest) = int_kind(strip(rest, "_")?)?;
    Some((Operand::Number(value, kind), rest))
}

fn other_constant(text: &[u8]) -> Option<(Operand, &[u8])>
    ensures { seen result ≡ reading.other_constant text.now }
{
    if let Some(rest) = strip(text, "true") {
        Some((Operand::Truth(true), rest))
    } else if let Some(rest) = strip(text, "false") {
        Some((Operand::Truth(false), rest))
    } else {
        let rest = strip(text, "()")?;
        Some((Operand::Unit, rest))
    }
}

fn constant(text: &[u8]) -> Option<(Operand, &[u8])>
    ensures { seen result ≡ reading.constant_read text.now }
{
    match number_constant(text) {
        Some(found) => Some(found),
        None => other_constant(text),
    }
}

/// An operand at the front of a text, and what stands behind it.
pub fn read_operand(alloc: Global, text: &[u8]) -> Result<(Operand, &[u8]), ReadError>
    ensures { Finds result (reading.operand_read text.now) }
{
    if let Some(rest) = strip(text, "copy ") {
        let (place, rest) = read_place(alloc, rest)?;
        return Ok((Operand::Copied(place), rest));
    }
    if let Some(rest) = strip(text, "move ") {
        let (place, rest) = read_place(alloc, rest)?;
        return Ok((Operand::Moved(place), rest));
    }
    let Some(rest) = strip(text, "const ") else {
        return Err(ReadError::Unreadable);
    };
    constant(rest).ok_or(ReadError::Unreadable)
}

fn operand_behind_comma(alloc: Global, text: &[u8]) -> Result<(Operand, &[u8]), ReadError>
    ensures { Finds result (comma reading.operand_read text.now) }
{
    let Some(rest) = strip(text, ", ") else {
        return Err(ReadError::Unreadable);
    };
    read_operand(alloc, rest)
}

/// As many operands as there are behind commas. Each has a byte, so there are no more than bytes.
fn more_operands<'a>(
    alloc: Global,
    parts: &mut List<Operand>,
    text: &'a [u8],
) -> Result<&'a [u8], NoMemory>
    ensures { IfOk result (λ rest. (let more = many (comma reading.operand_read) text.now in (parts.new ≡ parts.old ++ more.0) × (rest.now ≡ more.1))) }
{
    let mut rest = text;
    for _ in 0..text.len() {
        match operand_behind_comma(alloc, rest) {
            Ok((operand, behind)) => {
                parts.push(operand)?;
                rest = behind;
            }
            Err(ReadError::Unreadable) => return Ok(rest),
            Err(ReadError::NoMemory) => return Err(NoMemory),
        }
    }
    Ok(rest)
}

fn operand_row(alloc: Global, text: &[u8]) -> Result<(List<Operand>, &[u8]), NoMemory>
    ensures { IfOk result (λ found. (found.0, found.1.now) ≡ row reading.operand_read text.now) }
{
    let mut parts = List::new(alloc);
    match read_operand(alloc, text) {
        Ok((operand, rest)) => {
            parts.push(operand)?;
            let rest = more_operands(alloc, &mut parts, rest)?;
            Ok((parts, rest))
        }
        Err(ReadError::Unreadable) => Ok((parts, text)),
        Err(ReadError::NoMemory) => Err(NoMemory),
    }
}

/// Operands in parentheses at the front of a text, and what stands behind them.
pub fn read_operands(alloc: Global, text: &[u8]) -> Result<(List<Operand>, &[u8]), ReadError>
    ensures { Finds result (reading.operands_read text.now) }
{
    let Some(rest) = strip(text, "(") else {
        return Err(ReadError::Unreadable);
    };
    let (parts, rest) = operand_row(alloc, rest)?;
    let Some(rest) = strip(rest, ")") else {
        return Err(ReadError::Unreadable);
    };
    Ok((parts, rest))
}
