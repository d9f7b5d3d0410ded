//! Statements.
ghost use Rattle.std.specs.Prelude.{◌≡◌, map};
ghost use Rattle.listing_write.specs.Reading.Lines as reading;
ghost use Rattle.listing_parts.specs.Found.{Finds, seen};
ghost use Rattle.listing_parts.specs.Numbers.{adt_no, trait_no};

use crate::operands::{read_operand, read_operands};
use crate::places::{place_behind, read_place};
use crate::words::{name, number, strip};
use crate::{Heads, ReadError};
use cfg_graph::{Operand, Place, Stmt};
use mir_base::{Cmp, List};
use std::alloc::Global;

fn comparison(text: &[u8]) -> Option<(Cmp, &[u8])>
    ensures { seen result ≡ reading.comparison_read text.now }
{
    if let Some(rest) = strip(text, "eq ") {
        Some((Cmp::Eq, rest))
    } else if let Some(rest) = strip(text, "ne ") {
        Some((Cmp::Ne, rest))
    } else if let Some(rest) = strip(text, "lt ") {
        Some((Cmp::Lt, rest))
    } else if let Some(rest) = strip(text, "le ") {
        Some((Cmp::Le, rest))
    } else if let Some(rest) = strip(text, "gt ") {
        Some((Cmp::Gt, rest))
    } else {
        Some((Cmp::Ge, strip(text, "ge ")?))
    }
}

/// Two operands with a blank between them.
pub fn two_operands(alloc: Global, text: &[u8]) -> Result<((Operand, Operand), &[u8]), ReadError>
    ensures { Finds result (reading.two_operands text.now) }
{
    let (left, rest) = read_operand(alloc, text)?;
    let Some(rest) = strip(rest, " ") else {
        drop(left);
        return Err(ReadError::Unreadable);
    };
    match read_operand(alloc, rest) {
        Ok((right, rest)) => Ok(((left, right), rest)),
        Err(error) => {
            drop(left);
            Err(error)
        }
    }
}

/// A number, a blank and operands.
pub fn numbered_operands(
    alloc: Global,
    text: &[u8],
) -> Result<((u32, List<Operand>), &[u8]), ReadError>
    ensures { Finds result (reading.numbered_operands text.now) }
{
    let Some((n, rest)) = number(text) else {
        return Err(ReadError::Unreadable);
    };
    let Some(rest) = strip(rest, " ") else {
        return Err(ReadError::Unreadable);
    };
    let (parts, rest) = read_operands(alloc, rest)?;
    Ok(((n, parts), rest))
}

fn make<'a>(
    alloc: Global,
    heads: &Heads,
    to: Place,
    text: &'a [u8],
) -> Result<(Stmt, &'a [u8]), ReadError>
    ensures { Finds result (reading.make_read (adt_no heads.now) (trait_no heads.now) to text.now) }
{
    let (name, rest) = name(text);
    let Some(rest) = strip(rest, " ") else {
        return Err(ReadError::Unreadable);
    };
    let ((variant, parts), rest) = numbered_operands(alloc, rest)?;
    let adt = heads.adt_number(name);
    Ok((
        Stmt::Make {
            to,
            adt,
            variant,
            parts,
        },
        rest,
    ))
}

fn unsize<'a>(
    alloc: Global,
    heads: &Heads,
    to: Place,
    text: &'a [u8],
) -> Result<(Stmt, &'a [u8]), ReadError>
    ensures { Finds result (reading.unsize_read (adt_no heads.now) (trait_no heads.now) to text.now) }
{
    let (name, rest) = name(text);
    let Some(rest) = strip(rest, " ") else {
        return Err(ReadError::Unreadable);
    };
    let (from, rest) = read_operand(alloc, rest)?;
    let trait_no = heads.trait_number(name);
    Ok((Stmt::Unsize { to, trait_no, from }, rest))
}

/// A reference, or an operand.
fn read_borrow(alloc: Global, to: Place, text: &[u8]) -> Result<(Stmt, &[u8]), ReadError>
    ensures { Finds result (reading.borrowed to text.now) }
{
    if let Some(rest) = strip(text, "&mut ") {
        let (of, rest) = read_place(alloc, rest)?;
        return Ok((
            Stmt::Borrow {
                to,
                unique: true,
                of,
            },
            rest,
        ));
    }
    if let Some(rest) = strip(text, "& ") {
        let (of, rest) = read_place(alloc, rest)?;
        return Ok((
            Stmt::Borrow {
                to,
                unique: false,
                of,
            },
            rest,
        ));
    }
    let (from, rest) = read_operand(alloc, text)?;
    Ok((Stmt::Put(to, from), rest))
}

/// What is made of one operand.
fn of_one<'a>(
    alloc: Global,
    heads: &Heads,
    to: Place,
    text: &'a [u8],
) -> Result<(Stmt, &'a [u8]), ReadError>
    ensures { Finds result (reading.of_one (adt_no heads.now) (trait_no heads.now) to text.now) }
{
    if let Some(rest) = strip(text, "not ") {
        let (operand, rest) = read_operand(alloc, rest)?;
        return Ok((Stmt::Not(to, operand), rest));
    }
    if let Some(rest) = strip(text, "box ") {
        let (operand, rest) = read_operand(alloc, rest)?;
        return Ok((Stmt::NewBox(to, operand), rest));
    }
    match strip(text, "unsize ") {
        Some(rest) => unsize(alloc, heads, to, rest),
        None => read_borrow(alloc, to, text),
    }
}

/// What is made of parts.
fn of_parts<'a>(
    alloc: Global,
    heads: &Heads,
    to: Place,
    text: &'a [u8],
) -> Result<(Stmt, &'a [u8]), ReadError>
    ensures { Finds result (reading.of_parts (adt_no heads.now) (trait_no heads.now) to text.now) }
{
    if let Some(rest) = strip(text, "tuple ") {
        let (parts, rest) = read_operands(alloc, rest)?;
        return Ok((Stmt::Tuple(to, parts), rest));
    }
    if let Some(rest) = strip(text, "array ") {
        let (parts, rest) = read_operands(alloc, rest)?;
        return Ok((Stmt::Array(to, parts), rest));
    }
    if let Some(rest) = strip(text, "close ") {
        let ((closure, parts), rest) = numbered_operands(alloc, rest)?;
        return Ok((Stmt::Close { to, closure, parts }, rest));
    }
    match strip(text, "make ") {
        Some(rest) => make(alloc, heads, to, rest),
        None => of_one(alloc, heads, to, text),
    }
}

/// What is stored at a place.
fn read_rvalue<'a>(
    alloc: Global,
    heads: &Heads,
    to: Place,
    text: &'a [u8],
) -> Result<(Stmt, &'a [u8]), ReadError>
    ensures { Finds result (reading.assigned (adt_no heads.now) (trait_no heads.now) to text.now) }
{
    match comparison(text) {
        Some((op, rest)) => {
            let ((left, right), rest) = two_operands(alloc, rest)?;
            Ok((Stmt::Compare(to, op, left, right), rest))
        }
        None => of_parts(alloc, heads, to, text),
    }
}

/// A statement that stores nothing.
fn without_place(alloc: Global, text: &[u8]) -> Result<(Stmt, &[u8]), ReadError>
    ensures { Finds result (reading.without_place text.now) }
{
    if let Some(rest) = strip(text, "touch ") {
        let (place, rest) = read_place(alloc, rest)?;
        return Ok((Stmt::Touch(place), rest));
    }
    if let Some(rest) = strip(text, "print ") {
        let (operand, rest) = read_operand(alloc, rest)?;
        return Ok((Stmt::Print(operand), rest));
    }
    if let Some(rest) = strip(text, "forget ") {
        let (operand, rest) = read_operand(alloc, rest)?;
        return Ok((Stmt::Forget(operand), rest));
    }
    let Some(rest) = strip(text, "free ") else {
        return Err(ReadError::Unreadable);
    };
    let (place, rest) = read_place(alloc, rest)?;
    Ok((Stmt::Free(place), rest))
}

/// A statement at the front of a text, and what stands behind it. A name that no struct, enum or trait of the heads has
/// is read as the number of them.
pub fn read_stmt<'a>(
    alloc: Global,
    heads: &Heads,
    text: &'a [u8],
) -> Result<(Stmt, &'a [u8]), ReadError>
    ensures { Finds result (reading.stmt_read (adt_no heads.now) (trait_no heads.now) text.now) }
{
    match strip(text, "_") {
        Some(rest) => {
            let (to, rest) = place_behind(alloc, rest)?;
            let Some(rest) = strip(rest, " = ") else {
                return Err(ReadError::Unreadable);
            };
            read_rvalue(alloc, heads, to, rest)
        }
        None => without_place(alloc, text),
    }
}
