//! Terminators.
ghost use Rattle.std.specs.Prelude.{◌≡◌};
ghost use Rattle.listing_write.specs.Reading.Lines as reading;
ghost use Rattle.listing_parts.specs.Found.{Finds, seen};
ghost use Rattle.listing_parts.specs.Numbers.{adt_no, trait_no};

use crate::operands::read_operand;
use crate::places::{place_behind, read_place};
use crate::statements::{numbered_operands, two_operands};
use crate::ways::{unwind, ways};
use crate::words::{name, number, strip};
use crate::{Heads, ReadError};
use cfg_graph::{Place, Term};
use mir_base::{Math, Why};
use std::alloc::Global;

fn math(text: &[u8]) -> Option<(Math, &[u8])>
    ensures { seen result ≡ reading.math_read text.now }
{
    if let Some(rest) = strip(text, "add ") {
        Some((Math::Add, rest))
    } else if let Some(rest) = strip(text, "sub ") {
        Some((Math::Sub, rest))
    } else if let Some(rest) = strip(text, "mul ") {
        Some((Math::Mul, rest))
    } else if let Some(rest) = strip(text, "div ") {
        Some((Math::Div, rest))
    } else {
        Some((Math::Rem, strip(text, "rem ")?))
    }
}

fn why(text: &[u8]) -> Option<(Why, &[u8])>
    ensures { seen result ≡ reading.why_read text.now }
{
    if let Some(rest) = strip(text, "explicit") {
        Some((Why::Explicit, rest))
    } else if let Some(rest) = strip(text, "overflow") {
        Some((Why::Overflow, rest))
    } else if let Some(rest) = strip(text, "divide") {
        Some((Why::Divide, rest))
    } else if let Some(rest) = strip(text, "index") {
        Some((Why::Index, rest))
    } else if let Some(rest) = strip(text, "ask") {
        Some((Why::Ask, rest))
    } else {
        Some((Why::Match, strip(text, "match")?))
    }
}

/// A blank and a number.
fn blank_number(text: &[u8]) -> Option<(u32, &[u8])>
    ensures { seen result ≡ reading.blank_number text.now }
{
    number(strip(text, " ")?)
}

/// Two numbers, each behind a blank.
fn two_numbers(text: &[u8]) -> Option<((u32, u32), &[u8])>
    ensures { seen result ≡ reading.two_numbers text.now }
{
    let (first, rest) = blank_number(text)?;
    let (second, rest) = blank_number(rest)?;
    Some(((first, second), rest))
}

fn read_math(alloc: Global, to: Place, op: Math, text: &[u8]) -> Result<(Term, &[u8]), ReadError>
    ensures { Finds result (reading.calculated to op text.now) }
{
    let ((left, right), rest) = two_operands(alloc, text)?;
    let Some(((then, unwind), rest)) = ways(rest) else {
        drop(left);
        drop(right);
        return Err(ReadError::Unreadable);
    };
    Ok((
        Term::Math {
            to,
            op,
            left,
            right,
            then,
            unwind,
        },
        rest,
    ))
}

fn read_negation(alloc: Global, to: Place, text: &[u8]) -> Result<(Term, &[u8]), ReadError>
    ensures { Finds result (reading.negated to text.now) }
{
    let (of, rest) = read_operand(alloc, text)?;
    let Some(((then, unwind), rest)) = ways(rest) else {
        drop(of);
        return Err(ReadError::Unreadable);
    };
    Ok((
        Term::Negate {
            to,
            of,
            then,
            unwind,
        },
        rest,
    ))
}

fn call(alloc: Global, to: Place, text: &[u8]) -> Result<(Term, &[u8]), ReadError>
    ensures { Finds result (reading.call_read to text.now) }
{
    let ((body, args), rest) = numbered_operands(alloc, text)?;
    let Some(((then, unwind), rest)) = ways(rest) else {
        return Err(ReadError::Unreadable);
    };
    Ok((
        Term::Call {
            to,
            body,
            args,
            then,
            unwind,
        },
        rest,
    ))
}

fn virtual_call<'a>(
    alloc: Global,
    heads: &Heads,
    to: Place,
    text: &'a [u8],
) -> Result<(Term, &'a [u8]), ReadError>
    ensures { Finds result (reading.virtual_read (adt_no heads.now) (trait_no heads.now) to text.now) }
{
    let (name, rest) = name(text);
    let Some(rest) = strip(rest, " ") else {
        return Err(ReadError::Unreadable);
    };
    let ((method, args), rest) = numbered_operands(alloc, rest)?;
    let Some(((then, unwind), rest)) = ways(rest) else {
        return Err(ReadError::Unreadable);
    };
    let trait_no = heads.trait_number(name);
    Ok((
        Term::Virtual {
            to,
            trait_no,
            method,
            args,
            then,
            unwind,
        },
        rest,
    ))
}

fn ask(to: Place, text: &[u8]) -> Option<(Term, &[u8])>
    ensures { seen result ≡ reading.ask_read to text.now }
{
    let ((then, unwind), rest) = ways(text)?;
    Some((Term::Ask { to, then, unwind }, rest))
}

/// What a call stores.
fn read_call<'a>(
    alloc: Global,
    heads: &Heads,
    to: Place,
    text: &'a [u8],
) -> Result<(Term, &'a [u8]), ReadError>
    ensures { Finds result (reading.called (adt_no heads.now) (trait_no heads.now) to text.now) }
{
    if let Some(rest) = strip(text, "call ") {
        return call(alloc, to, rest);
    }
    if let Some(rest) = strip(text, "virtual ") {
        return virtual_call(alloc, heads, to, rest);
    }
    let Some(rest) = strip(text, "ask") else {
        return Err(ReadError::Unreadable);
    };
    ask(to, rest).ok_or(ReadError::Unreadable)
}

/// What may panic and stores a result.
fn read_result<'a>(
    alloc: Global,
    heads: &Heads,
    to: Place,
    text: &'a [u8],
) -> Result<(Term, &'a [u8]), ReadError>
    ensures { Finds result (reading.returned (adt_no heads.now) (trait_no heads.now) to text.now) }
{
    if let Some((op, rest)) = math(text) {
        return read_math(alloc, to, op, rest);
    }
    match strip(text, "neg ") {
        Some(rest) => read_negation(alloc, to, rest),
        None => read_call(alloc, heads, to, text),
    }
}

fn if_read(alloc: Global, text: &[u8]) -> Result<(Term, &[u8]), ReadError>
    ensures { Finds result (reading.if_read text.now) }
{
    let (on, rest) = read_operand(alloc, text)?;
    let Some(((yes, no), rest)) = two_numbers(rest) else {
        drop(on);
        return Err(ReadError::Unreadable);
    };
    Ok((Term::If { on, yes, no }, rest))
}

fn case(alloc: Global, text: &[u8]) -> Result<(Term, &[u8]), ReadError>
    ensures { Finds result (reading.case_read text.now) }
{
    let (on, rest) = read_place(alloc, text)?;
    let Some((variant, rest)) = blank_number(rest) else {
        return Err(ReadError::Unreadable);
    };
    let Some(((yes, no), rest)) = two_numbers(rest) else {
        return Err(ReadError::Unreadable);
    };
    Ok((
        Term::Case {
            on,
            variant,
            yes,
            no,
        },
        rest,
    ))
}

fn bounds(alloc: Global, text: &[u8]) -> Result<(Term, &[u8]), ReadError>
    ensures { Finds result (reading.bounds_read text.now) }
{
    let (index, rest) = read_operand(alloc, text)?;
    let Some((length, rest)) = blank_number(rest) else {
        drop(index);
        return Err(ReadError::Unreadable);
    };
    let Some(((then, unwind), rest)) = ways(rest) else {
        drop(index);
        return Err(ReadError::Unreadable);
    };
    Ok((
        Term::Bounds {
            index,
            length,
            then,
            unwind,
        },
        rest,
    ))
}

fn drop_at(alloc: Global, text: &[u8]) -> Result<(Term, &[u8]), ReadError>
    ensures { Finds result (reading.drop_read text.now) }
{
    let (place, rest) = read_place(alloc, text)?;
    let Some(((then, unwind), rest)) = ways(rest) else {
        return Err(ReadError::Unreadable);
    };
    Ok((
        Term::DropAt {
            place,
            then,
            unwind,
        },
        rest,
    ))
}

fn panic(text: &[u8]) -> Option<(Term, &[u8])>
    ensures { seen result ≡ reading.panic_read text.now }
{
    let (why, rest) = why(text)?;
    let (unwind, rest) = unwind(strip(rest, " unwind ")?)?;
    Some((Term::Panic { why, unwind }, rest))
}

/// Where a body ends, or goes on in a block.
fn leaving(text: &[u8]) -> Option<(Term, &[u8])>
    ensures { seen result ≡ reading.leaving text.now }
{
    if let Some(rest) = strip(text, "goto ") {
        let (block, rest) = number(rest)?;
        return Some((Term::Goto(block), rest));
    }
    if let Some(rest) = strip(text, "panic ") {
        return panic(rest);
    }
    if let Some(rest) = strip(text, "return") {
        return Some((Term::Return, rest));
    }
    let rest = strip(text, "resume")?;
    Some((Term::Resume, rest))
}

/// A terminator that stores no result.
fn without_result(alloc: Global, text: &[u8]) -> Result<(Term, &[u8]), ReadError>
    ensures { Finds result (reading.without_result text.now) }
{
    if let Some(rest) = strip(text, "if ") {
        return if_read(alloc, rest);
    }
    if let Some(rest) = strip(text, "case ") {
        return case(alloc, rest);
    }
    if let Some(rest) = strip(text, "bounds ") {
        return bounds(alloc, rest);
    }
    match strip(text, "drop ") {
        Some(rest) => drop_at(alloc, rest),
        None => leaving(text).ok_or(ReadError::Unreadable),
    }
}

/// A terminator at the front of a text, and what stands behind it. A name that no trait of the heads has is read as the
/// number of them.
pub fn read_term<'a>(
    alloc: Global,
    heads: &Heads,
    text: &'a [u8],
) -> Result<(Term, &'a [u8]), ReadError>
    ensures { Finds result (reading.term_read (adt_no heads.now) (trait_no heads.now) text.now) }
{
    match strip(text, "_") {
        Some(rest) => {
            let (to, rest) = place_behind(alloc, rest)?;
            let Some(rest) = strip(rest, " = ") else {
                return Err(ReadError::Unreadable);
            };
            read_result(alloc, heads, to, rest)
        }
        None => without_result(alloc, text),
    }
}
