//! The line of a text at a place, with a mark below the place.
ghost use Rattle.std.specs.Prelude.{◌≡◌, ◌++◌, ◌-◌, ◌<◌, OnOk, IfOk, IfSome, length, take};
ghost use Rattle.std.specs.List.{position};
ghost use Rattle.std.specs.Fmt.{decimal};
ghost use Rattle.look_lines.specs.Snippets as snippets;

use crate::texts::{put, put_line_feed, put_number};
use mir_base::{NoMemory, Pos};
use std::alloc::Global;

fn is_feed(byte: u8) -> bool
    ensures { result ≡ snippets.is_feed byte }
{
    byte == 10
}

/// Where the first line of a text ends.
fn line_end(text: &[u8]) -> Option<usize>
    ensures end { result ≡ position snippets.is_feed text.now }
    ensures within { IfSome result (λ end. end < length text.now) }
{
    text.iter().position(|byte| is_feed(*byte))
}

/// The first line of a text.
pub fn first_line(text: &[u8]) -> &[u8]
    ensures { result.now ≡ snippets.first_line text.now }
{
    match line_end(text) {
        Some(end) => &text[..end],
        None => text,
    }
}

/// The text behind its first line.
pub fn behind_line(text: &[u8]) -> &[u8]
    ensures { result.now ≡ snippets.behind_line text.now }
{
    match line_end(text) {
        Some(end) => &text[end + 1..],
        None => &[],
    }
}

/// The text behind so many lines.
fn behind_lines(text: &[u8], count: u32) -> &[u8]
    ensures { result.now ≡ snippets.behind_lines count text.now }
{
    let mut rest = text;
    let mut passed = 0;
    while passed < count {
        rest = behind_line(rest);
        passed += 1;
    }
    rest
}

/// The line with a number, the first of which is 1; a text that has no such line has an empty one there.
pub fn line_of(text: &[u8], number: u32) -> &[u8]
    ensures { result.now ≡ snippets.line_of number text.now }
{
    first_line(behind_lines(text, number.saturating_sub(1)))
}

fn goes_on(byte: u8) -> bool
    ensures { result ≡ snippets.goes_on byte }
{
    128 <= byte && byte < 192
}

/// Puts what stands below a byte.
fn put_below_byte(out: &mut Vec<u8>, byte: u8) -> Result<(), NoMemory>
    ensures { OnOk result (out.new.items ≡ out.old.items ++ snippets.below_byte byte) }
{
    if goes_on(byte) {
        Ok(())
    } else if byte == 9 {
        put(out, b"\t")
    } else {
        put(out, b" ")
    }
}

/// What stands below bytes, so that a mark comes below a character: a tab below a tab, a blank below any other.
fn below(alloc: Global, bytes: &[u8]) -> Result<Vec<u8>, NoMemory>
    ensures { IfOk result (λ blanks. blanks.items ≡ snippets.below bytes.now) }
{
    let mut blanks = Vec::new(alloc);
    for byte in bytes {
        put_below_byte(&mut blanks, *byte)?;
    }
    Ok(blanks)
}

/// The first bytes, as many as there are.
fn first_bytes(bytes: &[u8], count: usize) -> &[u8]
    ensures { result.now ≡ take count bytes.now }
{
    if count < bytes.len() {
        &bytes[..count]
    } else {
        bytes
    }
}

/// Puts a line with its number before it.
///
/// # Errors
///
/// [`NoMemory`] where memory is wanted.
pub fn put_numbered_line(
    alloc: Global,
    out: &mut Vec<u8>,
    number: u32,
    line: &[u8],
) -> Result<(), NoMemory>
    ensures { OnOk result (out.new.items ≡ out.old.items ++ snippets.numbered_line number line.now) }
{
    put_number(alloc, out, number)?;
    put(out, b" | ")?;
    put(out, line)?;
    put_line_feed(out)
}

/// Puts the blanks below the number of a line.
fn put_below_number(alloc: Global, out: &mut Vec<u8>, number: u32) -> Result<(), NoMemory>
    ensures { OnOk result (out.new.items ≡ out.old.items ++ snippets.below (decimal number)) }
{
    let mut digits = Vec::new(alloc);
    put_number(alloc, &mut digits, number)?;
    let blanks = below(alloc, digits.as_slice())?;
    put(out, blanks.as_slice())
}

/// Puts the blanks below the characters of a line that stand before a column.
fn put_below_line(alloc: Global, out: &mut Vec<u8>, line: &[u8], col: u32) -> Result<(), NoMemory>
    ensures { OnOk result (out.new.items ≡ out.old.items ++ take (col - 1) (snippets.below line.now)) }
{
    let blanks = below(alloc, line)?;
    put(
        out,
        first_bytes(blanks.as_slice(), col.saturating_sub(1) as usize),
    )
}

/// Puts the line with the mark below a place of a line.
fn put_mark_line(alloc: Global, out: &mut Vec<u8>, line: &[u8], at: Pos) -> Result<(), NoMemory>
    ensures { OnOk result (out.new.items ≡ out.old.items ++ snippets.mark_below line.now at) }
{
    put_below_number(alloc, out, at.line)?;
    put(out, b" | ")?;
    put_below_line(alloc, out, line, at.col)?;
    put(out, b"^\n")
}

/// Puts the line of a place, and a mark below the place.
///
/// # Errors
///
/// [`NoMemory`] where memory is wanted.
pub fn put_snippet(alloc: Global, out: &mut Vec<u8>, text: &[u8], at: Pos) -> Result<(), NoMemory>
    ensures { OnOk result (out.new.items ≡ out.old.items ++ snippets.snippet text.now at) }
{
    let line = line_of(text, at.line);
    put_numbered_line(alloc, out, at.line, line)?;
    put_mark_line(alloc, out, line, at)
}
