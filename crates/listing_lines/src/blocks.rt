//! The blocks of a body.
ghost use Rattle.std.specs.Prelude.{◌≡◌, ◌∷◌, ◌++◌, [], IfOk};
ghost use Rattle.listing_write.specs.Reading.Rows.{many};
ghost use Rattle.listing_parts.specs.Found.{Finds};
ghost use Rattle.listing_lines.specs.CodeReading as reading;

use crate::block_line;
use crate::lines::{statement, terminator};
use cfg_graph::{Block, Kind, Stmt, Term};
use listing_parts::{Heads, ReadError};
use mir_base::{List, NoMemory};
use std::alloc::Global;

/// As many statements as there are. Each has a byte, so there are no more than bytes.
fn statements<'a>(
    alloc: Global,
    heads: &Heads,
    text: &'a [u8],
) -> Result<(List<Stmt>, &'a [u8]), NoMemory>
    ensures { IfOk result (λ found. (found.0, found.1.now) ≡ many (reading.statement_read heads.now) text.now) }
{
    let mut stmts = List::new(alloc);
    let mut rest = text;
    for _ in 0..text.len() {
        match statement(alloc, heads, rest) {
            Ok((stmt, behind)) => {
                stmts.push(stmt)?;
                rest = behind;
            }
            Err(ReadError::Unreadable) => return Ok((stmts, rest)),
            Err(ReadError::NoMemory) => return Err(NoMemory),
        }
    }
    Ok((stmts, rest))
}

/// The block of these statements, with the terminator that stands in front, and whether there is one.
fn close<'a>(
    alloc: Global,
    heads: &Heads,
    kind: Kind,
    rank: u32,
    stmts: List<Stmt>,
    text: &'a [u8],
) -> Result<((Block, bool), &'a [u8]), NoMemory>
    ensures { IfOk result (λ found. (found.0, found.1.now) ≡ reading.code_behind heads.now (kind, rank) (stmts, text.now)) }
{
    match terminator(alloc, heads, text) {
        Ok((term, rest)) => Ok((
            (
                Block {
                    kind,
                    rank,
                    stmts,
                    term,
                },
                true,
            ),
            rest,
        )),
        Err(ReadError::Unreadable) => Ok((
            (
                Block {
                    kind,
                    rank,
                    stmts,
                    term: Term::Return,
                },
                false,
            ),
            text,
        )),
        Err(ReadError::NoMemory) => Err(NoMemory),
    }
}

/// The block with number `n`, and whether its terminator was found.
fn block<'a>(
    alloc: Global,
    heads: &Heads,
    n: u32,
    text: &'a [u8],
) -> Result<((Block, bool), &'a [u8]), ReadError>
    ensures { Finds result (reading.code_read heads.now n text.now) }
{
    match block_line(n, text) {
        Some(((kind, rank), rest)) => {
            let (stmts, rest) = statements(alloc, heads, rest)?;
            Ok(close(alloc, heads, kind, rank, stmts, rest)?)
        }
        None => Err(ReadError::Unreadable),
    }
}

/// Whether the block that was added was whole.
fn push_block(blocks: &mut List<Block>, found: (Block, bool)) -> Result<bool, NoMemory>
    ensures { IfOk result (λ whole. (blocks.new ≡ blocks.old ++ found.0 ∷ []) × (whole ≡ found.1)) }
{
    let (block, whole) = found;
    blocks.push(block)?;
    Ok(whole)
}

/// As many blocks as there are, in the order of their numbers, up to one whose terminator cannot be read: that one is
/// closed by a `return`, and the answer beside the blocks is then `false`. Behind them stands what is left of the text.
pub fn read_blocks<'a>(
    alloc: Global,
    heads: &Heads,
    text: &'a [u8],
) -> Result<((List<Block>, bool), &'a [u8]), NoMemory>
    ensures { IfOk result (λ found. (found.0, found.1.now) ≡ reading.blocks_read heads.now text.now) }
{
    let mut blocks = List::new(alloc);
    let mut rest = text;
    for n in 0..text.len() {
        let Ok(number) = u32::try_from(n) else {
            return Err(NoMemory::past_32_bits());
        };
        match block(alloc, heads, number, rest) {
            Ok((found, behind)) => {
                let whole = push_block(&mut blocks, found)?;
                if !whole {
                    return Ok(((blocks, false), behind));
                }
                rest = behind;
            }
            Err(ReadError::Unreadable) => return Ok(((blocks, true), rest)),
            Err(ReadError::NoMemory) => return Err(NoMemory),
        }
    }
    Ok(((blocks, true), rest))
}
