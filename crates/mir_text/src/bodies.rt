//! The locals of a body, and the whole of it.
ghost use Rattle.std.specs.Prelude.{◌≡◌, ◌∷◌, ◌++◌, [], OnOk, length};
ghost use Rattle.mir_ty.specs.AreItems.{IsSig};
ghost use Rattle.mir_ty.specs.ItemTable.{with_body};
ghost use Rattle.listing_parts.specs.Table.{AreRead};
ghost use Rattle.mir_text.specs.BodyReading as reading;
ghost use Rattle.mir_text.specs.BodiesRead.{AddsBody, BodiesDrafted, FindsBodies, FindsBody, FindsLocals};
ghost use Rattle.mir_text.specs.SectionsRead.{Drafted};

use crate::signatures::signature;
use cfg_graph::Body;
use listing_lines::{body_line, local_line, read_blocks};
use listing_parts::{Heads, ReadError};
use mir_base::{List, NoMemory};
use mir_ty::{Items, Sig, TyId};
use std::alloc::Global;

/// As many locals as there are, in the order of their numbers.
fn read_locals<'a>(
    alloc: Global,
    heads: &Heads,
    items: &mut Items,
    text: &'a [u8],
) -> Result<(List<TyId>, &'a [u8]), NoMemory>
    requires { AreRead heads.now items.old.types }
    ensures { FindsLocals heads.now items.old items.new result (reading.locals_read heads.now text.now) }
{
    let mut locals = List::new(alloc);
    let mut rest = text;
    for n in 0..text.len() {
        let Ok(number) = u32::try_from(n) else {
            return Err(NoMemory::past_32_bits());
        };
        match local_line(alloc, heads, items, number, rest) {
            Ok((id, behind)) => {
                locals.push(id)?;
                rest = behind;
            }
            Err(ReadError::Unreadable) => return Ok((locals, rest)),
            Err(ReadError::NoMemory) => return Err(NoMemory),
        }
    }
    Ok((locals, rest))
}

/// The name of the body with number `n` and the body, whether its last block was whole, and what stands behind it.
/// `Unreadable` comes where the text does not begin with the line of that body.
fn read_body<'a>(
    alloc: Global,
    heads: &Heads,
    items: &mut Items,
    n: u32,
    text: &'a [u8],
) -> Result<(((&'a str, Body), bool), &'a [u8]), ReadError>
    requires { AreRead heads.now items.old.types }
    ensures { FindsBody heads.now items.old items.new result (reading.body_read heads.now n text.now) }
{
    match body_line(n, text) {
        Some(((name, params), rest)) => match read_locals(alloc, heads, items, rest) {
            Ok((locals, rest)) => match read_blocks(alloc, heads, rest) {
                Ok(((blocks, whole), rest)) => Ok((
                    (
                        (
                            name,
                            Body {
                                params,
                                locals,
                                blocks,
                            },
                        ),
                        whole,
                    ),
                    rest,
                )),
                Err(NoMemory) => Err(ReadError::NoMemory),
            },
            Err(NoMemory) => Err(ReadError::NoMemory),
        },
        None => Err(ReadError::Unreadable),
    }
}

/// Adds a body with its signature.
fn push_body(
    items: &mut Items,
    bodies: &mut List<Body>,
    sig: Sig,
    body: Body,
) -> Result<(), NoMemory>
    requires { IsSig items.old.types sig }
    ensures signed { OnOk result (items.new ≡ with_body items.old sig) }
    ensures pushed { OnOk result (bodies.new ≡ bodies.old ++ body ∷ []) }
{
    items.add_body(sig)?;
    bodies.push(body)
}

/// Adds the body with number `n`, and answers whether its last block was whole, and what stands behind it.
fn add_body<'a>(
    alloc: Global,
    heads: &Heads,
    items: &mut Items,
    bodies: &mut List<Body>,
    n: u32,
    text: &'a [u8],
) -> Result<(bool, &'a [u8]), ReadError>
    requires { BodiesDrafted heads.now items.old bodies.old }
    ensures { AddsBody heads.now items.old items.new bodies.old bodies.new result (reading.body_read heads.now n text.now) }
{
    match read_body(alloc, heads, items, n, text) {
        Ok((((name, body), whole), rest)) => match signature(alloc, heads, items, name, &body) {
            Ok(sig) => match push_body(items, bodies, sig, body) {
                Ok(()) => Ok((whole, rest)),
                Err(NoMemory) => Err(ReadError::NoMemory),
            },
            Err(NoMemory) => Err(ReadError::NoMemory),
        },
        Err(error) => Err(error),
    }
}

/// The bodies that stand in front, in the order of their numbers, up to one whose last block is broken off: the answer
/// beside them is then `false`. Their signatures are those that their locals tell. Behind them stands what is left of the
/// text. Before the call there are no bodies.
pub fn read_bodies<'a>(
    alloc: Global,
    heads: &Heads,
    items: &mut Items,
    text: &'a [u8],
) -> Result<((List<Body>, bool), &'a [u8]), NoMemory>
    requires drafted { Drafted heads.now items.old }
    requires none { items.old.bodies ≡ [] }
    ensures { FindsBodies heads.now items.old items.new result (reading.bodies_read heads.now text.now) }
{
    let mut bodies = List::new(alloc);
    let mut rest = text;
    for n in 0..text.len() {
        let Ok(number) = u32::try_from(n) else {
            return Err(NoMemory::past_32_bits());
        };
        match add_body(alloc, heads, items, &mut bodies, number, rest) {
            Ok((whole, behind)) => {
                rest = behind;
                if !whole {
                    return Ok(((bodies, false), rest));
                }
            }
            Err(ReadError::Unreadable) => return Ok(((bodies, true), rest)),
            Err(ReadError::NoMemory) => return Err(NoMemory),
        }
    }
    Ok(((bodies, true), rest))
}
