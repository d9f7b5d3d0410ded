//! The lines of structs and enums.
ghost use Rattle.std.specs.Prelude.{◌≡◌, IfOk};
ghost use Rattle.listing_parts.specs.Found.{seen};
ghost use Rattle.listing_parts.specs.Table.{AreRead};
ghost use Rattle.listing_lines.specs.ItemReading as reading;
ghost use Rattle.listing_lines.specs.ItemsRead.{FindsAdt, enum_of, struct_of};

use crate::item_names::adt_name;
use crate::variants::{make_variant, only, read_variants};
use listing_parts::{Heads, ReadError, plain_number, read_types, strip};
use mir_base::{List, Name, NoMemory};
use mir_ty::{Adt, Items, TyId, Variant};
use std::alloc::Global;

/// Whether ` copy` stands there, and what stands behind it.
fn copy_mark(text: &[u8]) -> (bool, &[u8])
    ensures { (result.0, result.1.now) ≡ reading.copy_read text.now }
{
    match strip(text, " copy") {
        Some(rest) => (true, rest),
        None => (false, text),
    }
}

/// The body of ` drop B`, where that stands there, and what stands behind it.
fn drop_mark(text: &[u8]) -> Option<(Option<u32>, &[u8])>
    ensures { seen result ≡ reading.drop_read text.now }
{
    match strip(text, " drop ") {
        Some(rest) => {
            let (body, rest) = plain_number(rest)?;
            Some((Some(body), rest))
        }
        None => Some((None, text)),
    }
}

/// What ends the line of a struct or enum.
fn marks(text: &[u8]) -> Option<((bool, Option<u32>), &[u8])>
    ensures { seen result ≡ reading.marks_read text.now }
{
    let (copy, rest) = copy_mark(text);
    let (body, rest) = drop_mark(rest)?;
    Some(((copy, body), strip(rest, "\n")?))
}

fn make_struct(
    alloc: Global,
    name: &str,
    fields: List<TyId>,
    copy: bool,
    drop_body: Option<u32>,
) -> Result<Adt, NoMemory>
    ensures { IfOk result (λ adt. adt ≡ struct_of name.now fields copy drop_body) }
{
    let variants = only(alloc, make_variant(alloc, name, fields)?)?;
    Ok(Adt {
        name: Name::from_str(alloc, name)?,
        is_enum: false,
        variants,
        copy,
        drop_body,
    })
}

fn make_enum(
    alloc: Global,
    name: &str,
    variants: List<Variant>,
    copy: bool,
    drop_body: Option<u32>,
) -> Result<Adt, NoMemory>
    ensures { IfOk result (λ adt. adt ≡ enum_of name.now variants copy drop_body) }
{
    Ok(Adt {
        name: Name::from_str(alloc, name)?,
        is_enum: true,
        variants,
        copy,
        drop_body,
    })
}

fn struct_behind<'a>(
    alloc: Global,
    heads: &Heads,
    items: &mut Items,
    name: &str,
    text: &'a [u8],
) -> Result<(Adt, &'a [u8]), ReadError>
    requires { AreRead heads.now items.old.types }
    ensures { FindsAdt heads.now items.old items.new result (reading.struct_from heads.now (name.now, text.now)) }
{
    match read_types(alloc, heads, items, text) {
        Ok((fields, rest)) => match marks(rest) {
            Some(((copy, body), rest)) => match make_struct(alloc, name, fields, copy, body) {
                Ok(adt) => Ok((adt, rest)),
                Err(NoMemory) => Err(ReadError::NoMemory),
            },
            None => Err(ReadError::Unreadable),
        },
        Err(error) => Err(error),
    }
}

fn enum_behind<'a>(
    alloc: Global,
    heads: &Heads,
    items: &mut Items,
    name: &str,
    text: &'a [u8],
) -> Result<(Adt, &'a [u8]), ReadError>
    requires { AreRead heads.now items.old.types }
    ensures { FindsAdt heads.now items.old items.new result (reading.enum_from heads.now (name.now, text.now)) }
{
    match read_variants(alloc, heads, items, text) {
        Ok((variants, rest)) => match marks(rest) {
            Some(((copy, body), rest)) => match make_enum(alloc, name, variants, copy, body) {
                Ok(adt) => Ok((adt, rest)),
                Err(NoMemory) => Err(ReadError::NoMemory),
            },
            None => Err(ReadError::Unreadable),
        },
        Err(error) => Err(error),
    }
}

/// A struct behind its word.
fn read_struct<'a>(
    alloc: Global,
    heads: &Heads,
    items: &mut Items,
    text: &'a [u8],
) -> Result<(Adt, &'a [u8]), ReadError>
    requires { AreRead heads.now items.old.types }
    ensures { FindsAdt heads.now items.old items.new result (reading.struct_read heads.now text.now) }
{
    match adt_name(text) {
        Some((name, rest)) => struct_behind(alloc, heads, items, name, rest),
        None => Err(ReadError::Unreadable),
    }
}

/// An enum behind its word.
fn read_enum<'a>(
    alloc: Global,
    heads: &Heads,
    items: &mut Items,
    text: &'a [u8],
) -> Result<(Adt, &'a [u8]), ReadError>
    requires { AreRead heads.now items.old.types }
    ensures { FindsAdt heads.now items.old items.new result (reading.enum_read heads.now text.now) }
{
    match adt_name(text) {
        Some((name, rest)) => enum_behind(alloc, heads, items, name, rest),
        None => Err(ReadError::Unreadable),
    }
}

/// The struct or enum whose line a text begins with, and what stands behind the line. Its fields have the names 0, 1 and
/// so on, and its types stand in the items, to which it is not added. `Unreadable` comes where the text does not begin
/// with such a line; the table of the types may have grown then too.
pub fn adt_line<'a>(
    alloc: Global,
    heads: &Heads,
    items: &mut Items,
    text: &'a [u8],
) -> Result<(Adt, &'a [u8]), ReadError>
    requires { AreRead heads.now items.old.types }
    ensures { FindsAdt heads.now items.old items.new result (reading.adt_read heads.now text.now) }
{
    match strip(text, "struct ") {
        Some(rest) => read_struct(alloc, heads, items, rest),
        None => match strip(text, "enum ") {
            Some(rest) => read_enum(alloc, heads, items, rest),
            None => Err(ReadError::Unreadable),
        },
    }
}
