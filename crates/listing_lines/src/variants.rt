//! Variants of enums.
ghost use Rattle.std.specs.Prelude.{◌≡◌, [], ◌∷◌, All, IfOk};
ghost use Rattle.listing_write.specs.Compared.{variant_seen};
ghost use Rattle.mir_ty.specs.AreItems.{IsVariant};
ghost use Rattle.listing_write.specs.Reading.Rows.{comma, many};
ghost use Rattle.listing_parts.specs.Table.{AreRead, under};
ghost use Rattle.listing_lines.specs.ItemReading as reading;
ghost use Rattle.listing_lines.specs.ItemsRead.{FindsMore, FindsVariant, FindsVariants, variant_of};

use crate::item_names::{blank_name, field_names};
use listing_parts::{Heads, ReadError, read_types, strip};
use mir_base::{List, Name, NoMemory};
use mir_ty::{Items, TyId, Variant};
use std::alloc::Global;

/// A variant whose fields have the names 0, 1 and so on.
pub fn make_variant(alloc: Global, name: &str, fields: List<TyId>) -> Result<Variant, NoMemory>
    ensures { IfOk result (λ variant. variant ≡ variant_of name.now fields) }
{
    let name = Name::from_str(alloc, name)?;
    let field_names = field_names(alloc, fields.len())?;
    Ok(Variant {
        name,
        fields,
        field_names,
    })
}

fn variant<'a>(
    alloc: Global,
    heads: &Heads,
    items: &mut Items,
    text: &'a [u8],
) -> Result<(Variant, &'a [u8]), ReadError>
    requires { AreRead heads.now items.old.types }
    ensures { FindsVariant heads.now items.old items.new result (reading.variant_read heads.now text.now) }
{
    match blank_name(text) {
        Some((name, rest)) => match read_types(alloc, heads, items, rest) {
            Ok((fields, rest)) => match make_variant(alloc, name, fields) {
                Ok(variant) => Ok((variant, rest)),
                Err(NoMemory) => Err(ReadError::NoMemory),
            },
            Err(error) => Err(error),
        },
        None => Err(ReadError::Unreadable),
    }
}

fn variant_behind_comma<'a>(
    alloc: Global,
    heads: &Heads,
    items: &mut Items,
    text: &'a [u8],
) -> Result<(Variant, &'a [u8]), ReadError>
    requires { AreRead heads.now items.old.types }
    ensures { FindsVariant heads.now items.old items.new result (comma (reading.variant_read heads.now) text.now) }
{
    match strip(text, ", ") {
        Some(rest) => variant(alloc, heads, items, rest),
        None => Err(ReadError::Unreadable),
    }
}

/// As many variants as there are behind commas. Each has a byte, so there are no more than bytes.
fn more_variants<'a>(
    alloc: Global,
    heads: &Heads,
    items: &mut Items,
    variants: &mut List<Variant>,
    text: &'a [u8],
) -> Result<&'a [u8], NoMemory>
    requires read { AreRead heads.now items.old.types }
    requires within { All (IsVariant items.old.types) variants.old }
    ensures { FindsMore heads.now items.old items.new variants.old variants.new result (many (comma (reading.variant_read heads.now)) text.now) }
{
    let mut rest = text;
    for _ in 0..text.len() {
        match variant_behind_comma(alloc, heads, items, rest) {
            Ok((variant, behind)) => {
                variants.push(variant)?;
                rest = behind;
            }
            Err(ReadError::Unreadable) => return Ok(rest),
            Err(ReadError::NoMemory) => return Err(NoMemory),
        }
    }
    Ok(rest)
}

/// A list of one variant.
pub fn only(alloc: Global, variant: Variant) -> Result<List<Variant>, NoMemory>
    ensures { IfOk result (λ variants. variants ≡ variant ∷ []) }
{
    let mut variants = List::new(alloc);
    variants.push(variant)?;
    Ok(variants)
}

/// What stands behind the first variant.
fn with_more<'a>(
    alloc: Global,
    heads: &Heads,
    items: &mut Items,
    first: Variant,
    text: &'a [u8],
) -> Result<(List<Variant>, &'a [u8]), ReadError>
    requires read { AreRead heads.now items.old.types }
    requires within { IsVariant items.old.types first }
    ensures { FindsVariants heads.now items.old items.new result (reading.with_more heads.now (variant_seen (under heads.now items.old) first, text.now)) }
{
    match only(alloc, first) {
        Ok(mut variants) => match more_variants(alloc, heads, items, &mut variants, text) {
            Ok(rest) => Ok((variants, rest)),
            Err(NoMemory) => Err(ReadError::NoMemory),
        },
        Err(NoMemory) => Err(ReadError::NoMemory),
    }
}

/// One variant, and as many as stand behind commas.
fn some_variants<'a>(
    alloc: Global,
    heads: &Heads,
    items: &mut Items,
    text: &'a [u8],
) -> Result<(List<Variant>, &'a [u8]), ReadError>
    requires { AreRead heads.now items.old.types }
    ensures { FindsVariants heads.now items.old items.new result (reading.some_variants heads.now text.now) }
{
    match variant(alloc, heads, items, text) {
        Ok((first, rest)) => with_more(alloc, heads, items, first, rest),
        Err(error) => Err(error),
    }
}

fn variants_behind<'a>(
    alloc: Global,
    heads: &Heads,
    items: &mut Items,
    text: &'a [u8],
) -> Result<(List<Variant>, &'a [u8]), ReadError>
    requires { AreRead heads.now items.old.types }
    ensures { FindsVariants heads.now items.old items.new result (reading.variants_behind heads.now text.now) }
{
    match some_variants(alloc, heads, items, text) {
        Ok((variants, rest)) => match strip(rest, " }") {
            Some(rest) => Ok((variants, rest)),
            None => Err(ReadError::Unreadable),
        },
        Err(error) => Err(error),
    }
}

/// Variants in braces, maybe none.
pub fn read_variants<'a>(
    alloc: Global,
    heads: &Heads,
    items: &mut Items,
    text: &'a [u8],
) -> Result<(List<Variant>, &'a [u8]), ReadError>
    requires { AreRead heads.now items.old.types }
    ensures { FindsVariants heads.now items.old items.new result (reading.variants_read heads.now text.now) }
{
    match strip(text, "{ }") {
        Some(rest) => Ok((List::new(alloc), rest)),
        None => match strip(text, "{ ") {
            Some(rest) => variants_behind(alloc, heads, items, rest),
            None => Err(ReadError::Unreadable),
        },
    }
}
