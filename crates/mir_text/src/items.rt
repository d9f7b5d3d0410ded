//! The sections of structs and enums, traits, impls and closures.
ghost use Rattle.std.specs.Prelude.{◌≡◌, length, [], Some, None};
ghost use Rattle.mir_text.specs.SectionReading as reading;
ghost use Rattle.mir_text.specs.SectionsRead.{Drafted, FindsItem, FindsSection, items_seen};

use listing_lines::{adt_line, closure_line, impl_line, trait_line};
use listing_parts::{Heads, ReadError};
use mir_base::NoMemory;
use mir_ty::Items;
use std::alloc::Global;

/// Adds a struct or enum whose line stands in front.
fn add_adt<'a>(
    alloc: Global,
    heads: &Heads,
    items: &mut Items,
    text: &'a [u8],
) -> Result<&'a [u8], ReadError>
    requires { Drafted heads.now items.old }
    ensures { FindsItem heads.now items.old items.new result (reading.one_adt heads.now (items_seen heads.now items.old) text.now) }
{
    match adt_line(alloc, heads, items, text) {
        Ok((adt, rest)) => match items.add_adt(adt) {
            Ok(_) => Ok(rest),
            Err(NoMemory) => Err(ReadError::NoMemory),
        },
        Err(error) => Err(error),
    }
}

/// Adds the trait with number `n` whose line stands in front.
fn add_trait<'a>(
    alloc: Global,
    heads: &Heads,
    items: &mut Items,
    n: u32,
    text: &'a [u8],
) -> Result<&'a [u8], ReadError>
    requires drafted { Drafted heads.now items.old }
    requires due { n ≡ length items.old.traits }
    ensures { FindsItem heads.now items.old items.new result (reading.one_trait heads.now (items_seen heads.now items.old) text.now) }
{
    match trait_line(alloc, heads, items, n, text) {
        Ok((def, rest)) => match items.add_trait(def) {
            Ok(_) => Ok(rest),
            Err(NoMemory) => Err(ReadError::NoMemory),
        },
        Err(error) => Err(error),
    }
}

/// Adds an impl whose line stands in front.
fn add_impl<'a>(
    alloc: Global,
    heads: &Heads,
    items: &mut Items,
    text: &'a [u8],
) -> Result<&'a [u8], ReadError>
    requires { Drafted heads.now items.old }
    ensures { FindsItem heads.now items.old items.new result (reading.one_impl heads.now (items_seen heads.now items.old) text.now) }
{
    match impl_line(alloc, heads, text) {
        Ok((def, rest)) => match items.add_impl(def) {
            Ok(_) => Ok(rest),
            Err(NoMemory) => Err(ReadError::NoMemory),
        },
        Err(error) => Err(error),
    }
}

/// Adds the closure with number `n` whose line stands in front.
fn add_closure<'a>(
    alloc: Global,
    heads: &Heads,
    items: &mut Items,
    n: u32,
    text: &'a [u8],
) -> Result<&'a [u8], ReadError>
    requires drafted { Drafted heads.now items.old }
    requires due { n ≡ length items.old.closures }
    ensures { FindsItem heads.now items.old items.new result (reading.one_closure heads.now (items_seen heads.now items.old) text.now) }
{
    match closure_line(alloc, heads, items, n, text) {
        Ok((def, rest)) => match items.add_closure(def) {
            Ok(_) => Ok(rest),
            Err(NoMemory) => Err(ReadError::NoMemory),
        },
        Err(error) => Err(error),
    }
}

/// As many structs and enums as there are.
fn read_adts<'a>(
    alloc: Global,
    heads: &Heads,
    items: &mut Items,
    text: &'a [u8],
) -> Result<&'a [u8], NoMemory>
    requires { Drafted heads.now items.old }
    ensures { FindsSection heads.now items.old items.new result (reading.as_long_as (reading.one_adt heads.now) (items_seen heads.now items.old) text.now) }
{
    let mut rest = text;
    for _ in 0..text.len() {
        match add_adt(alloc, heads, items, rest) {
            Ok(behind) => rest = behind,
            Err(ReadError::Unreadable) => return Ok(rest),
            Err(ReadError::NoMemory) => return Err(NoMemory),
        }
    }
    Ok(rest)
}

/// As many traits as there are.
fn read_traits<'a>(
    alloc: Global,
    heads: &Heads,
    items: &mut Items,
    text: &'a [u8],
) -> Result<&'a [u8], NoMemory>
    requires drafted { Drafted heads.now items.old }
    requires none { items.old.traits ≡ [] }
    ensures { FindsSection heads.now items.old items.new result (reading.as_long_as (reading.one_trait heads.now) (items_seen heads.now items.old) text.now) }
{
    let mut rest = text;
    for n in 0..text.len() {
        let Ok(number) = u32::try_from(n) else {
            return Err(NoMemory::past_32_bits());
        };
        match add_trait(alloc, heads, items, number, rest) {
            Ok(behind) => rest = behind,
            Err(ReadError::Unreadable) => return Ok(rest),
            Err(ReadError::NoMemory) => return Err(NoMemory),
        }
    }
    Ok(rest)
}

/// As many impls as there are.
fn read_impls<'a>(
    alloc: Global,
    heads: &Heads,
    items: &mut Items,
    text: &'a [u8],
) -> Result<&'a [u8], NoMemory>
    requires { Drafted heads.now items.old }
    ensures { FindsSection heads.now items.old items.new result (reading.as_long_as (reading.one_impl heads.now) (items_seen heads.now items.old) text.now) }
{
    let mut rest = text;
    for _ in 0..text.len() {
        match add_impl(alloc, heads, items, rest) {
            Ok(behind) => rest = behind,
            Err(ReadError::Unreadable) => return Ok(rest),
            Err(ReadError::NoMemory) => return Err(NoMemory),
        }
    }
    Ok(rest)
}

/// As many closures as there are.
fn read_closures<'a>(
    alloc: Global,
    heads: &Heads,
    items: &mut Items,
    text: &'a [u8],
) -> Result<&'a [u8], NoMemory>
    requires drafted { Drafted heads.now items.old }
    requires none { items.old.closures ≡ [] }
    ensures { FindsSection heads.now items.old items.new result (reading.as_long_as (reading.one_closure heads.now) (items_seen heads.now items.old) text.now) }
{
    let mut rest = text;
    for n in 0..text.len() {
        let Ok(number) = u32::try_from(n) else {
            return Err(NoMemory::past_32_bits());
        };
        match add_closure(alloc, heads, items, number, rest) {
            Ok(behind) => rest = behind,
            Err(ReadError::Unreadable) => return Ok(rest),
            Err(ReadError::NoMemory) => return Err(NoMemory),
        }
    }
    Ok(rest)
}

/// Adds the items whose lines stand in front: structs and enums, then traits, impls and closures, each as long as such
/// lines come. Behind them stands what is left of the text. Before the call there are no traits and no closures.
pub fn read_items<'a>(
    alloc: Global,
    heads: &Heads,
    items: &mut Items,
    text: &'a [u8],
) -> Result<&'a [u8], NoMemory>
    requires drafted { Drafted heads.now items.old }
    requires no_traits { items.old.traits ≡ [] }
    requires no_closures { items.old.closures ≡ [] }
    ensures { FindsSection heads.now items.old items.new result (reading.items_read heads.now (items_seen heads.now items.old) text.now) }
{
    let rest = read_adts(alloc, heads, items, text)?;
    let rest = read_traits(alloc, heads, items, rest)?;
    let rest = read_impls(alloc, heads, items, rest)?;
    read_closures(alloc, heads, items, rest)
}
