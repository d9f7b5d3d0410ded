//! The names of the structs, enums and traits of a listing, before their lines are read.
ghost use Rattle.std.specs.Prelude.{◌≡◌, IfOk, OnOk, codes};
ghost use Rattle.std.specs.Option.{option_copied};
ghost use Rattle.listing_write.specs.Reading.Words as word;
ghost use Rattle.mir_ty.specs.ItemTable.{with_adt, with_trait};
ghost use Rattle.listing_lines.specs.ItemsRead.{seen_name};
ghost use Rattle.mir_text.specs.SectionReading.{on_within};
ghost use Rattle.mir_text.specs.HeadReading as reading;
ghost use Rattle.mir_text.specs.HeadsRead.{FindsHeads};

use listing_lines::blank_name;
use listing_parts::{Heads, strip};
use mir_base::{List, Name, NoMemory};
use mir_ty::{Adt, Items, TraitDef};
use std::alloc::Global;

/// What stands behind the first line feed.
fn behind_feed(text: &[u8]) -> &[u8]
    ensures { result.now ≡ reading.behind_feed text.now }
{
    let mut rest = text;
    while let Some((first, behind)) = rest.split_first() {
        rest = behind;
        if *first == 10 {
            return rest;
        }
    }
    rest
}

/// The name in front, and what stands behind its line.
fn named_line(text: &[u8]) -> Option<(&str, &[u8])>
    ensures { seen_name result ≡ reading.named_line text.now }
{
    let (name, rest) = blank_name(text)?;
    Some((name, behind_feed(rest)))
}

/// What stands behind the word of a struct or enum.
fn adt_word(text: &[u8]) -> Option<&[u8]>
    ensures { option_copied result ≡ word.or_else (word.strip (codes "struct ") text.now) (word.strip (codes "enum ") text.now) }
{
    match strip(text, "struct ") {
        Some(rest) => Some(rest),
        None => strip(text, "enum "),
    }
}

/// The name of the struct or enum whose line stands in front, and what stands behind the line.
fn adt_head(text: &[u8]) -> Option<(&str, &[u8])>
    ensures { seen_name result ≡ reading.adt_head text.now }
{
    named_line(adt_word(text)?)
}

/// The name of the trait whose line stands in front, and what stands behind the line.
fn trait_head(text: &[u8]) -> Option<(&str, &[u8])>
    ensures { seen_name result ≡ reading.trait_head text.now }
{
    named_line(strip(text, "trait ")?)
}

/// Adds the head of a struct or enum.
fn push_adt(alloc: Global, heads: &mut Items, name: &str) -> Result<(), NoMemory>
    ensures { OnOk result (heads.new ≡ with_adt heads.old (reading.adt_of name.now)) }
{
    let name = Name::from_str(alloc, name)?;
    heads.add_adt(Adt {
        name,
        is_enum: true,
        variants: List::new(alloc),
        copy: false,
        drop_body: None,
    })?;
    Ok(())
}

/// Adds the head of a trait.
fn push_trait(alloc: Global, heads: &mut Items, name: &str) -> Result<(), NoMemory>
    ensures { OnOk result (heads.new ≡ with_trait heads.old (reading.trait_of name.now)) }
{
    let name = Name::from_str(alloc, name)?;
    heads.add_trait(TraitDef {
        name,
        methods: List::new(alloc),
    })?;
    Ok(())
}

/// The heads of structs and enums, no more than `count`.
fn adt_heads<'a>(
    alloc: Global,
    heads: &mut Items,
    count: usize,
    text: &'a [u8],
) -> Result<&'a [u8], NoMemory>
    ensures { FindsHeads heads.new result (on_within count reading.one_adt_head heads.old text.now) }
{
    let mut rest = text;
    for _ in 0..count {
        match adt_head(rest) {
            Some((name, behind)) => {
                push_adt(alloc, heads, name)?;
                rest = behind;
            }
            None => return Ok(rest),
        }
    }
    Ok(rest)
}

/// The heads of traits, no more than `count`.
fn trait_heads<'a>(
    alloc: Global,
    heads: &mut Items,
    count: usize,
    text: &'a [u8],
) -> Result<&'a [u8], NoMemory>
    ensures { FindsHeads heads.new result (on_within count reading.one_trait_head heads.old text.now) }
{
    let mut rest = text;
    for _ in 0..count {
        match trait_head(rest) {
            Some((name, behind)) => {
                push_trait(alloc, heads, name)?;
                rest = behind;
            }
            None => return Ok(rest),
        }
    }
    Ok(rest)
}

/// The heads of a text: its structs and enums, no more than `adts`, and then its traits, no more than `traits`.
pub fn read_heads(alloc: Global, adts: usize, traits: usize, text: &[u8]) -> Result<Heads, NoMemory>
    ensures { IfOk result (λ heads. heads ≡ reading.heads_within adts traits text.now) }
{
    let mut heads = Items::new(alloc);
    let rest = match adt_heads(alloc, &mut heads, adts, text) {
        Ok(rest) => rest,
        Err(error) => {
            drop(heads);
            return Err(error);
        }
    };
    if let Err(error) = trait_heads(alloc, &mut heads, traits, rest) {
        drop(heads);
        return Err(error);
    }
    Heads::of(alloc, heads)
}
