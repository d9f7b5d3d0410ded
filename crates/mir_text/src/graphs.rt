//! Graphs, read from the text behind the first line of a listing.
ghost use Rattle.std.specs.Prelude.{◌≡◌, IfOk, length};
ghost use Rattle.mir_text.specs.GraphRead.{AreItemsOf};
ghost use Rattle.mir_text.specs.GraphReading as reading;

use crate::heads::read_heads;
use crate::{read_bodies, read_items};
use cfg_graph::Graph;
use listing_parts::{Heads, adt_count, trait_count};
use mir_base::NoMemory;
use mir_ty::Items;
use std::alloc::Global;

/// The items that stand in front, under heads, and what stands behind them.
fn items_under<'a>(
    alloc: Global,
    heads: &Heads,
    text: &'a [u8],
) -> Result<(Items, &'a [u8]), NoMemory>
    ensures { IfOk result (λ found. AreItemsOf heads.now text.now found.0 found.1.now) }
{
    let mut items = Items::new(alloc);
    match read_items(alloc, heads, &mut items, text) {
        Ok(rest) => Ok((items, rest)),
        Err(error) => {
            drop(items);
            Err(error)
        }
    }
}

/// How many structs and enums, and how many traits, are read under heads.
fn counts_under(alloc: Global, heads: &Heads, text: &[u8]) -> Result<(u32, u32), NoMemory>
    ensures adts { IfOk result (λ counts. counts.0 ≡ length (reading.items_under heads.now text.now).0.adts) }
    ensures traits { IfOk result (λ counts. counts.1 ≡ length (reading.items_under heads.now text.now).0.traits) }
{
    let (items, _) = items_under(alloc, heads, text)?;
    let counts = (adt_count(&items), trait_count(&items));
    drop(items);
    Ok(counts)
}

/// How many of so many structs and enums, and of so many traits, where those are not all.
fn fewer_of(adts: u32, most_adts: u32, traits: u32, most_traits: u32) -> Option<(u32, u32)>
    ensures { result ≡ reading.fewer_of adts most_adts traits most_traits }
{
    if adts < most_adts || traits < most_traits {
        Some((adts.min(most_adts), traits.min(most_traits)))
    } else {
        None
    }
}

/// How many heads are read, where those are not all.
fn fewer(alloc: Global, heads: &Heads, text: &[u8]) -> Result<Option<(u32, u32)>, NoMemory>
    ensures { IfOk result (λ counts. counts ≡ reading.fewer heads.now (reading.items_under heads.now text.now).0) }
{
    let (adts, traits) = counts_under(alloc, heads, text)?;
    Ok(fewer_of(adts, heads.adt_count(), traits, heads.trait_count()))
}

/// Heads that are all read. A head goes where its line cannot be read, or names one that went: then the heads are read
/// again, no more than were.
fn settled_heads(alloc: Global, text: &[u8]) -> Result<Heads, NoMemory>
    ensures { IfOk result (λ heads. reading.AreSettled text.now heads) }
{
    let count = text.len();
    let mut heads = read_heads(alloc, count, count, text)?;
    loop {
        match fewer(alloc, &heads, text) {
            Ok(None) => return Ok(heads),
            Ok(Some((adts, traits))) => {
                drop(heads);
                heads = read_heads(alloc, adts as usize, traits as usize, text)?;
            }
            Err(error) => {
                drop(heads);
                return Err(error);
            }
        }
    }
}

/// The graph that is read under heads.
fn graph_under<'a>(
    alloc: Global,
    heads: &Heads,
    text: &'a [u8],
) -> Result<((Graph, bool), &'a [u8]), NoMemory>
    ensures { IfOk result (λ found. reading.IsTold text.now heads.now found.0.0 found.0.1 found.1.now) }
{
    let (mut items, rest) = items_under(alloc, heads, text)?;
    match read_bodies(alloc, heads, &mut items, rest) {
        Ok(((bodies, whole), rest)) => Ok(((Graph { items, bodies }, whole), rest)),
        Err(error) => {
            drop(items);
            Err(error)
        }
    }
}

/// The graph that stands behind the first line of a listing, as far as its lines can be read: its items, and its bodies up
/// to one whose last block has no terminator, which is closed by a `return`; the answer beside it is then `false`. Behind it
/// stands what is left of the text, which is the line `end` where all was read.
pub fn read_graph(alloc: Global, text: &[u8]) -> Result<((Graph, bool), &[u8]), NoMemory>
    ensures { IfOk result (λ found. reading.IsRead text.now found.0.0 found.0.1 found.1.now) }
{
    let heads = settled_heads(alloc, text)?;
    let read = graph_under(alloc, &heads, text);
    drop(heads);
    read
}
