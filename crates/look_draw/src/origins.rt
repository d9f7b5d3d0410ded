//! Where a place got its value, and where it was taken, in words.
ghost use Rattle.std.specs.Prelude.{◌≡◌, ◌++◌, OnOk, Some};
ghost use Rattle.std.specs.Option.{option_copied};
ghost use Rattle.look_draw.specs.Origins as origins;

use crate::drawings::{put_place, site_at};
use crate::steps::put_site;
use look_lines::{put, put_line_feed};
use look_moves::{LineAt, Origin};
use lower_rules::Site;
use mir_base::NoMemory;
use std::alloc::Global;

/// The site of a line of a body.
fn site_of(sites: &[Site], body: u32, at: LineAt) -> Option<&Site>
    ensures { option_copied result ≡ origins.site_of sites.now body at }
{
    site_at(sites, body, at.block, at.line as usize)
}

fn put_made(
    alloc: Global,
    out: &mut Vec<u8>,
    sites: &[Site],
    body: u32,
    at: LineAt,
) -> Result<(), NoMemory>
    ensures { OnOk result (out.new.items ≡ out.old.items ++ origins.made_told sites.now body at) }
{
    put(out, b"the value is made")?;
    put_site(alloc, out, site_of(sites, body, at))?;
    put_line_feed(out)
}

/// Puts where a place was moved.
fn put_moved(alloc: Global, out: &mut Vec<u8>, site: &Site) -> Result<(), NoMemory>
    ensures { OnOk result (out.new.items ≡ out.old.items ++ origins.taken_words (Some site.now)) }
{
    put(out, b"the value is moved at ")?;
    put_place(alloc, out, site.at)
}

/// Puts how a place was taken: a line that moves has a site, and one that drops has none.
fn put_taken_by(alloc: Global, out: &mut Vec<u8>, site: Option<&Site>) -> Result<(), NoMemory>
    ensures { OnOk result (out.new.items ≡ out.old.items ++ origins.taken_words (option_copied site.entry)) }
{
    match site {
        Some(site) => put_moved(alloc, out, site),
        None => put(out, b"the value is dropped"),
    }
}

fn put_taken(
    alloc: Global,
    out: &mut Vec<u8>,
    sites: &[Site],
    body: u32,
    at: LineAt,
) -> Result<(), NoMemory>
    ensures { OnOk result (out.new.items ≡ out.old.items ++ origins.taken_told sites.now body at) }
{
    put_taken_by(alloc, out, site_of(sites, body, at))?;
    put_line_feed(out)
}

/// Puts where a place of a body got its value, and where it was taken.
///
/// # Errors
///
/// [`NoMemory`] where memory is wanted.
pub fn put_origin(
    alloc: Global,
    out: &mut Vec<u8>,
    sites: &[Site],
    body: u32,
    origin: Origin,
) -> Result<(), NoMemory>
    ensures { OnOk result (out.new.items ≡ out.old.items ++ origins.origin_told sites.now body origin) }
{
    match (origin.made, origin.taken) {
        (None, None) => put(out, b"no value is stored there before\n"),
        (None, Some(taken)) => put_taken(alloc, out, sites, body, taken),
        (Some(made), None) => put_made(alloc, out, sites, body, made),
        (Some(made), Some(taken)) => {
            put_made(alloc, out, sites, body, made)?;
            put_taken(alloc, out, sites, body, taken)
        }
    }
}
