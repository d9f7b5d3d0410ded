//! Refusals with a sentence that says what is wrong, and the line of the text that they are about.
ghost use Rattle.std.specs.Prelude.{◌≡◌, ◌++◌, Some, IfOk, OnOk};
ghost use Rattle.mir_base.specs.Lines.{line};
ghost use Rattle.look_program.specs.Explanations as explanations;

use crate::sentences::{of_error, of_refusal};
use cfg_build::{Lowered, Site};
use cfg_graph::Body;
use look_draw::{put_origin, put_steps};
use look_lines::{line_of, put, put_line_feed, put_numbered_line, put_snippet};
use look_moves::origin_of;
use mir_base::{NoMemory, Pos};
use mir_pipeline::Refusal;
use mir_text::ListingError;
use mirdrop_program::{put_listing_refusal, put_refusal};
use move_errors::BadUse;
use std::alloc::Global;

/// Where a text is refused.
fn place_of(refusal: &Refusal) -> Pos
    ensures { result ≡ explanations.place_of refusal.now }
{
    match refusal {
        Refusal::Lex { at, .. } => *at,
        Refusal::Syntax { pos, .. } => *pos,
        Refusal::TooDeep { pos, .. } => *pos,
        Refusal::Broken { at, .. } => *at,
        Refusal::U1 { site, .. } => site.at,
        Refusal::U2 { site, .. } => site.at,
        Refusal::Memory => Pos { line: 1, col: 1 },
    }
}

fn put_sentence(out: &mut Vec<u8>, sentence: &str) -> Result<(), NoMemory>
    ensures { OnOk result (out.new.items ≡ out.old.items ++ line sentence.now) }
{
    put(out, sentence.as_bytes())?;
    put_line_feed(out)
}

/// The lines of a refusal, what is wrong, and the line of the text with a mark below the place.
///
/// # Errors
///
/// [`NoMemory`] where memory is wanted.
pub fn explanation(alloc: Global, text: &[u8], refusal: &Refusal) -> Result<Vec<u8>, NoMemory>
    ensures { IfOk result (λ out. out.items ≡ explanations.explanation text.now refusal.now) }
{
    let mut lines = String::new(alloc);
    put_refusal(&mut lines, refusal)?;
    let mut out = lines.into_bytes();
    put_sentence(&mut out, of_refusal(refusal))?;
    put_snippet(alloc, &mut out, text, place_of(refusal))?;
    Ok(out)
}

/// Puts where the place of a refused use got its value, and where it was taken.
fn put_origin_of(
    alloc: Global,
    out: &mut Vec<u8>,
    sites: &[Site],
    body: &Body,
    bad: &BadUse,
) -> Result<(), NoMemory>
    ensures { OnOk result (out.new.items ≡ out.old.items ++ explanations.origin_told_of sites.now bad.now (Some body.now)) }
{
    let found = origin_of(alloc, body, bad.path.as_slice(), bad.line, &bad.place)?;
    put_origin(alloc, out, sites, bad.body, found)
}

/// Puts the way to a refused use, and where what it wants was made and taken.
fn put_story(
    alloc: Global,
    out: &mut Vec<u8>,
    lowered: &Lowered,
    bad: &BadUse,
) -> Result<(), NoMemory>
    ensures { OnOk result (out.new.items ≡ out.old.items ++ explanations.story_of lowered.now bad.now) }
{
    let sites = lowered.sites.as_slice();
    put_steps(
        alloc,
        out,
        &lowered.graph,
        sites,
        bad.body,
        bad.path.as_slice(),
    )?;
    match lowered.graph.bodies.get(bad.body as usize) {
        Some(body) => put_origin_of(alloc, out, sites, body, bad),
        None => Ok(()),
    }
}

/// Puts what is told of a refused use.
fn put_way(
    alloc: Global,
    out: &mut Vec<u8>,
    lowered: &Lowered,
    refusal: &Refusal,
) -> Result<(), NoMemory>
    ensures { OnOk result (out.new.items ≡ out.old.items ++ explanations.way_to lowered.now refusal.now) }
{
    match refusal {
        Refusal::U1 { bad, .. } | Refusal::U2 { bad, .. } => put_story(alloc, out, lowered, bad),
        _ => Ok(()),
    }
}

/// The same as [`explanation`] of a refused use, with the way to it, and where what it wants was made and taken.
///
/// # Errors
///
/// [`NoMemory`] where memory is wanted.
pub fn explanation_of_use(
    alloc: Global,
    text: &[u8],
    lowered: &Lowered,
    refusal: &Refusal,
) -> Result<Vec<u8>, NoMemory>
    ensures { IfOk result (λ out. out.items ≡ explanations.explanation_of_use text.now lowered.now refusal.now) }
{
    let mut lines = String::new(alloc);
    put_refusal(&mut lines, refusal)?;
    let mut out = lines.into_bytes();
    put_way(alloc, &mut out, lowered, refusal)?;
    put_sentence(&mut out, of_refusal(refusal))?;
    put_snippet(alloc, &mut out, text, place_of(refusal))?;
    Ok(out)
}

/// The line at which a listing is refused.
fn line_in(error: ListingError) -> u32
    ensures { result ≡ explanations.line_in error }
{
    match error {
        ListingError::BadListing { line } => line,
        ListingError::BadGraph { line, .. } => line,
        ListingError::Memory => 1,
    }
}

/// The line of the refusal of a listing, what is wrong, and the listing's own line.
///
/// # Errors
///
/// [`NoMemory`] where memory is wanted.
pub fn listing_explanation(
    alloc: Global,
    text: &[u8],
    error: ListingError,
) -> Result<Vec<u8>, NoMemory>
    ensures { IfOk result (λ out. out.items ≡ explanations.listing_explanation text.now error) }
{
    let mut lines = String::new(alloc);
    put_listing_refusal(&mut lines, error)?;
    let mut out = lines.into_bytes();
    put_sentence(&mut out, of_error(error))?;
    let number = line_in(error);
    put_numbered_line(alloc, &mut out, number, line_of(text, number))?;
    Ok(out)
}
