//! The answers to texts that are refused.
ghost use Rattle.std.specs.Prelude.{◌≡◌, ◌++◌, IfOk, OnOk, string_bytes};
ghost use Rattle.mirdrop_program.specs.Lines.{store_line, use_line, way_lines};
ghost use Rattle.mirdrop_program.specs.Refusals as refusals;
ghost use Rattle.mirdrop_program.specs.Refusals.{IsTold, IsToldError};

use crate::answers::Answer;
use crate::{
    put_graph_line, put_lex_line, put_listing_line, put_refused_at, put_rule_line, put_store_line,
    put_use_line, put_way_lines,
};
use lower_rules::Site;
use mir_base::NoMemory;
use mir_pipeline::Refusal;
use mir_text::ListingError;
use move_errors::BadUse;
use std::alloc::{AllocError, Global};

fn put_way(out: &mut String, bad: &BadUse) -> Result<(), AllocError>
    ensures { OnOk result (string_bytes out.new ≡ string_bytes out.old ++ way_lines bad.now.answers bad.now.body bad.now.path) }
{
    put_way_lines(out, bad.answers.as_slice(), bad.body, bad.path.as_slice())
}

/// Puts the lines of a use of what is gone.
fn put_bad_use(out: &mut String, bad: &BadUse, site: &Site) -> Result<(), AllocError>
    ensures { OnOk result (string_bytes out.new ≡ string_bytes out.old
        ++ (use_line site.now.name site.now.by site.now.at ++ way_lines bad.now.answers bad.now.body bad.now.path)) }
{
    put_use_line(out, site.name.as_str(), site.by, site.at)?;
    put_way(out, bad)
}

/// Puts the lines of a store into a part of what is gone.
fn put_bad_store(out: &mut String, bad: &BadUse, site: &Site) -> Result<(), AllocError>
    ensures { OnOk result (string_bytes out.new ≡ string_bytes out.old
        ++ (store_line site.now.name site.now.at ++ way_lines bad.now.answers bad.now.body bad.now.path)) }
{
    put_store_line(out, site.name.as_str(), site.at)?;
    put_way(out, bad)
}

/// Puts the lines of a refusal behind a text.
pub fn put_refusal(out: &mut String, refusal: &Refusal) -> Result<(), AllocError>
    ensures { OnOk result (string_bytes out.new ≡ string_bytes out.old ++ refusals.refusal_lines refusal.now) }
{
    match refusal {
        Refusal::Lex { code, at } => put_lex_line(out, *code, *at),
        Refusal::Syntax { pos, .. } => put_refused_at(out, "6 Syntax", *pos),
        Refusal::TooDeep { pos, .. } => put_refused_at(out, "7 TooDeep", *pos),
        Refusal::Broken { rule, at } => put_rule_line(out, *rule, *at),
        Refusal::U1 { bad, site } => put_bad_use(out, bad, site),
        Refusal::U2 { bad, site } => put_bad_store(out, bad, site),
        Refusal::Memory => Ok(()),
    }
}

/// The lines of a refusal; none where memory was wanted.
pub fn lines_of(alloc: Global, refusal: &Refusal) -> Result<String, NoMemory>
    ensures { IfOk result (λ text. string_bytes text ≡ refusals.refusal_lines refusal.now) }
{
    let mut text = String::new(alloc);
    put_refusal(&mut text, refusal)?;
    Ok(text)
}

/// The answer to a text that is refused so.
pub fn refused_answer(alloc: Global, refusal: &Refusal) -> Result<Answer, NoMemory>
    ensures told { IfOk result (λ answer. IsTold refusal.now) }
    ensures status { IfOk result (λ answer. answer.status ≡ 1) }
    ensures text { IfOk result (λ answer. answer.text.items ≡ refusals.refusal_lines refusal.now) }
{
    if matches!(refusal, Refusal::Memory) {
        return Err(NoMemory);
    }
    let text = lines_of(alloc, refusal)?;
    Ok(Answer {
        status: 1,
        text: text.into_bytes(),
    })
}

/// Puts the line of a refusal of a listing behind a text.
pub fn put_listing_refusal(out: &mut String, error: ListingError) -> Result<(), AllocError>
    ensures { OnOk result (string_bytes out.new ≡ string_bytes out.old ++ refusals.error_line error) }
{
    match error {
        ListingError::BadListing { line } => put_listing_line(out, line),
        ListingError::BadGraph { fault, line } => put_graph_line(out, fault.number, line),
        ListingError::Memory => Ok(()),
    }
}

/// The answer to a listing that is refused so.
pub fn refused_listing(alloc: Global, error: ListingError) -> Result<Answer, NoMemory>
    ensures told { IfOk result (λ answer. IsToldError error) }
    ensures status { IfOk result (λ answer. answer.status ≡ 1) }
    ensures text { IfOk result (λ answer. answer.text.items ≡ refusals.error_line error) }
{
    if matches!(error, ListingError::Memory) {
        return Err(NoMemory);
    }
    let mut text = String::new(alloc);
    put_listing_refusal(&mut text, error)?;
    Ok(Answer {
        status: 1,
        text: text.into_bytes(),
    })
}
