//! The lines of statements and terminators.
ghost use Rattle.std.specs.Prelude.{◌≡◌};
ghost use Rattle.std.specs.Option.{option_copied};
ghost use Rattle.listing_write.specs.Reading.Words as word;
ghost use Rattle.listing_parts.specs.Found.{Finds};
ghost use Rattle.listing_parts.specs.LinesFound.{behind_line as behind};
ghost use Rattle.listing_lines.specs.CodeRead.{FindsRest};
ghost use Rattle.listing_lines.specs.CodeReading as reading;

use cfg_graph::{Stmt, Term};
use listing_parts::{Heads, ReadError, read_stmt, read_term, strip};
use listing_write::{stmt_text, term_text};
use std::alloc::Global;

/// What stands behind these words, where the text begins with them.
fn strip_words<'a>(text: &'a [u8], words: &[u8]) -> Option<&'a [u8]>
    ensures { option_copied result ≡ word.strip words.now text.now }
{
    text.strip_prefix(words)
}

/// What stands behind a line of these words, where the text begins with it.
fn behind_line<'a>(text: &'a [u8], words: &[u8]) -> Option<&'a [u8]>
    ensures { option_copied result ≡ behind words.now text.now }
{
    strip(strip_words(text, words)?, "\n")
}

/// Whether the struct, enum or trait that a statement names is there.
fn names_stmt(heads: &Heads, stmt: &Stmt) -> bool
    ensures { result ≡ reading.names_stmt heads.now stmt.now }
{
    match stmt {
        Stmt::Make { adt, .. } => heads.adt(*adt).is_some(),
        Stmt::Unsize { trait_no, .. } => heads.trait_def(*trait_no).is_some(),
        _ => true,
    }
}

/// Whether the trait that a terminator names is there.
fn names_term(heads: &Heads, term: &Term) -> bool
    ensures { result ≡ reading.names_term heads.now term.now }
{
    match term {
        Term::Virtual { trait_no, .. } => heads.trait_def(*trait_no).is_some(),
        _ => true,
    }
}

/// What stands behind the line of a statement whose names are there.
fn behind_stmt<'a>(
    alloc: Global,
    heads: &Heads,
    stmt: &Stmt,
    text: &'a [u8],
) -> Result<&'a [u8], ReadError>
    ensures { FindsRest result (reading.behind_stmt heads.now text.now stmt.now) }
{
    if !names_stmt(heads, stmt) {
        return Err(ReadError::Unreadable);
    }
    let words = stmt_text(alloc, heads.items(), stmt)?;
    behind_line(text, words.as_slice()).ok_or(ReadError::Unreadable)
}

/// What stands behind the line of a terminator whose names are there.
fn behind_term<'a>(
    alloc: Global,
    heads: &Heads,
    term: &Term,
    text: &'a [u8],
) -> Result<&'a [u8], ReadError>
    ensures { FindsRest result (reading.behind_term heads.now text.now term.now) }
{
    if !names_term(heads, term) {
        return Err(ReadError::Unreadable);
    }
    let words = term_text(alloc, heads.items(), term)?;
    behind_line(text, words.as_slice()).ok_or(ReadError::Unreadable)
}

/// The statement whose line a text begins with, and what stands behind that line. A name is that of the first struct, enum
/// or trait of it among the heads. `Unreadable` comes where the text does not begin with the line of a statement, or with
/// one that names what has no head.
pub fn statement<'a>(
    alloc: Global,
    heads: &Heads,
    text: &'a [u8],
) -> Result<(Stmt, &'a [u8]), ReadError>
    ensures { Finds result (reading.statement_read heads.now text.now) }
{
    let (stmt, _) = read_stmt(alloc, heads, text)?;
    match behind_stmt(alloc, heads, &stmt, text) {
        Ok(rest) => Ok((stmt, rest)),
        Err(error) => {
            drop(stmt);
            Err(error)
        }
    }
}

/// The terminator whose line a text begins with, and what stands behind that line. A name is that of the first trait of it
/// among the heads. `Unreadable` comes where the text does not begin with the line of a terminator, or with one that names
/// what has no head.
pub fn terminator<'a>(
    alloc: Global,
    heads: &Heads,
    text: &'a [u8],
) -> Result<(Term, &'a [u8]), ReadError>
    ensures { Finds result (reading.terminator_read heads.now text.now) }
{
    let (term, _) = read_term(alloc, heads, text)?;
    match behind_term(alloc, heads, &term, text) {
        Ok(rest) => Ok((term, rest)),
        Err(error) => {
            drop(term);
            Err(error)
        }
    }
}
