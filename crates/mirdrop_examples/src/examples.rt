//! The examples of the table in `data/README.md`. A row of the table has the example's name, the file with its text,
//! the words, the status, and what the example shows. What is to be written is in `NAME.trace`.
use crate::exact::is_elaborated;
use crate::runs::{Ended, is_end, run};
use std::alloc::{AllocError, Global};
use std::rt::Files;
use std::{fs, io};

/// A row of the table: an example, the file with its text, the words that it is run with, and the status that is
/// wanted.
#[derive(Clone, Copy)]
struct ExampleRow<'a> {
    name: &'a str,
    text: &'a str,
    words: &'a str,
    status: &'a str,
}

/// A cell without blanks around it and without its backticks.
fn plain(cell: &str) -> &str {
    cell.trim().trim_matches('`')
}

/// The row that a line is, if its first cell is in backticks.
fn row_in(line: &str) -> Option<ExampleRow<'_>> {
    if !line.starts_with("| `") {
        return None;
    }
    let mut cells = line.split('|').skip(1);
    Some(ExampleRow {
        name: plain(cells.next()?),
        text: plain(cells.next()?),
        words: plain(cells.next()?),
        status: plain(cells.next()?),
    })
}

/// Whether a program is run.
fn is_run(words: &str) -> bool {
    words.split_whitespace().any(|word| word == "run")
}

/// The words with which a listing is run as a program is by these.
fn exec_words(alloc: Global, words: &str) -> Result<String, AllocError> {
    let mut all = String::new(alloc);
    for word in words.split_whitespace() {
        all.push_str(if word == "run" { "exec" } else { word })?;
        all.push(' ')?;
    }
    Ok(all)
}

/// Whether the graph that is built of a program is the one that is elaborated of its raw graph, and, listed and read back,
/// runs as the program did.
fn runs_as_built(
    alloc: Global,
    text: &[u8],
    words: &str,
    ended: &Ended,
) -> Result<bool, AllocError> {
    let listing = run(alloc, "build", text)?;
    if !is_elaborated(alloc, text, listing.written.bytes()) {
        return Ok(false);
    }
    let words = exec_words(alloc, words)?;
    let again = run(alloc, words.as_str(), listing.written.bytes())?;
    Ok(is_end(&again, ended.status, ended.written.bytes()))
}

/// Whether an example that runs a program which is accepted also runs so as it is built.
fn stands_built(
    alloc: Global,
    text: &[u8],
    row: &ExampleRow<'_>,
    ended: &Ended,
) -> Result<bool, AllocError> {
    if !is_run(row.words) || ended.status == 1 {
        return Ok(true);
    }
    runs_as_built(alloc, text, row.words, ended)
}

/// Whether this is what stands in the file beside an example.
fn is_trace(rt: &(impl Files + AllocGlobal), name: &str, written: &[u8]) -> io::Result<bool> {
    let file = format!(in rt.alloc(); "{name}.trace")?;
    let wanted = fs::read_to_string(rt, file.as_str())?;
    Ok(written == wanted.as_bytes())
}

fn verdict_on(
    rt: &(impl Files + AllocGlobal),
    row: &ExampleRow<'_>,
    ended: &Ended,
) -> io::Result<&'static str> {
    if row.status.parse::<u8>().ok() != Some(ended.status) {
        return Ok("another status");
    }
    if is_trace(rt, row.name, ended.written.bytes())? {
        Ok("as written")
    } else {
        Ok("another trace")
    }
}

/// The verdict on one example.
fn verdict(rt: &(impl Files + AllocGlobal), row: &ExampleRow<'_>) -> io::Result<&'static str> {
    let text = fs::read_to_string(rt, row.text)?;
    let ended = run(rt.alloc(), row.words, text.as_bytes())?;
    if !stands_built(rt.alloc(), text.as_bytes(), row, &ended)? {
        return Ok("another trace as built");
    }
    verdict_on(rt, row, &ended)
}

fn row_told(rt: &(impl Files + Print + AllocGlobal), row: &ExampleRow<'_>) -> io::Result<()> {
    let verdict = verdict(rt, row)?;
    println!(rt; "{}: {verdict}", row.name)
}

/// Writes the verdict on each example.
pub fn write_examples(rt: &(impl Files + Print + AllocGlobal)) -> io::Result<()> {
    let table = fs::read_to_string(rt, "README.md")?;
    for line in table.lines() {
        if let Some(row) = row_in(line) {
            row_told(rt, &row)?;
        }
    }
    Ok(())
}
