//! The files of rows: a text a line, with what is answered behind the last ` // `.
use crate::runs::run;
use crate::trees::{has_items, has_tree};
use std::alloc::{AllocError, Global};
use std::rt::Files;
use std::{fs, io};

/// What the rows of a file ask.
#[derive(Clone, Copy)]
enum RowQuestion {
    /// What `check` writes first.
    Check,
    /// Whether the text has a tree, or else what `check` writes first.
    Tree,
    /// Whether the text has items, or else what `check` writes first.
    Items,
    /// The status and what is written first, with the words before the text.
    Words,
    /// What `exec` writes first of a listing with this line at that number.
    Listing,
    /// How many blocks `raw` lists.
    Blocks,
}

static FILES: [(&str, RowQuestion); 14] = [
    ("grammar.rows", RowQuestion::Tree),
    ("item_rules.rows", RowQuestion::Items),
    ("items.rows", RowQuestion::Check),
    ("names.rows", RowQuestion::Check),
    ("bodies.rows", RowQuestion::Check),
    ("types.rows", RowQuestion::Check),
    ("uses.rows", RowQuestion::Check),
    ("borrows.rows", RowQuestion::Check),
    ("programs.rows", RowQuestion::Check),
    ("writing.rows", RowQuestion::Check),
    ("refusals.rows", RowQuestion::Check),
    ("words.rows", RowQuestion::Words),
    ("damaged_listing.rows", RowQuestion::Listing),
    ("sizes.rows", RowQuestion::Blocks),
];

/// The first line that was written, without `refused: `.
fn first_line(written: &[u8]) -> &str {
    let text = str::from_utf8(written).unwrap_or("no text");
    let line = text.lines().next().unwrap_or("nothing");
    line.strip_prefix("refused: ").unwrap_or(line)
}

fn answer_of_row(alloc: Global, words: &str, text: &str) -> Result<String, AllocError> {
    let ended = run(alloc, words, text.as_bytes())?;
    String::from_str(alloc, first_line(ended.written.bytes()))
}

fn answered_with_status(alloc: Global, row: &str) -> Result<String, AllocError> {
    let (words, text) = row.split_once("| ").unwrap_or((row, ""));
    let ended = run(alloc, words, text.as_bytes())?;
    format!(in alloc; "{} {}", ended.status, first_line(ended.written.bytes()))
}

/// A word where something stands, and otherwise what `check` writes first.
fn stands_or(alloc: Global, stands: bool, word: &str, text: &str) -> Result<String, AllocError> {
    if stands {
        String::from_str(alloc, word)
    } else {
        answer_of_row(alloc, "check", text)
    }
}

/// A text with another line in the place of one of its lines, counted from 1.
fn with_line(alloc: Global, text: &str, number: usize, line: &str) -> Result<String, AllocError> {
    let mut all = String::new(alloc);
    let mut left = number;
    for was in text.lines() {
        all.push_str(if left == 1 { line } else { was })?;
        all.push_str("\n")?;
        left = left.saturating_sub(1);
    }
    Ok(all)
}

fn answered_to_damage(alloc: Global, listing: &str, row: &str) -> Result<String, AllocError> {
    let (number, line) = row.split_once(" | ").unwrap_or((row, ""));
    let damaged = with_line(alloc, listing, number.parse::<usize>().unwrap_or(0), line)?;
    answer_of_row(alloc, "exec", damaged.as_str())
}

fn blocks_counted(alloc: Global, text: &str) -> Result<String, AllocError> {
    let ended = run(alloc, "raw", text.as_bytes())?;
    let listing = str::from_utf8(ended.written.bytes()).unwrap_or("no text");
    let mut blocks = 0u32;
    for line in listing.lines() {
        if line.starts_with("block ") {
            blocks = blocks.saturating_add(1);
        }
    }
    format!(in alloc; "{blocks} blocks")
}

fn answer(
    alloc: Global,
    listing: &str,
    asks: RowQuestion,
    row: &str,
) -> Result<String, AllocError> {
    match asks {
        RowQuestion::Check => answer_of_row(alloc, "check", row),
        RowQuestion::Tree => stands_or(alloc, has_tree(alloc, row.as_bytes()), "tree", row),
        RowQuestion::Items => stands_or(alloc, has_items(alloc, row.as_bytes()), "items", row),
        RowQuestion::Words => answered_with_status(alloc, row),
        RowQuestion::Listing => answered_to_damage(alloc, listing, row),
        RowQuestion::Blocks => blocks_counted(alloc, row),
    }
}

fn wrong_told(rt: &impl Print, row: &str, found: &str, wanted: &str) -> io::Result<()> {
    println!(rt; "{row} // {found}, not {wanted}")
}

/// Whether a row is answered as it says; if it is not, it is written with its answer.
fn stands(
    rt: &(impl Print + AllocGlobal),
    listing: &str,
    asks: RowQuestion,
    line: &str,
) -> io::Result<bool> {
    let (row, wanted) = line.rsplit_once(" // ").unwrap_or((line, "an answer"));
    let found = answer(rt.alloc(), listing, asks, row)?;
    let stands = found.as_str() == wanted;
    if !stands {
        wrong_told(rt, row, found.as_str(), wanted)?;
    }
    Ok(stands)
}

fn count_told(rt: &impl Print, file: &str, count: u32, wrong: u32) -> io::Result<()> {
    if wrong == 0 {
        println!(rt; "{file}: {count} rows, all as written")
    } else {
        println!(rt; "{file}: {count} rows, {wrong} otherwise")
    }
}

/// Writes the rows of a file that are answered otherwise, and then how many rows there are.
fn file_told(
    rt: &(impl Files + Print + AllocGlobal),
    listing: &str,
    file: &str,
    asks: RowQuestion,
) -> io::Result<()> {
    let rows = fs::read_to_string(rt, file)?;
    let (mut count, mut wrong) = (0u32, 0u32);
    for line in rows.lines() {
        count = count.saturating_add(1);
        if !stands(rt, listing, asks, line)? {
            wrong = wrong.saturating_add(1);
        }
    }
    count_told(rt, file, count, wrong)
}

/// Writes of each file of rows whether all are answered as it says.
pub fn write_rows(rt: &(impl Files + Print + AllocGlobal)) -> io::Result<()> {
    let listing = fs::read_to_string(rt, "listing_of_a_local.listing")?;
    for (file, asks) in FILES.iter() {
        file_told(rt, listing.as_str(), file, *asks)?;
    }
    Ok(())
}
