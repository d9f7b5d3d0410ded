//! The graph of a listing.
ghost use Rattle.std.specs.Prelude.{◌≡◌, ◌<◌, ◌≤◌, ◌^◌, ◌-◌, codes};
ghost use Rattle.cfg_graph.specs.WellFormed.Faults.{IsCounted};
ghost use Rattle.listing_write.specs.Lists.{line as line_words};
ghost use Rattle.listing_write.specs.Reading.Words as word;
ghost use Rattle.mir_text.specs.Answers.{Answers};
ghost use Rattle.mir_text.specs.Judged.{Judges, IsJudged};
ghost use Rattle.mir_text.specs.Wrong as wrong;

use crate::count::{line_of_fault, lines_count};
use crate::{ListingError, read_graph};
use cfg_graph::{Graph, well_formed};
use listing_parts::strip;
use mir_base::NoMemory;
use std::alloc::Global;

/// The first wrong line of a text, of which a graph was read that has so many lines; `None` where the text is its listing.
fn wrong_line(lines: u32, whole: bool, rest: &[u8]) -> Option<u32>
    requires some { 2 ≤ lines }
    requires few { lines < 2 ^ 32 - 1 }
    ensures { result ≡ wrong.wrong_line lines whole (word.strip (line_words (codes "end")) rest.now) }
{
    if !whole {
        return Some(lines - 1);
    }
    match strip(rest, "end\n") {
        None => Some(lines),
        Some(behind) => {
            if behind.is_empty() {
                None
            } else {
                Some(lines + 1)
            }
        }
    }
}

/// A graph that is well formed, or its first fault with its line.
fn check_graph(graph: Graph) -> Result<Graph, ListingError>
    requires { IsCounted graph }
    ensures { IsJudged graph result }
{
    match well_formed(&graph) {
        Ok(()) => Ok(graph),
        Err(fault) => {
            let line = line_of_fault(&graph, &fault);
            graph.discard();
            match line {
                Some(line) => Err(ListingError::BadGraph { fault, line }),
                None => Err(ListingError::Memory),
            }
        }
    }
}

/// What is answered of a graph that was read, as far as its lines can be read.
fn answer(graph: Graph, whole: bool, rest: &[u8]) -> Result<Graph, ListingError>
    ensures { Judges graph whole rest.now result }
{
    let Some(lines) = lines_count(&graph) else {
        graph.discard();
        return Err(ListingError::Memory);
    };
    match wrong_line(lines, whole, rest) {
        Some(line) => {
            graph.discard();
            Err(ListingError::BadListing { line })
        }
        None => check_graph(graph),
    }
}

/// The graph that a text lists, where it is the listing of a well formed one. Otherwise `BadListing` names its first wrong
/// line, the one behind the longest beginning of a listing; and `BadGraph` the first fault of the graph that it lists, with
/// the line of that. A graph that is read has the names `0`, `1` and so on for fields.
pub fn read_listing(alloc: Global, text: &[u8]) -> Result<Graph, ListingError>
    ensures { Answers text.now result }
{
    let Some(behind) = strip(text, "mirdrop 1\n") else {
        return Err(ListingError::BadListing { line: 1 });
    };
    match read_graph(alloc, behind) {
        Ok(((graph, whole), rest)) => answer(graph, whole, rest),
        Err(NoMemory) => Err(ListingError::Memory),
    }
}
