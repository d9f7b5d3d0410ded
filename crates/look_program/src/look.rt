//! What the words behind the program's name ask for.
ghost use Rattle.std.specs.Prelude.{◌≡◌, ◌≤◌, Some, None, IfOk, IsErrOf, map, string_bytes};
ghost use Rattle.mirdrop_program.specs.declared.request.WordsError.{WordsError as an_error};
ghost use Rattle.look_program.specs.Words as asked;

use mir_base::NoMemory;
use mirdrop_program::{Request, WordsError, request_of};
use std::alloc::Global;

/// What is asked for with a text.
#[derive(Clone, Copy)]
pub enum Look {
    /// The refusal of a program or a listing, with the line that it is about.
    Explain,
    /// The raw graph of a program, or the graph of a listing, as Graphviz reads it.
    Dot,
    /// The graph with exact drops of a program, or the graph of a listing, as Graphviz reads it.
    Built,
}

/// What the words behind the program's name ask for: `explain`, `dot` or `dot-built`, and nothing else.
pub fn look_of(words: &[String]) -> Option<Look>
    ensures { result ≡ asked.look_of (map string_bytes words.now) }
{
    if words.len() != 1 {
        return None;
    }
    let word = words[0].as_str();
    if word == "explain" {
        Some(Look::Explain)
    } else if word == "dot" {
        Some(Look::Dot)
    } else if word == "dot-built" {
        Some(Look::Built)
    } else {
        None
    }
}

/// The word `run`, and then words.
fn run_words(alloc: Global, words: &[String]) -> Result<Vec<String>, NoMemory>
    ensures { IfOk result (λ all. map string_bytes all.items ≡ asked.run_words (map string_bytes words.now)) }
{
    let mut all = Vec::new(alloc);
    all.push(String::from_str(alloc, "run")?)?;
    for word in words {
        all.push(String::from_str(alloc, word.as_str())?)?;
    }
    Ok(all)
}

/// What the words behind `trace` ask for: they are read as [`request_of`] of `mirdrop` reads those behind `run`, so
/// they are numbers to be asked, with the option `--ticks` anywhere.
pub fn trace_of(alloc: Global, words: &[String]) -> Result<Request, WordsError>
    ensures request { IfOk result (λ request. asked.trace_of (map string_bytes words.now) ≡ Some request) }
    ensures refused { IsErrOf result an_error.Refused → asked.trace_of (map string_bytes words.now) ≡ None }
    ensures ticks { IfOk result (λ request. request.ticks ≤ 1000000000) }
{
    match run_words(alloc, words) {
        Ok(all) => request_of(alloc, all.as_slice()),
        Err(NoMemory) => Err(WordsError::Memory),
    }
}
