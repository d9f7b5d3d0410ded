//! What words ask for.
ghost use Rattle.std.specs.Prelude.{◌≡◌, ◌≤◌, Some, None, IfOk, IsErrOf, length, map, option_map, codes, string_bytes};
ghost use Rattle.clap.specs.Words.{all_of, app_of, found_of, rows_of};
ghost use Rattle.mirdrop_program.specs.Words as asked;
ghost use Rattle.mirdrop_program.specs.Reads.{Parses, Refuses};
ghost use Rattle.mirdrop_program.specs.Words.{HasFewFunctions};
ghost use Rattle.mirdrop_program.specs.declared.request.WordsError.{WordsError as an_error};

use crate::number::{digits_value, is_up_to};
use crate::request::{Command, Request, WordsError};
use clap::error::ErrorKind;
use clap::{Arg, ArgMatches};
use mir_base::limits::{MAX_ASKED, MAX_ASKED_NUMBER, MAX_TICKS};
use mir_base::{List, NoMemory};
use std::alloc::{AllocError, Global};

/// How many functions the program of `soak` has at most.
const MAX_FUNCTIONS: u64 = 1500;

/// The command line, as `clap` reads it: a command, then numbers, and `--ticks` anywhere.
fn command_line<'a>(alloc: Global) -> Result<clap::Command<'a>, AllocError>
    ensures { IfOk result (λ command. app_of command ≡ asked.command_line) }
{
    clap::Command::new(alloc, "mirdrop")
        .no_binary_name(true)
        .arg(Arg::new(alloc, "command").required(true))?
        .arg(Arg::new(alloc, "numbers").num_args(..))?
        .arg(
            Arg::new(alloc, "ticks")
                .long("ticks")
                .default_value("10000"),
        )
}

fn refusal(kind: ErrorKind) -> WordsError
    ensures { Refuses kind result }
{
    if kind == ErrorKind::OutOfMemory {
        WordsError::Memory
    } else {
        WordsError::Refused
    }
}

/// What `clap` finds in the words.
fn parse_words<'a>(alloc: Global, words: &'a [String]) -> Result<ArgMatches<'a>, WordsError>
    ensures { Parses (map string_bytes words.entry.now) result }
{
    let Ok(line) = command_line(alloc) else {
        return Err(WordsError::Memory);
    };
    match line.try_get_matches_from(words) {
        Ok(matches) => Ok(matches),
        Err(error) => Err(refusal(error.kind())),
    }
}

/// The command that a word names.
fn command_of(word: &str) -> Option<Command>
    ensures { result ≡ asked.command_of word.now }
{
    if word == "check" {
        Some(Command::Check)
    } else if word == "raw" {
        Some(Command::Raw)
    } else if word == "build" {
        Some(Command::Build)
    } else if word == "run" {
        Some(Command::Run)
    } else if word == "exec" {
        Some(Command::Exec)
    } else {
        None
    }
}

/// How many numbers to be asked a command takes at most.
fn most_numbers(command: Command) -> usize
    ensures { result ≡ asked.most_numbers command }
{
    match command {
        Command::Check | Command::Raw | Command::Build => 0,
        Command::Run | Command::Exec => MAX_ASKED,
        Command::Soak { .. } => 0,
    }
}

/// The numbers that texts write, if each is one that can be asked.
fn numbers_of(alloc: Global, texts: &[&str]) -> Result<Option<List<i32>>, NoMemory>
    ensures { IfOk result (λ numbers. numbers ≡ asked.numbers_of (map (λ text. text.now) texts.now)) }
{
    let mut numbers = List::new(alloc);
    for text in texts {
        let bytes = text.as_bytes();
        if !is_up_to(MAX_ASKED_NUMBER, bytes) {
            return Ok(None);
        }
        numbers.push(digits_value(bytes) as i32)?;
    }
    Ok(Some(numbers))
}

/// The numbers to be asked, if a command takes them.
fn asks_in(alloc: Global, command: Command, texts: &[&str]) -> Result<Option<List<i32>>, NoMemory>
    ensures { IfOk result (λ asks. asks ≡ asked.asks_of command (map (λ text. text.now) texts.now)) }
{
    if texts.len() <= most_numbers(command) {
        numbers_of(alloc, texts)
    } else {
        Ok(None)
    }
}

/// The same where none may have been found.
fn asks_of(
    alloc: Global,
    command: Command,
    texts: Option<&[&str]>,
) -> Result<Option<List<i32>>, NoMemory>
    ensures { IfOk result (λ asks. asks ≡ asked.asks_of command
        (asked.given (option_map (λ texts. map (λ text. text.now) texts.now) texts.entry))) }
{
    match texts {
        Some(texts) => asks_in(alloc, command, texts),
        None => Ok(Some(List::new(alloc))),
    }
}

/// The number of ticks that a text writes, if it is one.
fn ticks_of(text: &str) -> Option<u64>
    ensures { result ≡ asked.ticks_of text.now }
{
    let bytes = text.as_bytes();
    if is_up_to(MAX_TICKS, bytes) {
        Some(digits_value(bytes))
    } else {
        None
    }
}

/// What is asked for by a command, its numbers and the text of the ticks.
fn request_by(
    alloc: Global,
    command: Command,
    numbers: Option<&[&str]>,
    ticks: Option<&str>,
) -> Result<Option<Request>, NoMemory>
    ensures { IfOk result (λ request.
        request ≡ asked.request_by command
        (asked.given (option_map (λ texts. map (λ text. text.now) texts.now) numbers.entry))
        (option_map (λ text. text.now) ticks.entry)) }
{
    let Some(asks) = asks_of(alloc, command, numbers)? else {
        return Ok(None);
    };
    let Some(text) = ticks else {
        return Ok(None);
    };
    match ticks_of(text) {
        Some(ticks) => Ok(Some(Request {
            command,
            asks,
            ticks,
        })),
        None => Ok(None),
    }
}

/// The number of functions that a text writes, if it is one.
fn count_of(text: &str) -> Option<u32>
    ensures { result ≡ asked.count_of text.now }
{
    let bytes = text.as_bytes();
    if is_up_to(MAX_FUNCTIONS, bytes) && 1 <= digits_value(bytes) {
        Some(digits_value(bytes) as u32)
    } else {
        None
    }
}

/// The number of functions that numbers write, of which there is to be one.
fn functions_in(texts: &[&str]) -> Option<u32>
    ensures { result ≡ asked.functions_of (map (λ text. text.now) texts.now) }
{
    if texts.len() == 1 {
        count_of(texts[0])
    } else {
        None
    }
}

/// The same where none may have been found.
fn functions_of(texts: Option<&[&str]>) -> Option<u32>
    ensures { result ≡ asked.functions_of (asked.given (option_map (λ texts. map (λ text. text.now) texts.now) texts.entry)) }
{
    match texts {
        Some(texts) => functions_in(texts),
        None => None,
    }
}

/// What is asked for by `soak`, with its numbers and the text of the ticks.
fn soak_by(alloc: Global, numbers: Option<&[&str]>, ticks: Option<&str>) -> Option<Request>
    ensures { result ≡ asked.soak_by
        (asked.given (option_map (λ texts. map (λ text. text.now) texts.now) numbers.entry))
        (option_map (λ text. text.now) ticks.entry) }
{
    let functions = functions_of(numbers)?;
    let ticks = ticks_of(ticks?)?;
    Some(Request {
        command: Command::Soak { functions },
        asks: List::new(alloc),
        ticks,
    })
}

/// What is asked for by the word of a command, its numbers and the text of the ticks.
fn request_named(
    alloc: Global,
    word: &str,
    numbers: Option<&[&str]>,
    ticks: Option<&str>,
) -> Result<Option<Request>, NoMemory>
    ensures { IfOk result (λ request.
        request ≡ asked.request_named
        (asked.given (option_map (λ texts. map (λ text. text.now) texts.now) numbers.entry))
        (option_map (λ text. text.now) ticks.entry) word.now) }
{
    if word == "soak" {
        return Ok(soak_by(alloc, numbers, ticks));
    }
    match command_of(word) {
        Some(command) => request_by(alloc, command, numbers, ticks),
        None => Ok(None),
    }
}

/// What is asked for by what `clap` found.
fn request_in(alloc: Global, found: &ArgMatches<'_>) -> Result<Option<Request>, NoMemory>
    ensures { IfOk result (λ request. request ≡ asked.request_in (rows_of (found_of found.now))) }
{
    let Some(word) = found.get_str("command") else {
        return Ok(None);
    };
    let numbers = found.get_strs("numbers");
    request_named(alloc, word, numbers, found.get_str("ticks"))
}

/// What the words behind the program's name ask for.
///
/// They are one command, then numbers, with the option `--ticks` anywhere, as `clap` reads a command line without
/// subcommands. A number has one to ten decimal digits. `check`, `raw` and `build` take none, `run` and `exec` at most 64, each up
/// to 2,147,483,647, and `soak` exactly one, from 1 to 1,500; there are at most 1,000,000,000 ticks, and 10,000 where
/// nothing is said of them.
///
/// # Errors
///
/// [`WordsError::Refused`] exactly where the words ask for nothing, memory aside; [`WordsError::Memory`] where memory is
/// wanted.
pub fn request_of(alloc: Global, words: &[String]) -> Result<Request, WordsError>
    ensures request { IfOk result (λ request. asked.request_of (map string_bytes words.now) ≡ Some request) }
    ensures refused { IsErrOf result an_error.Refused → asked.request_of (map string_bytes words.now) ≡ None }
    ensures ticks { IfOk result (λ request. request.ticks ≤ MAX_TICKS) }
    ensures functions { IfOk result (λ request. HasFewFunctions request.command) }
{
    let found = parse_words(alloc, words)?;
    match request_in(alloc, &found) {
        Ok(Some(request)) => Ok(request),
        Ok(None) => Err(WordsError::Refused),
        Err(NoMemory) => Err(WordsError::Memory),
    }
}
