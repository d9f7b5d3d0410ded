//! The program `mirdrop_look`: it answers the text of the standard input, for people to read.
#![tactic(auto)]

ghost use Rattle.std.specs.Prelude.{◌≤◌};

use look_program::{Answer, Look, Request, WordsError, answer_text, look_of, trace_of, trace_text};
use mir_base::NoMemory;
use mir_base::limits::MAX_TEXT_BYTES;
use mir_edge::{ReadAllError, Sink, StdSink, StdSource, read_all, write_whole};
use std::alloc::AllocError;
use std::process::ExitCode;
use std::rt::Env;
use std::{env, io};

const USAGE: &[u8] = b"mirdrop_look WORD < FILE

  explain   why a program or a listing is refused, with the line that it is about
  dot       its graph, as Graphviz reads it: mirdrop_look dot < FILE | dot -Tsvg
  dot-built the graph with exact drops of a program, with its drop flags and ladders marked
  trace     a run of a program, each line with the place that made it and what is alive then;
            numbers for ask() and --ticks N may follow, as behind mirdrop run
  --help    this page

Status: 0 done, 1 the text is refused, 2 other words, 3 the input failed, 4 the output failed, 5 out of memory,
6 a text over 131072 bytes, 7 the words could not be read.
";

/// The words after the program's name.
fn words(rt: &(impl Env + AllocGlobal)) -> io::Result<Vec<String>> {
    let mut words = Vec::new(rt.alloc());
    for word in env::args(rt)?.skip(1) {
        words.push(word)?;
    }
    Ok(words)
}

/// Writes all that goes with a status, and answers the status, or 4 where the sink fails.
fn write<K: Sink>(sink: &mut K, status: u8, text: &[u8]) -> u8 {
    match write_whole(sink, text) {
        Ok(()) => status,
        Err(_) => 4,
    }
}

/// Writes the answer to a text.
fn write_answer<K: Sink>(sink: &mut K, answer: Result<Answer, NoMemory>) -> u8 {
    match answer {
        Ok(answer) => write(sink, answer.status, answer.text.as_slice()),
        Err(NoMemory) => 5,
    }
}

/// Traces a run of the text of the standard input, with at most 1,000,000,000 ticks.
fn trace_input(rt: &HostRuntime, request: &Request) -> u8
    requires { request.now.ticks ≤ 1000000000 }
{
    let mut source = StdSource::new(rt.reader());
    let mut sink = StdSink::new(io::writer(rt));
    match read_all(rt.alloc(), &mut source, MAX_TEXT_BYTES) {
        Ok(text) => write_answer(
            &mut sink,
            trace_text(
                rt.alloc(),
                request.asks.as_slice(),
                request.ticks,
                text.as_slice(),
            ),
        ),
        Err(error) => write_fault(&mut sink, error),
    }
}

/// Traces a run, as the words behind `trace` ask for it.
fn trace(rt: &HostRuntime, words: &[String]) -> u8 {
    match trace_of(rt.alloc(), words) {
        Ok(request) => trace_input(rt, &request),
        Err(WordsError::Refused) => tell_usage(rt, 2),
        Err(WordsError::Memory) => 5,
    }
}

/// Says why the standard input was not read, and answers the status.
fn write_fault<K: Sink>(sink: &mut K, error: ReadAllError) -> u8 {
    match error {
        ReadAllError::ReadFault => write(sink, 3, b"fault: read\n"),
        ReadAllError::TooLong => write(sink, 6, b"refused: text over 131072 bytes\n"),
        ReadAllError::Memory => 5,
    }
}

/// Answers the text of the standard input.
fn answer_input(rt: &HostRuntime, look: Look) -> u8 {
    let mut source = StdSource::new(rt.reader());
    let mut sink = StdSink::new(io::writer(rt));
    match read_all(rt.alloc(), &mut source, MAX_TEXT_BYTES) {
        Ok(text) => write_answer(&mut sink, answer_text(rt.alloc(), look, text.as_slice())),
        Err(error) => write_fault(&mut sink, error),
    }
}

/// Whether the words ask how the program is called: `--help` alone.
fn asks_usage(words: &[String]) -> bool {
    words.len() == 1 && words[0].as_str() == "--help"
}

/// Says how the program is called, for a status.
fn tell_usage(rt: &HostRuntime, status: u8) -> u8 {
    let mut sink = StdSink::new(io::writer(rt));
    write(&mut sink, status, USAGE)
}

/// Does what the words ask for.
fn answer(rt: &HostRuntime, words: &[String]) -> u8 {
    if let Some((first, rest)) = words.split_first() {
        if first.as_str() == "trace" {
            return trace(rt, rest);
        }
    }
    match look_of(words) {
        Some(look) => answer_input(rt, look),
        None if asks_usage(words) => tell_usage(rt, 0),
        None => tell_usage(rt, 2),
    }
}

fn main(rt: HostRuntime) -> ExitCode {
    let status = match words(&rt) {
        Ok(words) => answer(&rt, words.as_slice()),
        Err(_) => 7,
    };
    ExitCode::from(status)
}
