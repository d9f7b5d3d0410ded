//! The program `mirdrop`: it hands its words and the standard streams to [`mirdrop`], and ends with the
//! status that this answers.
#![tactic(auto)]

use mir_edge::{StdSink, StdSource};
use mirdrop_program::mirdrop;
use std::alloc::{AllocError, Global};
use std::process::ExitCode;
use std::rt::Env;
use std::{env, io};

/// The words after the program's name.
fn words(rt: &(impl Env + AllocGlobal)) -> io::Result<Vec<String>> {
    let mut words = Vec::new(rt.alloc());
    for word in env::args(rt)?.skip(1) {
        words.push(word)?;
    }
    Ok(words)
}

/// The status where the runtime does not give the words: 5 for want of memory, else 7.
fn status_without_words(error: &io::Error) -> u8 {
    if error.kind() == io::ErrorKind::OutOfMemory {
        5
    } else {
        7
    }
}

fn main(rt: HostRuntime) -> ExitCode {
    let status = match words(&rt) {
        Ok(words) => {
            let mut source = StdSource::new(rt.reader());
            let mut sink = StdSink::new(io::writer(&rt));
            mirdrop(rt.alloc(), words.as_slice(), &mut source, &mut sink)
        }
        Err(error) => status_without_words(&error),
    };
    ExitCode::from(status)
}
