//! Runs of the program over a text in memory.
ghost use Rattle.std.specs.Prelude.{◌<◌};

use mir_base::{List, NoMemory};
use mir_edge::{MemSink, MemSource};
use mirdrop_program::mirdrop;
use std::alloc::{AllocError, Global};

/// What the program wrote, and its status.
#[derive(Drop)]
pub struct Ended {
    pub status: u8,
    pub written: MemSink,
}

/// How many bytes a read gives and a write takes at most, and which reads and writes fail, counted from 0.
#[derive(Clone, Copy)]
pub struct Edges<'a> {
    pub read: usize,
    pub write: usize,
    pub failing_reads: &'a [u32],
    pub failing_writes: &'a [u32],
}

fn words_of(alloc: Global, words: &str) -> Result<Vec<String>, AllocError> {
    let mut all = Vec::new(alloc);
    for word in words.split_whitespace() {
        all.push(String::from_str(alloc, word)?)?;
    }
    Ok(all)
}

fn source_of(alloc: Global, text: &[u8], edges: &Edges<'_>) -> Result<MemSource, AllocError>
    requires { 0 < edges.now.read }
{
    let failing = List::from_vec(edges.failing_reads.to_vec(alloc)?);
    let text = List::from_vec(text.to_vec(alloc)?);
    Ok(MemSource::new(text, edges.read, failing))
}

fn sink_of(alloc: Global, edges: &Edges<'_>) -> Result<MemSink, AllocError>
    requires { 0 < edges.now.write }
{
    let failing = List::from_vec(edges.failing_writes.to_vec(alloc)?);
    let mut sink = MemSink::new(alloc, edges.write, failing);
    match sink.reserve(4_000_000) {
        Ok(()) => Ok(sink),
        Err(NoMemory) => Err(AllocError),
    }
}

/// What the words and a text give, over a source and a sink with these edges.
pub fn run_over(
    alloc: Global,
    words: &str,
    text: &[u8],
    edges: &Edges<'_>,
) -> Result<Ended, AllocError>
    requires read { 0 < edges.now.read }
    requires write { 0 < edges.now.write }
{
    let words = words_of(alloc, words)?;
    let mut source = source_of(alloc, text, edges)?;
    let mut written = sink_of(alloc, edges)?;
    let status = mirdrop(alloc, words.as_slice(), &mut source, &mut written);
    Ok(Ended { status, written })
}

/// What the words and a text give where nothing fails.
pub fn run(alloc: Global, words: &str, text: &[u8]) -> Result<Ended, AllocError> {
    let edges = Edges {
        read: 4096,
        write: 4096,
        failing_reads: &[],
        failing_writes: &[],
    };
    run_over(alloc, words, text, &edges)
}

/// Whether the program ended with this status and wrote this.
pub fn is_end(ended: &Ended, status: u8, written: &[u8]) -> bool {
    ended.status == status && ended.written.bytes() == written
}
