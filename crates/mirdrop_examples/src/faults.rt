//! Sources and sinks that fail, texts that are cut short, and texts and runs at their limits: each check answers the first
//! of its steps, counted from 0, that ends otherwise than it should.
use crate::runs::{Edges, Ended, is_end, run, run_over};
use std::alloc::{AllocError, Global};

const MAIN: &[u8] = b"fn main() {}";

/// The words, which reads and which writes fail; the status, and what the sink holds.
type FaultRow = (
    &'static str,
    &'static [u32],
    &'static [u32],
    u8,
    &'static [u8],
);

static FAULTS: [FaultRow; 8] = [
    ("run", &[0], &[], 3, b"fault: read\n"),
    ("check", &[1], &[], 3, b"fault: read\n"),
    ("run", &[], &[1], 4, b"call"),
    ("run", &[], &[0], 4, b""),
    ("check", &[], &[1], 4, b"acce"),
    ("raw", &[], &[2], 4, b"mirdrop "),
    ("frob", &[], &[1], 4, b"refu"),
    ("run", &[0], &[1], 4, b"faul"),
];

/// Reads and writes that fail, over a sink that takes four bytes a call.
pub fn list_over_faults(alloc: Global) -> Result<Option<usize>, AllocError> {
    for (step, (words, failing_reads, failing_writes, status, written)) in FAULTS
        .iter()
        .enumerate()
    {
        let edges = Edges {
            read: 4096,
            write: 4,
            failing_reads,
            failing_writes,
        };
        if !is_end(&run_over(alloc, words, MAIN, &edges)?, *status, written) {
            return Ok(Some(step));
        }
    }
    Ok(None)
}

/// Two locals with a destructor each, and what a run of it writes.
const LOCALS: &[u8] =
    b"struct D(i32);\nimpl Drop for D { fn drop(&mut self) {} }\nfn take(x: D) {}\nfn main() { let a = D(1); let b = D(2); }";

const DROPPED: &[u8] =
    b"call main\nmake D#1\nmake D#2\ndrop D#2\nreturn D::drop\ndrop D#1\nreturn D::drop\nreturn main\nend: returned\n";

/// Words, the text that they read, and how many reads of at most 16 bytes tell all of it and its end. `soak` reads nothing.
static IN_TURN: [(&'static str, &'static [u8], usize); 3] = [
    ("run", LOCALS, 9),
    ("build", LOCALS, 9),
    ("soak 3", b"", 0),
];

/// The number of a read or write; none of these runs makes as many as `u32` counts.
fn number_of(call: usize) -> u32 {
    u32::try_from(call).unwrap_or(u32::MAX)
}

/// Whether the run ends with status 3 where one of its reads fails, whichever it is, and makes no read but these.
fn reads_fail(
    alloc: Global,
    words: &str,
    text: &[u8],
    reads: usize,
    whole: &Ended,
) -> Result<bool, AllocError> {
    for read in 0..=reads {
        let edges = Edges {
            read: 16,
            write: 4096,
            failing_reads: &[number_of(read)],
            failing_writes: &[],
        };
        let ended = run_over(alloc, words, text, &edges)?;
        let stands = if read < reads {
            is_end(&ended, 3, b"fault: read\n")
        } else {
            is_end(&ended, whole.status, whole.written.bytes())
        };
        if !stands {
            return Ok(false);
        }
    }
    Ok(true)
}

/// Whether the run ends with status 4 where one of its writes of a byte fails, whichever it is, and the sink holds the bytes
/// before that; where none fails, reads and writes of one byte give what large ones give.
fn writes_fail(alloc: Global, words: &str, text: &[u8], whole: &Ended) -> Result<bool, AllocError> {
    let bytes = whole.written.bytes();
    for write in 0..=bytes.len() {
        let edges = Edges {
            read: 1,
            write: 1,
            failing_reads: &[],
            failing_writes: &[number_of(write)],
        };
        let ended = run_over(alloc, words, text, &edges)?;
        let status = if write < bytes.len() { 4 } else { whole.status };
        if !is_end(&ended, status, &bytes[..write]) {
            return Ok(false);
        }
    }
    Ok(true)
}

fn fail_in_turn(alloc: Global, words: &str, text: &[u8], reads: usize) -> Result<bool, AllocError> {
    let whole = run(alloc, words, text)?;
    Ok(reads_fail(alloc, words, text, reads, &whole)? && writes_fail(alloc, words, text, &whole)?)
}

/// Each read and each write of `run`, `build`, `soak` and, last, of `exec` of what `build` writes fails in turn; `exec` writes
/// what `run` writes.
pub fn each_fault(alloc: Global) -> Result<Option<usize>, AllocError> {
    for (step, (words, text, reads)) in IN_TURN.iter().enumerate() {
        if !fail_in_turn(alloc, words, text, *reads)? {
            return Ok(Some(step));
        }
    }
    let built = run(alloc, "build", LOCALS)?;
    let listing = built.written.bytes();
    let reads = listing.len().div_ceil(16) + 1;
    let stands = is_end(&run(alloc, "exec", listing)?, 0, DROPPED)
        && fail_in_turn(alloc, "exec", listing, reads)?;
    Ok(if stands { None } else { Some(3) })
}

/// No text that is cut short before its last byte stands.
pub fn each_prefix(alloc: Global) -> Result<Option<usize>, AllocError> {
    for length in 0..116_usize {
        let ended = run(alloc, "check", &LOCALS[..length])?;
        if ended.status != (if length < 115 { 1 } else { 0 }) {
            return Ok(Some(length));
        }
    }
    Ok(None)
}

/// Nothing where the words and a text end as they should, and otherwise the first step.
fn at_once(
    alloc: Global,
    words: &str,
    text: &[u8],
    status: u8,
    written: &[u8],
) -> Result<Option<usize>, AllocError> {
    let ended = run(alloc, words, text)?;
    Ok(if is_end(&ended, status, written) {
        None
    } else {
        Some(0)
    })
}

/// Bytes that are no UTF-8.
pub fn no_text(alloc: Global) -> Result<Option<usize>, AllocError> {
    at_once(
        alloc,
        "check",
        b"fn \xff",
        1,
        b"refused: 5 NotUtf8 at 1:4\n",
    )
}

/// The longest text that is read, of 131,072 bytes, and one that is longer by a byte.
pub fn long_texts(alloc: Global) -> Result<Option<usize>, AllocError> {
    for (step, (length, status, written)) in LENGTHS.iter().enumerate() {
        let comment = "x".repeat(alloc, *length)?;
        let text = format!(in alloc; "//{}\nfn main() {{}}", comment.as_str())?;
        if !is_end(&run(alloc, "check", text.as_bytes())?, *status, written) {
            return Ok(Some(step));
        }
    }
    Ok(None)
}

/// The length of a comment before the text, the status, and what is written.
static LENGTHS: [(usize, u8, &[u8]); 2] = [
    (131057, 0, b"accepted\n"),
    (131058, 6, b"refused: text over 131072 bytes\n"),
];

/// 200,000 nested calls.
pub fn deep_run(alloc: Global) -> Result<Option<usize>, AllocError> {
    let mut calls = "call main\n".repeat(alloc, 200_000)?;
    calls.push_str("end: out of ticks\n")?;
    at_once(
        alloc,
        "run --ticks 200000",
        b"fn main() { main(); }",
        12,
        calls.as_bytes(),
    )
}
