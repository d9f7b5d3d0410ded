ghost use Rattle.std.specs.Prelude.{◌≡◌, ◌<◌, ◌≤◌, length, IfOk, OnOk, OnErr};
ghost use Rattle.mir_edge.specs.Faults.{HasRisen, one_more};
ghost use Rattle.mir_edge.specs.Sink.{IsWrite};
ghost use Rattle.mir_edge.specs.Source.{IsRead};
ghost use Rattle.mir_edge.specs.StdEdge.{reader_of, writer_of, faults_of_source, faults_of_sink};

use crate::{Fault, Sink, Source};
use std::io::{Read, Write};

/// A std reader as a source. It tells the bytes that are left where the reader does, as one over
/// memory; standard input and files tell nothing.
///
/// Each error of the reader is a fault, `Interrupted` among them: such a read is not tried again.
/// The count of faults stops at the greatest `u64`.
#[derive(Drop)]
pub struct StdSource<R> {
    reader: R,
    faults: u64,
}

impl<R: Read> StdSource<R> {
    /// The reader as a source that has counted no fault.
    pub fn new(reader: R) -> StdSource<R>
        ensures reader { reader_of result ≡ reader }
        ensures faults { faults_of_source result ≡ 0 }
    {
        StdSource { reader, faults: 0 }
    }
}

impl<R: Read> Source for StdSource<R> {
    ghost left = { λ source. R.remaining (reader_of source) };

    ghost faults = { faults_of_source };

    fn read(&mut self, into: &mut [u8]) -> Result<usize, Fault>
        requires { 0 < length into.old }

        // As at any source.
        ensures within { IfOk result (λ n. n ≤ length into.new) }
        ensures counts { faults_of_source self.old ≤ faults_of_source self.new }
        ensures fault { OnErr result
            (HasRisen (faults_of_source self.old) (faults_of_source self.new)) }
        ensures bytes { IsRead (R.remaining (reader_of self.old)) (R.remaining (reader_of self.new))
            into.new result }

        // Each error is counted once, and nothing else is.
        ensures given { OnOk result (faults_of_source self.new ≡ faults_of_source self.old) }
        ensures failed { OnErr result
            (faults_of_source self.new ≡ one_more (faults_of_source self.old)) }
    {
        match self.reader.read(into) {
            Ok(count) => Ok(count),
            Err(_) => {
                self.faults = self.faults.saturating_add(1);
                Err(Fault)
            }
        }
    }
}

/// A std writer as a sink. It tells the bytes that it has taken where the writer does, as one over
/// memory; standard output and files tell nothing.
///
/// Each error of the writer is a fault, `Interrupted` among them, and so is a write that takes no
/// byte of a piece that is not empty. The count of faults stops at the greatest `u64`. Nothing is
/// flushed: give it a writer without a buffer of its own, as `io::writer` over standard output is.
#[derive(Drop)]
pub struct StdSink<W> {
    writer: W,
    faults: u64,
}

impl<W: Write> StdSink<W> {
    /// The writer as a sink that has counted no fault.
    pub fn new(writer: W) -> StdSink<W>
        ensures writer { writer_of result ≡ writer }
        ensures faults { faults_of_sink result ≡ 0 }
    {
        StdSink { writer, faults: 0 }
    }
}

impl<W: Write> Sink for StdSink<W> {
    ghost taken = { λ sink. W.contents (writer_of sink) };

    ghost faults = { faults_of_sink };

    fn write(&mut self, from: &[u8]) -> Result<usize, Fault>
        // As at any sink.
        ensures within { IfOk result (λ n. n ≤ length from.now) }
        ensures some { IfOk result (λ n. 0 < length from.now → 0 < n) }
        ensures counts { faults_of_sink self.old ≤ faults_of_sink self.new }
        ensures fault { OnErr result
            (HasRisen (faults_of_sink self.old) (faults_of_sink self.new)) }
        ensures bytes { IsWrite (W.contents (writer_of self.old)) (W.contents (writer_of self.new))
            from.now result }

        // Each error is counted once, and nothing else is.
        ensures taken { OnOk result (faults_of_sink self.new ≡ faults_of_sink self.old) }
        ensures failed { OnErr result
            (faults_of_sink self.new ≡ one_more (faults_of_sink self.old)) }
    {
        match self.writer.write(from) {
            Ok(count) if count > 0 || from.is_empty() => Ok(count),
            _ => {
                self.faults = self.faults.saturating_add(1);
                Err(Fault)
            }
        }
    }
}
