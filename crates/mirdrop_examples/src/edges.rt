//! Sources and sinks over readers and writers of std, whole ones and broken ones.
use mir_edge::{ReadAllError, Sink, StdSink, StdSource, WriteFault, read_all, write_whole};
use std::alloc::Global;
use std::io;
use std::io::{Read, Write};

/// A reader and writer whose reads fail, and whose writes take nothing.
#[derive(Drop)]
struct Broken;

impl Read for Broken {
    fn read(&mut self, _into: &mut [u8]) -> io::Result<usize> {
        Err(io::Error::from(io::ErrorKind::Interrupted))
    }
}

impl Write for Broken {
    fn write(&mut self, _from: &[u8]) -> io::Result<usize> {
        Ok(0)
    }

    fn flush(&mut self) -> io::Result<()> {
        Ok(())
    }
}

fn is_read_whole(alloc: Global) -> bool {
    let mut source = StdSource::new(io::Cursor::new(b"hello".as_slice()));
    match read_all(alloc, &mut source, 5) {
        Ok(bytes) => bytes.as_slice() == b"hello".as_slice(),
        Err(_) => false,
    }
}

fn is_read_fault(alloc: Global) -> bool {
    let mut source = StdSource::new(Broken);
    matches!(
        read_all(alloc, &mut source, 5),
        Err(ReadAllError::ReadFault)
    )
}

/// A reader of five bytes, and one whose reads fail.
pub fn readers(alloc: Global) -> Option<usize> {
    if !is_read_whole(alloc) {
        return Some(0);
    }
    if !is_read_fault(alloc) {
        return Some(1);
    }
    None
}

/// Whether two pieces, one of them empty, are written as they stand.
fn is_written_whole(alloc: Global) -> bool {
    let mut bytes = Vec::new(alloc);
    let mut sink = StdSink::new(&mut bytes);
    let is_written = write_whole(&mut sink, b"call main\n") == Ok(()) && sink.write(b"") == Ok(0);
    is_written && bytes.as_slice() == b"call main\n".as_slice()
}

fn is_write_fault() -> bool {
    let mut sink = StdSink::new(Broken);
    write_whole(&mut sink, b"call") == Err(WriteFault { written: 0 })
}

/// A writer that takes all, and one that takes nothing.
pub fn writers(alloc: Global) -> Option<usize> {
    if !is_written_whole(alloc) {
        return Some(0);
    }
    if !is_write_fault() {
        return Some(1);
    }
    None
}
