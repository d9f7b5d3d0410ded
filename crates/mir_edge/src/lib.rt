//! Where bytes come in and go out: [`Source`] and [`Sink`], which tell what they have left or have
//! taken and count their faults; reading all of a source and writing a whole text; a source and a
//! sink in memory that fail where they are told to; and std's readers and writers as sources and
//! sinks.
#![tactic(auto)]

mod fault;
mod mem_sink;
mod mem_source;
mod sink;
mod source;
mod std_edge;

pub use fault::Fault;
pub use mem_sink::MemSink;
pub use mem_source::MemSource;
pub use sink::{Sink, WriteFault, write_whole};
pub use source::{ReadAllError, Source, read_all};
pub use std_edge::{StdSink, StdSource};
