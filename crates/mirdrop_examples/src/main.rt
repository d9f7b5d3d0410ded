//! Runs `mirdrop` on the texts of `data`, and writes whether what is answered is what stands there: a line for each
//! example of the table in `data/README.md`, one for each file of rows, and one for each check that is code.
#![tactic(auto)]

mod bits;
mod calls;
mod deep;
mod edges;
mod exact;
mod examples;
mod faults;
mod looks;
mod rows;
mod runs;
mod trees;

use std::alloc::AllocError;
use std::rt::Files;
use std::{fs, io};

/// Writes whether a check stands, or the first of its steps, counted from 0, that does not.
fn tell(rt: &impl Print, what: &str, wrong: Result<Option<usize>, AllocError>) -> io::Result<()> {
    match wrong? {
        None => println!(rt; "{what}: as written"),
        Some(step) => println!(rt; "{what}: otherwise at {step}"),
    }
}

fn faults_told(rt: &(impl Print + AllocGlobal)) -> io::Result<()> {
    let alloc = rt.alloc();
    tell(
        rt,
        "reads and writes that fail",
        faults::list_over_faults(alloc),
    )?;
    tell(
        rt,
        "each read and each write fails",
        faults::each_fault(alloc),
    )?;
    tell(rt, "each prefix is refused", faults::each_prefix(alloc))?;
    tell(rt, "bytes that are no text", faults::no_text(alloc))?;
    tell(rt, "the longest text", faults::long_texts(alloc))?;
    tell(rt, "deep runs", faults::deep_run(alloc))
}

fn trees_told(rt: &(impl Files + Print + AllocGlobal)) -> io::Result<()> {
    let alloc = rt.alloc();
    let queue = fs::read_to_string(rt, "job_queue.rs")?;
    let spelled = trees::spelled_back(alloc, queue.as_bytes());
    drop(queue);
    tell(rt, "texts spelled back", Ok(spelled))?;
    tell(rt, "long chains of structs", trees::long_chains(alloc))
}

fn layers_told(rt: &(impl Print + AllocGlobal)) -> io::Result<()> {
    let alloc = rt.alloc();
    tell(rt, "readers of std", Ok(edges::readers(alloc)))?;
    tell(rt, "writers of std", Ok(edges::writers(alloc)))?;
    tell(
        rt,
        "deep values are dropped",
        Ok(deep::drop_deep_values(alloc)),
    )?;
    tell(
        rt,
        "long paths are walked",
        Ok(deep::walk_deep_values(alloc)),
    )?;
    tell(rt, "long and deep graphs", Ok(deep::graphs(alloc)))?;
    tell(rt, "rows of bits", Ok(bits::rows_of_bits(alloc)))?;
    tell(
        rt,
        "calls that no run makes",
        Ok(calls::calls_of_no_run(alloc)),
    )
}

fn main(rt: HostRuntime) -> io::Result<()> {
    examples::write_examples(&rt)?;
    rows::write_rows(&rt)?;
    looks::write_looks(&rt)?;
    faults_told(&rt)?;
    trees_told(&rt)?;
    layers_told(&rt)
}
