//! The last line of a trace, and the summary of a run.
ghost use Rattle.std.specs.Prelude.{◌≡◌, ◌++◌, ◌∷◌, [], IfOk, OnOk, string_bytes};
ghost use Rattle.mir_base.specs.Lines.{end_line};
ghost use Rattle.trace_summary.specs.Summary.{count_line, summary_of};

use crate::Counts;
use crate::counts::one_more;
use mir_base::{End, NoMemory};
use std::alloc::{AllocError, Global};

/// Puts the last line of a trace behind a text.
pub fn put_end_line(out: &mut String, end: &End) -> Result<(), AllocError>
    ensures { OnOk result (string_bytes out.new ≡ string_bytes out.old ++ end_line end.now) }
{
    match end {
        End::Returned => out.push_str("end: returned\n"),
        End::Panicked => out.push_str("end: panicked\n"),
        End::Aborted => out.push_str("end: aborted\n"),
        End::OutOfTicks => out.push_str("end: out of ticks\n"),
        End::Stuck { body, block } => write!(out, "end: stuck in body {body} block {block}\n"),
    }
}

/// Puts a line of a word and a number behind a text.
fn put_count(out: &mut String, word: &str, count: u64) -> Result<(), AllocError>
    ensures { OnOk result (string_bytes out.new ≡ string_bytes out.old ++ count_line word.now count) }
{
    write!(out, "{word} {count}\n")
}

/// The summary of a run of the program that `soak` runs with so many functions: how many events of each kind it told, how
/// many lines its trace has, and its last line.
///
/// # Errors
///
/// [`NoMemory`] where memory is wanted.
pub fn summary(
    alloc: Global,
    functions: u32,
    counts: &Counts,
    end: &End,
) -> Result<String, NoMemory>
    ensures { IfOk result (λ text. string_bytes text ≡ summary_of functions counts.now end.now) }
{
    let lines = one_more(counts.events)?;
    let mut out = String::new(alloc);
    put_count(&mut out, "soak", u64::from(functions))?;
    put_count(&mut out, "made", counts.made)?;
    put_count(&mut out, "dropped", counts.dropped)?;
    put_count(&mut out, "freed", counts.freed)?;
    put_count(&mut out, "forgotten", counts.forgotten)?;
    put_count(&mut out, "lines", lines)?;
    put_end_line(&mut out, end)?;
    Ok(out)
}
