//! The graph with exact drops of a text.
ghost use Rattle.std.specs.Prelude.{◌≡◌, ◌<◌, ◌-◌, ◌^◌, IfOk, IfErr, length};
ghost use Rattle.mir_pipeline.specs.Built.{IsBuiltOf};
ghost use Rattle.mir_pipeline.specs.Graphs.{IsNotAccepted};

use crate::refusal::Refusal;
use crate::uses::{Watched, checked_moves_of};
use cfg_build::Lowered;
use cfg_graph::Graph;
use drop_graphs::{Elaborated, elaborate_with};
use mir_base::NoMemory;
use std::alloc::Global;

/// The graph of a lowered program. The sites of its uses are let go.
fn without_sites(lowered: Lowered) -> Graph
    ensures { result ≡ lowered.graph }
{
    let Lowered { graph, sites } = lowered;
    drop(sites);
    graph
}

/// The graph with exact drops of an accepted text of at most 4,294,967,294 bytes, and how many drops of its raw graph are
/// of each kind. It is well formed, and by strict steps it runs exactly as the program does, which is never stuck. Where a
/// run returns or unwinds to its top, each value with a serial number is dropped, freed or forgotten exactly once; where it
/// ends otherwise, at most once.
///
/// # Errors
///
/// As [`crate::check`]: it refuses what `check` refuses, and for the same reason.
pub fn build(alloc: Global, text: &[u8]) -> Result<Elaborated, Refusal>
    requires { length text.now < 2 ^ 32 - 1 }
    ensures built { IfOk result (λ done. IsBuiltOf text.now done) }
    ensures refused { IfErr result (λ refusal. IsNotAccepted text.now refusal) }
{
    let watched = checked_moves_of(alloc, text)?;
    let Watched { lowered, gone } = watched;
    match elaborate_with(alloc, without_sites(lowered), gone) {
        Ok(done) => Ok(done),
        Err(NoMemory) => Err(Refusal::Memory),
    }
}
