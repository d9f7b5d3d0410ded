//! The law of drop elaboration: a clause of a function without parameters, that a proof above this crate cites.
ghost use Rattle.drop_elaborate.specs.Law.{ElaborationKeepsRuns};

/// A graph that is elaborated from a ready raw graph, in which a drop drops what remains, has the trace and the end of
/// that graph, for all numbers to be asked and all ticks at which it is not stuck; and it drops whole values alone.
pub fn law_of_elaboration()
    ensures same { ElaborationKeepsRuns }
{}
