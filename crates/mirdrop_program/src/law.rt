//! What `exec` owes to what `build` wrote. The law is the clause of a function without parameters.
ghost use Rattle.mirdrop_program.specs.Laws.{BuiltIsExecuted};

/// To the listing that `build` writes for an accepted text, `exec` answers what `run` answers to that text, for the same
/// asked numbers and ticks: the trace of the program with the status of its end. So it never ends with status 13 there.
pub fn law_of_exec()
    ensures { BuiltIsExecuted }
{}
