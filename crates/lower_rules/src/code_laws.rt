//! The laws of code. Each is a clause of a function without parameters.
ghost use Rattle.lower_rules.specs.CodeLaws.{RunsAsItsSource, WalksAsItRunsFreely};

/// A graph that holds the code of a typed program runs as the program does: with the same numbers to be asked and the
/// same ticks, its raw run has the same trace and the same end, but for the block in which both are stuck. For every
/// list of choices a body of it walks as the body of the program runs freely, and meets a refused use of the same node.
/// All forms of the language are among them.
pub fn law_of_code()
    ensures values { RunsAsItsSource }
    ensures free { WalksAsItRunsFreely }
{}
