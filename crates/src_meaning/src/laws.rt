//! The laws of the source's meaning. Each is a clause of a function without parameters.
ghost use Rattle.src_meaning.specs.Laws.{FuelOfFreeRunsIsIrrelevant, FuelOfRunsIsIrrelevant, SourceRunGoesOn};
ghost use Rattle.src_meaning.specs.Takes.{TestsHoldWhereTaken};

/// The fuel by which a run is defined never ends it: with no more ticks than the fuel for nesting, or
/// with fewer choices of a free run than the fuel for turns, two amounts of it give the same run of a body.
pub fn law_of_runs()
    ensures values { FuelOfRunsIsIrrelevant }
    ensures free { FuelOfFreeRunsIsIrrelevant }
{}

/// The tests of a pattern hold exactly where it takes the value (The Rust Reference, "Patterns"): of any
/// effects that answer each single test by what stands there.
pub fn law_of_tests()
    ensures { TestsHoldWhereTaken }
{}

/// The second law: one tick more changes nothing of what a program did: a run that is not out of ticks is the same, and otherwise
/// its trace is a prefix of the one with a tick more.
pub fn law_l2()
    ensures { SourceRunGoesOn }
{}
