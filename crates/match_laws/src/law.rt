//! The law of patterns in runs on values. It is a clause of a function without parameters.
ghost use Rattle.match_laws.specs.Matches.{ArmsAreTakenAsPatternsTake, TestsAnswerAsPatternsTake};

/// Where a whole value of its type stands at the place that is matched, the tests of a well typed pattern are answered as
/// the pattern takes the value, and change nothing; and an arm is taken exactly where its pattern takes the value and its
/// guard, if it has one, gives true (The Rust Reference, "Match expressions").
pub fn law_of_matches()
    ensures tests { TestsAnswerAsPatternsTake }
    ensures arms { ArmsAreTakenAsPatternsTake }
{}
