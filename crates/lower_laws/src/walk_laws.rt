//! The law of free walks, a clause of a function without parameters.
ghost use Rattle.lower_laws.specs.Meets.{FreeWalksMeetWhatPathsMeet, WellFormedPanicsLeadElsewhere};

/// A free walk of a ranked body, of which no panic leads where its way on leads, meets the bad use that a path with the
/// same choices reaches, and no other. Each body of a graph without a fault is such a body.
pub fn law_of_free_walks()
    ensures meets { FreeWalksMeetWhatPathsMeet }
    ensures elsewhere { WellFormedPanicsLeadElsewhere }
{}
