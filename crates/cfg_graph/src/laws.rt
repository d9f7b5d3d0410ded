//! The laws of graphs and of what is gone on a path. Each is a clause of a function without parameters, and a lemma of `proofs/`
//! that a proof above this crate cites.
ghost use Rattle.cfg_graph.specs.WellFormed.Faults.{WellFormedIsRanked, WellFormedHoldsNothing};
ghost use Rattle.cfg_graph.specs.Moves.Present.{GoneIsNotPresent, WholeIsAllPresent};
ghost use Rattle.cfg_graph.specs.WellFormed.TypeFaults.{AdtHoldingIsTested, ClosureHoldingIsTested};
ghost use Rattle.cfg_graph.specs.Moves.Gone.{WholenessIsTested};

/// The test for whole places, which looks at the places of a path's actions alone, tells exactly the places at and
/// below which no place is gone.
pub fn law_of_whole_places()
    ensures tested { WholenessIsTested }
{}

/// In a graph without a fault each edge to a block that is no turn block leads to a lower rank.
pub fn law_of_ranks()
    ensures ranked { WellFormedIsRanked }
{}

/// The tests for structs, enums and closures that hold themselves tell exactly those of which a type holds itself at
/// any depth, neither behind a box nor behind a reference.
pub fn law_of_holding()
    ensures adts { AdtHoldingIsTested }
    ensures closures { ClosureHoldingIsTested }
{}

/// In a graph without a fault no type holds itself but through a box or a reference, where the types in a type have
/// lower numbers than it.
pub fn law_of_items()
    ensures nothing_held { WellFormedHoldsNothing }
{}

/// What is present of a local after each action of a path in turn tells what looking back at a place tells: whether it
/// is gone, and whether it is whole.
pub fn law_of_presence()
    ensures gone { GoneIsNotPresent }
    ensures whole { WholeIsAllPresent }
{}
