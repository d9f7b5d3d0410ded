//! The laws of graphs' meaning. Each is a clause of a function without parameters.
ghost use Rattle.cfg_meaning.specs.Laws.{
  FuelOfFreeWalksIsIrrelevant,
  FreeWalkIsOneEquation,
  GraphRunGoesOn,
  FuelOfGraphRunsIsIrrelevant,
  RawGraphRunGoesOn,
  FuelOfWalksIsIrrelevant,
  WalkIsOneEquation,
};

/// The walk of a ranked body is one equation: it is what its first block does, and then a walk. The fuel on which the
/// definition recurses never ends it: with fewer ticks, or fewer choices of a free walk, two amounts of it give the same
/// walk; and with no more ticks than two amounts of fuel for nesting, a body of a graph runs the same.
pub fn law_of_walks()
    ensures values { WalkIsOneEquation }
    ensures values_fuel { FuelOfWalksIsIrrelevant }
    ensures free { FreeWalkIsOneEquation }
    ensures free_fuel { FuelOfFreeWalksIsIrrelevant }
    ensures nested { FuelOfGraphRunsIsIrrelevant }
{}

/// The third law: one tick more changes nothing of what a graph did: a strict or raw run that is not out of ticks is the same, and
/// otherwise its trace is a prefix of the one with a tick more.
pub fn law_l3()
    ensures strict { GraphRunGoesOn }
    ensures raw { RawGraphRunGoesOn }
{}
