//! The law of what is left of a run.
ghost use Rattle.mir_machine.specs.Laws.{
  BodyIsOneEquation,
  CallIsOneEquation,
  HaltEndsTheRun,
  RawRunIsLeft,
  RunIsLeft,
  StuckBodyHasTheBlockOfItsCaller,
  WalkIsOneEquation,
};

/// What is left of a run is told by the list of what waits and by how the youngest body ends: a run is what is left as
/// `main` is entered; a body that is entered spends a tick, tells so and walks from its first block, with the same
/// bodies to call; the walk of a ranked body is what its block does, and then a walk; a call leaves the caller to wait;
/// and where a run halts nothing else comes.
pub fn law_of_runs()
    ensures strict { RunIsLeft }
    ensures raw { RawRunIsLeft }
    ensures bodies { BodyIsOneEquation }
    ensures walks { WalkIsOneEquation }
    ensures calls { CallIsOneEquation }
    ensures halts { HaltEndsTheRun }
    ensures stuck { StuckBodyHasTheBlockOfItsCaller }
{}
