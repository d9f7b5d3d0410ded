//! The laws of soundness. Each is a clause of a function without parameters.
ghost use Rattle.soundness_values.specs.Laws.{CallsLeaveWhole, EndsOnce, NeverStuck};
ghost use Rattle.soundness_values.specs.RunCalls.{CallsOfRuns};

/// The fifth law: a program that is well typed, breaks no rule of borrows and is accepted is never stuck, whatever numbers
/// are asked and however many ticks a run may take. A call whose arguments are of their types, and whose references may be
/// passed together, is never stuck, changes older activations only at and below the places that its `&mut` arguments name,
/// and leaves whole what its references name; and each call inside a run is such a call.
pub fn law_l5()
    ensures never_stuck { NeverStuck }
    ensures calls { CallsLeaveWhole }
    ensures calls_of_runs { CallsOfRuns }
{}

/// The sixth law: where a run of such a program returns or unwinds to its top, each value that has a serial number is
/// dropped, freed or forgotten exactly once; where it ends otherwise, at most once.
pub fn law_l6()
    ensures once { EndsOnce }
{}
