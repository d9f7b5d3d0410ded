//! The laws of places, of whole values, of serial numbers and of effects. Each is a clause of a function without
//! parameters, and a lemma of `proofs/` that a proof above this crate cites.
ghost use Rattle.store_model.specs.Laws.{FreeRunsStoreNoNever, RunsStoreNoNever, StandsAlong, StandsUnlessCutOff, PathsCompare, KeepsWithoutPlace, StandsAtPlace, StandsBelow, StandsAbove, StandsApart, LaterStays, ContainerStays, KeepsWhatStood, GivesBack, ChangesWithin, ChangesApart, WholeWithoutGone, WholeByTest, WholeBelow, WholeWithWhole, NotWholeWhereTaken, NothingBelowGone, NumberedBySerial, SerialsSplit, SerialsExchange, SerialsTaken, SerialsAlongSteps, StepsLead};

/// Where something stands, and how two paths lie to one another.
pub fn law_of_paths()
    ensures along { StandsAlong }
    ensures cut_off { StandsUnlessCutOff }
    ensures compare { PathsCompare }
    ensures steps { StepsLead }
{}

/// What a value taken or put at one path leaves at another: at the same place, below, above and apart.
pub fn law_of_what_stands()
    ensures nowhere { KeepsWithoutPlace }
    ensures at_place { StandsAtPlace }
    ensures below { StandsBelow }
    ensures above { StandsAbove }
    ensures apart { StandsApart }
    ensures gone { NothingBelowGone }
{}

/// What becomes of a value by taking and putting twice.
pub fn law_of_changes()
    ensures later { LaterStays }
    ensures container { ContainerStays }
    ensures same { KeepsWhatStood }
    ensures back { GivesBack }
    ensures within { ChangesWithin }
    ensures apart { ChangesApart }
{}

/// Which values are whole.
pub fn law_of_wholeness()
    ensures no_gone { WholeWithoutGone }
    ensures test { WholeByTest }
    ensures below { WholeBelow }
    ensures with_whole { WholeWithWhole }
    ensures taken { NotWholeWhereTaken }
{}

/// The serial numbers of a value in dropping order, and how taking and putting changes them.
pub fn law_of_serials()
    ensures numbered { NumberedBySerial }
    ensures split { SerialsSplit }
    ensures exchange { SerialsExchange }
    ensures taken { SerialsTaken }
    ensures along_steps { SerialsAlongSteps }
{}

/// No value of the type `!` is ever stored: what stores into a place of that type panics or halts, in a run and in a
/// free run. So what would come after it can be left out.
pub fn law_of_never_stores()
    ensures runs { RunsStoreNoNever }
    ensures free_runs { FreeRunsStoreNoNever }
{}
