//! The law of equal graphs.
ghost use Rattle.listing_runs.specs.Runs.{OneRunAListing, RawRunsAlike, RunsAlike, TextsAlike};

/// Two well formed graphs that are equal as compared run alike: with the same numbers to be asked and as many ticks they
/// have one trace and one end, strictly as well as raw, and one text is written of their strict runs. So it is of two
/// graphs of one listing: a listing that is read back runs as the graph that was written.
pub fn law_of_equal_graphs()
    ensures runs { RunsAlike }
    ensures raw_runs { RawRunsAlike }
    ensures texts { TextsAlike }
    ensures listed { OneRunAListing }
{}
