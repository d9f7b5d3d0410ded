//! The laws of the lowering. Each is a clause of a function without parameters.
ghost use Rattle.lower_rules.specs.Laws.{CodeIsLowered, LoweredHasSites, LoweredIsPrepared, LoweredIsRanked, LoweredIsSmall};
ghost use Rattle.lower_rules.specs.Laws.{LoweredRefillsParts};
ghost use Rattle.lower_rules.specs.Laws.{LoweredKeepsToCleanup, LoweredRunsAsItsSource};
ghost use Rattle.lower_rules.specs.Laws.{LoweredWalksAsItRunsFreely, WellTypedNamesItsLoops};

/// The raw graph of a typed program runs as the program does: with the same numbers to be asked and the same ticks, it
/// has the same trace and the same end, but for the block in which both are stuck. For every list of choices a body of
/// it walks as the body of the program runs freely, and meets a refused use of the same node. Each edge leads to a
/// block that exists, and lowers the rank but for that to a turn block; none leads to the block in which a body begins.
/// From other blocks exactly unwinding leads to cleanup blocks, which keep to themselves. No statement frees a box, and
/// a place that may not be left gone gets a value again as soon as it is dropped; what is dropped is a whole local, or
/// what an assignment puts a value into at once. A body of `k` nodes has at most
/// `32 * k * (k + 2)` blocks. Each line that uses a place has a site, with the position, the use and the place in words
/// of the node whose number the line has. What is made of the code of a body, in which its scopes, branches and loops
/// stand as a tree, is what the body lowers to. All that is asked is that each jump names a loop around it, as in every well
/// typed program.
pub fn law_of_lowering()
    ensures values { LoweredRunsAsItsSource }
    ensures free { LoweredWalksAsItRunsFreely }
    ensures ranked { LoweredIsRanked }
    ensures cleanup { LoweredKeepsToCleanup }
    ensures prepared { LoweredIsPrepared }
    ensures refills { LoweredRefillsParts }
    ensures small { LoweredIsSmall }
    ensures sites { LoweredHasSites }
    ensures typed { WellTypedNamesItsLoops }
    ensures codes { CodeIsLowered }
{}
