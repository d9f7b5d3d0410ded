//! The law of lowered paths, a clause of a function without parameters.
ghost use Rattle.lower_laws.specs.Refused.{LoweredPathsMeetExactly, LoweredPathsMeetItsRefusals};

/// A path of a lowered body reaches a bad use exactly where the free run of the body of the source with the same choices
/// is refused, at the same place and the same node, before a value of type `!` is copied or stored. Where no path meets
/// a bad use, no free run is refused. All that is asked is that each jump names a loop around it, as in every well typed
/// program.
///
/// Where the graph of a program has no fault, and the numbers of each body's nodes rise, there is no word of such values:
/// a path reaches no bad use behind one, and no path meets a bad use exactly where no free run is refused.
pub fn law_of_lowered_paths()
    ensures meets { LoweredPathsMeetItsRefusals }
    ensures exactly { LoweredPathsMeetExactly }
{}
