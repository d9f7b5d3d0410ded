//! The law of lowered uses, a clause of a function without parameters.
ghost use Rattle.lower_laws.specs.Told.{LoweredUsesHaveSites};

/// Where a path of a lowered body reaches a bad use, the line by which the use is told has a site among those of the
/// program. That line is its own; a drop is told by the store behind it, since only an assignment drops a part of what
/// may be gone. The position of the site is that of the node that the use's own line is of, which is the node at which
/// the free run of the source is refused. All that is asked is that each jump names a loop around it, as in every well
/// typed program.
pub fn law_of_lowered_uses()
    ensures sites { LoweredUsesHaveSites }
{}
