//! The law of traits.
ghost use Rattle.listing_lines.specs.TraitsFound.{TraitsAreRead, TraitsAreSound};

/// Each line of a trait that may stand in its place is found by its reader; and what is found is the line in front, as it
/// is written.
pub fn law_of_traits()
    ensures traits { TraitsAreRead }
    ensures only_traits { TraitsAreSound }
{}
