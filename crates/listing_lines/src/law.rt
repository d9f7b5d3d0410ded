//! The law of lines.
ghost use Rattle.listing_lines.specs.LinesFound.{BlocksAreRead, BodiesAreRead, ClosuresAreRead, ImplsAreRead, LocalsAreRead};
ghost use Rattle.listing_lines.specs.LinesFound.{BlocksAreSound, BodiesAreSound, ClosuresAreSound, ImplsAreSound, LocalsAreSound};

/// Each line of a body, a local, a block, a closure and an impl that may stand in its place is found by its reader; and
/// what is found is the line in front, as it is written.
pub fn law_of_lines()
    ensures bodies { BodiesAreRead }
    ensures locals { LocalsAreRead }
    ensures blocks { BlocksAreRead }
    ensures closures { ClosuresAreRead }
    ensures impls { ImplsAreRead }
    ensures only_bodies { BodiesAreSound }
    ensures only_locals { LocalsAreSound }
    ensures only_blocks { BlocksAreSound }
    ensures only_closures { ClosuresAreSound }
    ensures only_impls { ImplsAreSound }
{}
