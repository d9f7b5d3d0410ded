//! The laws of moves. Each is a clause of a function without parameters, that a proof above this crate cites.
ghost use Rattle.init_flow.specs.Concerns.{UsesAreTold};
ghost use Rattle.init_flow.specs.Moved.{SolvedSays};

/// A solution of an analysis of moves has a bit on exactly where some path of the body leads to the block with the
/// place gone there, or present there. The premises are the clauses of `MaybeGone::new` or `MaybeInit::new`, and of
/// `solve`.
pub fn law_of_moves()
    ensures solved { SolvedSays }
{}

/// After actions of a body a use of a place is bad exactly where one of the paths that it concerns is gone: of the paths
/// above the place, at or below it, or at or below the array of an index, as the use is.
pub fn law_of_bad_uses()
    ensures told { UsesAreTold }
{}
