//! What plans tell of drops: clauses of functions without parameters, that a proof above this crate cites.
ghost use Rattle.drop_laws.specs.Laws.{EachPathHasATree, FlagsByPlans, KindsByPlans, OtherPlacesAreWhole};
ghost use Rattle.drop_laws.specs.Ranked.{NewRanksFit};

/// Each path of a body has a tree of the paths at and below it.
pub fn law_of_trees()
    ensures trees { EachPathHasATree }
{}

/// In a body of a ready graph the drop of a path is dead exactly where its plan has no rung, and all of the path is there
/// on each path that comes to the drop exactly where no path at or below it may be gone.
pub fn law_of_kinds()
    ensures kinds { KindsByPlans }
{}

/// There a drop that is neither dead nor plain needs exactly the flags that its plan reads.
pub fn law_of_flags()
    ensures flags { FlagsByPlans }
{}

/// There a place behind a reference, or within an element by an index, is whole where a drop of it comes.
pub fn law_of_other_places()
    ensures whole { OtherPlacesAreWhole }
{}

/// Of a ranked body, and of blocks that are made for its own and lead to earlier ones or to where these led, the whole is
/// ranked by new ranks.
pub fn law_of_ranks()
    ensures ranks { NewRanksFit }
{}
