//! The tree and the scopes of a run.
ghost use Rattle.unwind_tree.specs.Laws.{FollowsScopes};

/// A tree that follows the scopes of a run, change by change, answers at each exit what the run drops there, in its
/// order.
pub fn law_of_exits()
    ensures { FollowsScopes }
{}
