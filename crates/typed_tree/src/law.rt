//! A law of the numbers of nodes. It is a clause of a function without parameters, and a lemma of `proofs/`
//! that a proof above this crate cites.
ghost use Rattle.typed_tree.specs.Laws.{DistinctInOrder};

/// Where the numbers of a body's nodes rise in text order, no two nodes have one number.
pub fn law_numbers_in_order()
    ensures { DistinctInOrder }
{}
