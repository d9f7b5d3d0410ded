//! A law of spelling. It is a clause of a function without parameters, and a lemma of `proofs/` that a proof above
//! this crate cites.
ghost use Rattle.src_tree.specs.Laws.{SpelledOnce};

/// The first law: two levelled trees of one spelling are equal but for their positions.
pub fn law_l1()
    ensures { SpelledOnce }
{}
