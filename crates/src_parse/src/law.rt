//! What is proved of the parser of `src_tree` as a function of a stack of nodes and a token. It is a clause of a
//! function without parameters, and lemmas of `proofs/` that a proof above cites.
ghost use Rattle.src_parse.specs.Reads.{ReadsBeginnings, ReadsTrees};

/// The parser goes on behind tokens exactly where the spelling of some levelled tree begins with them, and what
/// it has at their end is exactly the levelled tree that they spell.
pub fn law_of_reading()
    ensures beginnings { ReadsBeginnings }
    ensures trees { ReadsTrees }
{}
