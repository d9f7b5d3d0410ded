//! What is proved of the syntax trees of texts, as clauses of functions without parameters.
ghost use Rattle.typing_soundness.specs.Texts.{AreTreesOfText, ProgramsAreTyped, ReadTyped};

/// The tree that the tokens of a text have is one as the laws of typing ask: its names are words, those in its paths are
/// without the mark of closures' names, bodies are blocks, `self` stands first alone, what is written without parts has
/// none, and each item is listed with all its bodies. So the program of every text that is accepted is well typed; its
/// items are ready, each body has its head and each closure its body. So is what is read of a text, which breaks no rule
/// of borrows either.
pub fn law_of_trees()
    ensures trees { AreTreesOfText }
    ensures programs { ProgramsAreTyped }
    ensures read { ReadTyped }
{}
