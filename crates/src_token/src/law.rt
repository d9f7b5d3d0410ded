ghost use Rattle.std.specs.Prelude.{List, ℕ};
ghost use Rattle.src_token.specs.Tokens.{OneCutting};

/// Each text has exactly one cutting into pieces, so that it has one list of tokens or one first error.
pub fn law_of_tokens()
    ensures { (characters : List ℕ) → OneCutting characters }
{}
