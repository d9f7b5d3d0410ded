//! The law of parts.
ghost use Rattle.listing_parts.specs.Reads.{OperandsAreRead, PlacesAreRead, RowsAreRead, StmtsAreRead, TermsAreNoStmts, TermsAreRead};

/// Each place, operand, row of operands, statement and terminator that is written is found by its reader, before
/// whatever ends it, if its numbers fit their fields and what it names is there. No terminator is read as a statement.
pub fn law_of_parts()
    ensures places { PlacesAreRead }
    ensures operands { OperandsAreRead }
    ensures rows { RowsAreRead }
    ensures stmts { StmtsAreRead }
    ensures terms { TermsAreRead }
    ensures apart { TermsAreNoStmts }
{}
