//! The law of code.
ghost use Rattle.listing_lines.specs.CodeFound.{StatementsAreRead, StatementsAreSound, TerminatorsAreNoStatements, TerminatorsAreRead, TerminatorsAreSound};

/// Each line of a statement and of a terminator that may stand is found by its reader, also where a name stands more than
/// once, and then with the number of the first; and what is found is the line in front, as it is written, with names that
/// are there and numbers that fit. No line of a terminator is found as a statement.
pub fn law_of_code()
    ensures statements { StatementsAreRead }
    ensures terminators { TerminatorsAreRead }
    ensures apart { TerminatorsAreNoStatements }
    ensures only_statements { StatementsAreSound }
    ensures only_terminators { TerminatorsAreSound }
{}
