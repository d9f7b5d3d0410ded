//! What holds of well typed programs, as clauses of a function without parameters. They are lemmas of `proofs/` too,
//! which a proof above this crate cites.
ghost use Rattle.well_typed.specs.Laws.{TestTells, NumbersDiffer, AreFinite, TypesDiffer, ArePrograms};

/// A typed program is well typed exactly where the test of all its rules says so. Then no two nodes of one of its
/// bodies have one number, none of its types holds itself but through a box, equal types have one number, and
/// `bool` and `()` are among them.
pub fn law_of_typing()
    ensures test { TestTells }
    ensures numbers { NumbersDiffer }
    ensures finite { AreFinite }
    ensures types { TypesDiffer }
    ensures scalars { ArePrograms }
{}
