//! The law of lowered graphs, by kinds of faults and whole. Each is a clause of a function without parameters.
ghost use Rattle.lower_laws.specs.Laws.{GraphsAreWellFormed, HeadsHaveNoFault, InternedStandsLast, ItemsHaveNoFault};
ghost use Rattle.lower_laws.specs.Laws.{MainIsThere, NoLineHasAFault, NoLocalHasAFault, OrderIsTested, TestTells};

/// The raw graph of a well typed program is well formed, where the program is lowerable, as that of each accepted text is:
/// the types in a type have lower numbers, and the names of structs, enums, variants and methods can stand in a listing.
///
/// So no struct, enum, trait, impl or closure has a fault; no body with its head, its name and its locals; no local by its
/// type; no statement and no terminator; and there is a `main`. Whether a program is lowerable is told by a
/// test; a table of types keeps its part of it where a type of types in it is added to its end.
pub fn law_of_lowered_graphs()
    ensures test { TestTells }
    ensures order { OrderIsTested }
    ensures interned { InternedStandsLast }
    ensures items { ItemsHaveNoFault }
    ensures heads { HeadsHaveNoFault }
    ensures locals { NoLocalHasAFault }
    ensures lines { NoLineHasAFault }
    ensures main { MainIsThere }
    ensures graphs { GraphsAreWellFormed }
{}
