//! The law of prepared graphs, fact by fact. Each is a clause of a function without parameters.
ghost use Rattle.lower_ready.specs.Laws.{BeginOnce, DropsAreRefilled, FreeNothing, GraphsArePrepared, MovesAreWell};
ghost use Rattle.lower_ready.specs.Laws.{NamedStays, ReferencesAreWell, ReferencesStandAlone, TypesHaveBool};

/// Of a program that is well typed and lowerable, as that of each accepted text is, the raw graph has these facts of a
/// graph that is prepared for drop elaboration: its types have `bool`; references stand alone, in no other type, field,
/// capture or result; no statement frees a box, and no edge leads to the block in which a body begins; a value is moved
/// out only where its place may be left gone, and what may not be left gone and is dropped gets a value at once; a local
/// of a reference type is a parameter that is not stored into, or its reference is made once, or no line names it. Where
/// the program breaks no rule of borrows, what a reference names stays on each path from its making to its uses; so the
/// graph is prepared.
pub fn law_of_prepared_graphs()
    ensures has_bool { TypesHaveBool }
    ensures alone { ReferencesStandAlone }
    ensures no_free { FreeNothing }
    ensures one_beginning { BeginOnce }
    ensures moves { MovesAreWell }
    ensures drops { DropsAreRefilled }
    ensures references { ReferencesAreWell }
    ensures named_stays { NamedStays }
    ensures graphs { GraphsArePrepared }
{}
