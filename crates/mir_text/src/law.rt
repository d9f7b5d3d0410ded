//! The law of answers.
ghost use Rattle.mir_text.specs.Laws.{OneFirstWrong, WellFormedIsListed, WellFormedIsNotWrong, OneGraphIsRead, OneGraphWasRead};

/// There is one first wrong line. Each line of a well formed graph stands, where its names are in UTF-8 and its lists are
/// short enough for numbers of 32 bits; so its listing has no wrong line. A graph that was read is equal as compared to a
/// well formed one of the same listing, and well formed too: so a fault is told of no listing of a well formed graph.
/// And where no two structs or enums have one name, and no two traits, one graph is read of a text, as compared.
pub fn law_of_answers()
    ensures one_line { OneFirstWrong }
    ensures listed { WellFormedIsListed }
    ensures never_wrong { WellFormedIsNotWrong }
    ensures one_graph { OneGraphIsRead }
    ensures one_read { OneGraphWasRead }
{}
