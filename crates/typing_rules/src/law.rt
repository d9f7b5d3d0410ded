//! What is proved of the rules, as clauses of functions without parameters.
ghost use Rattle.typing_rules.specs.Replaced.{RoundsFindTheLeast};
ghost use Rattle.typing_rules.specs.RowLaws.{TypesAreKept, Leaves, Operators, Places, Arguments, BuiltIns, Aggregates, Branches, Jumps, Blocks, Patterns, WrittenTypes, Matches, Calls};

/// The `&mut` parameters that a call may replace as a whole, which are found in rounds, are exactly the least set
/// such that a parameter is in it where its body stores into exactly what it names, or passes it on for a parameter
/// in the set.
pub fn law_of_replaced()
    ensures { RoundsFindTheLeast }
{}

/// Where the checks of a node's parts give what is well typed, the rows of these forms do: what they give is well typed
/// in each later state of the walk, wherever it stands whose names and loops are those of the environment. A type that
/// is asked for gets one number, and all that is known of types stays.
pub fn law_of_rows()
    ensures types { TypesAreKept }
    ensures leaves { Leaves }
    ensures operators { Operators }
    ensures places { Places }
    ensures arguments { Arguments }
    ensures built_ins { BuiltIns }
    ensures aggregates { Aggregates }
    ensures branches { Branches }
    ensures jumps { Jumps }
    ensures blocks { Blocks }
    ensures patterns { Patterns }
    ensures written { WrittenTypes }
    ensures matches { Matches }
    ensures calls { Calls }
{}
