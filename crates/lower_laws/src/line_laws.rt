//! The law of lowered lines, a clause of a function without parameters.
ghost use Rattle.lower_laws.specs.Lines.{LoweredLinesHaveNoFault};

/// No line of a lowered body has a fault, where the program is well typed and the types of the body's locals have none:
/// what a line names exists, places and operands have the types that it wants, no value of a `dyn` type is moved or
/// stored, what becomes a trait object has an impl; edges lead to blocks, lower the rank unless a turn begins there, and
/// keep to cleanup blocks.
pub fn law_of_lowered_lines()
    ensures lines { LoweredLinesHaveNoFault }
{}
