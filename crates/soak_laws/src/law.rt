//! The law of the program that `soak` runs. It is a clause of a function without parameters.
ghost use Rattle.soak_laws.specs.Laws.{SoakIsAccepted, SoakIsShort};

/// The text that `soak_text` makes for 1 to 1,500 functions has no more bytes than a text may have, and is that of an
/// accepted program: so `soak` refuses no text that it makes.
pub fn law_of_soak()
    ensures short { SoakIsShort }
    ensures accepted { SoakIsAccepted }
{}
