//! The laws of texts and what is read of them. Each is a clause of a function without parameters.
ghost use Rattle.text_laws.specs.Laws.{AcceptedAreNotRefused, ProgramsAreOne, ProgramsAreRead, SoakIsNotRefused};

/// A text has at most one typed program. A text that has one is not refused by a call that reads it, but for want of
/// memory, and a text whose program is accepted is not refused by a call that builds it.
pub fn law_of_texts()
    ensures one { ProgramsAreOne }
    ensures read { ProgramsAreRead }
    ensures accepted { AcceptedAreNotRefused }
{}

/// A call that builds the text that `soak_text` makes for 1 to 1,500 functions refuses it for want of memory alone.
pub fn law_of_soak_refusals()
    ensures { SoakIsNotRefused }
{}
