//! The laws of the graphs of accepted texts. Each is a clause of a function without parameters.
ghost use Rattle.lower_laws.specs.Accepted.{AreLowerable, GraphsAreWellFormed};

/// Of a text that breaks no rule of items and bodies: its typed program is lowerable, since it is well typed, types come
/// after those in them, and names are words, of which none is a keyword; and so its raw graph is well formed.
pub fn law_of_accepted_graphs()
    ensures programs { AreLowerable }
    ensures graphs { GraphsAreWellFormed }
{}
