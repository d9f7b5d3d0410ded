//! What is proved of the checks of expressions, as clauses of functions without parameters.
ghost use Rattle.typing_soundness.specs.Expressions.{Loops, Paths, Callees, AreSound, Closures, Functions};
ghost use Rattle.typing_soundness.specs.Items.{
  AdtsAreTyped,
  ClosuresAreTyped,
  DropsHaveHeads,
  FieldsDiffer,
  HasMain,
  HeadsAreTyped,
  ImplsAreTyped,
  ImplsDiffer,
  NamesDiffer,
  NamesOfItems,
  TraitsAreTyped,
  TypesAreFinite,
  TypesDiffer,
  TypesKeepLimits,
};
ghost use Rattle.typing_soundness.specs.Numbers.{StaysTyped, AreInOrder};
ghost use Rattle.typing_soundness.specs.Program.{
  AreInTextOrder,
  BodiesAreTyped,
  BodiesHaveHeads,
  ItemsAreReady,
  NamesAreWords,
  ProgramsAreTyped,
};
ghost use Rattle.typing_soundness.specs.Types.{OneNumber, OneParamNumber};
ghost use Rattle.typing_soundness.specs.Walks.{Expressions, Patterns};

/// What the check of an expression or a pattern adds to a walk: each node has a number of its own, which is given out
/// by the check, each break is carried by a node, and bodies that come are those of the closures in its text, in their
/// order, with the types that are written.
pub fn law_of_walks()
    ensures patterns { Patterns }
    ensures expressions { Expressions }
{}

/// What is well typed stays so where its nodes get other numbers, by a function that is one to one on the numbers that
/// there are; and numbers in the order of the text rise.
pub fn law_of_numbers()
    ensures typed { StaysTyped }
    ensures order { AreInOrder }
{}

/// What is typed is well typed: each expression gives what is well typed in each later state of the walk, wherever it
/// stands whose names and loops are those of the environment, and each body of a closure, a function or a method that
/// is whole is well typed among all later items, where its head has its types.
pub fn law_of_expressions()
    ensures loops { Loops }
    ensures paths { Paths }
    ensures callees { Callees }
    ensures expressions { AreSound }
    ensures closures { Closures }
    ensures functions { Functions }
{}

/// A type that is written has one number, under all rules or those on names alone, in one state and in a later one: so
/// have the types of a head and those of its body.
pub fn law_of_written_types()
    ensures types { OneNumber }
    ensures params { OneParamNumber }
{}

/// Of a typed program: its bodies stand in the order of their numbers. Of a text that is accepted: its items are ready,
/// so that each type is there and what it holds may stand alone; each body has its head and each closure its body; each
/// body is well typed, and so is the whole program.
pub fn law_of_programs()
    ensures order { AreInTextOrder }
    ensures items { ItemsAreReady }
    ensures heads { BodiesHaveHeads }
    ensures bodies { BodiesAreTyped }
    ensures programs { ProgramsAreTyped }
{}

/// Of the items of a text that is accepted: equal types have one number, with `bool` and `()` among them, and no type
/// holds itself; a tuple has 1 to 12 parts, an array at most 32 elements, and the structs, enums, traits and closures
/// that types name by their numbers are there; each head of a body has parameters of types that may stand there, and a
/// result that stands alone; each closure has captures that stand alone and a body, whose head begins with the closure
/// and goes on with types that stand alone; each struct has one variant with its name and each enum at most 64, whose
/// names differ, with at most 32 fields each, which stand alone and have names that differ; what derives `Copy` has fields
/// that are Copy and no `Drop` impl, and a `Drop` impl has the body `fn drop(&mut self)`; methods of traits take `&self` or
/// `&mut self` and have names that differ; no two impls are of one trait and one struct or enum, and each has one body a
/// method of its trait, with the same head; there is a `main`. Names of items are words and not built in, and differ: those
/// of structs, enums, traits, functions, methods and closures.
pub fn law_of_items()
    ensures types { TypesDiffer }
    ensures finite { TypesAreFinite }
    ensures limits { TypesKeepLimits }
    ensures heads { HeadsAreTyped }
    ensures closures { ClosuresAreTyped }
    ensures adts { AdtsAreTyped }
    ensures fields { FieldsDiffer }
    ensures drops { DropsHaveHeads }
    ensures traits { TraitsAreTyped }
    ensures impls { ImplsDiffer }
    ensures implements { ImplsAreTyped }
    ensures main { HasMain }
    ensures words { NamesOfItems }
    ensures names { NamesDiffer }
{}

/// Of a text that is accepted, names of structs, enums, variants and methods are words in the table of its program.
pub fn law_of_names()
    ensures names { NamesAreWords }
{}
