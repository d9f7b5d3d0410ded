//! The field that an initialiser names (The Rust Reference, "Struct expressions").
ghost use Rattle.std.specs.Prelude.{◌≡◌};
ghost use Rattle.typeck_calls.specs.Inits.{variant_by};
ghost use Rattle.src_ast.specs.Syntax.{Word};
ghost use Rattle.typing_rules.specs.Scope as scope;
ghost use Rattle.typing_rules.specs.Typed as typed;

use crate::{field_named, field_want};
use mir_ty::TyId;
use typeck_checker::Checker;

/// A field by its number, if it is one, and the type that is required of its value.
#[derive(Clone, Copy)]
pub struct FieldWanted {
    pub number: Option<u32>,
    pub expected: Option<TyId>,
}

#[tactic(auto, using(crate::proofs::Tabled::named_by))]
fn number_of(checker: &Checker, adt: u32, variant: u32, types: &[TyId], name: &str) -> Option<u32>
    ensures { (own : Word) → result ≡ scope.field_named (variant_by own checker.now.tables adt variant types.now) name.now }
{
    field_named(checker, adt, variant, name)
}

/// The field of a variant that has a name, where the fields have these types.
pub fn field_wanted(
    checker: &Checker,
    adt: u32,
    variant: u32,
    types: &[TyId],
    name: &str,
) -> FieldWanted
    ensures number { (own : Word) → result.number ≡ scope.field_named (variant_by own checker.now.tables adt variant types.now) name.now }
    ensures expected { (own : Word) → result.expected ≡ typed.field_want (variant_by own checker.now.tables adt variant types.now) result.number }
{
    let number = number_of(checker, adt, variant, types, name);
    FieldWanted {
        number,
        expected: field_want(types, number),
    }
}
