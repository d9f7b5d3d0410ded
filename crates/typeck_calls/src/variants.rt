//! The types of the fields of variants.
ghost use Rattle.std.specs.Prelude.{◌≡◌, IfErr, IfOk, option_and_then, slice_get};
ghost use Rattle.mir_base.specs.declared.rule.RuleError.{RuleError};
ghost use Rattle.typeck_calls.specs.StructFields.{variant_of};

use mir_base::{List, RuleError};
use mir_ty::TyId;
use std::alloc::Global;
use typeck_checker::Checker;

/// A copy of types.
pub fn copy_types(alloc: Global, types: &[TyId]) -> Result<List<TyId>, RuleError>
    ensures copy { IfOk result (λ copy. copy ≡ types.now) }
    ensures short { IfErr result (λ e. e ≡ RuleError.Memory) }
{
    match Vec::from_slice(alloc, types) {
        Ok(copy) => Ok(List::from_vec(copy)),
        Err(_) => Err(RuleError::Memory),
    }
}

/// A copy of the types of the fields of a variant; none where there is no such variant.
pub fn variant_types(checker: &Checker, adt: u32, variant: u32) -> Result<List<TyId>, RuleError>
    ensures copy { IfOk result (λ types. types ≡ (variant_of checker.now.walk.items adt variant).fields) }
    ensures short { IfErr result (λ e. e ≡ RuleError.Memory) }
{
    match checker.walk.items.adt(adt) {
        Some(def) => match def.variants.get(variant as usize) {
            Some(variant) => copy_types(checker.alloc, variant.fields.as_slice()),
            None => Ok(List::new(checker.alloc)),
        },
        None => Ok(List::new(checker.alloc)),
    }
}

/// The type that is required of a field by its number.
pub fn field_want(types: &[TyId], number: Option<u32>) -> Option<TyId>
    ensures { result ≡ option_and_then (λ k. slice_get types.now k) number }
{
    match number {
        Some(number) => types.get(number as usize).copied(),
        None => None,
    }
}
