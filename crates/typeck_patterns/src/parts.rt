//! The types of the parts of a place, which the parts of its pattern have in their order.
ghost use Rattle.std.specs.Prelude.{◌≡◌, ◌==◌, ◌||◌, length, min, not, replicate, Some, take, IfErr, IfOk};
ghost use Rattle.std.specs.Option.{option_copied};
ghost use Rattle.mir_base.specs.declared.rule.RuleError.{RuleError};
ghost use Rattle.typing_rules.specs.Patterns as rules;
ghost use Rattle.well_typed.specs.Types as types;
ghost use Rattle.typeck_patterns.specs.Parts.{AreFirst, AreFirstIf};
ghost use Rattle.typeck_patterns.specs.Targets.{target_of as target_in};

use crate::targets::PatternTarget;
use mir_base::{List, RuleError};
use mir_ty::{Items, Ty, TyId, Variant};
use std::alloc::Global;
use typeck_heads::push_to;

/// The types of the first parts of a place, as many as its pattern has parts, and how many parts there are.
#[derive(Drop)]
pub struct PartTypes {
    pub first: List<TyId>,
    pub count: usize,
}

fn copy_types(alloc: Global, types: &[TyId]) -> Result<List<TyId>, RuleError>
    ensures made { IfOk result (λ copies. copies ≡ types.now) }
    ensures short { IfErr result (λ e. e ≡ RuleError.Memory) }
{
    let mut copies = List::new(alloc);
    for ty in types {
        push_to(&mut copies, *ty)?;
    }
    Ok(copies)
}

fn first_of(types: &[TyId], given: usize) -> &[TyId]
    ensures { result.now ≡ take given types.now }
{
    if given < types.len() {
        &types[..given]
    } else {
        types
    }
}

fn list_part_types(alloc: Global, types: &[TyId], given: usize) -> Result<PartTypes, RuleError>
    ensures made { IfOk result (λ parts. AreFirst given types.now parts) }
    ensures short { IfErr result (λ e. e ≡ RuleError.Memory) }
{
    let first = copy_types(alloc, first_of(types, given))?;
    Ok(PartTypes {
        first,
        count: types.len(),
    })
}

fn listed_if(
    alloc: Global,
    is: bool,
    types: &[TyId],
    given: usize,
) -> Result<Option<PartTypes>, RuleError>
    ensures made { IfOk result (λ parts. AreFirstIf given (rules.types_if is types.now) parts) }
    ensures short { IfErr result (λ e. e ≡ RuleError.Memory) }
{
    if !is {
        return Ok(None);
    }
    let parts = list_part_types(alloc, types, given)?;
    Ok(Some(parts))
}

/// Whether a pattern in parentheses is another than `()`.
fn has_parts(given: usize, dots: bool) -> bool
    ensures { result ≡ (dots || not (given == 0)) }
{
    dots || !(given == 0)
}

fn tuple_parts(
    alloc: Global,
    types: &[TyId],
    given: usize,
    dots: bool,
) -> Result<Option<PartTypes>, RuleError>
    ensures made { IfOk result (λ parts. AreFirstIf given (rules.types_if (dots || not (given == 0)) types.now) parts) }
    ensures short { IfErr result (λ e. e ≡ RuleError.Memory) }
{
    let is = has_parts(given, dots);
    listed_if(alloc, is, types, given)
}

/// The types of the parts for a tuple pattern of so many, with `..` behind them or not: none of `()`, whose pattern has
/// no parts; `None` where a type has no such pattern.
pub fn tuple_types(
    alloc: Global,
    items: &Items,
    ty: TyId,
    given: usize,
    dots: bool,
) -> Result<Option<PartTypes>, RuleError>
    ensures found { IfOk result (λ parts. AreFirstIf given (rules.tuple_types items.now ty given dots) parts) }
    ensures short { IfErr result (λ e. e ≡ RuleError.Memory) }
{
    match items.ty(ty) {
        Some(Ty::Unit) => listed_if(alloc, given == 0, &[], given),
        Some(Ty::Tuple(types)) => tuple_parts(alloc, types.as_slice(), given, dots),
        _ => Ok(None),
    }
}

fn lesser(a: usize, b: usize) -> usize
    ensures { result ≡ min a b }
{
    if a < b { a } else { b }
}

/// The types of the elements of an array.
pub fn element_types(
    alloc: Global,
    element: TyId,
    count: u32,
    given: usize,
) -> Result<PartTypes, RuleError>
    ensures found { IfOk result (λ parts. AreFirst given (replicate count element) parts) }
    ensures short { IfErr result (λ e. e ≡ RuleError.Memory) }
{
    let count = count as usize;
    let mut first = List::new(alloc);
    for _n in 0..lesser(given, count) {
        push_to(&mut first, element)?;
    }
    Ok(PartTypes { first, count })
}

/// A variant of a struct or an enum; `None` where there is none.
pub fn variant_at(items: &Items, target: PatternTarget) -> Option<&Variant>
    ensures { option_copied result ≡ types.variant_at items.now target.adt target.variant }
{
    items.adt(target.adt)?.variants.get(target.variant as usize)
}

/// The types of the fields of a struct or a variant.
pub fn field_types(
    alloc: Global,
    items: &Items,
    target: PatternTarget,
    given: usize,
) -> Result<PartTypes, RuleError>
    ensures found { IfOk result (λ parts. AreFirst given (rules.fields_of items.now (target_in target)) parts) }
    ensures short { IfErr result (λ e. e ≡ RuleError.Memory) }
{
    match variant_at(items, target) {
        Some(variant) => list_part_types(alloc, variant.fields.as_slice(), given),
        None => list_part_types(alloc, &[], given),
    }
}

/// How many fields a struct or a variant has.
pub fn field_count(items: &Items, target: PatternTarget) -> usize
    ensures { result ≡ length (rules.fields_of items.now (target_in target)) }
{
    match variant_at(items, target) {
        Some(variant) => variant.fields.len(),
        None => 0,
    }
}
