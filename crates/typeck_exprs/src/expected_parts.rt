//! The types that are required of parts and elements (The Rust Reference, "Tuple expressions", "Array expressions").
ghost use Rattle.std.specs.Prelude.{◌≡◌, Some, map, slice_get, IfErr, IfOk};
ghost use Rattle.mir_base.specs.declared.rule.RuleError.{RuleError};
ghost use Rattle.typing_rules.specs.Places as places;
ghost use Rattle.typing_rules.specs.Rows as rows;
ghost use Rattle.typing_rules.specs.Typed as rules;
ghost use Rattle.typeck_checker.specs.Stand.{stack, top};
ghost use Rattle.typing_rules.specs.Rows.{if_as_many};

use mir_base::{List, RuleError};
use mir_ty::{Items, Ty, TyId};
use std::alloc::Global;
use typeck_checker::Checker;
use typeck_env::array_of;
use typeck_heads::push_to;

/// The type that is required of the part with this number, if one is.
pub fn wanted_at(types: &[TyId], number: usize) -> Option<TyId>
    ensures { result ≡ slice_get types.now number }
{
    types.get(number).copied()
}

/// The type that is required of the elements of an array, if one is.
pub fn element_wanted(items: &Items, expected: Option<TyId>) -> Option<TyId>
    ensures { result ≡ places.wanted rows.element_wanted items.now expected }
{
    match expected {
        Some(expected) => match array_of(items, expected) {
            Some((element, _)) => Some(element),
            None => None,
        },
        None => None,
    }
}

/// A part has the type that is required of it, else its own; it is the last node.
pub fn part_ty(checker: &Checker, expected: Option<TyId>) -> TyId
    ensures { result ≡ rules.part_ty expected (top (stack checker.now)) }
{
    match expected {
        Some(ty) => ty,
        None => checker.last_ty(),
    }
}

fn copy_types(alloc: Global, types: &[TyId]) -> Result<List<TyId>, RuleError>
    ensures same { IfOk result (λ copy. copy ≡ types.now) }
    ensures short { IfErr result (λ e. e ≡ RuleError.Memory) }
{
    let mut copy = List::new(alloc);
    for ty in types {
        push_to(&mut copy, *ty)?;
    }
    Ok(copy)
}

fn copied_if(alloc: Global, types: &[TyId], count: usize) -> Result<List<TyId>, RuleError>
    ensures made { IfOk result (λ types_. map Some types_ ≡ if_as_many count types.now) }
    ensures short { IfErr result (λ e. e ≡ RuleError.Memory) }
{
    if types.len() == count {
        copy_types(alloc, types)
    } else {
        Ok(List::new(alloc))
    }
}

/// The types that are required of the parts of a tuple, where one of as many is required; none otherwise.
pub fn parts_wanted(
    checker: &Checker,
    count: usize,
    expected: Option<TyId>,
) -> Result<List<TyId>, RuleError>
    ensures made { IfOk result (λ types. map Some types ≡ rows.parts_wanted checker.now.walk.items count expected) }
    ensures short { IfErr result (λ e. e ≡ RuleError.Memory) }
{
    match expected {
        Some(expected) => match checker.walk.items.ty(expected) {
            Some(Ty::Tuple(parts)) => copied_if(checker.alloc, parts.as_slice(), count),
            _ => Ok(List::new(checker.alloc)),
        },
        None => Ok(List::new(checker.alloc)),
    }
}
