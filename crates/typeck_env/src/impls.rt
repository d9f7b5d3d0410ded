//! Which structs and enums have an impl of which traits, and the coercion of a box to a boxed trait object (The Rust
//! Reference, "Type coercions", "Unsized Coercions").
ghost use Rattle.std.specs.Prelude.{◌≡◌, IfOk, option_and_then};
ghost use Rattle.typeck_env.specs.Coerced.{HasImpls, fit_of};
ghost use Rattle.typing_rules.specs.Places as places;
ghost use Rattle.well_typed.specs.Types as types;

use crate::types::{adt_of, boxed_of, fits, trait_of};
use mir_base::NoMemory;
use mir_ty::{Items, TyId};
use std::alloc::Global;
use std::collections::HashSet;

/// A trait, and a struct or an enum.
#[derive(Clone, Copy, PartialEq, Eq, Hash)]
pub struct ImplPair {
    pub trait_no: u32,
    pub adt: u32,
}

/// How a type stands to the one that is required.
#[derive(Clone, Copy)]
pub enum Fit {
    Fits,
    /// It is a box of a struct or an enum, and a box of `dyn` of this trait of it is required.
    Coerced(u32),
    Differs,
}

/// The pairs of all impls.
pub fn impl_pairs(alloc: Global, items: &Items) -> Result<HashSet<ImplPair>, NoMemory>
    ensures { IfOk result (λ pairs. HasImpls pairs items.now.impls) }
{
    let mut pairs = HashSet::new(alloc);
    let mut n: u32 = 0;
    while let Some(def) = items.impl_def(n) {
        pairs.insert(ImplPair {
            trait_no: def.trait_no,
            adt: def.adt,
        })?;
        n += 1;
    }
    Ok(pairs)
}

/// Whether a struct or an enum has an impl of a trait.
fn implements(pairs: &HashSet<ImplPair>, items: &Items, adt: u32, trait_no: u32) -> bool
    requires { HasImpls pairs.now items.now.impls }
    ensures { result ≡ types.implements items.now adt trait_no }
{
    pairs.contains(&ImplPair { trait_no, adt })
}

fn coercion_fit(
    pairs: &HashSet<ImplPair>,
    items: &Items,
    trait_no: Option<u32>,
    adt: Option<u32>,
) -> Fit
    requires { HasImpls pairs.now items.now.impls }
    ensures { fit_of result ≡ places.coerced items.now trait_no adt }
{
    match (trait_no, adt) {
        (Some(trait_no), Some(adt)) => {
            if implements(pairs, items, adt, trait_no) {
                Fit::Coerced(trait_no)
            } else {
                Fit::Differs
            }
        }
        _ => Fit::Differs,
    }
}

fn boxed_trait(items: &Items, ty: TyId) -> Option<u32>
    ensures { result ≡ option_and_then (types.trait_of items.now) (types.boxed_of items.now ty) }
{
    match boxed_of(items, ty) {
        Some(content) => trait_of(items, content),
        None => None,
    }
}

fn boxed_adt(items: &Items, ty: TyId) -> Option<u32>
    ensures { result ≡ option_and_then (types.adt_of items.now) (types.boxed_of items.now ty) }
{
    match boxed_of(items, ty) {
        Some(content) => adt_of(items, content),
        None => None,
    }
}

/// How a type stands to the one that is required: a box of a struct or an enum becomes a box of `dyn` of a trait of it.
pub fn how_it_fits(pairs: &HashSet<ImplPair>, items: &Items, expected: TyId, ty: TyId) -> Fit
    requires { HasImpls pairs.now items.now.impls }
    ensures { fit_of result ≡ places.fit items.now expected ty }
{
    if fits(items, expected, ty) {
        return Fit::Fits;
    }
    coercion_fit(
        pairs,
        items,
        boxed_trait(items, expected),
        boxed_adt(items, ty),
    )
}
