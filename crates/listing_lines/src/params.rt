//! The parameters of a trait's methods.
ghost use Rattle.std.specs.Prelude.{◌≡◌, ◌<◌, ◌∷◌, IfOk, length, slice_get};
ghost use Rattle.mir_ty.specs.AreItems.{IsSelfTy};
ghost use Rattle.listing_write.specs.Types.{trait_name};
ghost use Rattle.listing_parts.specs.Table.{AreRead, text_under};
ghost use Rattle.listing_parts.specs.TypeReading.{more_types as more};
ghost use Rattle.listing_lines.specs.TraitReading as reading;
ghost use Rattle.listing_lines.specs.TraitsRead.{FindsParams};

use crate::receiver::{receiver, self_type};
use listing_parts::{Heads, ReadError, more_types, strip};
use mir_base::{List, NoMemory};
use mir_ty::{Items, TyId};
use std::alloc::Global;

/// These types behind a first one.
fn with_first(first: TyId, others: List<TyId>) -> Result<List<TyId>, NoMemory>
    ensures { IfOk result (λ all. all ≡ first ∷ others) }
{
    let mut all = others.into_vec();
    all.insert(0, first)?;
    Ok(List::from_vec(all))
}

/// What stands behind the first parameter.
fn params_behind<'a>(
    alloc: Global,
    heads: &Heads,
    items: &mut Items,
    n: u32,
    first: TyId,
    text: &'a [u8],
) -> Result<(List<TyId>, &'a [u8]), ReadError>
    requires read { AreRead heads.now items.old.types }
    requires within { first.0 < length items.old.types }
    requires own { IsSelfTy items.old.types n (slice_get items.old.types first.0) }
    ensures { FindsParams heads.now items.old items.new n result (reading.closed_params (text_under heads.now items.old first) (more heads.now text.now)) }
{
    let mut others = List::new(alloc);
    match more_types(alloc, heads, items, &mut others, text) {
        Ok(rest) => match strip(rest, ")") {
            Some(rest) => match with_first(first, others) {
                Ok(params) => Ok((params, rest)),
                Err(NoMemory) => Err(ReadError::NoMemory),
            },
            None => Err(ReadError::Unreadable),
        },
        Err(NoMemory) => Err(ReadError::NoMemory),
    }
}

/// The parameters behind the parenthesis that opens and the type of `self`.
fn params_from<'a>(
    alloc: Global,
    heads: &Heads,
    items: &mut Items,
    n: u32,
    unique: bool,
    text: &'a [u8],
) -> Result<(List<TyId>, &'a [u8]), ReadError>
    requires read { AreRead heads.now items.old.types }
    requires head { n < length heads.now.traits }
    ensures { FindsParams heads.now items.old items.new n result (reading.params_from heads.now (trait_name heads.now n) (unique, text.now)) }
{
    match self_type(heads, items, n, unique) {
        Ok(first) => params_behind(alloc, heads, items, n, first, text),
        Err(NoMemory) => Err(ReadError::NoMemory),
    }
}

/// The types of the parameters of a method of the trait with number `n`, and what stands behind them.
pub fn read_params<'a>(
    alloc: Global,
    heads: &Heads,
    items: &mut Items,
    n: u32,
    own: &str,
    text: &'a [u8],
) -> Result<(List<TyId>, &'a [u8]), ReadError>
    requires read { AreRead heads.now items.old.types }
    requires head { n < length heads.now.traits }
    requires named { own.now ≡ trait_name heads.now n }
    ensures { FindsParams heads.now items.old items.new n result (reading.params_read heads.now own.now text.now) }
{
    match strip(text, "(") {
        Some(rest) => match receiver(own, rest) {
            Some((unique, rest)) => params_from(alloc, heads, items, n, unique, rest),
            None => Err(ReadError::Unreadable),
        },
        None => Err(ReadError::Unreadable),
    }
}
