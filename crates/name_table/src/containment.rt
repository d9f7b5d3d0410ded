//! Whether a type holds itself, and orders of types in which none stands before what it holds.
ghost use Rattle.std.specs.Prelude.{◌≡◌, ◌<◌, ◌^◌, length, count_by, not, nat_lt, IfOk, IfErr};
ghost use Rattle.std.specs.Bool.{OnTrue, OnFalse};
ghost use Rattle.std.specs.List.{list_any};
ghost use Rattle.mir_base.specs.declared.rule.RuleError.{RuleError};
ghost use Rattle.mir_ty.specs.Known.{IsAllShown, IsNews, IsSettledAt, IsShown, known_by};
ghost use Rattle.mir_ty.specs.Parts.{held_by};
ghost use Rattle.mir_ty.specs.declared.ty.TyId.{TyId};
ghost use Rattle.name_table.specs.Holding.{IsBehind, IsOrder, hold_rule, meets as met_by, place_of as placed_at};
ghost use Rattle.typing_rules.specs.Collected.{holds as held_in};

use mir_base::{List, RuleError};
use mir_ty::{Items, Ty, TyId, Variant};
use std::alloc::Global;

/// What is asked of a type that another one holds.
#[derive(Clone, Copy)]
pub enum HoldingQuestion<'a> {
    /// It is this type, or known to hold it.
    Holds { part: TyId, known: &'a [bool] },
    /// Its place in an order is past this one.
    Past { order: &'a [u32], place: u32 },
    /// Its place in an order is not before this one.
    NotBefore { order: &'a [u32], place: u32 },
}

fn is_known(known: &[bool], id: TyId) -> bool
    ensures { result ≡ known_by known.now id }
{
    match known.get(id.0 as usize) {
        Some(is) => *is,
        None => false,
    }
}

/// The place of a type in an order; past its end the first place.
fn place_of(order: &[u32], id: TyId) -> u32
    ensures { result ≡ placed_at order.now id }
{
    match order.get(id.0 as usize) {
        Some(place) => *place,
        None => 0,
    }
}

fn meets(question: &HoldingQuestion, id: TyId) -> bool
    ensures { result ≡ met_by question.now id }
{
    match question {
        HoldingQuestion::Holds { part, known } => id.0 == part.0 || is_known(known, id),
        HoldingQuestion::Past { order, place } => *place < place_of(order, id),
        HoldingQuestion::NotBefore { order, place } => !(place_of(order, id) < *place),
    }
}

fn any_meets(question: &HoldingQuestion, ids: &List<TyId>) -> bool
    ensures { result ≡ list_any (met_by question.now) ids.now }
{
    ids.iter().any(|id| meets(question, *id))
}

fn any_field_meets(question: &HoldingQuestion, variants: &List<Variant>) -> bool
    ensures { result ≡ list_any (λ variant. list_any (met_by question.now) variant.fields) variants.now }
{
    variants
        .iter()
        .any(|variant| any_meets(question, &variant.fields))
}

/// Whether any type that a type holds at once meets a question.
fn any_held(items: &Items, question: &HoldingQuestion, ty: &Ty) -> bool
    ensures { result ≡ list_any (met_by question.now) (held_by items.now ty.now) }
{
    match ty {
        Ty::Adt(n) => match items.adt(*n) {
            Some(adt) => any_field_meets(question, &adt.variants),
            None => false,
        },
        Ty::Tuple(parts) => any_meets(question, parts),
        Ty::Array(element, _) => meets(question, *element),
        Ty::Closure(n) => match items.closure_def(*n) {
            Some(def) => any_meets(question, &def.captures),
            None => false,
        },
        _ => false,
    }
}

/// Whether a type is shown to hold a part that is not known to hold it yet.
fn is_news(items: &Items, part: TyId, known: &[bool], n: usize) -> bool
    requires few { length known.now < 2 ^ 32 }
    requires within { n < length known.now }
    ensures { IsNews items.now.types (hold_rule items.now part) known.now n result }
{
    if known[n] {
        return false;
    }
    match items.ty(TyId(n as u32)) {
        Some(ty) => any_held(items, &HoldingQuestion::Holds { part, known }, ty),
        None => false,
    }
}

/// Goes once over the types, from the last to the first, and notes which are shown to hold a part. Answers whether
/// there was any of which it was not known.
fn note(items: &Items, part: TyId, known: &mut [bool]) -> bool
    requires few { length known.old < 2 ^ 32 }
    requires as_long { length known.old ≡ length items.now.types }
    requires shown { IsShown items.now.types (hold_rule items.now part) known.old }
    ensures shown { IsShown items.now.types (hold_rule items.now part) known.new }
    ensures more { OnTrue result (count_by not known.new < count_by not known.old) }
    ensures settled { OnFalse result ((id : TyId) → IsSettledAt items.now.types (hold_rule items.now part) known.new id) }
{
    let mut noted = false;
    for n in (0..known.len()).rev() {
        if is_news(items, part, known, n) {
            known[n] = true;
            noted = true;
        }
    }
    noted
}

/// Notes which types hold a part, until no more are shown to.
fn settle(items: &Items, part: TyId, known: &mut [bool])
    requires few { length known.old < 2 ^ 32 }
    requires as_long { length known.old ≡ length items.now.types }
    requires shown { IsShown items.now.types (hold_rule items.now part) known.old }
    ensures { IsAllShown items.now.types (hold_rule items.now part) known.new }
{
    while note(items, part, known) {}
}

/// How many types there are.
pub fn type_count(items: &Items) -> usize
    ensures counted { result ≡ length items.now.types }
    ensures few { result < 2 ^ 32 }
{
    let mut n: u32 = 0;
    while let Some(_ty) = items.ty(TyId(n)) {
        n += 1;
    }
    n as usize
}

/// Whether a type holds itself, at any depth but not through a box, by rounds over all types.
fn holds_in_rounds(items: &Items, alloc: Global, id: TyId) -> Result<bool, RuleError>
    ensures holds { IfOk result (λ holds. holds ≡ held_in items.now id id) }
    ensures short { IfErr result (λ e. e ≡ RuleError.Memory) }
{
    let Ok(mut known) = vec![in alloc; false; type_count(items)] else {
        return Err(RuleError::Memory);
    };
    settle(items, id, known.as_mut_slice());
    Ok(is_known(known.as_slice(), id))
}

/// Whether a type stands behind all that it holds.
fn is_behind(items: &Items, order: &[u32], id: TyId) -> bool
    ensures { OnTrue result (IsBehind items.now order.now id) }
{
    let place = place_of(order, id);
    match items.ty(id) {
        Some(ty) => !any_held(items, &HoldingQuestion::NotBefore { order, place }, ty),
        None => false,
    }
}

/// Whether a type holds itself: told at once where it stands behind all that it holds, and else by rounds.
pub fn holds_itself(
    items: &Items,
    alloc: Global,
    order: &[u32],
    id: TyId,
) -> Result<bool, RuleError>
    requires { IsOrder items.now order.now }
    ensures holds { IfOk result (λ holds. holds ≡ held_in items.now id id) }
    ensures short { IfErr result (λ e. e ≡ RuleError.Memory) }
{
    if is_behind(items, order, id) {
        return Ok(false);
    }
    holds_in_rounds(items, alloc, id)
}

/// The type with a number stands before nothing that it holds.
fn is_placed(items: &Items, order: &[u32], id: TyId, ty: &Ty) -> bool
    ensures { result ≡ not (list_any (λ h. nat_lt (placed_at order.now id) (placed_at order.now h)) (held_by items.now ty.now)) }
{
    let place = place_of(order, id);
    !any_held(items, &HoldingQuestion::Past { order, place }, ty)
}

/// Whether no type stands before what it holds.
pub fn is_order(items: &Items, order: &[u32]) -> bool
    ensures { OnTrue result (IsOrder items.now order.now) }
{
    let mut n: u32 = 0;
    while let Some(ty) = items.ty(TyId(n)) {
        if !is_placed(items, order, TyId(n), ty) {
            return false;
        }
        n += 1;
    }
    true
}
