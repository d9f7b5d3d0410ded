//! What can be wrong with a type, at any depth of it.
ghost use Rattle.std.specs.Prelude.{◌≡◌, ◌<◌, ◌≤◌, ◌^◌, ◌-◌, length, Some, count_by, not};
ghost use Rattle.std.specs.Bool.{OnTrue, OnFalse};
ghost use Rattle.std.specs.List.{list_any, list_all};
ghost use Rattle.mir_ty.specs.AreItems.{types_in};
ghost use Rattle.mir_ty.specs.Facts.{by_rule};
ghost use Rattle.mir_ty.specs.Known.{known_by, IsShown, IsSettledAt, IsNews};
ghost use Rattle.mir_ty.specs.Parts.{held_by};
ghost use Rattle.mir_ty.specs.declared.ty.TyId.{TyId};
ghost use Rattle.cfg_graph.specs.WellFormed.TypeFaults.{ty_exists as type_exists, misplaces_dyn as dyn_misplaced, adt_holds_itself, closure_holds_itself, own_number_exists as own_exists, misplacing, unless_dyn as if_no_dyn};
ghost use Rattle.cfg_graph.specs.WellFormed.Questions.{finite, rule_for, shown_from, Tells, AreTests};

use crate::place_types::{is_adt_of, is_closure_of, is_dyn};
use mir_ty::{Items, Ty, TyId, Variant};

/// What can be true of a type by what is true of the types in it.
#[derive(Clone, Copy)]
pub enum Question {
    /// It and all types in it are in the table and name items that exist.
    Exists,
    /// In it a `dyn` type stands elsewhere than directly in a box or a reference.
    MisplacesDyn,
    /// No way from it to what it holds, and on to what that holds, is without an end.
    IsFinite,
    /// It is the struct or enum with this number, or holds it.
    HoldsAdt(u32),
    /// It is the closure with this number, or holds it.
    HoldsClosure(u32),
}

/// Whether a list of truth values, one a type, says it of a type; `false` past its end.
fn is_known(known: &[bool], id: TyId) -> bool
    ensures { result ≡ known_by known.now id }
{
    match known.get(id.0 as usize) {
        Some(is) => *is,
        None => false,
    }
}

fn own_number_exists(items: &Items, ty: &Ty) -> bool
    ensures { result ≡ own_exists items.now ty.now }
{
    match ty {
        Ty::Adt(n) => items.adt(*n).is_some(),
        Ty::Dyn(n) => items.trait_def(*n).is_some(),
        Ty::Closure(n) => items.closure_def(*n).is_some(),
        _ => true,
    }
}

/// What the rule of a question shows of a type in so many rounds, from what is known at first.
#[cycle(shown)]
fn is_shown(items: &Items, question: Question, known: &[bool], rounds: usize, id: TyId) -> bool
    ensures { result ≡ shown_from (known_by known.now) items.now.types (rule_for items.now question) rounds id }
{
    if rounds == 0 {
        return is_known(known, id);
    }
    match items.ty(id) {
        Some(ty) => follows(items, question, known, rounds - 1, ty),
        None => false,
    }
}

/// What the rule of a question says of a type, by what is shown of others.
#[cycle(shown)]
fn follows(items: &Items, question: Question, known: &[bool], rounds: usize, ty: &Ty) -> bool
    ensures { result ≡ rule_for items.now question (shown_from (known_by known.now) items.now.types (rule_for items.now question) rounds) ty.now }
{
    match question {
        Question::Exists => {
            own_number_exists(items, ty) && all_in(items, question, known, rounds, ty)
        }
        Question::MisplacesDyn => misplaces(items, question, known, rounds, ty),
        Question::IsFinite => all_held(items, question, known, rounds, ty),
        Question::HoldsAdt(n) => is_adt_of(n, Some(ty))
            || any_held(items, question, known, rounds, ty),
        Question::HoldsClosure(n) => {
            is_closure_of(n, Some(ty)) || any_held(items, question, known, rounds, ty)
        }
    }
}

#[cycle(shown)]
fn any_of(items: &Items, question: Question, known: &[bool], rounds: usize, ids: &[TyId]) -> bool
    ensures { result ≡ list_any (shown_from (known_by known.now) items.now.types (rule_for items.now question) rounds) ids.now }
{
    for id in ids {
        if is_shown(items, question, known, rounds, *id) {
            return true;
        }
    }
    false
}

#[cycle(shown)]
fn all_of(items: &Items, question: Question, known: &[bool], rounds: usize, ids: &[TyId]) -> bool
    ensures { result ≡ list_all (shown_from (known_by known.now) items.now.types (rule_for items.now question) rounds) ids.now }
{
    for id in ids {
        if !is_shown(items, question, known, rounds, *id) {
            return false;
        }
    }
    true
}

#[cycle(shown)]
fn all_in(items: &Items, question: Question, known: &[bool], rounds: usize, ty: &Ty) -> bool
    ensures { result ≡ list_all (shown_from (known_by known.now) items.now.types (rule_for items.now question) rounds) (types_in ty.now) }
{
    match ty {
        Ty::Tuple(parts) => all_of(items, question, known, rounds, parts.as_slice()),
        Ty::Array(inner, _) | Ty::Boxed(inner) | Ty::Shared(inner) | Ty::Unique(inner) => {
            is_shown(items, question, known, rounds, *inner)
        }
        _ => true,
    }
}

/// Whether a type misplaces a `dyn` type, by what is shown of the types in it.
#[cycle(shown)]
fn misplaces(items: &Items, question: Question, known: &[bool], rounds: usize, ty: &Ty) -> bool
    ensures { result ≡ misplacing items.now (shown_from (known_by known.now) items.now.types (rule_for items.now question) rounds) ty.now }
{
    match ty {
        Ty::Dyn(_) => true,
        Ty::Boxed(inner) | Ty::Shared(inner) | Ty::Unique(inner) => {
            !is_dyn(items.ty(*inner)) && is_shown(items, question, known, rounds, *inner)
        }
        Ty::Tuple(parts) => any_of(items, question, known, rounds, parts.as_slice()),
        Ty::Array(element, _) => is_shown(items, question, known, rounds, *element),
        _ => false,
    }
}

/// Whether it is shown of any type that a type holds at once.
#[cycle(shown)]
fn any_held(items: &Items, question: Question, known: &[bool], rounds: usize, ty: &Ty) -> bool
    ensures { result ≡ list_any (shown_from (known_by known.now) items.now.types (rule_for items.now question) rounds) (held_by items.now ty.now) }
{
    match ty {
        Ty::Adt(n) => match items.adt(*n) {
            Some(adt) => any_field(items, question, known, rounds, adt.variants.as_slice()),
            None => false,
        },
        Ty::Tuple(parts) => any_of(items, question, known, rounds, parts.as_slice()),
        Ty::Array(element, _) => is_shown(items, question, known, rounds, *element),
        Ty::Closure(n) => match items.closure_def(*n) {
            Some(def) => any_of(items, question, known, rounds, def.captures.as_slice()),
            None => false,
        },
        _ => false,
    }
}

#[cycle(shown)]
fn any_field(
    items: &Items,
    question: Question,
    known: &[bool],
    rounds: usize,
    variants: &[Variant],
) -> bool
    ensures { result ≡ list_any (λ variant. list_any (shown_from (known_by known.now) items.now.types (rule_for items.now question) rounds) variant.fields) variants.now }
{
    for variant in variants {
        if any_of(items, question, known, rounds, variant.fields.as_slice()) {
            return true;
        }
    }
    false
}

/// Whether it is shown of all types that a type holds at once.
#[cycle(shown)]
fn all_held(items: &Items, question: Question, known: &[bool], rounds: usize, ty: &Ty) -> bool
    ensures { result ≡ list_all (shown_from (known_by known.now) items.now.types (rule_for items.now question) rounds) (held_by items.now ty.now) }
{
    match ty {
        Ty::Adt(n) => match items.adt(*n) {
            Some(adt) => all_fields(items, question, known, rounds, adt.variants.as_slice()),
            None => true,
        },
        Ty::Tuple(parts) => all_of(items, question, known, rounds, parts.as_slice()),
        Ty::Array(element, _) => is_shown(items, question, known, rounds, *element),
        Ty::Closure(n) => match items.closure_def(*n) {
            Some(def) => all_of(items, question, known, rounds, def.captures.as_slice()),
            None => true,
        },
        _ => true,
    }
}

#[cycle(shown)]
fn all_fields(
    items: &Items,
    question: Question,
    known: &[bool],
    rounds: usize,
    variants: &[Variant],
) -> bool
    ensures { result ≡ list_all (λ variant. list_all (shown_from (known_by known.now) items.now.types (rule_for items.now question) rounds) variant.fields) variants.now }
{
    for variant in variants {
        if !all_of(items, question, known, rounds, variant.fields.as_slice()) {
            return false;
        }
    }
    true
}

/// Whether the rule of a question shows something of the type with this number that is not known yet.
fn is_news(items: &Items, question: Question, known: &[bool], n: usize) -> bool
    requires few { length known.now < 2 ^ 32 }
    requires within { n < length known.now }
    ensures { IsNews items.now.types (rule_for items.now question) known.now n result }
{
    if known[n] {
        return false;
    }
    match items.ty(TyId(n as u32)) {
        Some(ty) => follows(items, question, known, 0, ty),
        None => false,
    }
}

/// Goes once over the types and notes of which the rule shows it. Answers whether there was any of which it was not
/// known.
fn note(items: &Items, question: Question, known: &mut [bool]) -> bool
    requires few { length known.old < 2 ^ 32 }
    requires as_long { length known.old ≡ length items.now.types }
    requires shown { IsShown items.now.types (rule_for items.now question) known.old }
    ensures shown { IsShown items.now.types (rule_for items.now question) known.new }
    ensures more { OnTrue result (count_by not known.new < count_by not known.old) }
    ensures settled { OnFalse result ((id : TyId) → IsSettledAt items.now.types (rule_for items.now question) known.new id) }
{
    let mut noted = false;
    for n in 0..known.len() {
        if is_news(items, question, known, n) {
            known[n] = true;
            noted = true;
        }
    }
    noted
}

/// Notes of which types the rule shows it, until it shows it of no more. Types mostly stand after the types in
/// them, so few rounds do it.
fn settle(items: &Items, question: Question, known: &mut [bool])
    requires few { length known.old < 2 ^ 32 }
    requires as_long { length known.old ≡ length items.now.types }
    requires shown { IsShown items.now.types (rule_for items.now question) known.old }
    ensures { Tells items.now question known.new 0 }
{
    while note(items, question, known) {}
}

/// How many types there are.
pub fn type_count(items: &Items) -> usize
    ensures { result ≡ length items.now.types }
{
    let mut n: u32 = 0;
    while let Some(_ty) = items.ty(TyId(n)) {
        n += 1;
    }
    n as usize
}

/// The greatest number of types for which there is room on the stack: a listing has no more.
pub const MOST_TYPES: usize = 131072;

/// Finds out of which types it is so, and leaves that in the table.
pub fn find_out(items: &Items, question: Question, known: &mut [bool])
    requires few { length known.old < 2 ^ 32 }
    requires as_long { length known.old ≡ length items.now.types }
    ensures { Tells items.now question known.new 0 }
{
    known.fill(false);
    settle(items, question, known);
}

/// What is known of the types of a graph: tables, from which so many rounds go on.
#[derive(Clone, Copy)]
pub struct TypeTests<'a> {
    /// Which exist, with all that they name.
    pub exists: &'a [bool],
    /// Which have a `dyn` type in a wrong place.
    pub misplaced: &'a [bool],
    /// From which no way to what they hold is without an end.
    pub finite: &'a [bool],
    pub rounds: usize,
}

/// Whether a type, and all types in it, exist.
pub fn ty_exists(items: &Items, tests: &TypeTests, id: TyId) -> bool
    requires { AreTests items.now tests.now }
    ensures { result ≡ type_exists items.now id }
{
    is_shown(items, Question::Exists, tests.exists, tests.rounds, id)
}

/// Whether a `dyn` type stands in a wrong place of a type.
pub fn misplaces_dyn(items: &Items, tests: &TypeTests, id: TyId) -> bool
    requires { AreTests items.now tests.now }
    ensures { result ≡ dyn_misplaced items.now id }
{
    is_shown(
        items,
        Question::MisplacesDyn,
        tests.misplaced,
        tests.rounds,
        id,
    )
}

/// Whether what a type holds at once is such a type or holds one, at any depth. There is room for a table of all types,
/// over which each call goes.
#[tactic(auto, using(crate::proofs::AskedOfLists::told_of_all))]
fn is_held_by(items: &Items, question: Question, room: &mut [bool], types: usize, ty: &Ty) -> bool
    requires few { length room.old < 2 ^ 32 }
    requires within { types ≤ length room.old }
    requires all { types ≡ length items.now.types }
    ensures { result ≡ list_any (by_rule items.now.types (rule_for items.now question)) (held_by items.now ty.now) }
{
    let known = &mut room[..types];
    find_out(items, question, known);
    any_held(items, question, known, 0, ty)
}

/// The same, with room on the stack where the types are not too many for it; for more it goes along all that is held.
fn is_held(items: &Items, question: Question, types: usize, ty: &Ty) -> bool
    requires { types ≡ length items.now.types }
    ensures { result ≡ list_any (by_rule items.now.types (rule_for items.now question)) (held_by items.now ty.now) }
{
    if types > MOST_TYPES {
        return any_held(items, question, &[], types, ty);
    }
    let mut room = [false; MOST_TYPES];
    is_held_by(items, question, &mut room, types, ty)
}

/// Whether a struct or an enum holds itself. Where it holds finite types alone it does not.
#[tactic(auto, using(crate::proofs::FiniteTypes::finite_adt))]
pub fn adt_is_held(items: &Items, tests: &TypeTests, types: usize, n: u32) -> bool
    requires tests { AreTests items.now tests.now }
    requires types { types ≡ length items.now.types }
    ensures { result ≡ adt_holds_itself items.now n }
{
    if holds_finite(items, tests, &Ty::Adt(n)) {
        return false;
    }
    is_held(items, Question::HoldsAdt(n), types, &Ty::Adt(n))
}

/// Whether a closure holds itself. Where it holds finite types alone it does not.
#[tactic(auto, using(crate::proofs::FiniteTypes::finite_closure))]
pub fn closure_is_held(items: &Items, tests: &TypeTests, types: usize, n: u32) -> bool
    requires tests { AreTests items.now tests.now }
    requires types { types ≡ length items.now.types }
    ensures { result ≡ closure_holds_itself items.now n }
{
    if holds_finite(items, tests, &Ty::Closure(n)) {
        return false;
    }
    is_held(items, Question::HoldsClosure(n), types, &Ty::Closure(n))
}

#[tactic(auto, using(crate::proofs::AskedOfLists::all_told))]
fn holds_finite(items: &Items, tests: &TypeTests, ty: &Ty) -> bool
    requires { AreTests items.now tests.now }
    ensures { result ≡ list_all (by_rule items.now.types (finite items.now)) (held_by items.now ty.now) }
{
    all_held(items, Question::IsFinite, tests.finite, tests.rounds, ty)
}
