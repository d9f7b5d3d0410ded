//! The places and operands of a line, and what is asked of all of them.
ghost use Rattle.std.specs.Prelude.{◌≡◌, ◌++◌, ◌<◌, map, nat_lt, length, slice_get, option_and_then};
ghost use Rattle.std.specs.List.{list_all};
ghost use Rattle.std.specs.Option.{option_copied};
ghost use Rattle.mir_base.specs.declared.int_kind.IntKind.TheVariants.{Usize};
ghost use Rattle.mir_ty.specs.ItemTable.{type_at};
ghost use Rattle.store_model.specs.Places.TypeForms.{is_int};
ghost use Rattle.cfg_graph.specs.Places.{index_locals};
ghost use Rattle.cfg_graph.specs.Uses.{operands_of_stmt, operands_of_term, stored_by_stmt, stored_by_term, other_uses, other_term_uses, place_used, places_of_stmt, places_of_term};
ghost use Rattle.cfg_graph.specs.WellFormed.Questions.{listed, passes, operand_passes};

use crate::place_types::{is_kind, ty_of_place};
use crate::{Operand, Place, Step, Stmt, Term};
use mir_base::IntKind;
use mir_ty::{Items, TyId};
use std::slice::from_ref;

/// What is asked of a place.
#[derive(Clone, Copy)]
pub enum PlaceTest {
    /// Its local and those of its indices exist.
    LocalsExist,
    /// Each of its steps leads somewhere, and its indices are of type `usize`.
    IsTyped,
}

/// The operands of a statement, in two parts.
pub fn operands_of<'a>(stmt: &'a Stmt) -> (&'a [Operand], &'a [Operand])
    ensures { result.0.now ++ result.1.now ≡ operands_of_stmt stmt.now }
{
    match stmt {
        Stmt::Put(_, from) | Stmt::NewBox(_, from) | Stmt::Not(_, from) => (from_ref(from), &[]),
        Stmt::Print(from) | Stmt::Forget(from) | Stmt::Unsize { from, .. } => (from_ref(from), &[]),
        Stmt::Compare(_, _, left, right) => (from_ref(left), from_ref(right)),
        Stmt::Tuple(_, parts) | Stmt::Array(_, parts) => (parts.as_slice(), &[]),
        Stmt::Make { parts, .. } | Stmt::Close { parts, .. } => (parts.as_slice(), &[]),
        Stmt::Borrow { .. } | Stmt::Touch(_) | Stmt::Free(_) => (&[], &[]),
    }
}

/// The place into which a statement stores.
pub fn stored_of<'a>(stmt: &'a Stmt) -> Option<&'a Place>
    ensures { listed (option_copied result) ≡ stored_by_stmt stmt.now }
{
    match stmt {
        Stmt::Put(to, _) | Stmt::Compare(to, _, _, _) | Stmt::Not(to, _) => Some(to),
        Stmt::Tuple(to, _) | Stmt::Array(to, _) | Stmt::NewBox(to, _) => Some(to),
        Stmt::Make { to, .. } | Stmt::Close { to, .. } => Some(to),
        Stmt::Unsize { to, .. } | Stmt::Borrow { to, .. } => Some(to),
        Stmt::Touch(_) | Stmt::Print(_) | Stmt::Forget(_) | Stmt::Free(_) => None,
    }
}

/// The place that a statement uses otherwise than as an operand.
fn other_of<'a>(stmt: &'a Stmt) -> Option<&'a Place>
    ensures { listed (option_copied result) ≡ map place_used (other_uses stmt.now) }
{
    match stmt {
        Stmt::Borrow { of, .. } => Some(of),
        Stmt::Touch(place) | Stmt::Free(place) => Some(place),
        _ => None,
    }
}

/// The operands of a terminator, in two parts.
pub fn operands_of_end<'a>(term: &'a Term) -> (&'a [Operand], &'a [Operand])
    ensures { result.0.now ++ result.1.now ≡ operands_of_term term.now }
{
    match term {
        Term::If { on, .. } => (from_ref(on), &[]),
        Term::Math { left, right, .. } => (from_ref(left), from_ref(right)),
        Term::Negate { of, .. } => (from_ref(of), &[]),
        Term::Bounds { index, .. } => (from_ref(index), &[]),
        Term::Call { args, .. } | Term::Virtual { args, .. } => (args.as_slice(), &[]),
        _ => (&[], &[]),
    }
}

/// The place into which a terminator stores its result.
pub fn stored_of_end<'a>(term: &'a Term) -> Option<&'a Place>
    ensures { listed (option_copied result) ≡ stored_by_term term.now }
{
    match term {
        Term::Math { to, .. } | Term::Negate { to, .. } | Term::Call { to, .. } => Some(to),
        Term::Virtual { to, .. } | Term::Ask { to, .. } => Some(to),
        _ => None,
    }
}

/// The place that a terminator uses otherwise than as an operand.
fn other_of_end<'a>(term: &'a Term) -> Option<&'a Place>
    ensures { listed (option_copied result) ≡ map place_used (other_term_uses term.now) }
{
    match term {
        Term::Case { on, .. } => Some(on),
        Term::DropAt { place, .. } => Some(place),
        _ => None,
    }
}

/// Whether the locals of all indices are among so many.
fn indices_exist(count: usize, steps: &[Step]) -> bool
    ensures { result ≡ list_all (λ local. nat_lt local count) (index_locals steps.now) }
{
    for step in steps {
        if let Step::Index(local) = step {
            if *local as usize >= count {
                return false;
            }
        }
    }
    true
}

fn is_index(items: &Items, locals: &[TyId], local: u32) -> bool
    ensures { result ≡ is_int Usize (option_and_then (type_at items.now) (slice_get locals.now local)) }
{
    match locals.get(local as usize) {
        Some(id) => is_kind(IntKind::Usize, items.ty(*id)),
        None => false,
    }
}

/// Whether the locals of all indices are of type `usize`.
fn are_indices(items: &Items, locals: &[TyId], steps: &[Step]) -> bool
    ensures { result ≡ list_all (λ local. is_int Usize (option_and_then (type_at items.now) (slice_get locals.now local))) (index_locals steps.now) }
{
    for step in steps {
        if let Step::Index(local) = step {
            if !is_index(items, locals, *local) {
                return false;
            }
        }
    }
    true
}

fn place_passes(test: PlaceTest, items: &Items, locals: &[TyId], place: &Place) -> bool
    ensures { result ≡ passes items.now locals.now test place.now }
{
    let steps = place.steps.as_slice();
    match test {
        PlaceTest::LocalsExist => {
            (place.local as usize) < locals.len() && indices_exist(locals.len(), steps)
        }
        PlaceTest::IsTyped => {
            ty_of_place(items, locals, place).is_some() && are_indices(items, locals, steps)
        }
    }
}

fn found_passes(test: PlaceTest, items: &Items, locals: &[TyId], place: Option<&Place>) -> bool
    ensures { result ≡ list_all (passes items.now locals.now test) (listed (option_copied place.entry)) }
{
    match place {
        Some(place) => place_passes(test, items, locals, place),
        None => true,
    }
}

fn operands_pass(test: PlaceTest, items: &Items, locals: &[TyId], operands: &[Operand]) -> bool
    ensures { result ≡ list_all (operand_passes items.now locals.now test) operands.now }
{
    operands.iter().all(|operand| match operand {
        Operand::Copied(place) | Operand::Moved(place) => {
            place_passes(test, items, locals, place)
        }
        _ => true,
    })
}

/// Whether the operands of a statement pass.
#[tactic(auto, using(crate::proofs::AskedOfLines::two_parts))]
pub fn operands_of_stmt_pass(test: PlaceTest, items: &Items, locals: &[TyId], stmt: &Stmt) -> bool
    ensures { result ≡ list_all (operand_passes items.now locals.now test) (operands_of_stmt stmt.now) }
{
    let (first, more) = operands_of(stmt);
    operands_pass(test, items, locals, first) && operands_pass(test, items, locals, more)
}

/// Whether the operands of a terminator pass.
#[tactic(auto, using(crate::proofs::AskedOfLines::two_parts))]
pub fn operands_of_term_pass(test: PlaceTest, items: &Items, locals: &[TyId], term: &Term) -> bool
    ensures { result ≡ list_all (operand_passes items.now locals.now test) (operands_of_term term.now) }
{
    let (first, more) = operands_of_end(term);
    operands_pass(test, items, locals, first) && operands_pass(test, items, locals, more)
}

/// Whether all places of a statement pass.
#[tactic(auto, using(crate::proofs::AskedOfLines::all_places))]
pub fn stmt_passes(test: PlaceTest, items: &Items, locals: &[TyId], stmt: &Stmt) -> bool
    ensures { result ≡ list_all (passes items.now locals.now test) (places_of_stmt stmt.now) }
{
    operands_of_stmt_pass(test, items, locals, stmt)
        && found_passes(test, items, locals, other_of(stmt))
        && found_passes(test, items, locals, stored_of(stmt))
}

/// Whether all places of a terminator pass.
#[tactic(auto, using(crate::proofs::AskedOfLines::all_places_of_end))]
pub fn term_passes(test: PlaceTest, items: &Items, locals: &[TyId], term: &Term) -> bool
    ensures { result ≡ list_all (passes items.now locals.now test) (places_of_term term.now) }
{
    operands_of_term_pass(test, items, locals, term)
        && found_passes(test, items, locals, other_of_end(term))
        && found_passes(test, items, locals, stored_of_end(term))
}
