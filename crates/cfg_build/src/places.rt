//! The places of a line.
ghost use Rattle.std.specs.Prelude.{◌≡◌, IfOk, map, slice_get};
ghost use Rattle.std.specs.Option.{option_copied};
ghost use Rattle.lower_rules.specs.Sites as sites;
ghost use Rattle.cfg_graph.specs.Uses.{place_used, places_of_stmt, stored_by_stmt, stored_by_term};
ghost use Rattle.move_paths.specs.Uses.{listed, optional};
ghost use Rattle.cfg_build.specs.Lines as lines;

use cfg_graph::{Place, Stmt, Term};
use mir_base::NoMemory;
use move_paths::{Used, result_place, stmt_uses, term_uses};
use std::alloc::Global;
use typed_tree::Use;

/// The first place that a line uses, and that into which it stores.
#[derive(Clone, Copy)]
pub struct LinePlaces<'a> {
    pub first: Option<&'a Place>,
    pub stored: Option<&'a Place>,
}

/// The place into which a statement stores.
fn stored_place(stmt: &Stmt) -> Option<&Place>
    ensures { optional (option_copied result) ≡ stored_by_stmt stmt.now }
{
    match stmt {
        Stmt::Put(to, _)
        | Stmt::Compare(to, _, _, _)
        | Stmt::Not(to, _)
        | Stmt::Tuple(to, _)
        | Stmt::Array(to, _)
        | Stmt::Make { to, .. }
        | Stmt::Close { to, .. }
        | Stmt::NewBox(to, _)
        | Stmt::Unsize { to, .. }
        | Stmt::Borrow { to, .. } => Some(to),
        Stmt::Touch(_) | Stmt::Print(_) | Stmt::Forget(_) | Stmt::Free(_) => None,
    }
}

/// The first place among uses.
fn first_of<'a>(uses: &[Used<'a>]) -> Option<&'a Place>
    ensures { option_copied result ≡ slice_get (map place_used (listed uses.now)) 0 }
{
    match uses.split_first() {
        Some((used, _)) => Some(used.place),
        None => None,
    }
}

/// The places of a statement.
pub fn stmt_places<'a>(alloc: Global, stmt: &'a Stmt) -> Result<LinePlaces<'a>, NoMemory>
    ensures first { IfOk result (λ places. option_copied places.first ≡ slice_get (places_of_stmt stmt.now) 0) }
    ensures stored { IfOk result (λ places. optional (option_copied places.stored) ≡ stored_by_stmt stmt.now) }
{
    let uses = stmt_uses(alloc, stmt)?;
    Ok(LinePlaces {
        first: first_of(uses.as_slice()),
        stored: stored_place(stmt),
    })
}

/// The place that a terminator uses first, otherwise than by a drop, before it takes a way out.
fn first_place<'a>(alloc: Global, term: &'a Term) -> Result<Option<&'a Place>, NoMemory>
    ensures { IfOk result (λ first. option_copied first ≡ lines.first_of_term term.now) }
{
    if let Term::DropAt { .. } = term {
        return Ok(None);
    }
    let uses = term_uses(alloc, term)?;
    Ok(first_of(uses.as_slice()))
}

/// The places of a terminator; a drop is no use.
pub fn term_places<'a>(alloc: Global, term: &'a Term) -> Result<LinePlaces<'a>, NoMemory>
    ensures first { IfOk result (λ places. option_copied places.first ≡ slice_get (sites.used_by_term term.now) 0) }
    ensures stored { IfOk result (λ places. optional (option_copied places.stored) ≡ stored_by_term term.now) }
{
    let stored = result_place(term);
    let first = first_place(alloc, term)?;
    Ok(LinePlaces {
        first: first.or(stored),
        stored,
    })
}

/// The place that is used: that of a store where the node stores, and else the first.
pub fn used_place<'a>(by: Option<Use>, places: LinePlaces<'a>) -> Option<&'a Place>
    ensures { option_copied result ≡ lines.used_of by (option_copied places.entry.first) (option_copied places.entry.stored) }
{
    match (by, places.stored) {
        (Some(Use::Store), Some(place)) => Some(place),
        _ => places.first,
    }
}
