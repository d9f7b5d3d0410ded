//! Whether a run comes behind an effect.
ghost use Rattle.std.specs.Prelude.{◌≡◌, IfOk, slice_get, option_copied};
ghost use Rattle.lower_rules.specs.Build as build;
ghost use Rattle.lower_code.specs.View.{effect_of};
ghost use Rattle.store_model.specs.Abstract.Effects.{never_at};
ghost use Rattle.cfg_meaning.specs.Actions.{site_of};
ghost use Rattle.lower_passes.specs.Framed.{frame_of, stored, stored_in};

use crate::frames::LoweringFrame;
use crate::places::place;
use cfg_graph::{Place, Stmt, place_ty};
use lower_code::Action;
use mir_base::NoMemory;
use mir_ty::Ty;
use std::alloc::Global;

/// The place into which a statement stores.
fn stored_by_stmt(stmt: &Stmt) -> Option<&Place>
    ensures { option_copied result ≡ stored_in stmt.now }
{
    match stmt {
        Stmt::Put(to, _)
        | Stmt::Compare(to, _, _, _)
        | Stmt::Not(to, _)
        | Stmt::Tuple(to, _)
        | Stmt::Array(to, _)
        | Stmt::NewBox(to, _)
        | Stmt::Make { to, .. }
        | Stmt::Close { to, .. }
        | Stmt::Unsize { to, .. }
        | Stmt::Borrow { to, .. } => Some(to),
        Stmt::Touch(_) | Stmt::Print(_) | Stmt::Forget(_) | Stmt::Free(_) => None,
    }
}

/// The place into which an effect stores.
fn stored_by(action: &Action) -> Option<&Place>
    ensures { option_copied result ≡ stored action.now }
{
    match action {
        Action::Stmt(stmt) => stored_by_stmt(stmt),
        Action::Math { to, .. }
        | Action::Negate { to, .. }
        | Action::Call { to, .. }
        | Action::Virtual { to, .. }
        | Action::Ask { to } => Some(to),
        Action::Bounds { .. } => None,
    }
}

/// Whether a place by locals has the type `!`.
fn is_never(frame: LoweringFrame, place: &Place) -> bool
    ensures { result ≡ never_at frame.entry.items.now (slice_get frame.entry.tys.now) (site_of 0 place.now) }
{
    match place_ty(frame.items, frame.tys, place) {
        Some(id) => matches!(frame.items.ty(id), Some(Ty::Never)),
        None => false,
    }
}

/// Whether no run comes behind an effect: it stores into a place of type `!`.
///
/// # Errors
///
/// [`NoMemory`] where memory is wanted.
pub fn is_last(alloc: Global, frame: LoweringFrame, action: &Action) -> Result<bool, NoMemory>
    ensures { IfOk result (λ is. is ≡ build.is_last (frame_of frame.entry) (effect_of 0 action.now)) }
{
    match stored_by(action) {
        Some(to) => {
            let to = place(alloc, frame, to)?;
            Ok(is_never(frame, &to))
        }
        None => Ok(false),
    }
}
