//! The ways out of blocks that are on paths.
ghost use Rattle.std.specs.Prelude.{◌≡◌, ◌<◌, not, false, length, IfSome};
ghost use Rattle.store_model.specs.Places.TypeForms.{is_never};
ghost use Rattle.cfg_graph.specs.Places.{place_id, ty_of_place};
ghost use Rattle.std.specs.Option.{option_map_or};
ghost use Rattle.mir_ty.specs.Facts.{needs_drop};
ghost use Rattle.cfg_graph.specs.Edges.{unwind_exit, ways_out};
ghost use Rattle.init_flow.specs.Ways.{target as target_of, way_target, exit_at, block_of, on_paths, way_count};

use cfg_graph::{Body, Place, Term, Unwind, place_ty};
use mir_ty::{Items, Ty};

fn unwind_block(unwind: &Unwind) -> Option<u32>
    ensures { result ≡ block_of (unwind_exit unwind.now) }
{
    match unwind {
        Unwind::Block(block) => Some(*block),
        Unwind::Resume | Unwind::Abort => None,
    }
}

/// The block to which the way with a number leads, out of those of a terminator.
fn exit(term: &Term, way: u32) -> Option<u32>
    ensures to { result ≡ exit_at term.now way }
    ensures exists { IfSome result (λ to. way < length (ways_out term.now)) }
{
    match (term, way) {
        (Term::Goto(to), 0) => Some(*to),
        (Term::If { no, .. } | Term::Case { no, .. }, 0) => Some(*no),
        (Term::If { yes, .. } | Term::Case { yes, .. }, 1) => Some(*yes),
        (
            Term::Math { then, .. }
            | Term::Negate { then, .. }
            | Term::Bounds { then, .. }
            | Term::Call { then, .. }
            | Term::Virtual { then, .. }
            | Term::Ask { then, .. }
            | Term::DropAt { then, .. },
            0,
        ) => Some(*then),
        (
            Term::Math { unwind, .. }
            | Term::Negate { unwind, .. }
            | Term::Bounds { unwind, .. }
            | Term::Call { unwind, .. }
            | Term::Virtual { unwind, .. }
            | Term::Ask { unwind, .. }
            | Term::DropAt { unwind, .. },
            1,
        )
        | (Term::Panic { unwind, .. }, 0) => unwind_block(unwind),
        _ => None,
    }
}

/// Whether the value of a place of a type can be there: none is of type `!`.
fn returns(items: &Items, body: &Body, to: &Place) -> bool
    ensures { result ≡ not (is_never (ty_of_place items.now body.now.locals to.now)) }
{
    match place_ty(items, body.locals.as_slice(), to) {
        Some(id) => !matches!(items.ty(id), Some(Ty::Never)),
        None => true,
    }
}

/// Whether the drop of a place may panic: its type needs dropping.
fn may_panic(items: &Items, body: &Body, place: &Place) -> bool
    ensures { result ≡ option_map_or (needs_drop items.now) (place_id items.now body.now.locals place.now) false }
{
    match place_ty(items, body.locals.as_slice(), place) {
        Some(id) => items.needs_drop(id),
        None => false,
    }
}

/// Whether a way out of a terminator is on paths.
fn is_on_paths(items: &Items, body: &Body, term: &Term, way: u32) -> bool
    ensures { result ≡ on_paths items.now body.now term.now way }
{
    match term {
        Term::Call { to, .. } | Term::Virtual { to, .. } => way != 0 || returns(items, body, to),
        Term::DropAt { place, .. } => way == 0 || may_panic(items, body, place),
        _ => true,
    }
}

/// The block to which the way with a number leads, out of those of a terminator that are on paths.
fn way_of(items: &Items, body: &Body, term: &Term, way: u32) -> Option<u32>
    ensures to { result ≡ way_target items.now body.now term.now way }
    ensures exists { IfSome result (λ to. way < length (ways_out term.now)) }
{
    if is_on_paths(items, body, term, way) {
        exit(term, way)
    } else {
        None
    }
}

/// The block to which a way out of a block leads; `None` where the block has no such way on a path, or it leaves the
/// body. The only way has the number 0; of two, 0 is the way to `no` or to the next block, and 1 that to `yes` or of a
/// panic. The way on from a call of a body that never returns is on no path, nor is the panic of a drop of what needs
/// no dropping.
pub fn target(items: &Items, body: &Body, block: u32, way: u32) -> Option<u32>
    ensures to { result ≡ target_of items.now body.now block way }
    ensures exists { IfSome result (λ to. way < way_count body.now block) }
{
    let found = body.blocks.get(block as usize)?;
    way_of(items, body, &found.term, way)
}
