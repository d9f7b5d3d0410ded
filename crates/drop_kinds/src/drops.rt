//! What becomes of each drop of a body.
ghost use Rattle.std.specs.Prelude.{◌≡◌, ◌<◌, ◌^◌, IfOk, Some, false, length, slice_get};
ghost use Rattle.cfg_graph.specs.declared.place.Place.{Place as GraphPlace};
ghost use Rattle.cfg_graph.specs.Places.{named};
ghost use Rattle.move_paths.specs.Forest.{path_at};
ghost use Rattle.drop_values.specs.Facts.{Tree};
ghost use Rattle.drop_values.specs.Planning as planning;
ghost use Rattle.drop_plans.specs.Analysed.{AreAnalyses};
ghost use Rattle.drop_plans.specs.Plans.{AreTold, facts_of, flag_of, plan_at};
ghost use Rattle.drop_plans.specs.Trees.{IsTreeOf};
ghost use Rattle.drop_kinds.specs.Decided.{IsDecided, IsDecidedBy, AreDecided, EndsInDropOf, IsReachedBy, IsElsewhere};
ghost use Rattle.drop_laws.specs.Ready.{IsReadyBody};
ghost use Rattle.drop_elaborate.specs.Elaborated.{is_drop};
ghost use Rattle.drop_ends.specs.declared.decided.Decided.{Decided as HowDecided};

use crate::rungs::has_rung;
use cfg_graph::{Block, Body, Place, Term, place_ty};
use drop_copies::whole_local;
use drop_ends::Decided;
use drop_plans::{Analyses, Facts, Planner, facts_at, plan};
use mir_base::{List, NoMemory};
use mir_ty::{Items, TyId};
use std::alloc::Global;

/// What becomes of the drop of a path: it is dead where its plan has no rung, and plain where no path at or below it
/// may be gone.
fn decide_path(alloc: Global, at: &Planner<'_>, path: u32, ty: TyId) -> Result<Decided, NoMemory>
    requires told { AreTold at.now }
    requires path { path < length at.now.forest.now.paths }
    ensures { IfOk result (λ how. (tree : Tree) → IsTreeOf at.now.forest.now.paths (path_at at.now.forest.now.paths path) tree →
        IsDecidedBy how (plan_at at.now tree ty)
        (planning.sure at.now.items.now (facts_of at.now.facts.now) (flag_of at.now.flags.now) tree)) }
{
    let plan = plan(alloc, at, path, ty)?;
    if !has_rung(&plan) {
        return Ok(Decided::Dead);
    }
    if !at.below.meets(path, &at.facts.gone) {
        return Ok(Decided::Plain);
    }
    Ok(Decided::Planned(plan))
}

/// Whether some path of the body comes to a drop: there a local is present, or is gone.
fn is_reached(alloc: Global, told: &Analyses, facts: &Facts, local: u32) -> bool
    requires present { length facts.now.present ≡ length told.now.forest.paths }
    requires gone { length facts.now.gone ≡ length told.now.forest.paths }
    ensures { IsReachedBy told.now facts.now local result }
{
    let Some(path) = told.forest.exact(&whole_local(alloc, local)) else {
        return false;
    };
    if facts.present.get(path) {
        return true;
    }
    facts.gone.get(path)
}

/// What becomes of the drop of a place that is no path: it is dead where its type needs no dropping, or where no path
/// comes to it.
fn decide_elsewhere(needs: bool, reached: bool) -> Decided
    ensures { IsElsewhere needs reached result }
{
    if needs && reached {
        Decided::Plain
    } else {
        Decided::Dead
    }
}

/// What becomes of the drop of a place where a block comes to it.
fn decide(
    alloc: Global,
    items: &Items,
    body: &Body,
    told: &Analyses,
    flags: &[Option<u32>],
    number: u32,
    block: &Block,
    place: &Place,
) -> Result<Decided, NoMemory>
    requires ready { IsReadyBody items.now body.now }
    requires told { AreAnalyses items.now body.now told.now }
    requires flags { length flags.now ≡ length told.now.forest.paths }
    requires ends { EndsInDropOf body.now number block.now place.now }
    ensures { IfOk result (IsDecided items.now body.now told.now.forest.paths (flag_of flags.now) number (named place.now)) }
{
    let Some(ty) = place_ty(items, body.locals.as_slice(), place) else {
        return Ok(Decided::Dead);
    };
    let facts = facts_at(alloc, told, number, block)?;
    let Some(path) = told.forest.exact(place) else {
        let reached = is_reached(alloc, told, &facts, place.local);
        return Ok(decide_elsewhere(items.needs_drop(ty), reached));
    };
    let at = Planner {
        items,
        forest: &told.forest,
        below: &told.below,
        facts: &facts,
        flags,
    };
    decide_path(alloc, &at, path, ty)
}

fn decide_block(
    alloc: Global,
    items: &Items,
    body: &Body,
    told: &Analyses,
    flags: &[Option<u32>],
    number: u32,
    block: &Block,
) -> Result<Decided, NoMemory>
    requires ready { IsReadyBody items.now body.now }
    requires told { AreAnalyses items.now body.now told.now }
    requires flags { length flags.now ≡ length told.now.forest.paths }
    requires block { slice_get body.now.blocks number ≡ Some block.now }
    ensures drops { IfOk result (λ how. (place : GraphPlace) → EndsInDropOf body.now number block.now place →
        IsDecided items.now body.now told.now.forest.paths (flag_of flags.now) number (named place) how) }
    ensures others { IfOk result (λ how. is_drop block.now.term ≡ false → how ≡ HowDecided.Dead) }
{
    match &block.term {
        Term::DropAt { place, .. } => {
            decide(alloc, items, body, told, flags, number, block, place)
        }
        _ => Ok(Decided::Dead),
    }
}

/// What becomes of the drop of each block of a body of a ready graph, if it ends in one: dead, plain, or a plan by the
/// flags of the body's paths, which are given by the numbers of these.
///
/// # Errors
///
/// [`NoMemory`] where memory is wanted.
pub fn decisions(
    alloc: Global,
    items: &Items,
    body: &Body,
    told: &Analyses,
    flags: &[Option<u32>],
) -> Result<List<Decided>, NoMemory>
    requires ready { IsReadyBody items.now body.now }
    requires told { AreAnalyses items.now body.now told.now }
    requires flags { length flags.now ≡ length told.now.forest.paths }
    requires count { length body.now.blocks < 2 ^ 32 }
    ensures { IfOk result (AreDecided items.now body.now told.now.forest.paths (flag_of flags.now) (length body.now.blocks)) }
{
    let mut decided = List::from_vec(Vec::with_capacity(alloc, body.blocks.len())?);
    let mut number: u32 = 0;
    for block in body.blocks.as_slice() {
        decided.push(decide_block(alloc, items, body, told, flags, number, block)?)?;
        number += 1;
    }
    Ok(decided)
}
