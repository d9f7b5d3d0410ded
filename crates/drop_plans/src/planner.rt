//! The plan of a drop.
ghost use Rattle.std.specs.Prelude.{◌≡◌, ◌<◌, ℕ, IfOk, length, map};
ghost use Rattle.cfg_graph.specs.Places.{named_step};
ghost use Rattle.move_paths.specs.Forest.{path_at};
ghost use Rattle.drop_values.specs.Facts.{Tree, Branches, at_path};
ghost use Rattle.drop_values.specs.Planning as planning;
ghost use Rattle.drop_blocks.specs.View.{plan_in, parts_in, plans_from, cases_from};
ghost use Rattle.drop_plans.specs.Plans.{AreTold, IsOfVariant, inner_at, part_at, parts_at, plan_at, variants_at, IsEnum};
ghost use Rattle.drop_plans.specs.Trees.{IsTreeOf};
ghost use Rattle.mir_ty.specs.declared.ty.TyId.{TyId as TypeId};

use crate::Facts;
use crate::below::is_lowest;
use crate::parts::{flag_of, next, step_to};
use crate::shape::{Shape, shape_of};
use crate::wholes::{guarded, whole, whole_if};
use cfg_graph::Step;
use drop_blocks::{Plan, VariantPlan};
use init_flow::Masks;
use mir_base::{List, NoMemory};
use mir_ty::{Items, TyId};
use move_paths::Forest;
use std::alloc::Global;

/// What plans are made of: the paths of a body, what is known of them at a drop, and their flags, by their numbers.
#[derive(Clone, Copy)]
pub struct Planner<'a> {
    pub items: &'a Items,
    pub forest: &'a Forest,
    pub below: &'a Masks,
    pub facts: &'a Facts,
    pub flags: &'a [Option<u32>],
}

/// How what remains of a path is dropped, by its type and by what is known of it and of the paths below it.
///
/// # Errors
///
/// [`NoMemory`] where memory is wanted.
#[cycle(plans)]
pub fn plan(alloc: Global, at: &Planner<'_>, path: u32, ty: TyId) -> Result<Plan, NoMemory>
    requires told { AreTold at.now }
    requires path { path < length at.now.forest.now.paths }
    ensures { IfOk result (λ made. (tree : Tree) → IsTreeOf at.entry.now.forest.now.paths (path_at at.entry.now.forest.now.paths path) tree →
        plan_in made ≡ plan_at at.entry.now tree ty) }
{
    if !at.items.needs_drop(ty) {
        return Ok(Plan::Nothing);
    }
    if !at.facts.present.get(path) {
        return Ok(Plan::Nothing);
    }
    if !at.below.meets(path, &at.facts.gone) {
        return Ok(Plan::Entire);
    }
    if at.facts.gone.get(path) {
        let guard = flag_of(at.flags, path);
        return inner(alloc, at, path, ty, guard);
    }
    inner(alloc, at, path, ty, None)
}

/// What remains of a path whose own part is there where the flag is set, if there is one.
#[cycle(plans)]
fn inner(
    alloc: Global,
    at: &Planner<'_>,
    path: u32,
    ty: TyId,
    guard: Option<u32>,
) -> Result<Plan, NoMemory>
    requires told { AreTold at.now }
    requires path { path < length at.now.forest.now.paths }
    ensures { IfOk result (λ made. (number : ℕ) (under : Branches) →
        IsTreeOf at.entry.now.forest.now.paths (path_at at.entry.now.forest.now.paths path) (at_path number under) →
        plan_in made ≡ inner_at at.entry.now under ty guard) }
{
    if is_lowest(at.forest, path) {
        return whole(alloc, guard);
    }
    match shape_of(at.items, ty) {
        Shape::Whole => whole(alloc, guard),
        Shape::Box(content) => {
            let inside = part(alloc, at, path, Step::Inside, content, guard)?;
            Ok(Plan::OfBox {
                guard,
                inside: Box::new(alloc, inside)?,
            })
        }
        Shape::Enum(count) => {
            let variants = variant_plans(alloc, at, path, ty, count)?;
            guarded(alloc, guard, Plan::ByVariant(variants))
        }
        Shape::Parts => {
            let plans = part_plans(alloc, at, path, ty, None, guard)?;
            Ok(Plan::InParts(plans))
        }
    }
}

/// How a part of a path is dropped: by a plan of its own where it is a path, and else as a whole.
#[cycle(plans)]
fn part(
    alloc: Global,
    at: &Planner<'_>,
    path: u32,
    step: Step,
    ty: TyId,
    guard: Option<u32>,
) -> Result<Plan, NoMemory>
    requires told { AreTold at.now }
    requires path { path < length at.now.forest.now.paths }
    ensures { IfOk result (λ made. (number : ℕ) (under : Branches) (id : TypeId) →
        IsTreeOf at.entry.now.forest.now.paths (path_at at.entry.now.forest.now.paths path) (at_path number under) →
        planning.stepped at.entry.now.items.now (named_step step) id ≡ ty →
        plan_in made ≡ part_at at.entry.now under id guard (named_step step) ty) }
{
    match at.forest.child(path, step) {
        Some(child) => plan(alloc, at, child, ty),
        None => whole_if(alloc, at.items.needs_drop(ty), guard),
    }
}

/// The plans of the parts of a value, or of a variant of it, in order.
#[cycle(plans)]
fn part_plans(
    alloc: Global,
    at: &Planner<'_>,
    path: u32,
    ty: TyId,
    variant: Option<u32>,
    guard: Option<u32>,
) -> Result<List<Plan>, NoMemory>
    requires told { AreTold at.now }
    requires path { path < length at.now.forest.now.paths }
    ensures { IfOk result (λ made. (number : ℕ) (under : Branches) →
        IsTreeOf at.entry.now.forest.now.paths (path_at at.entry.now.forest.now.paths path) (at_path number under) →
        IsOfVariant at.entry.now ty variant →
        plans_from (map plan_in made) ≡ parts_at at.entry.now under ty variant guard) }
{
    let mut plans = List::new(alloc);
    let mut n: u32 = 0;
    while let Some(part_ty) = at.items.field_ty(ty, variant.unwrap_or(0), n) {
        let step = step_to(variant, n);
        plans.push(part(alloc, at, path, step, part_ty, guard)?)?;
        n = next(n)?;
    }
    Ok(plans)
}

/// The plans of the parts of each variant of an enum.
#[cycle(plans)]
fn variant_plans(
    alloc: Global,
    at: &Planner<'_>,
    path: u32,
    ty: TyId,
    count: usize,
) -> Result<List<VariantPlan>, NoMemory>
    requires told { AreTold at.now }
    requires path { path < length at.now.forest.now.paths }
    ensures { IfOk result (λ made. (number : ℕ) (under : Branches) →
        IsTreeOf at.entry.now.forest.now.paths (path_at at.entry.now.forest.now.paths path) (at_path number under) →
        (n : ℕ) → IsEnum at.entry.now ty n count →
        cases_from (map parts_in made) 0 ≡ variants_at at.entry.now under ty n) }
{
    let mut variants = List::new(alloc);
    let mut variant: u32 = 0;
    for _ in 0..count {
        let parts = part_plans(alloc, at, path, ty, Some(variant), None)?;
        variants.push(VariantPlan { parts })?;
        variant = next(variant)?;
    }
    Ok(variants)
}
