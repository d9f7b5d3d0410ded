//! The ladder of a plan.
ghost use Rattle.std.specs.Prelude.{◌≡◌, IfOk, Some, false, map};
ghost use Rattle.cfg_graph.specs.Edges.{is_turn_kind};
ghost use Rattle.drop_blocks.specs.Ladders as ladders;
ghost use Rattle.drop_blocks.specs.Ladders.{made_of, built_of, step_of};
ghost use Rattle.drop_blocks.specs.Standing.{IsLadder};
ghost use Rattle.drop_blocks.specs.View.{plan_in, parts_in, plans_from, cases_from};

use crate::parts::{count_of, step_to};
use crate::rungs::entire;
use crate::tests::{by_flag, by_variant, freed_by};
use crate::{Chains, NewBlocks, Plan, VariantPlan};
use cfg_graph::{Kind, Place, Step};
use drop_copies::place_below;
use mir_base::NoMemory;
use std::alloc::Global;

/// The rungs of a plan, before chains that stand already.
#[cycle(ladder)]
fn rungs(
    alloc: Global,
    kind: Kind,
    plan: &Plan,
    place: &Place,
    rest: Chains,
    blocks: &mut NewBlocks,
) -> Result<Chains, NoMemory>
    ensures { IfOk result (λ begun. built_of begun blocks.new
        ≡ ladders.ladder_of kind (plan_in plan.now) place.now rest (made_of blocks.old)) }
{
    match plan {
        Plan::Nothing => Ok(rest),
        Plan::Entire => entire(alloc, kind, place, rest, blocks),
        Plan::ByFlag { flag, plan } => {
            let there = rungs(alloc, kind, plan, place, rest, blocks)?;
            by_flag(alloc, kind, *flag, there, rest, blocks)
        }
        Plan::InParts(plans) => rungs_of_parts(
            alloc,
            kind,
            plans.as_slice(),
            None,
            place,
            rest,
            blocks,
        ),
        Plan::OfBox { guard, inside } => {
            let behind = freed_by(alloc, kind, *guard, place, rest, blocks)?;
            let content = place_below(alloc, place, Step::Inside)?;
            rungs(alloc, kind, inside, &content, behind, blocks)
        }
        Plan::ByVariant(variants) => {
            rungs_of_variants(alloc, kind, variants.as_slice(), place, rest, blocks)
        }
    }
}

/// The rungs of parts of a value, or of a variant of it, from the last to the first.
#[cycle(ladder)]
fn rungs_of_parts(
    alloc: Global,
    kind: Kind,
    plans: &[Plan],
    variant: Option<u32>,
    place: &Place,
    rest: Chains,
    blocks: &mut NewBlocks,
) -> Result<Chains, NoMemory>
    ensures { IfOk result (λ begun. built_of begun blocks.new
        ≡ ladders.parts_of kind (plans_from (map plan_in plans.now)) (step_of variant) 0 place.now rest (made_of blocks.old)) }
{
    let mut behind = rest;
    let mut n = count_of(plans.len())?;
    while n > 0 {
        n -= 1;
        let part = place_below(alloc, place, step_to(variant, n))?;
        behind = rungs(alloc, kind, &plans[n as usize], &part, behind, blocks)?;
    }
    Ok(behind)
}

/// The tests and rungs of variants, from the last to the first.
#[cycle(ladder)]
fn rungs_of_variants(
    alloc: Global,
    kind: Kind,
    variants: &[VariantPlan],
    place: &Place,
    rest: Chains,
    blocks: &mut NewBlocks,
) -> Result<Chains, NoMemory>
    ensures { IfOk result (λ begun. built_of begun blocks.new
        ≡ ladders.cases_of kind (cases_from (map parts_in variants.now) 0) place.now rest (made_of blocks.old)) }
{
    let mut other = rest;
    let mut n = count_of(variants.len())?;
    while n > 0 {
        n -= 1;
        let there = rungs_of_variant(alloc, kind, &variants[n as usize], n, place, rest, blocks)?;
        other = by_variant(alloc, kind, place, n, there, other, blocks)?;
    }
    Ok(other)
}

/// The rungs of the parts of a variant.
#[cycle(ladder)]
fn rungs_of_variant(
    alloc: Global,
    kind: Kind,
    variant: &VariantPlan,
    number: u32,
    place: &Place,
    rest: Chains,
    blocks: &mut NewBlocks,
) -> Result<Chains, NoMemory>
    ensures { IfOk result (λ begun. built_of begun blocks.new
        ≡ ladders.parts_of kind (parts_in variant.now) (step_of (Some number)) 0 place.now rest (made_of blocks.old)) }
{
    rungs_of_parts(
        alloc,
        kind,
        variant.parts.as_slice(),
        Some(number),
        place,
        rest,
        blocks,
    )
}

/// The ladder of a plan: the blocks that drop what remains of a place and go on in others, made behind the new ones, in
/// a calm chain of blocks of this kind and, if the others have one, a cleanup twin.
///
/// # Errors
///
/// [`NoMemory`] where memory is wanted, and where there are more blocks than 32 bits count.
pub fn ladder(
    alloc: Global,
    kind: Kind,
    plan: &Plan,
    place: &Place,
    rest: Chains,
    blocks: &mut NewBlocks,
) -> Result<Chains, NoMemory>
    ensures built { IfOk result (λ begun. built_of begun blocks.new
        ≡ ladders.ladder_of kind (plan_in plan.now) place.now rest (made_of blocks.old)) }
    ensures stands { IfOk result (λ begun. is_turn_kind kind ≡ false → IsLadder (plan_in plan.now) place.now (made_of blocks.old)
        (built_of begun blocks.new) rest) }
{
    rungs(alloc, kind, plan, place, rest, blocks)
}
