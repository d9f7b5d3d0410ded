//! The flags that plans read, as bits of a row.
ghost use Rattle.std.specs.Prelude.{◌≡◌, ◌==◌, IfOk, map};
ghost use Rattle.drop_blocks.specs.View.{plan_in, parts_in, plans_from, cases_from};
ghost use Rattle.drop_laws.specs.Rungs.{is_guard, reads, any_reads, some_reads};
ghost use Rattle.drop_wants.specs.Marks.{Marks, IsWanted, asks};

use bit_rows::BitRow;
use drop_blocks::{Plan, VariantPlan};
use drop_ends::Decided;
use mir_base::NoMemory;
use std::alloc::Global;

fn mark_flag(flag: u32, row: &mut BitRow)
    ensures { Marks (λ k. flag == k) row.old row.new }
{
    if flag < row.len() {
        row.set(flag, true);
    }
}

fn mark_guard(guard: Option<u32>, row: &mut BitRow)
    ensures { Marks (λ k. is_guard guard k) row.old row.new }
{
    if let Some(flag) = guard {
        mark_flag(flag, row);
    }
}

#[cycle(marks)]
fn mark(plan: &Plan, row: &mut BitRow)
    ensures { Marks (λ k. reads k (plan_in plan.now)) row.old row.new }
{
    match plan {
        Plan::Nothing | Plan::Entire => {}
        Plan::ByFlag { flag, plan } => {
            mark_flag(*flag, row);
            mark(plan, row);
        }
        Plan::InParts(plans) => mark_parts(plans.as_slice(), row),
        Plan::OfBox { guard, inside } => {
            mark_guard(*guard, row);
            mark(inside, row);
        }
        Plan::ByVariant(variants) => mark_variants(variants.as_slice(), row),
    }
}

#[cycle(marks)]
fn mark_parts(plans: &[Plan], row: &mut BitRow)
    ensures { Marks (λ k. any_reads k (plans_from (map plan_in plans.now))) row.old row.new }
{
    for plan in plans {
        mark(plan, row);
    }
}

#[cycle(marks)]
fn mark_variant(variant: &VariantPlan, row: &mut BitRow)
    ensures { Marks (λ k. any_reads k (parts_in variant.now)) row.old row.new }
{
    mark_parts(variant.parts.as_slice(), row);
}

#[cycle(marks)]
fn mark_variants(variants: &[VariantPlan], row: &mut BitRow)
    ensures { Marks (λ k. some_reads k (cases_from (map parts_in variants.now) 0)) row.old row.new }
{
    for variant in variants {
        mark_variant(variant, row);
    }
}

fn mark_decided(how: &Decided, row: &mut BitRow)
    ensures { Marks (λ k. asks k how.now) row.old row.new }
{
    if let Decided::Planned(plan) = how {
        mark(plan, row);
    }
}

/// The flags below this number that the plans of a body read.
///
/// # Errors
///
/// [`NoMemory`] where memory is wanted.
pub fn wanted(alloc: Global, count: u32, decided: &[Decided]) -> Result<BitRow, NoMemory>
    ensures { IfOk result (IsWanted count decided.now) }
{
    let mut row = BitRow::new(alloc, count)?;
    for how in decided {
        mark_decided(how, &mut row);
    }
    Ok(row)
}
