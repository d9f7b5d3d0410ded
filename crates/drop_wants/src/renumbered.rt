//! Plans with other numbers of flags.
ghost use Rattle.std.specs.Prelude.{◌≡◌, map, option_map};
ghost use Rattle.drop_blocks.specs.View.{plan_in, parts_in, plans_from, cases_from};
ghost use Rattle.drop_wants.specs.Renumbered.{number_in, renumbered, all_renumbered, each_renumbered, IsRenumbered, AreRenumbered};

use drop_blocks::{Plan, VariantPlan};
use drop_ends::Decided;
use mir_base::List;

/// The number of a flag in a table; one that has none there stays.
fn number(table: &[Option<u32>], flag: u32) -> u32
    ensures { result ≡ number_in table.now flag }
{
    match table.get(flag as usize) {
        Some(Some(number)) => *number,
        _ => flag,
    }
}

fn renumber_guard(table: &[Option<u32>], guard: &mut Option<u32>)
    ensures { guard.new ≡ option_map (number_in table.now) guard.old }
{
    if let Some(flag) = *guard {
        *guard = Some(number(table, flag));
    }
}

#[cycle(renumber)]
fn renumber_plan(table: &[Option<u32>], plan: &mut Plan)
    ensures { plan_in plan.new ≡ renumbered (number_in table.now) (plan_in plan.old) }
{
    match plan {
        Plan::Nothing | Plan::Entire => {}
        Plan::ByFlag { flag, plan } => {
            *flag = number(table, *flag);
            renumber_plan(table, plan);
        }
        Plan::InParts(plans) => renumber_parts(table, plans),
        Plan::OfBox { guard, inside } => {
            renumber_guard(table, guard);
            renumber_plan(table, inside);
        }
        Plan::ByVariant(variants) => renumber_variants(table, variants),
    }
}

#[cycle(renumber)]
fn renumber_parts(table: &[Option<u32>], plans: &mut List<Plan>)
    ensures { plans_from (map plan_in plans.new) ≡ all_renumbered (number_in table.now) (plans_from (map plan_in plans.old)) }
{
    for n in 0..plans.len() {
        renumber_plan(table, plans.element_mut(n));
    }
}

#[cycle(renumber)]
fn renumber_variant(table: &[Option<u32>], variant: &mut VariantPlan)
    ensures { parts_in variant.new ≡ all_renumbered (number_in table.now) (parts_in variant.old) }
{
    renumber_parts(table, &mut variant.parts);
}

#[cycle(renumber)]
fn renumber_variants(table: &[Option<u32>], variants: &mut List<VariantPlan>)
    ensures { cases_from (map parts_in variants.new) 0 ≡ each_renumbered (number_in table.now) (cases_from (map parts_in variants.old) 0) }
{
    for n in 0..variants.len() {
        renumber_variant(table, variants.element_mut(n));
    }
}

fn renumber_decided(table: &[Option<u32>], how: &mut Decided)
    ensures { IsRenumbered (number_in table.now) how.old how.new }
{
    if let Decided::Planned(plan) = how {
        renumber_plan(table, plan);
    }
}

/// Gives the flags that plans read the numbers that these have in a table.
pub fn renumber(table: &[Option<u32>], decided: &mut List<Decided>)
    ensures { AreRenumbered (number_in table.now) decided.old decided.new }
{
    for n in 0..decided.len() {
        renumber_decided(table, decided.element_mut(n));
    }
}
