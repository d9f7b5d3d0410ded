//! Whether a plan drops or frees anything.
ghost use Rattle.std.specs.Prelude.{◌≡◌, map};
ghost use Rattle.drop_blocks.specs.View.{plan_in, parts_in, plans_from, cases_from};
ghost use Rattle.drop_laws.specs.Rungs as rungs;

use drop_blocks::{Plan, VariantPlan};

/// Whether something is dropped or freed by a plan, whatever the flags hold.
#[cycle(rungs)]
pub fn has_rung(plan: &Plan) -> bool
    ensures { result ≡ rungs.has_rung (plan_in plan.now) }
{
    match plan {
        Plan::Nothing => false,
        Plan::Entire => true,
        Plan::ByFlag { plan, .. } => has_rung(plan),
        Plan::InParts(plans) => any_rung(plans.as_slice()),
        Plan::OfBox { .. } => true,
        Plan::ByVariant(variants) => some_rung(variants.as_slice()),
    }
}

#[cycle(rungs)]
fn any_rung(plans: &[Plan]) -> bool
    ensures { result ≡ rungs.any_rung (plans_from (map plan_in plans.now)) }
{
    for plan in plans {
        if has_rung(plan) {
            return true;
        }
    }
    false
}

#[cycle(rungs)]
fn variant_rung(variant: &VariantPlan) -> bool
    ensures { result ≡ rungs.any_rung (parts_in variant.now) }
{
    any_rung(variant.parts.as_slice())
}

#[cycle(rungs)]
fn some_rung(variants: &[VariantPlan]) -> bool
    ensures { result ≡ rungs.some_rung (cases_from (map parts_in variants.now) 0) }
{
    for variant in variants {
        if variant_rung(variant) {
            return true;
        }
    }
    false
}
