//! What is dropped as a whole.
ghost use Rattle.std.specs.Prelude.{◌≡◌, IfOk};
ghost use Rattle.drop_values.specs.Plan.{Entire};
ghost use Rattle.drop_values.specs.Planning as planning;
ghost use Rattle.drop_blocks.specs.View.{plan_in};

use drop_blocks::Plan;
use mir_base::NoMemory;
use std::alloc::Global;

/// A plan behind the flag, if there is one.
pub fn guarded(alloc: Global, guard: Option<u32>, plan: Plan) -> Result<Plan, NoMemory>
    ensures { IfOk result (λ made. plan_in made ≡ planning.guarded guard (plan_in plan)) }
{
    match guard {
        Some(flag) => Ok(Plan::ByFlag {
            flag,
            plan: Box::new(alloc, plan)?,
        }),
        None => Ok(plan),
    }
}

/// All of a place is dropped, where the flag is set, if there is one.
pub fn whole(alloc: Global, guard: Option<u32>) -> Result<Plan, NoMemory>
    ensures { IfOk result (λ made. plan_in made ≡ planning.guarded guard Entire) }
{
    guarded(alloc, guard, Plan::Entire)
}

/// What is no path is dropped as a whole, if its type needs it.
pub fn whole_if(alloc: Global, needs: bool, guard: Option<u32>) -> Result<Plan, NoMemory>
    ensures { IfOk result (λ made. plan_in made ≡ planning.whole_plan guard needs) }
{
    if needs {
        whole(alloc, guard)
    } else {
        Ok(Plan::Nothing)
    }
}
