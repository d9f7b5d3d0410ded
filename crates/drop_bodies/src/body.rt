//! Bodies with exact drops.
ghost use Rattle.std.specs.Prelude.{◌≡◌, ◌<◌, ◌^◌, IfOk, Some, length};
ghost use Rattle.mir_ty.specs.ItemTable.{ItemTable, type_at};
ghost use Rattle.mir_ty.specs.declared.ty.Ty.{Ty as ItemTy};
ghost use Rattle.cfg_graph.specs.WellFormed.Faults.{IsCountedBody};
ghost use Rattle.drop_elaborate.specs.Elaborated.{IsElaboratedBody};
ghost use Rattle.drop_elaborate.specs.Totals.{AreTotals};
ghost use Rattle.drop_flags.specs.Flags.{AreFlags, HasRoom};
ghost use Rattle.drop_laws.specs.Ready.{IsReadyBody};
ghost use Rattle.drop_plans.specs.Analysed.{AreAnalyses};
ghost use Rattle.drop_bodies.specs.Counts.{totals_of};
ghost use Rattle.drop_bodies.specs.Faults.{AddsNoFault};
ghost use Rattle.drop_bodies.specs.Planning.{IsMadeBy, IsPlanned};

use crate::counted::is_counted;
use crate::counts::{DropCounts, counts_of};
use crate::laid::{Laid, laid_blocks};
use crate::locals::locals_with;
use crate::planned::{Planned, plan_drops};
use crate::ranked::{new_ranks, ranks_of, with_ranks};
use cfg_graph::Body;
use drop_plans::Analyses;
use mir_base::NoMemory;
use mir_ty::{Items, TyId};
use std::alloc::Global;

/// The flags of a body, what becomes of its drops by them, and how many of these are of each kind.
#[derive(Drop)]
pub struct PlannedBody {
    pub plan: Planned,
    pub counts: DropCounts,
}

/// The flags of a body of a ready graph, what becomes of its drops by them, and how many of these are of each kind.
///
/// # Errors
///
/// [`NoMemory`] where memory is wanted, and where 32 bits do not count the locals with the flags.
pub fn plan_body(
    alloc: Global,
    items: &Items,
    body: &Body,
    told: &Analyses,
) -> Result<PlannedBody, NoMemory>
    requires ready { IsReadyBody items.now body.now }
    requires told { AreAnalyses items.now body.now told.now }
    requires count { length body.now.blocks < 2 ^ 32 }
    ensures { IfOk result (IsPlanned items.now body.now) }
{
    let plan = plan_drops(alloc, items, body, told)?;
    let counts = counts_of(&told.forest, &plan.flags, plan.decided.as_slice(), body)?;
    Ok(PlannedBody { plan, counts })
}

/// A body of the blocks of another one as they are planned, which have new ranks, and with its flags behind its locals.
fn finished(alloc: Global, plan: &Planned, body: Body, flag_ty: TyId) -> Result<Body, NoMemory>
    requires room { HasRoom plan.now.flags }
    requires flags { (items : ItemTable) × AreFlags items body plan.now.flags }
    requires decided { length plan.now.decided ≡ length body.blocks }
    requires count { length body.blocks < 2 ^ 32 }
    ensures { IfOk result (IsMadeBy plan.now body flag_ty) }
{
    let before = ranks_of(alloc, &body)?;
    let locals = locals_with(alloc, &body, flag_ty, plan.flags.paths.len())?;
    let params = body.params;
    let laid = laid_blocks(alloc, &plan.flags, plan.decided.as_slice(), body)?;
    let Laid { blocks, new, sizes } = laid;
    let ranks = new_ranks(alloc, before.as_slice(), sizes.as_slice())?;
    let blocks = with_ranks(blocks, new.made, ranks.as_slice())?;
    Ok(Body {
        params,
        locals,
        blocks,
    })
}

/// A body of a ready graph with exact drops: each scheduled drop is left out, kept, or made a ladder of the drops of what
/// remains, by drop flags, which are locals of the type `bool`.
///
/// # Errors
///
/// [`NoMemory`] where memory is wanted, and where there are more locals, blocks or lines of a block than 32 bits count.
pub fn elaborate_body(
    alloc: Global,
    body: Body,
    planned: &PlannedBody,
    flag_ty: TyId,
) -> Result<Body, NoMemory>
    requires planned { (items : ItemTable) × IsReadyBody items body × IsPlanned items body planned.now }
    requires count { length body.blocks < 2 ^ 32 }
    ensures elaborated { IfOk result (λ after. (items : ItemTable) → IsReadyBody items body → IsPlanned items body planned.now →
        type_at items flag_ty ≡ Some ItemTy.Bool → IsElaboratedBody items body after) }
    ensures counted { IfOk result (λ after. IsCountedBody after) }
    ensures faultless { IfOk result (λ after. (items : ItemTable) → IsReadyBody items body → IsPlanned items body planned.now →
        type_at items flag_ty ≡ Some ItemTy.Bool → AddsNoFault items body after) }
    ensures counts { IfOk result (λ after. (items : ItemTable) → IsReadyBody items body → IsPlanned items body planned.now →
        AreTotals items body after (totals_of planned.now.counts)) }
{
    let exact = finished(alloc, &planned.plan, body, flag_ty)?;
    if !is_counted(&exact) {
        return Err(NoMemory::past_32_bits());
    }
    Ok(exact)
}
