//! The flags of a body, and what becomes of its drops by them.
ghost use Rattle.std.specs.Prelude.{◌<◌, ◌^◌, IfOk, length};
ghost use Rattle.drop_elaborate.specs.Elaborated as rules;
ghost use Rattle.drop_elaborate.specs.Kinds.{AreFlagged};
ghost use Rattle.drop_flags.specs.Flags.{AreFlags, HasRoom, paths_of};
ghost use Rattle.drop_kinds.specs.Decided.{AreDecided};
ghost use Rattle.drop_laws.specs.Ready.{IsReadyBody};
ghost use Rattle.drop_plans.specs.Analysed.{AreAnalyses};

use cfg_graph::Body;
use drop_ends::Decided;
use drop_flags::Flags;
use drop_kinds::decisions;
use drop_plans::{Analyses, flag_table};
use drop_wants::{flagged, own_numbers, renumber};
use mir_base::{List, NoMemory};
use mir_ty::Items;
use std::alloc::Global;

/// The flags of the paths of a body that need one, and what becomes of the drop of each block.
#[derive(Drop)]
pub struct Planned {
    pub flags: Flags,
    pub decided: List<Decided>,
}

/// The flags that a body of a ready graph needs, and what becomes of its drops by them.
///
/// # Errors
///
/// [`NoMemory`] where memory is wanted, and where 32 bits do not count the locals with the flags.
pub fn plan_drops(
    alloc: Global,
    items: &Items,
    body: &Body,
    told: &Analyses,
) -> Result<Planned, NoMemory>
    requires ready { IsReadyBody items.now body.now }
    requires told { AreAnalyses items.now body.now told.now }
    requires count { length body.now.blocks < 2 ^ 32 }
    ensures flagged { IfOk result (λ planned.
        AreFlagged items.now body.now told.now.forest.paths (paths_of planned.flags)) }
    ensures flags { IfOk result (λ planned. AreFlags items.now body.now planned.flags) }
    ensures room { IfOk result (λ planned. HasRoom planned.flags) }
    ensures decided { IfOk result (λ planned. AreDecided items.now body.now told.now.forest.paths
        (rules.flag_of items.now body.now (paths_of planned.flags) told.now.forest.paths) (length body.now.blocks)
        planned.decided) }
{
    let numbers = own_numbers(alloc, told.forest.len())?;
    let mut decided = decisions(alloc, items, body, told, numbers.as_slice())?;
    let paths = flagged(alloc, items, body, told, decided.as_slice())?;
    let flags = Flags::new(body, paths)?;
    let table = flag_table(alloc, &told.forest, flags.paths.as_slice(), flags.first)?;
    renumber(table.as_slice(), &mut decided);
    Ok(Planned { flags, decided })
}
