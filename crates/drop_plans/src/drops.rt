//! The plan of a drop where a block of a body comes to it.
ghost use Rattle.std.specs.Prelude.{◌≡◌, ◌<◌, IfOk, Some, length, slice_get};
ghost use Rattle.cfg_graph.specs.declared.graph.Body.{Body as GraphBody};
ghost use Rattle.move_paths.specs.Forest.{path_at};
ghost use Rattle.drop_values.specs.Facts.{Tree, Facts as Known};
ghost use Rattle.drop_values.specs.Planning as planning;
ghost use Rattle.drop_blocks.specs.View.{plan_in};
ghost use Rattle.drop_elaborate.specs.Kinds.{AreFacts, IsTree};
ghost use Rattle.drop_plans.specs.Analysed.{AreAnalyses};
ghost use Rattle.drop_plans.specs.AtDrops.{EndsInDrop};
ghost use Rattle.drop_plans.specs.Plans.{flag_of};

use crate::facts::facts_at;
use crate::{Analyses, Planner, plan};
use cfg_graph::Block;
use drop_blocks::Plan;
use mir_base::NoMemory;
use mir_ty::{Items, TyId};
use std::alloc::Global;

/// How what remains of a path is dropped where a block comes to the drop of it: by all that the paths of the body tell
/// there, by its type, and by the flags of the paths, by their numbers.
///
/// # Errors
///
/// [`NoMemory`] where memory is wanted.
pub fn plan_at(
    alloc: Global,
    items: &Items,
    told: &Analyses,
    flags: &[Option<u32>],
    number: u32,
    block: &Block,
    path: u32,
    ty: TyId,
) -> Result<Plan, NoMemory>
    requires told { (body : GraphBody) × AreAnalyses items.now body told.now }
    requires flags { length flags.now ≡ length told.now.forest.paths }
    requires path { path < length told.now.forest.paths }
    ensures { IfOk result (λ made. (body : GraphBody) (tree : Tree) → AreAnalyses items.now body told.now →
        slice_get body.blocks number ≡ Some block.now → EndsInDrop block.now →
        IsTree items.now body told.now.forest.paths (path_at told.now.forest.paths path) tree →
        (known : Known) × AreFacts items.now body told.now.forest.paths number known
        × (plan_in made ≡ planning.plan_of items.now known (flag_of flags.now) tree ty)) }
{
    let facts = facts_at(alloc, told, number, block)?;
    let at = Planner {
        items,
        forest: &told.forest,
        below: &told.below,
        facts: &facts,
        flags,
    };
    plan(alloc, &at, path, ty)
}
