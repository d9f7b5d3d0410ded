//! Graphs with exact drops.
ghost use Rattle.std.specs.Prelude.{◌≡◌, ◌<◌, ◌^◌, IfOk, Some, length, slice_get};
ghost use Rattle.mir_ty.specs.AreItems.{AreItems};
ghost use Rattle.mir_ty.specs.ItemTable.{type_at};
ghost use Rattle.mir_ty.specs.declared.ty.Ty.{Ty as ItemTy};
ghost use Rattle.cfg_graph.specs.WellFormed.Faults.{IsCounted, IsCountedBody, IsWellFormed};
ghost use Rattle.drop_elaborate.specs.Elaborated.{IsElaboratedBody, IsElaboration};
ghost use Rattle.drop_elaborate.specs.Totals.{AreSums, AreTotals};
ghost use Rattle.drop_laws.specs.Ready.{IsElaborable, NamedStays};
ghost use Rattle.drop_bodies.specs.Counts.{totals_of};
ghost use Rattle.drop_bodies.specs.Planning.{IsPlanned};
ghost use Rattle.drop_plans.specs.Analysed.{IsGone};
ghost use Rattle.drop_graphs.specs.Runs.{RunsAsRaw};
ghost use Rattle.drop_graphs.specs.GoneIn.{AreGoneIn, ArePlanned};

use crate::copies::copy_graph;
use cfg_graph::{Body, Graph};
use drop_bodies::{DropCounts, PlannedBody, bool_of, elaborate_body, plan_body};
use drop_plans::{Analyses, Gone};
use mir_base::{List, NoMemory};
use mir_ty::TyId;
use std::alloc::Global;

/// A graph with exact drops, and how many drops of the raw one were of each kind.
#[derive(Drop)]
pub struct Elaborated {
    pub graph: Graph,
    pub counts: DropCounts,
}

impl Elaborated {
    /// The graph is let go.
    pub fn discard(self) {
        self.graph.discard();
    }
}

/// What may be gone in each body.
fn all_gone(alloc: Global, raw: &Graph) -> Result<List<Gone>, NoMemory>
    requires { IsCounted raw.now }
    ensures { IfOk result (λ gone. AreGoneIn raw.now gone) }
{
    let mut all = List::from_vec(Vec::with_capacity(alloc, raw.bodies.len())?);
    for number in 0..raw.bodies.len() as u32 {
        all.push(Gone::new(alloc, raw, number)?)?;
    }
    Ok(all)
}

/// The plan of the body with a number.
fn plan_of(
    alloc: Global,
    raw: &Graph,
    number: u32,
    body: &Body,
    gone: Gone,
) -> Result<PlannedBody, NoMemory>
    requires ready { IsElaborable raw.now }
    requires sound { AreItems raw.now.items }
    requires there { slice_get raw.now.bodies number ≡ Some body.now }
    requires gone { IsGone raw.now.items body.now gone }
    requires count { length body.now.blocks < 2 ^ 32 }
    ensures { IfOk result (IsPlanned raw.now.items body.now) }
{
    let told = Analyses::new(alloc, raw, number, gone)?;
    plan_body(alloc, &raw.items, body, &told)
}

/// The plans of all bodies.
fn plans_of(alloc: Global, raw: &Graph, gone: List<Gone>) -> Result<List<PlannedBody>, NoMemory>
    requires gone { AreGoneIn raw.now gone }
    requires ready { IsElaborable raw.now }
    requires sound { AreItems raw.now.items }
    requires counted { IsCounted raw.now }
    ensures { IfOk result (ArePlanned raw.now) }
{
    let mut plans = List::from_vec(Vec::with_capacity(alloc, raw.bodies.len())?);
    let mut number: u32 = 0;
    for told in gone.into_vec() {
        let body = &raw.bodies.as_slice()[number as usize];
        plans.push(plan_of(alloc, raw, number, body, told)?)?;
        number += 1;
    }
    Ok(plans)
}

/// The graph with exact drops of a graph that is ready for it: each scheduled drop is left out, kept, or made a ladder of
/// the drops of what remains, by drop flags. It has the trace and the end of the raw graph for all numbers to be asked and
/// all ticks at which that is not stuck, where what references name stays in the raw graph while they are used.
///
/// It takes the rows of two analyses for each body, and looks at each path at or below the place of a drop.
///
/// # Errors
///
/// [`NoMemory`] where memory is wanted, and where 32 bits do not count the locals, blocks or lines of a body with what is added.
pub fn elaborate(alloc: Global, raw: &Graph) -> Result<Elaborated, NoMemory>
    requires ready { IsElaborable raw.now }
    requires counted { IsCounted raw.now }
    ensures elaborated { IfOk result (λ done. IsElaboration raw.now done.graph) }
    ensures counted { IfOk result (λ done. IsCounted done.graph) }
    ensures well_formed { IfOk result (λ done. IsWellFormed done.graph) }
    ensures counts { IfOk result (λ done. AreSums raw.now done.graph (totals_of done.counts)) }
    ensures runs { IfOk result (λ done. NamedStays raw.now → RunsAsRaw raw.now done.graph) }
{
    let gone = all_gone(alloc, raw)?;
    let copy = copy_graph(alloc, raw)?;
    elaborate_with(alloc, copy, gone)
}

/// The same as [`elaborate`] of a graph that is given away, by what may be gone in each of the bodies: the statements and
/// terminators are moved into the new graph.
pub fn elaborate_with(alloc: Global, raw: Graph, gone: List<Gone>) -> Result<Elaborated, NoMemory>
    requires gone { AreGoneIn raw gone }
    requires ready { IsElaborable raw }
    requires counted { IsCounted raw }
    ensures elaborated { IfOk result (λ done. IsElaboration raw done.graph) }
    ensures counted { IfOk result (λ done. IsCounted done.graph) }
    ensures well_formed { IfOk result (λ done. IsWellFormed done.graph) }
    ensures counts { IfOk result (λ done. AreSums raw done.graph (totals_of done.counts)) }
    ensures runs { IfOk result (λ done. NamedStays raw → RunsAsRaw raw done.graph) }
{
    let flag_ty = bool_of(&raw.items);
    let plans = plans_of(alloc, &raw, gone)?;
    let Graph {
        items,
        bodies: raws,
    } = raw;
    let mut counts = DropCounts::new(0);
    let mut bodies = List::from_vec(Vec::with_capacity(alloc, raws.len())?);
    let mut number: usize = 0;
    for body in raws.into_vec() {
        let plan = &plans.as_slice()[number];
        counts.add(plan.counts)?;
        bodies.push(elaborate_body(alloc, body, plan, flag_ty)?)?;
        number += 1;
    }
    Ok(Elaborated {
        graph: Graph { items, bodies },
        counts,
    })
}
