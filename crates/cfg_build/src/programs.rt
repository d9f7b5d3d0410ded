//! Programs that are lowered.
ghost use Rattle.std.specs.Prelude.{◌≡◌, ◌<◌, ◌-◌, ◌^◌, ◌++◌, ◌∷◌, [], All, None, OnOk, IfOk, length, map};
ghost use Rattle.lower_rules.specs.Lower as low;
ghost use Rattle.src_meaning.specs.Locals.OfBody as of_body;
ghost use Rattle.typed_tree.specs.View.{body_of, program_of};
ghost use Rattle.lower_rules.specs.Listed as listed;
ghost use Rattle.lower_rules.specs.Listed.{ids_of, nodes_of_body};
ghost use Rattle.typing_rules.specs.Borrows.{broken_borrow};
ghost use Rattle.well_typed.specs.Program.{WellTyped};
ghost use Rattle.cfg_graph.specs.Ready.{IsPrepared};
ghost use Rattle.cfg_graph.specs.WellFormed.Faults.{IsCounted, IsCountedBody, IsWellFormed};
ghost use Rattle.lower_laws.specs.Lowerable.{IsLowerable};
ghost use Rattle.lower_laws.specs.Refused.{MeetsExactly, MeetsItsRefusals};
ghost use Rattle.cfg_build.specs.Claims.{EachBody, HasOrderedEdges, HasScheduledDrops, IsSmall, RunsAsItsSource};
ghost use Rattle.cfg_build.specs.Claims.{WalksAsItRunsFreely};

use crate::bodies::{LoweredBody, lower_body};
use crate::parts::MANY;
use crate::{PlaceNames, body_sites, rise};
use cfg_graph::{Body, Graph};
use lower_rules::Site;
use mir_base::{List, NoMemory};
use mir_ty::Items;
use std::alloc::Global;
use std::mem;
use typed_tree::{TBody, Typed, all_nodes};

/// A program that is lowered: its raw graph, and the sites of its uses in the order of bodies, blocks and lines.
#[derive(Drop)]
pub struct Lowered {
    pub graph: Graph,
    pub sites: List<Site>,
}

impl Lowered {
    /// The graph and its sites are let go.
    pub fn discard(self) {
        self.graph.discard();
        drop(self.sites);
    }
}

/// The sites of a body that is lowered, behind others.
fn add_sites(
    alloc: Global,
    items: &Items,
    body: &TBody,
    number: u32,
    lowered: &LoweredBody,
    sites: &mut List<Site>,
) -> Result<(), NoMemory>
    ensures { OnOk result (lowered.now.body ≡ low.body_of items.now (body_of body.now) →
        lowered.now.locals ≡ of_body.locals items.now (body_of body.now) →
        map ids_of lowered.now.nodes ≡ nodes_of_body items.now (body_of body.now) →
        sites.new ≡ sites.old ++ listed.body_sites items.now (body_of body.now) number) }
{
    let nodes = all_nodes(alloc, body)?;
    let all = nodes.as_slice();
    let names = PlaceNames {
        items,
        locals: lowered.locals.as_slice(),
        nodes: all,
        rise: rise(all),
    };
    let blocks = lowered.body.blocks.as_slice();
    body_sites(
        alloc,
        names,
        number,
        blocks,
        lowered.nodes.as_slice(),
        sites,
    )
}

/// A body is lowered, behind others, and its sites behind theirs.
fn add_body(
    alloc: Global,
    items: &Items,
    body: &TBody,
    number: u32,
    bodies: &mut List<Body>,
    sites: &mut List<Site>,
) -> Result<(), NoMemory>
    ensures { OnOk result ((bodies.new ≡ bodies.old ++ low.body_of items.now (body_of body.now) ∷ [])
        × (sites.new ≡ sites.old ++ listed.body_sites items.now (body_of body.now) number)
        × (All IsCountedBody bodies.old → All IsCountedBody bodies.new)) }
{
    let lowered = lower_body(alloc, items, body)?;
    add_sites(alloc, items, body, number, &lowered, sites)?;
    bodies.push(lowered.body)
}

/// Bodies are lowered in their order, behind others, and their sites behind theirs.
fn add_bodies(
    alloc: Global,
    items: &Items,
    all: &[TBody],
    bodies: &mut List<Body>,
    sites: &mut List<Site>,
) -> Result<(), NoMemory>
    ensures { OnOk result ((bodies.new ≡ bodies.old ++ map (low.body_of items.now) (map body_of all.now))
        × (sites.new ≡ sites.old ++ listed.of_bodies items.now 0 (map body_of all.now))
        × (All IsCountedBody bodies.old → All IsCountedBody bodies.new)) }
{
    let mut number: u32 = 0;
    for body in all {
        add_body(alloc, items, body, number, bodies, sites)?;
        number = number.checked_add(1).ok_or(NoMemory::past_32_bits())?;
    }
    Ok(())
}

/// Bodies that are lowered, in their order, and the sites of their uses.
#[derive(Drop)]
struct LoweredBodies {
    bodies: List<Body>,
    sites: List<Site>,
}

/// All bodies of a program are lowered.
fn lower_bodies(alloc: Global, items: &Items, all: &[TBody]) -> Result<LoweredBodies, NoMemory>
    ensures bodies { IfOk result (λ lowered. lowered.bodies ≡ map (low.body_of items.now) (map body_of all.now)) }
    ensures sites { IfOk result (λ lowered. lowered.sites ≡ listed.of_bodies items.now 0 (map body_of all.now)) }
    ensures few { IfOk result (λ lowered. length lowered.bodies < 2 ^ 32 - 1) }
    ensures counted { IfOk result (λ lowered. All IsCountedBody lowered.bodies) }
{
    let mut bodies = List::new(alloc);
    let mut sites = List::new(alloc);
    add_bodies(alloc, items, all, &mut bodies, &mut sites)?;
    if bodies.len() >= MANY {
        return Err(NoMemory::past_32_bits());
    }
    Ok(LoweredBodies { bodies, sites })
}

/// The raw graph of a typed program, with scheduled drops, and where its uses of places stand in the text (the rustc
/// development guide, "MIR construction").
///
/// It takes memory by the number of nodes, and for each place from which a panic may start by the entries in scope
/// there; time by the square of the nodes of a body at most.
///
/// # Errors
///
/// [`NoMemory`] where memory is wanted, and where there are more bodies, or a body has more parameters, locals, blocks
/// or lines, than 32 bits count.
pub fn lower(alloc: Global, typed: &Typed) -> Result<Lowered, NoMemory>
    ensures graph { IfOk result (λ lowered. lowered.graph ≡ low.graph_of (program_of typed.now)) }
    ensures sites { IfOk result (λ lowered. lowered.sites ≡ listed.program_sites (program_of typed.now)) }
    ensures values { IfOk result (λ lowered.
        WellTyped (program_of typed.now) → RunsAsItsSource (program_of typed.now) lowered.graph) }
    ensures free { IfOk result (λ lowered. WellTyped (program_of typed.now) →
        EachBody (WalksAsItRunsFreely typed.now.items) (program_of typed.now) lowered.graph) }
    ensures edges { IfOk result (λ lowered. WellTyped (program_of typed.now) →
        EachBody HasOrderedEdges (program_of typed.now) lowered.graph) }
    ensures drops { IfOk result (λ lowered. WellTyped (program_of typed.now) →
        EachBody (HasScheduledDrops typed.now.items) (program_of typed.now) lowered.graph) }
    ensures prepared { IfOk result (λ lowered. WellTyped (program_of typed.now) →
        IsLowerable (program_of typed.now) → broken_borrow (program_of typed.now) ≡ None →
        IsPrepared lowered.graph) }
    ensures well_formed { IfOk result (λ lowered. WellTyped (program_of typed.now) →
        IsLowerable (program_of typed.now) → IsWellFormed lowered.graph) }
    ensures paths { IfOk result (λ lowered. WellTyped (program_of typed.now) →
        EachBody (MeetsItsRefusals typed.now.items) (program_of typed.now) lowered.graph) }
    ensures exactly { IfOk result (λ lowered. WellTyped (program_of typed.now) → IsWellFormed lowered.graph →
        EachBody (MeetsExactly typed.now.items) (program_of typed.now) lowered.graph) }
    ensures small { IfOk result (λ lowered. EachBody IsSmall (program_of typed.now) lowered.graph) }
    ensures counted { IfOk result (λ lowered. IsCounted lowered.graph) }
{
    let lowered = lower_bodies(alloc, &typed.items, typed.bodies.as_slice())?;
    let items = typed.items.copy(alloc)?;
    let LoweredBodies { bodies, sites } = lowered;
    Ok(Lowered {
        graph: Graph { items, bodies },
        sites,
    })
}

/// The same as [`lower`] of a program that is not needed any more: its items become those of the graph.
///
/// # Errors
///
/// As [`lower`].
pub fn lower_owned(alloc: Global, typed: Typed) -> Result<Lowered, NoMemory>
    ensures graph { IfOk result (λ lowered. lowered.graph ≡ low.graph_of (program_of typed)) }
    ensures sites { IfOk result (λ lowered. lowered.sites ≡ listed.program_sites (program_of typed)) }
    ensures counted { IfOk result (λ lowered. IsCounted lowered.graph) }
{
    let mut typed = typed;
    let lowered = lower_bodies(alloc, &typed.items, typed.bodies.as_slice());
    let items = mem::replace(&mut typed.items, Items::new(alloc));
    typed.discard();
    let lowered = lowered?;
    let LoweredBodies { bodies, sites } = lowered;
    Ok(Lowered {
        graph: Graph { items, bodies },
        sites,
    })
}
