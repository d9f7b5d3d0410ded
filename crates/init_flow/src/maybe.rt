//! The two analyses of moves.
ghost use Rattle.std.specs.Prelude.{◌≡◌, ◌<◌, length, slice_get, Some, IfOk, true, false};
ghost use Rattle.std.proofs.Common.{refl};
ghost use Rattle.cfg_graph.specs.declared.graph.Body.{Body as GraphBody};
ghost use Rattle.init_flow.specs.Ways.{target};
ghost use Rattle.move_paths.specs.Forest.{IsForest};
ghost use Rattle.init_flow.specs.Laws.{keeps as lengths, distributes as over_union};
ghost use Rattle.init_flow.specs.Moved.{Says};
ghost use Rattle.init_flow.specs.Fits.{param_of, FirstBit, start_row, AreWays, AreSwitches};
ghost use Rattle.init_flow.specs.Switches.{passed_by};

use crate::Analysis;
use crate::masks::{Masks, masks_of_paths};
use crate::switch_ways::block_switches;
use crate::switches::{BlockSwitches, Switches};
use bit_rows::BitRow;
use cfg_graph::{Body, Graph};
use mir_base::{List, NoMemory};
use move_paths::{Forest, add_inner_uses};
use std::alloc::Global;

/// Which paths are gone on some path of a body: the bit of a path says this of its own part.
#[derive(Drop)]
pub struct MaybeGone {
    switches: Switches,
}

impl Analysis for MaybeGone {
    ghost width = { λ a. length a.switches.first };

    ghost first = { λ a. a.switches.first };

    ghost passed = { λ a body block way row. passed_by a.switches true block way row };

    ghost IsFor = { λ a body. length a.switches.blocks ≡ length body.blocks };

    fn bits(&self) -> u32 {
        self.switches.first.len()
    }

    fn start(&self, row: &mut BitRow) {
        self.switches.first.copy_into(row);
    }

    fn pass(&self, body: &Body, block: u32, edge: u32, row: &mut BitRow) {
        self.switches.pass(true, block, edge, row);
    }

    ghost first_width = { λ a. refl };

    ghost keeps = { λ a body block way row long. lengths a.switches true (length a.switches.first) block way row long };

    ghost distributes = { λ a body block way one other long same. over_union a.switches true (length a.switches.first) block way one other long same };
}

/// Which paths are present on some path of a body: the bit of a path says this of its own part.
#[derive(Drop)]
pub struct MaybeInit {
    first: BitRow,
    switches: Switches,
}

impl Analysis for MaybeInit {
    ghost width = { λ a. length a.first };

    ghost first = { λ a. a.first };

    ghost passed = { λ a body block way row. passed_by a.switches false block way row };

    ghost IsFor = { λ a body. length a.switches.blocks ≡ length body.blocks };

    fn bits(&self) -> u32 {
        self.first.len()
    }

    fn start(&self, row: &mut BitRow) {
        self.first.copy_into(row);
    }

    fn pass(&self, body: &Body, block: u32, edge: u32, row: &mut BitRow) {
        self.switches.pass(false, block, edge, row);
    }

    ghost first_width = { λ a. refl };

    ghost keeps = { λ a body block way row long. lengths a.switches false (length a.first) block way row long };

    ghost distributes = { λ a body block way one other long same. over_union a.switches false (length a.first) block way one other long same };
}

/// Whether a local is a parameter.
fn is_param(body: &Body, local: u32) -> bool
    ensures { result ≡ param_of body.now local }
{
    0 < local && local <= body.params
}

fn first_bit(body: &Body, forest: &Forest, row: &BitRow, path: u32, gone: bool) -> bool
    requires path { path < length forest.now.paths }
    requires row { length row.now ≡ length forest.now.paths }
    ensures { FirstBit forest.now.paths body.now row.now path gone result }
{
    match forest.parent(path) {
        Some(upper) => row.get(upper),
        None => is_param(body, path) != gone,
    }
}

/// What a row says before a body does anything: what is no parameter is gone.
fn first_row(alloc: Global, body: &Body, forest: &Forest, gone: bool) -> Result<BitRow, NoMemory>
    ensures { IfOk result (λ row. row ≡ start_row forest.now.paths body.now gone) }
{
    let count = forest.len();
    let mut row = BitRow::new(alloc, count)?;
    for path in 0..count {
        let on = first_bit(body, forest, &row, path, gone);
        row.set(path, on);
    }
    Ok(row)
}

fn all_blocks(alloc: Global, body: &Body, forest: &Forest) -> Result<List<BlockSwitches>, NoMemory>
    ensures { IfOk result (λ made. AreWays forest.now.paths made body.now.blocks) }
{
    let mut made = List::from_vec(Vec::with_capacity(alloc, body.blocks.len())?);
    let mut uses = List::new(alloc);
    for block in body.blocks.as_slice() {
        uses.truncate(0);
        add_inner_uses(&mut uses, block)?;
        made.push(block_switches(alloc, forest, block, uses.as_slice())?)?;
    }
    Ok(made)
}

fn switches_of(alloc: Global, body: &Body, forest: &Forest) -> Result<Switches, NoMemory>
    ensures { IfOk result (λ switches. AreSwitches forest.now.paths switches body.now) }
{
    Ok(Switches {
        first: first_row(alloc, body, forest, true)?,
        below: masks_of_paths(alloc, forest)?,
        blocks: all_blocks(alloc, body, forest)?,
    })
}

/// The switches of a body of a graph over the forest of the paths of that body.
fn switches_in(
    alloc: Global,
    graph: &Graph,
    body: u32,
    forest: &Forest,
) -> Result<Switches, NoMemory>
    requires { body < length graph.now.bodies }
    ensures { IfOk result (λ switches. (found : GraphBody) → slice_get graph.now.bodies body ≡ Some found → AreSwitches forest.now.paths switches found) }
{
    let body = &graph.bodies.as_slice()[body as usize];
    switches_of(alloc, body, forest)
}

impl MaybeGone {
    /// The analysis of a body of a graph over the forest of the paths of that body. What a path of the body carries to a
    /// block says of each path of the forest whether it is gone there.
    pub fn new(
        alloc: Global,
        graph: &Graph,
        body: u32,
        forest: &Forest,
    ) -> Result<MaybeGone, NoMemory>
        requires body { body < length graph.now.bodies }
        requires forest { (found : GraphBody) → slice_get graph.now.bodies body ≡ Some found → IsForest graph.now.items found forest.now }
        ensures is_for { IfOk result (λ a. (found : GraphBody) → slice_get graph.now.bodies body ≡ Some found → length a.switches.blocks ≡ length found.blocks) }
        ensures says { IfOk result (λ a. (found : GraphBody) → slice_get graph.now.bodies body ≡ Some found → Says graph.now.items found forest.now.paths true (target graph.now.items found) (λ block way row. passed_by a.switches true block way row) a.switches.first) }
        ensures switches { IfOk result (λ a. (found : GraphBody) → slice_get graph.now.bodies body ≡ Some found → AreSwitches forest.now.paths a.switches found) }
    {
        Ok(MaybeGone {
            switches: switches_in(alloc, graph, body, forest)?,
        })
    }

    /// What the body switches, when the rows are solved.
    pub fn into_switches(self) -> Switches
        ensures { result ≡ self.switches }
    {
        self.switches
    }
}

impl MaybeInit {
    /// The analysis of a body of a graph over the forest of the paths of that body. What a path of the body carries to a
    /// block says of each path of the forest whether it is present there.
    pub fn new(
        alloc: Global,
        graph: &Graph,
        body: u32,
        forest: &Forest,
    ) -> Result<MaybeInit, NoMemory>
        requires body { body < length graph.now.bodies }
        requires forest { (found : GraphBody) → slice_get graph.now.bodies body ≡ Some found → IsForest graph.now.items found forest.now }
        ensures is_for { IfOk result (λ a. (found : GraphBody) → slice_get graph.now.bodies body ≡ Some found → length a.switches.blocks ≡ length found.blocks) }
        ensures says { IfOk result (λ a. (found : GraphBody) → slice_get graph.now.bodies body ≡ Some found → Says graph.now.items found forest.now.paths false (target graph.now.items found) (λ block way row. passed_by a.switches false block way row) a.first) }
    {
        let switches = switches_in(alloc, graph, body, forest)?;
        MaybeInit::of(alloc, graph, body, forest, switches)
    }

    /// The same, by what another analysis of the body switches: what is present is what is not gone.
    pub fn of(
        alloc: Global,
        graph: &Graph,
        body: u32,
        forest: &Forest,
        switches: Switches,
    ) -> Result<MaybeInit, NoMemory>
        requires body { body < length graph.now.bodies }
        requires forest { (found : GraphBody) → slice_get graph.now.bodies body ≡ Some found → IsForest graph.now.items found forest.now }
        requires switches { (found : GraphBody) → slice_get graph.now.bodies body ≡ Some found → AreSwitches forest.now.paths switches found }
        ensures is_for { IfOk result (λ a. (found : GraphBody) → slice_get graph.now.bodies body ≡ Some found → length a.switches.blocks ≡ length found.blocks) }
        ensures says { IfOk result (λ a. (found : GraphBody) → slice_get graph.now.bodies body ≡ Some found → Says graph.now.items found forest.now.paths false (target graph.now.items found) (λ block way row. passed_by a.switches false block way row) a.first) }
        ensures switches { IfOk result (λ a. a.switches ≡ switches) }
    {
        let found = &graph.bodies.as_slice()[body as usize];
        let first = first_row(alloc, found, forest, false)?;
        Ok(MaybeInit { first, switches })
    }

    /// The masks of the paths of the forest, when the rows are solved.
    pub fn into_masks(self) -> Masks
        ensures { result ≡ self.switches.below }
    {
        let MaybeInit { switches, .. } = self;
        let Switches { below, .. } = switches;
        below
    }
}
