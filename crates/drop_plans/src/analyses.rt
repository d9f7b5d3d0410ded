//! What the analyses tell of the paths of a body as its blocks begin.
ghost use Rattle.std.specs.Prelude.{◌≡◌, ◌<◌, IfOk, Some, true, false, length, slice_get};
ghost use Rattle.cfg_graph.specs.declared.graph.Body.{Body as GraphBody};
ghost use Rattle.init_flow.specs.Fits.{AreSwitches};
ghost use Rattle.move_paths.specs.Forest.{IsForest};
ghost use Rattle.drop_plans.specs.Known.{RowsSay};
ghost use Rattle.drop_plans.specs.Analysed.{AreAnalyses, IsGone};

use cfg_graph::Graph;
use init_flow::{Masks, MaybeGone, MaybeInit, Solution, Switches, solve};
use mir_base::NoMemory;
use move_paths::{Forest, paths};
use std::alloc::Global;

/// The move paths of a body, which of them may be present, and which may be gone, as each block begins.
#[derive(Drop)]
pub struct Analyses {
    pub forest: Forest,
    pub below: Masks,
    pub present: Solution,
    pub gone: Solution,
}

/// Which paths may be present, by what the blocks of the body switch, and the masks of the paths.
fn present_rows(
    alloc: Global,
    graph: &Graph,
    body: u32,
    forest: &Forest,
    switches: Switches,
) -> Result<(Solution, Masks), NoMemory>
    requires body { body < length graph.now.bodies }
    requires forest { (found : GraphBody) → slice_get graph.now.bodies body ≡ Some found → IsForest graph.now.items found forest.now }
    requires switches { (found : GraphBody) → slice_get graph.now.bodies body ≡ Some found → AreSwitches forest.now.paths switches found }
    ensures rows { IfOk result (λ told. (found : GraphBody) → slice_get graph.now.bodies body ≡ Some found →
        RowsSay graph.now.items found forest.now.paths false told.0) }
    ensures masks { IfOk result (λ told. told.1 ≡ switches.below) }
{
    let found = &graph.bodies.as_slice()[body as usize];
    let maybe = MaybeInit::of(alloc, graph, body, forest, switches)?;
    let rows = solve(alloc, &maybe, &graph.items, found)?;
    Ok((rows, maybe.into_masks()))
}

/// The move paths of a body, what its blocks switch, and which paths may be gone as each block begins.
#[derive(Drop)]
pub struct Gone {
    pub forest: Forest,
    pub switches: Switches,
    pub rows: Solution,
}

fn gone_rows(
    alloc: Global,
    graph: &Graph,
    body: u32,
    forest: &Forest,
) -> Result<(Solution, Switches), NoMemory>
    requires body { body < length graph.now.bodies }
    requires forest { (found : GraphBody) → slice_get graph.now.bodies body ≡ Some found → IsForest graph.now.items found forest.now }
    ensures rows { IfOk result (λ told. (found : GraphBody) → slice_get graph.now.bodies body ≡ Some found →
        RowsSay graph.now.items found forest.now.paths true told.0) }
    ensures switches { IfOk result (λ told. (found : GraphBody) → slice_get graph.now.bodies body ≡ Some found →
        AreSwitches forest.now.paths told.1 found) }
{
    let found = &graph.bodies.as_slice()[body as usize];
    let maybe = MaybeGone::new(alloc, graph, body, forest)?;
    let rows = solve(alloc, &maybe, &graph.items, found)?;
    Ok((rows, maybe.into_switches()))
}

impl Gone {
    /// What may be gone in a body of a graph. Nothing is asked of the graph but that it has the body.
    pub fn new(alloc: Global, graph: &Graph, body: u32) -> Result<Gone, NoMemory>
        requires { body < length graph.now.bodies }
        ensures { IfOk result (λ gone. (found : GraphBody) → slice_get graph.now.bodies body ≡ Some found →
            IsGone graph.now.items found gone) }
    {
        let forest = paths(alloc, graph, body)?;
        let (rows, switches) = gone_rows(alloc, graph, body, &forest)?;
        Ok(Gone {
            forest,
            switches,
            rows,
        })
    }
}

impl Analyses {
    /// The analyses of a body of a graph, by what may be gone in it.
    pub fn new(alloc: Global, graph: &Graph, body: u32, gone: Gone) -> Result<Analyses, NoMemory>
        requires body { body < length graph.now.bodies }
        requires gone { (found : GraphBody) → slice_get graph.now.bodies body ≡ Some found → IsGone graph.now.items found gone }
        ensures { IfOk result (λ told. (found : GraphBody) → slice_get graph.now.bodies body ≡ Some found →
            AreAnalyses graph.now.items found told) }
    {
        let Gone {
            forest,
            switches,
            rows,
        } = gone;
        let (present, below) = present_rows(alloc, graph, body, &forest, switches)?;
        Ok(Analyses {
            forest,
            below,
            present,
            gone: rows,
        })
    }
}
