//! The first fault of a body, in the order of its listing.
ghost use Rattle.std.specs.Prelude.{◌≡◌, ◌++◌, ◌<◌, ◌^◌, ◌-◌, IsTrue, length};
ghost use Rattle.cfg_graph.specs.WellFormed.Broken.{first_of};
ghost use Rattle.cfg_graph.specs.WellFormed.Buckets.{RepeatsNone};
ghost use Rattle.cfg_graph.specs.WellFormed.Questions.{AreTests};
ghost use Rattle.cfg_graph.specs.WellFormed.LineFaults.{term_faults};
ghost use Rattle.cfg_graph.specs.WellFormed.Faults.{IsCountedBody, at_line, of_each, stmts_faults, block_faults, own_faults, locals_faults, faults_of_body};

use crate::first_item_fault::{NOWHERE, at};
use crate::line_faults::{body_fault, local_fault, stmt_fault, term_fault};
use crate::type_faults::TypeTests;
use crate::{Block, Body, Graph, GraphFault};
use mir_ty::TyId;

fn stmts_fault(graph: &Graph, number: u32, body: &Body, n: u32, block: &Block) -> Option<GraphFault>
    requires { length block.now.stmts < 2 ^ 32 - 1 }
    ensures { result ≡ first_of (stmts_faults graph.now number body.now n block.now) }
{
    let mut line: u32 = 0;
    while let Some(stmt) = block.stmts.get(line as usize) {
        let fault = stmt_fault(&graph.items, graph.bodies.len(), body, stmt);
        if let Some(fault) = at(fault, number, n, line) {
            return Some(fault);
        }
        line += 1;
    }
    None
}

#[tactic(auto, using(crate::proofs::Rests::first_at_line))]
fn term_line(graph: &Graph, number: u32, body: &Body, n: u32, block: &Block) -> Option<GraphFault>
    requires { length block.now.stmts < 2 ^ 32 - 1 }
    ensures { result ≡ first_of (at_line number n (length block.now.stmts) (term_faults graph.now.items (length graph.now.bodies) body.now block.now)) }
{
    let fault = term_fault(&graph.items, graph.bodies.len(), body, block);
    at(fault, number, n, block.stmts.len() as u32)
}

/// The first fault of a block.
#[tactic(auto, using(crate::proofs::Rests::first_of_both))]
fn block_fault(graph: &Graph, number: u32, body: &Body, n: u32, block: &Block) -> Option<GraphFault>
    requires { length block.now.stmts < 2 ^ 32 - 1 }
    ensures { result ≡ first_of (block_faults graph.now number body.now n block.now) }
{
    match stmts_fault(graph, number, body, n, block) {
        Some(fault) => Some(fault),
        None => term_line(graph, number, body, n, block),
    }
}

fn blocks_fault(graph: &Graph, number: u32, body: &Body) -> Option<GraphFault>
    requires { IsCountedBody body.now }
    ensures { result ≡ first_of (of_each (block_faults graph.now number body.now) 0 body.now.blocks) }
{
    let mut n: u32 = 0;
    while let Some(block) = body.blocks.get(n as usize) {
        if let Some(fault) = block_fault(graph, number, body, n, block) {
            return Some(fault);
        }
        n += 1;
    }
    None
}

fn locals_fault(graph: &Graph, tests: &TypeTests, number: u32, body: &Body) -> Option<GraphFault>
    requires tests { AreTests graph.now.items tests.now }
    requires counted { IsCountedBody body.now }
    ensures { result ≡ first_of (locals_faults graph.now number body.now) }
{
    let mut n: u32 = 0;
    while let Some(id) = body.locals.get(n as usize) {
        let fault = local_fault(&graph.items, tests, graph.bodies.len(), *id);
        if let Some(fault) = at(fault, number, NOWHERE, n) {
            return Some(fault);
        }
        n += 1;
    }
    None
}

#[tactic(auto, using(crate::proofs::Rests::first_at_line))]
fn own_fault(graph: &Graph, number: u32, fresh: bool, body: &Body) -> Option<GraphFault>
    requires { IsTrue fresh → RepeatsNone graph.now.items.bodies number }
    ensures { result ≡ first_of (own_faults graph.now number body.now) }
{
    let fault = body_fault(&graph.items, graph.bodies.len(), number, fresh, body);
    at(fault, number, NOWHERE, NOWHERE)
}

/// The first fault of the body with this number, whose name, if it is fresh, repeats none before it.
#[tactic(auto, using(crate::proofs::Rests::first_of_both))]
pub fn fault_of_body(
    graph: &Graph,
    tests: &TypeTests,
    number: u32,
    fresh: bool,
    body: &Body,
) -> Option<GraphFault>
    requires tests { AreTests graph.now.items tests.now }
    requires counted { IsCountedBody body.now }
    requires fresh { IsTrue fresh → RepeatsNone graph.now.items.bodies number }
    ensures { result ≡ first_of (faults_of_body graph.now number body.now) }
{
    if let Some(fault) = own_fault(graph, number, fresh, body) {
        return Some(fault);
    }
    match locals_fault(graph, tests, number, body) {
        Some(fault) => Some(fault),
        None => blocks_fault(graph, number, body),
    }
}
