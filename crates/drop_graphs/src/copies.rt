//! A graph once more.
ghost use Rattle.std.specs.Prelude.{◌≡◌, IfOk};

use cfg_graph::{Block, Body, Graph, Stmt, Term};
use drop_copies::{copy_stmt, copy_term, next_of};
use mir_base::{List, NoMemory};
use mir_ty::TyId;
use std::alloc::Global;

fn copy_stmts(alloc: Global, stmts: &[Stmt]) -> Result<List<Stmt>, NoMemory>
    ensures { IfOk result (λ copies. copies ≡ stmts.now) }
{
    let mut copies = List::from_vec(Vec::with_capacity(alloc, stmts.len())?);
    for stmt in stmts {
        copies.push(copy_stmt(alloc, stmt)?)?;
    }
    Ok(copies)
}

#[tactic(auto, using(crate::proofs::Copied::is_copy))]
fn copy_end(alloc: Global, term: &Term) -> Result<Term, NoMemory>
    ensures { IfOk result (λ copy. copy ≡ term.now) }
{
    let onward = next_of(term);
    copy_term(alloc, term, onward)
}

fn copy_block(alloc: Global, block: &Block) -> Result<Block, NoMemory>
    ensures { IfOk result (λ copy. copy ≡ block.now) }
{
    let stmts = copy_stmts(alloc, block.stmts.as_slice())?;
    let term = copy_end(alloc, &block.term)?;
    Ok(Block {
        kind: block.kind,
        rank: block.rank,
        stmts,
        term,
    })
}

fn copy_blocks(alloc: Global, blocks: &[Block]) -> Result<List<Block>, NoMemory>
    ensures { IfOk result (λ copies. copies ≡ blocks.now) }
{
    let mut copies = List::from_vec(Vec::with_capacity(alloc, blocks.len())?);
    for block in blocks {
        copies.push(copy_block(alloc, block)?)?;
    }
    Ok(copies)
}

fn copy_locals(alloc: Global, locals: &[TyId]) -> Result<List<TyId>, NoMemory>
    ensures { IfOk result (λ copies. copies ≡ locals.now) }
{
    let copies = Vec::from_slice(alloc, locals)?;
    Ok(List::from_vec(copies))
}

fn copy_body(alloc: Global, body: &Body) -> Result<Body, NoMemory>
    ensures { IfOk result (λ copy. copy ≡ body.now) }
{
    let locals = copy_locals(alloc, body.locals.as_slice())?;
    let blocks = copy_blocks(alloc, body.blocks.as_slice())?;
    Ok(Body {
        params: body.params,
        locals,
        blocks,
    })
}

fn copy_bodies(alloc: Global, bodies: &[Body]) -> Result<List<Body>, NoMemory>
    ensures { IfOk result (λ copies. copies ≡ bodies.now) }
{
    let mut copies = List::from_vec(Vec::with_capacity(alloc, bodies.len())?);
    for body in bodies {
        copies.push(copy_body(alloc, body)?)?;
    }
    Ok(copies)
}

/// A second graph, equal to this one.
pub fn copy_graph(alloc: Global, graph: &Graph) -> Result<Graph, NoMemory>
    ensures { IfOk result (λ copy. copy ≡ graph.now) }
{
    let bodies = copy_bodies(alloc, graph.bodies.as_slice())?;
    let items = graph.items.copy(alloc)?;
    Ok(Graph { items, bodies })
}
