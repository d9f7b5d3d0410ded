//! Graphs that tell the number of each line before they do what the line says.
ghost use Rattle.std.specs.Prelude.{◌≡◌, ◌+◌, ◌++◌, ◌∷◌, [], suc, length, OnOk, IfOk};
ghost use Rattle.cfg_graph.specs.WellFormed.Faults.{IsWellFormed};
ghost use Rattle.look_marked.specs.Marked as marks;

use cfg_graph::{Block, Body, Graph, Operand, Stmt};
use mir_base::{IntKind, List, NoMemory};
use std::alloc::Global;

/// The statement that tells the number of a line.
fn mark(prints: bool, n: u32) -> Stmt
    ensures { result ≡ marks.mark prints n }
{
    let number = n as i128;
    Stmt::Print(Operand::Number(if prints { -number } else { number }, IntKind::I32))
}

fn prints(stmt: &Stmt) -> bool
    ensures { result ≡ marks.prints stmt.now }
{
    matches!(stmt, Stmt::Print(_))
}

/// Puts a line with its number before it, and counts it.
fn add_line(stmt: Stmt, out: &mut List<Stmt>, n: &mut u32) -> Result<(), NoMemory>
    ensures { OnOk result ((out.new ≡ out.old ++ marks.marked_stmts n.old (stmt ∷ [])) × (n.new ≡ suc n.old)) }
{
    out.push(mark(prints(&stmt), *n))?;
    *n = n.checked_add(1).ok_or(NoMemory::past_32_bits())?;
    out.push(stmt)
}

/// Puts lines with their numbers.
fn add_lines(stmts: List<Stmt>, out: &mut List<Stmt>, n: &mut u32) -> Result<(), NoMemory>
    ensures { OnOk result ((out.new ≡ out.old ++ marks.marked_stmts n.old stmts) × (n.new ≡ n.old + length stmts)) }
{
    for stmt in stmts.into_vec() {
        add_line(stmt, out, n)?;
    }
    Ok(())
}

/// Puts a block whose lines tell their numbers.
fn add_block(
    alloc: Global,
    block: Block,
    out: &mut List<Block>,
    n: &mut u32,
) -> Result<(), NoMemory>
    ensures { OnOk result ((out.new ≡ out.old ++ marks.marked_block n.old block ∷ []) × (n.new ≡ marks.behind_block n.old block)) }
{
    let Block {
        kind,
        rank,
        stmts,
        term,
    } = block;
    let mut lines = List::new(alloc);
    add_lines(stmts, &mut lines, n)?;
    lines.push(mark(false, *n))?;
    *n = n.checked_add(1).ok_or(NoMemory::past_32_bits())?;
    out.push(Block {
        kind,
        rank,
        stmts: lines,
        term,
    })
}

/// Puts blocks whose lines tell their numbers.
fn add_blocks(
    alloc: Global,
    blocks: List<Block>,
    out: &mut List<Block>,
    n: &mut u32,
) -> Result<(), NoMemory>
    ensures { OnOk result ((out.new ≡ out.old ++ marks.marked_blocks n.old blocks) × (n.new ≡ marks.behind_blocks n.old blocks)) }
{
    for block in blocks.into_vec() {
        add_block(alloc, block, out, n)?;
    }
    Ok(())
}

/// Puts a body whose lines tell their numbers.
fn add_body(alloc: Global, body: Body, out: &mut List<Body>, n: &mut u32) -> Result<(), NoMemory>
    ensures { OnOk result ((out.new ≡ out.old ++ marks.marked_body n.old body ∷ []) × (n.new ≡ marks.behind_blocks n.old body.blocks)) }
{
    let Body {
        params,
        locals,
        blocks,
    } = body;
    let mut marked = List::new(alloc);
    add_blocks(alloc, blocks, &mut marked, n)?;
    out.push(Body {
        params,
        locals,
        blocks: marked,
    })
}

/// Puts bodies whose lines tell their numbers.
fn add_bodies(
    alloc: Global,
    bodies: List<Body>,
    out: &mut List<Body>,
    n: &mut u32,
) -> Result<(), NoMemory>
    ensures { OnOk result ((out.new ≡ out.old ++ marks.marked_bodies n.old bodies) × (n.new ≡ marks.behind_bodies n.old bodies)) }
{
    for body in bodies.into_vec() {
        add_body(alloc, body, out, n)?;
    }
    Ok(())
}

/// A graph that tells the number of each line before it does what the line says.
///
/// # Errors
///
/// [`NoMemory`] where memory is wanted, and where there are more lines than an `i32` counts.
pub fn with_numbers(alloc: Global, graph: Graph) -> Result<Graph, NoMemory>
    requires { IsWellFormed graph }
    ensures told { IfOk result (λ told. told ≡ marks.marked graph) }
    ensures well_formed { IfOk result (λ told. IsWellFormed told) }
{
    let Graph { items, bodies } = graph;
    let mut told = List::new(alloc);
    let mut n: u32 = 1;
    let done = add_bodies(alloc, bodies, &mut told, &mut n);
    let graph = Graph {
        items,
        bodies: told,
    };
    match done {
        Ok(()) if n <= 2147483648 => Ok(graph),
        _ => {
            graph.discard();
            Err(NoMemory)
        }
    }
}
