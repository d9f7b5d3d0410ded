//! The lines of graphs, counted.
ghost use Rattle.std.specs.Prelude.{◌≡◌, ◌<◌, ◌^◌, ◌-◌, IfSome, length, slice_get};
ghost use Rattle.mir_ty.specs.AreItems.{AreItems};
ghost use Rattle.mir_ty.specs.ItemTable.{item_count};
ghost use Rattle.mir_text.specs.Answers as answers;

use cfg_graph::{Block, Body, Graph, GraphFault};
use mir_ty::Items;

/// Where a fault has no body, no block or no line.
const NOWHERE: u32 = u32::MAX;

/// How many structs and enums there are.
fn adt_count(items: &Items) -> u32
    ensures count { result ≡ length items.now.adts }
    ensures sound { AreItems items.now }
{
    let mut n: u32 = 0;
    while let Some(_) = items.adt(n) {
        n += 1;
    }
    n
}

/// How many traits there are.
fn trait_count(items: &Items) -> u32
    ensures { result ≡ length items.now.traits }
{
    let mut n: u32 = 0;
    while let Some(_) = items.trait_def(n) {
        n += 1;
    }
    n
}

/// How many impls there are.
fn impl_count(items: &Items) -> u32
    ensures { result ≡ length items.now.impls }
{
    let mut n: u32 = 0;
    while let Some(_) = items.impl_def(n) {
        n += 1;
    }
    n
}

/// How many closures there are.
fn closure_count(items: &Items) -> u32
    ensures { result ≡ length items.now.closures }
{
    let mut n: u32 = 0;
    while let Some(_) = items.closure_def(n) {
        n += 1;
    }
    n
}

/// The lines of items.
fn item_lines(items: &Items) -> u32
    ensures count { result ≡ item_count items.now }
    ensures sound { AreItems items.now }
{
    adt_count(items) + trait_count(items) + impl_count(items) + closure_count(items)
}

/// The lines of blocks.
fn blocks_lines(blocks: &[Block]) -> Option<u32>
    ensures { IfSome result (λ n. n ≡ answers.blocks_lines blocks.now) }
{
    let mut lines: u32 = 0;
    for block in blocks {
        let stmts = u32::try_from(block.stmts.len()).ok()?;
        lines = lines.checked_add(2)?.checked_add(stmts)?;
    }
    Some(lines)
}

/// The lines of a body.
fn body_lines(body: &Body) -> Option<u32>
    ensures { IfSome result (λ n. n ≡ answers.body_lines body.now) }
{
    let locals = u32::try_from(body.locals.len()).ok()?;
    let blocks = blocks_lines(body.blocks.as_slice())?;
    locals.checked_add(1)?.checked_add(blocks)
}

/// The lines of bodies.
fn bodies_lines(bodies: &[Body]) -> Option<u32>
    ensures { IfSome result (λ n. n ≡ answers.bodies_lines bodies.now) }
{
    let mut lines: u32 = 0;
    for body in bodies {
        lines = lines.checked_add(body_lines(body)?)?;
    }
    Some(lines)
}

/// The lines of a graph, where a number of 32 bits can count them and one more.
pub(crate) fn lines_count(graph: &Graph) -> Option<u32>
    ensures count { IfSome result (λ n. n ≡ answers.lines_count graph.now) }
    ensures few { IfSome result (λ n. n < 2 ^ 32 - 1) }
    ensures sound { AreItems graph.now.items }
{
    let items = item_lines(&graph.items);
    let lines = bodies_lines(graph.bodies.as_slice())?.checked_add(items)?;
    lines.checked_add(3)?;
    Some(lines + 2)
}

/// Which line of a body a fault is at, counted from 0.
fn line_in_body(body: &Body, fault: &GraphFault) -> Option<u32>
    ensures { IfSome result (λ n. n ≡ answers.line_in_body body.now fault.now) }
{
    if fault.block == NOWHERE {
        return if fault.line == NOWHERE {
            Some(0)
        } else {
            fault.line.checked_add(1)
        };
    }
    let count = body.blocks.len().min(fault.block as usize);
    let before = blocks_lines(&body.blocks.as_slice()[..count])?;
    let locals = u32::try_from(body.locals.len()).ok()?;
    locals
        .checked_add(before)?
        .checked_add(2)?
        .checked_add(fault.line)
}

/// The same of the body that a fault is in, if there is one.
fn line_in(graph: &Graph, fault: &GraphFault) -> Option<u32>
    ensures { IfSome result (λ n. n ≡ answers.line_in (slice_get graph.now.bodies fault.now.body) fault.now) }
{
    match graph.bodies.get(fault.body as usize) {
        Some(body) => line_in_body(body, fault),
        None => Some(0),
    }
}

/// The line of a fault, counted from 1, where a number of 32 bits can count so many.
pub(crate) fn line_of_fault(graph: &Graph, fault: &GraphFault) -> Option<u32>
    ensures { IfSome result (λ n. n ≡ answers.line_of_fault graph.now fault.now) }
{
    if fault.body == NOWHERE {
        return if fault.line == NOWHERE {
            lines_count(graph)
        } else {
            fault.line.checked_add(2)
        };
    }
    let count = graph.bodies.len().min(fault.body as usize);
    let before = bodies_lines(&graph.bodies.as_slice()[..count])?;
    let items = item_lines(&graph.items);
    let within = line_in(graph, fault)?;
    items
        .checked_add(2)?
        .checked_add(before)?
        .checked_add(within)
}
