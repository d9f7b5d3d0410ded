ghost use Rattle.std.specs.Prelude.{◌≡◌, ◌<◌, ◌-◌, ◌^◌, [], ◌∷◌, ◌++◌, IfOk, OnOk, codes, flat_map, length};
ghost use Rattle.std.specs.Fmt.{decimal};
ghost use Rattle.mir_ty.specs.Named.{body_name};
ghost use Rattle.std.specs.Str.{IsUtf8};
ghost use Rattle.std.specs.String.{string_bytes};
ghost use Rattle.listing_write.specs.Items as items_lines;
ghost use Rattle.listing_write.specs.Items.{counted};
ghost use Rattle.listing_write.specs.Lists.{line};
ghost use Rattle.listing_write.specs.Listing as whole;
ghost use Rattle.listing_write.specs.Listing.{AreShortBodies, IsShortBody, IsShortGraph, block_line, block_text, listing, local_line, whole_body_text};
ghost use Rattle.listing_write.specs.Parts as parts_of_text;

use crate::items::put_items;
use crate::parts::{put_operand, put_place};
use crate::statements::{put_stmt, put_term};
use crate::types::put_type;
use crate::words::{put, put_kind, put_number};
use cfg_graph::{Block, Body, Graph, Operand, Place, Stmt, Term};
use mir_base::{List, NoMemory};
use mir_ty::{Items, TyId};
use std::alloc::{AllocError, Global};

fn put_body_name(out: &mut String, items: &Items, n: u32) -> Result<(), AllocError>
    ensures { OnOk result (string_bytes out.new ≡ string_bytes out.old ++ body_name items.now n) }
{
    match items.body_sig(n) {
        Some(sig) => put(out, sig.name.as_str()),
        None => Ok(()),
    }
}

fn put_local(out: &mut String, items: &Items, n: usize, id: TyId) -> Result<(), AllocError>
    requires { n < 2 ^ 32 }
    ensures { OnOk result (string_bytes out.new ≡ string_bytes out.old ++ local_line items.now n id) }
{
    put(out, "local ")?;
    put_number(out, n as u32)?;
    put(out, " ")?;
    put_type(out, items, id)?;
    put(out, "\n")
}

fn put_locals(out: &mut String, items: &Items, locals: &[TyId]) -> Result<(), AllocError>
    requires { length locals.now < 2 ^ 32 - 1 }
    ensures { OnOk result (string_bytes out.new ≡ string_bytes out.old ++ counted (local_line items.now) 0 locals.now) }
{
    for (n, id) in locals.iter().enumerate() {
        put_local(out, items, n, *id)?;
    }
    Ok(())
}

fn put_body(
    out: &mut String,
    items: &Items,
    body: u32,
    params: u32,
    locals: &[TyId],
) -> Result<(), AllocError>
    requires { length locals.now < 2 ^ 32 - 1 }
    ensures { OnOk result (string_bytes out.new ≡ string_bytes out.old ++ whole.body_text items.now body params locals.now) }
{
    put(out, "body ")?;
    put_number(out, body)?;
    put(out, " ")?;
    put_body_name(out, items, body)?;
    put_params(out, params)?;
    put_locals(out, items, locals)
}

fn put_params(out: &mut String, params: u32) -> Result<(), AllocError>
    ensures { OnOk result (string_bytes out.new ≡ string_bytes out.old ++ (codes " " ++ decimal params ++ 10 ∷ [])) }
{
    put(out, " ")?;
    put_number(out, params)?;
    put(out, "\n")
}

fn put_stmts(out: &mut String, items: &Items, stmts: &[Stmt]) -> Result<(), AllocError>
    ensures { OnOk result (string_bytes out.new ≡ string_bytes out.old ++ flat_map (λ stmt. line (parts_of_text.stmt_text items.now stmt)) stmts.now) }
{
    for stmt in stmts {
        put_stmt(out, items, stmt)?;
        put(out, "\n")?;
    }
    Ok(())
}

fn put_block_line(out: &mut String, n: usize, block: &Block) -> Result<(), AllocError>
    requires { n < 2 ^ 32 }
    ensures { OnOk result (string_bytes out.new ≡ string_bytes out.old ++ block_line n block.now) }
{
    put(out, "block ")?;
    put_number(out, n as u32)?;
    put_kind(out, block.kind)?;
    put_number(out, block.rank)?;
    put(out, "\n")
}

fn put_block(out: &mut String, items: &Items, n: usize, block: &Block) -> Result<(), AllocError>
    requires { n < 2 ^ 32 }
    ensures { OnOk result (string_bytes out.new ≡ string_bytes out.old ++ block_text items.now n block.now) }
{
    put_block_line(out, n, block)?;
    put_stmts(out, items, block.stmts.as_slice())?;
    put_term(out, items, &block.term)?;
    put(out, "\n")
}

fn put_blocks(out: &mut String, items: &Items, blocks: &[Block]) -> Result<(), AllocError>
    requires { length blocks.now < 2 ^ 32 - 1 }
    ensures { OnOk result (string_bytes out.new ≡ string_bytes out.old ++ counted (block_text items.now) 0 blocks.now) }
{
    for (n, block) in blocks.iter().enumerate() {
        put_block(out, items, n, block)?;
    }
    Ok(())
}

fn put_whole_body(out: &mut String, items: &Items, n: usize, body: &Body) -> Result<(), AllocError>
    requires number { n < 2 ^ 32 }
    requires short { IsShortBody body.now }
    ensures { OnOk result (string_bytes out.new ≡ string_bytes out.old ++ whole_body_text items.now n body.now) }
{
    put_body(out, items, n as u32, body.params, body.locals.as_slice())?;
    put_blocks(out, items, body.blocks.as_slice())
}

fn put_bodies(out: &mut String, items: &Items, bodies: &[Body]) -> Result<(), AllocError>
    requires count { length bodies.now < 2 ^ 32 - 1 }
    requires short { AreShortBodies bodies.now }
    ensures { OnOk result (string_bytes out.new ≡ string_bytes out.old ++ counted (whole_body_text items.now) 0 bodies.now) }
{
    for (n, body) in bodies.iter().enumerate() {
        put_whole_body(out, items, n, body)?;
    }
    Ok(())
}

fn put_listing(out: &mut String, graph: &Graph) -> Result<(), AllocError>
    requires { IsShortGraph graph.now }
    ensures { OnOk result (string_bytes out.new ≡ string_bytes out.old ++ listing graph.now) }
{
    put(out, "mirdrop 1\n")?;
    put_items(out, &graph.items)?;
    put_bodies(out, &graph.items, graph.bodies.as_slice())?;
    put(out, "end\n")
}

/// How many lines a body has, but for its own.
fn lines_of(body: &Body) -> usize {
    let mut lines = body.locals.len();
    for block in body.blocks.as_slice() {
        lines = lines.saturating_add(block.stmts.len()).saturating_add(2);
    }
    lines
}

/// How many bytes of room a listing begins with: 40 a line, more than most have. A longer one grows.
fn room_of(graph: &Graph) -> usize {
    let mut lines: usize = 0;
    for body in graph.bodies.as_slice() {
        lines = lines.saturating_add(lines_of(body));
    }
    lines.saturating_mul(40)
}

/// The listing of a graph: its items, bodies, locals and blocks in lines, each of which ends by a line feed. Each list
/// of the graph has fewer than 4,294,967,295 members. Names are in UTF-8, so the listing is.
pub fn write_listing(alloc: Global, graph: &Graph) -> Result<List<u8>, NoMemory>
    requires { IsShortGraph graph.now }
    ensures listed { IfOk result (λ text. text ≡ listing graph.now) }
    ensures in_utf8 { IfOk result IsUtf8 }
{
    let mut out = String::with_capacity(alloc, room_of(graph))?;
    put_listing(&mut out, graph)?;
    Ok(List::from_vec(out.into_bytes()))
}

/// The lines of all structs, enums, traits, impls and closures of a listing.
pub fn items_text(alloc: Global, items: &Items) -> Result<List<u8>, NoMemory>
    ensures { IfOk result (λ text. text ≡ items_lines.items_text items.now) }
{
    let mut out = String::new(alloc);
    put_items(&mut out, items)?;
    Ok(List::from_vec(out.into_bytes()))
}

/// The line of a body and those of its locals, of which there are fewer than 4,294,967,295.
pub fn body_text(
    alloc: Global,
    items: &Items,
    body: u32,
    params: u32,
    locals: &[TyId],
) -> Result<List<u8>, NoMemory>
    requires { length locals.now < 2 ^ 32 - 1 }
    ensures { IfOk result (λ text. text ≡ whole.body_text items.now body params locals.now) }
{
    let mut out = String::new(alloc);
    put_body(&mut out, items, body, params, locals)?;
    Ok(List::from_vec(out.into_bytes()))
}

/// A statement, without a line feed.
pub fn stmt_text(alloc: Global, items: &Items, stmt: &Stmt) -> Result<List<u8>, NoMemory>
    ensures { IfOk result (λ text. text ≡ parts_of_text.stmt_text items.now stmt.now) }
{
    let mut out = String::new(alloc);
    put_stmt(&mut out, items, stmt)?;
    Ok(List::from_vec(out.into_bytes()))
}

/// A terminator, without a line feed.
pub fn term_text(alloc: Global, items: &Items, term: &Term) -> Result<List<u8>, NoMemory>
    ensures { IfOk result (λ text. text ≡ parts_of_text.term_text items.now term.now) }
{
    let mut out = String::new(alloc);
    put_term(&mut out, items, term)?;
    Ok(List::from_vec(out.into_bytes()))
}

/// A place, without a line feed.
pub fn place_text(alloc: Global, place: &Place) -> Result<List<u8>, NoMemory>
    ensures { IfOk result (λ text. text ≡ parts_of_text.place_text place.now) }
{
    let mut out = String::new(alloc);
    put_place(&mut out, place)?;
    Ok(List::from_vec(out.into_bytes()))
}

/// An operand, without a line feed.
pub fn operand_text(alloc: Global, operand: &Operand) -> Result<List<u8>, NoMemory>
    ensures { IfOk result (λ text. text ≡ parts_of_text.operand_text operand.now) }
{
    let mut out = String::new(alloc);
    put_operand(&mut out, operand)?;
    Ok(List::from_vec(out.into_bytes()))
}
