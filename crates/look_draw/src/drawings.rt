//! Graphs as text of Graphviz.
ghost use Rattle.std.specs.Prelude.{◌≡◌, ◌++◌, ◌<◌, ◌-◌, ◌^◌, IfOk, OnOk, Some, find, flat_map, length, slice_get};
ghost use Rattle.std.specs.Fmt.{decimal};
ghost use Rattle.std.specs.Option.{option_copied};
ghost use Rattle.mir_base.specs.Lines.{line};
ghost use Rattle.cfg_graph.specs.Edges.{onward, unwind_targets};
ghost use Rattle.listing_write.specs.Items.{counted};
ghost use Rattle.listing_write.specs.Listing.{AreShortBodies, IsShortBody, IsShortGraph, kind_word};
ghost use Rattle.look_draw.specs.Drawings as drawings;
ghost use Rattle.look_draw.specs.Ways.{targets_of, target_of};

use cfg_graph::{Block, Body, Graph, Kind, Stmt, Term, Unwind};
use listing_write::{body_text, stmt_text, term_text};
use look_lines::{put, put_line_feed, put_number, put_numbered};
use look_places::{BodyNames, Variable};
use lower_rules::Site;
use mir_base::{NoMemory, Pos};
use mir_ty::Items;
use std::alloc::Global;

/// Puts a byte of a label.
fn put_escaped_byte(out: &mut Vec<u8>, byte: u8) -> Result<(), NoMemory>
    ensures { OnOk result (out.new.items ≡ out.old.items ++ drawings.escaped_byte byte) }
{
    if byte == 10 {
        put(out, b"\\l")
    } else if byte == 34 || byte == 92 {
        put(out, &[92, byte])
    } else {
        put(out, &[byte])
    }
}

fn put_escaped(out: &mut Vec<u8>, text: &[u8]) -> Result<(), NoMemory>
    ensures { OnOk result (out.new.items ≡ out.old.items ++ drawings.escaped text.now) }
{
    for byte in text {
        put_escaped_byte(out, *byte)?;
    }
    Ok(())
}

/// Puts a label.
fn put_label(out: &mut Vec<u8>, text: &[u8]) -> Result<(), NoMemory>
    ensures { OnOk result (out.new.items ≡ out.old.items ++ drawings.label text.now) }
{
    put(out, b"label=\"")?;
    put_escaped(out, text)?;
    put(out, b"\"")
}

/// Puts the name of a block.
fn put_block_name(alloc: Global, out: &mut Vec<u8>, body: u32, n: u32) -> Result<(), NoMemory>
    ensures { OnOk result (out.new.items ≡ out.old.items ++ drawings.block_name body n) }
{
    put_numbered(alloc, out, b"b", body)?;
    put_numbered(alloc, out, b"_", n)
}

fn word_of_kind(kind: Kind) -> &'static [u8]
    ensures { result.now ≡ kind_word kind }
{
    match kind {
        Kind::Plain => b"plain",
        Kind::Turn => b"turn",
        Kind::Cleanup => b"cleanup",
    }
}

fn style_of_kind(kind: Kind) -> &'static [u8]
    ensures { result.now ≡ drawings.kind_style kind }
{
    match kind {
        Kind::Plain => b"",
        Kind::Turn => b", style=rounded",
        Kind::Cleanup => b", style=filled, fillcolor=lightgrey",
    }
}

/// Whether a site is that of a line.
fn is_at(site: &Site, body: u32, block: u32, at: usize) -> bool
    ensures { result ≡ drawings.is_at body block at site.now }
{
    site.body == body && (site.block == block && site.line as usize == at)
}

/// The site of a line, if it has one.
pub fn site_at(sites: &[Site], body: u32, block: u32, at: usize) -> Option<&Site>
    ensures { option_copied result ≡ find (drawings.is_at body block at) sites.now }
{
    for site in sites {
        if is_at(site, body, block, at) {
            return Some(site);
        }
    }
    None
}

/// Puts a place in the text.
pub fn put_place(alloc: Global, out: &mut Vec<u8>, at: Pos) -> Result<(), NoMemory>
    ensures { OnOk result (out.new.items ≡ out.old.items ++ drawings.place_words at) }
{
    put_number(alloc, out, at.line)?;
    put_numbered(alloc, out, b":", at.col)
}

/// Puts a name behind a blank, if there is one.
fn put_behind_blank(out: &mut Vec<u8>, name: &[u8]) -> Result<(), NoMemory>
    ensures { OnOk result (out.new.items ≡ out.old.items ++ drawings.behind_blank name.now) }
{
    if name.is_empty() {
        return Ok(());
    }
    put(out, b" ")?;
    put(out, name)
}

/// Puts what is known of a line: its place in the text, and the name of what it uses.
fn put_note(alloc: Global, out: &mut Vec<u8>, site: &Site) -> Result<(), NoMemory>
    ensures { OnOk result (out.new.items ≡ out.old.items ++ drawings.note_of (Some site.now)) }
{
    put(out, b"  // ")?;
    put_place(alloc, out, site.at)?;
    put_behind_blank(out, site.name.as_bytes())
}

/// Ends a line with what is known of it.
fn end_line(
    alloc: Global,
    out: &mut Vec<u8>,
    sites: &[Site],
    body: u32,
    block: u32,
    at: usize,
) -> Result<(), NoMemory>
    ensures { OnOk result (out.new.items ≡ out.old.items ++ line (drawings.note sites.now body block at)) }
{
    if let Some(site) = site_at(sites, body, block, at) {
        put_note(alloc, out, site)?;
    }
    put_line_feed(out)
}

/// The look of a block that was made for a ladder, or was not.
fn style_of_ladder(of_ladder: bool) -> &'static [u8]
    ensures { result.now ≡ drawings.ladder_style of_ladder }
{
    if of_ladder {
        b", color=blue, penwidth=2"
    } else {
        b""
    }
}

fn put_stmt_line(
    alloc: Global,
    out: &mut Vec<u8>,
    items: &Items,
    sites: &[Site],
    body: u32,
    block: u32,
    at: usize,
    stmt: &Stmt,
) -> Result<(), NoMemory>
    ensures { OnOk result (out.new.items ≡ out.old.items ++ drawings.stmt_line items.now sites.now body block at stmt.now) }
{
    let text = stmt_text(alloc, items, stmt)?;
    put(out, text.as_slice())?;
    end_line(alloc, out, sites, body, block, at)
}

fn put_term_line(
    alloc: Global,
    out: &mut Vec<u8>,
    items: &Items,
    sites: &[Site],
    body: u32,
    block: u32,
    at: usize,
    term: &Term,
) -> Result<(), NoMemory>
    ensures { OnOk result (out.new.items ≡ out.old.items ++ drawings.term_line items.now sites.now body block at term.now) }
{
    let text = term_text(alloc, items, term)?;
    put(out, text.as_slice())?;
    end_line(alloc, out, sites, body, block, at)
}

fn put_stmt_lines(
    alloc: Global,
    out: &mut Vec<u8>,
    items: &Items,
    sites: &[Site],
    body: u32,
    block: u32,
    stmts: &[Stmt],
) -> Result<(), NoMemory>
    ensures { OnOk result (out.new.items ≡ out.old.items ++ counted (drawings.stmt_line items.now sites.now body block) 0 stmts.now) }
{
    for (at, stmt) in stmts.iter().enumerate() {
        put_stmt_line(alloc, out, items, sites, body, block, at, stmt)?;
    }
    Ok(())
}

/// Puts the first line of a block: its number and its kind.
fn put_head_line(alloc: Global, out: &mut Vec<u8>, n: u32, kind: Kind) -> Result<(), NoMemory>
    ensures { OnOk result (out.new.items ≡ out.old.items ++ drawings.head_line n kind) }
{
    put_number(alloc, out, n)?;
    put(out, b" ")?;
    put(out, word_of_kind(kind))?;
    put_line_feed(out)
}

/// The lines of a block.
fn block_lines(
    alloc: Global,
    items: &Items,
    sites: &[Site],
    body: u32,
    n: u32,
    block: &Block,
) -> Result<Vec<u8>, NoMemory>
    ensures { IfOk result (λ lines. lines.items ≡ drawings.block_lines items.now sites.now body n block.now) }
{
    let stmts = block.stmts.as_slice();
    let mut lines = Vec::new(alloc);
    put_head_line(alloc, &mut lines, n, block.kind)?;
    put_stmt_lines(alloc, &mut lines, items, sites, body, n, stmts)?;
    put_term_line(
        alloc,
        &mut lines,
        items,
        sites,
        body,
        n,
        stmts.len(),
        &block.term,
    )?;
    Ok(lines)
}

/// Puts the box of a block with these lines.
fn put_box_of(
    alloc: Global,
    out: &mut Vec<u8>,
    body: u32,
    n: u32,
    lines: &[u8],
    kind: Kind,
    of_ladder: bool,
) -> Result<(), NoMemory>
    ensures { OnOk result (out.new.items ≡ out.old.items ++ drawings.box_of body n lines.now kind of_ladder) }
{
    put(out, b"    ")?;
    put_block_name(alloc, out, body, n)?;
    put(out, b" [")?;
    put_label(out, lines)?;
    put(out, style_of_kind(kind))?;
    put(out, style_of_ladder(of_ladder))?;
    put(out, b"];\n")
}

/// Puts the box of a block.
fn put_box(
    alloc: Global,
    out: &mut Vec<u8>,
    items: &Items,
    sites: &[Site],
    body: u32,
    before: usize,
    n: u32,
    block: &Block,
) -> Result<(), NoMemory>
    ensures { OnOk result (out.new.items ≡ out.old.items ++ drawings.box items.now sites.now body before n block.now) }
{
    let lines = block_lines(alloc, items, sites, body, n, block)?;
    let of_ladder = !((n as usize) < before);
    put_box_of(alloc, out, body, n, lines.as_slice(), block.kind, of_ladder)
}

/// Puts an arrow.
fn put_arrow(
    alloc: Global,
    out: &mut Vec<u8>,
    body: u32,
    from: u32,
    style: &[u8],
    to: u32,
) -> Result<(), NoMemory>
    ensures { OnOk result (out.new.items ≡ out.old.items ++ drawings.arrow body from style.now to) }
{
    put(out, b"    ")?;
    put_block_name(alloc, out, body, from)?;
    put(out, b" -> ")?;
    put_block_name(alloc, out, body, to)?;
    put(out, style)?;
    put(out, b";\n")
}

/// The ways on of a terminator.
#[derive(Clone, Copy)]
pub enum Ways {
    Nowhere,
    To(u32),
    Either(u32, u32),
}

fn ways_of(term: &Term) -> Ways
    ensures { targets_of result ≡ onward term.now }
{
    match term {
        Term::Goto(block) => Ways::To(*block),
        Term::If { yes, no, .. } => Ways::Either(*no, *yes),
        Term::Case { yes, no, .. } => Ways::Either(*no, *yes),
        Term::Math { then, .. }
        | Term::Negate { then, .. }
        | Term::Bounds { then, .. }
        | Term::Call { then, .. }
        | Term::Virtual { then, .. }
        | Term::Ask { then, .. }
        | Term::DropAt { then, .. } => Ways::To(*then),
        Term::Panic { .. } | Term::Return | Term::Resume => Ways::Nowhere,
    }
}

fn unwind_of(term: &Term) -> Unwind
    ensures { target_of result ≡ unwind_targets term.now }
{
    match term {
        Term::Math { unwind, .. }
        | Term::Negate { unwind, .. }
        | Term::Bounds { unwind, .. }
        | Term::Call { unwind, .. }
        | Term::Virtual { unwind, .. }
        | Term::Ask { unwind, .. }
        | Term::DropAt { unwind, .. }
        | Term::Panic { unwind, .. } => *unwind,
        Term::Goto(_) | Term::If { .. } | Term::Case { .. } | Term::Return | Term::Resume =>
            Unwind::Resume,
    }
}

/// Puts the arrows to these blocks.
fn put_ways(alloc: Global, out: &mut Vec<u8>, body: u32, n: u32, ways: Ways) -> Result<(), NoMemory>
    ensures { OnOk result (out.new.items ≡ out.old.items ++ drawings.onward_arrows body n (targets_of ways)) }
{
    match ways {
        Ways::Nowhere => Ok(()),
        Ways::To(to) => put_arrow(alloc, out, body, n, b"", to),
        Ways::Either(first, second) => {
            put_arrow(alloc, out, body, n, b" [label=0]", first)?;
            put_arrow(alloc, out, body, n, b" [label=1]", second)
        }
    }
}

/// Puts the arrows of the ways on.
fn put_onward(
    alloc: Global,
    out: &mut Vec<u8>,
    body: u32,
    n: u32,
    term: &Term,
) -> Result<(), NoMemory>
    ensures { OnOk result (out.new.items ≡ out.old.items ++ drawings.onward_arrows body n (onward term.now)) }
{
    put_ways(alloc, out, body, n, ways_of(term))
}

/// Puts the arrow of a way of a panic.
fn put_panic_way(
    alloc: Global,
    out: &mut Vec<u8>,
    body: u32,
    n: u32,
    unwind: Unwind,
) -> Result<(), NoMemory>
    ensures { OnOk result (out.new.items ≡ out.old.items ++ flat_map (drawings.panic_arrow body n) (target_of unwind)) }
{
    match unwind {
        Unwind::Block(to) => put_arrow(alloc, out, body, n, b" [style=dashed]", to),
        Unwind::Resume | Unwind::Abort => Ok(()),
    }
}

/// Puts the arrow of the way of a terminator's panic.
fn put_unwind(
    alloc: Global,
    out: &mut Vec<u8>,
    body: u32,
    n: u32,
    term: &Term,
) -> Result<(), NoMemory>
    ensures { OnOk result (out.new.items ≡ out.old.items ++ flat_map (drawings.panic_arrow body n) (unwind_targets term.now)) }
{
    put_panic_way(alloc, out, body, n, unwind_of(term))
}

/// Puts the arrows of a block.
fn put_arrows(
    alloc: Global,
    out: &mut Vec<u8>,
    body: u32,
    n: u32,
    term: &Term,
) -> Result<(), NoMemory>
    ensures { OnOk result (out.new.items ≡ out.old.items ++ drawings.arrows body n term.now) }
{
    put_onward(alloc, out, body, n, term)?;
    put_unwind(alloc, out, body, n, term)
}

/// Puts a block with its arrows.
fn put_block(
    alloc: Global,
    out: &mut Vec<u8>,
    items: &Items,
    sites: &[Site],
    body: u32,
    before: usize,
    n: u32,
    block: &Block,
) -> Result<(), NoMemory>
    ensures { OnOk result (out.new.items ≡ out.old.items ++ drawings.block_drawing items.now sites.now body before n block.now) }
{
    put_box(alloc, out, items, sites, body, before, n, block)?;
    put_arrows(alloc, out, body, n, &block.term)
}

fn put_blocks(
    alloc: Global,
    out: &mut Vec<u8>,
    items: &Items,
    sites: &[Site],
    body: u32,
    before: usize,
    blocks: &[Block],
) -> Result<(), NoMemory>
    requires { length blocks.now < 2 ^ 32 - 1 }
    ensures { OnOk result (out.new.items ≡ out.old.items ++ counted (drawings.block_drawing items.now sites.now body before) 0 blocks.now) }
{
    for (n, block) in blocks.iter().enumerate() {
        put_block(alloc, out, items, sites, body, before, n as u32, block)?;
    }
    Ok(())
}

/// Puts the beginning of a cluster with these lines in its label.
fn put_cluster_of(alloc: Global, out: &mut Vec<u8>, n: u32, lines: &[u8]) -> Result<(), NoMemory>
    ensures { OnOk result (out.new.items ≡ out.old.items ++ drawings.cluster_of n lines.now) }
{
    put_numbered(alloc, out, b"  subgraph cluster_", n)?;
    put(out, b" {\n    labeljust=l; ")?;
    put_label(out, lines)?;
    put(out, b";\n")
}

/// Puts a number of locals.
fn put_count(alloc: Global, out: &mut Vec<u8>, count: usize) -> Result<(), NoMemory>
    ensures { OnOk result (out.new.items ≡ out.old.items ++ decimal count) }
{
    let mut digits = String::new(alloc);
    write!(digits, "{count}")?;
    put(out, digits.as_bytes())
}

/// Puts the line of the drop flags.
fn put_line_of_flags(alloc: Global, out: &mut Vec<u8>, before: usize) -> Result<(), NoMemory>
    ensures { OnOk result (out.new.items ≡ out.old.items ++ drawings.line_of_flags before) }
{
    put(out, b"drop flags: the locals from ")?;
    put_count(alloc, out, before)?;
    put(out, b" on\n")
}

/// Puts the line of the drop flags, if there are any.
fn put_flags(alloc: Global, out: &mut Vec<u8>, any: bool, before: usize) -> Result<(), NoMemory>
    ensures { OnOk result (out.new.items ≡ out.old.items ++ drawings.flags_line any before) }
{
    if any {
        put_line_of_flags(alloc, out, before)
    } else {
        Ok(())
    }
}

/// Puts a variable with its local and its place.
fn put_variable(alloc: Global, out: &mut Vec<u8>, variable: &Variable) -> Result<(), NoMemory>
    ensures { OnOk result (out.new.items ≡ out.old.items ++ drawings.variable_line variable.now) }
{
    put_numbered(alloc, out, b"_", variable.local)?;
    put(out, b" is ")?;
    put(out, variable.name.as_bytes())?;
    put(out, b", ")?;
    put_place(alloc, out, variable.at)?;
    put_line_feed(out)
}

/// Puts variables.
fn put_variables(alloc: Global, out: &mut Vec<u8>, variables: &[Variable]) -> Result<(), NoMemory>
    ensures { OnOk result (out.new.items ≡ out.old.items ++ flat_map drawings.variable_line variables.now) }
{
    for variable in variables {
        put_variable(alloc, out, variable)?;
    }
    Ok(())
}

/// Puts where a body begins in the text, and its variables.
fn put_names_of(alloc: Global, out: &mut Vec<u8>, names: &BodyNames) -> Result<(), NoMemory>
    ensures { OnOk result (out.new.items ≡ out.old.items ++ drawings.names_lines (Some names.now)) }
{
    put(out, b"at ")?;
    put_place(alloc, out, names.at)?;
    put_line_feed(out)?;
    put_variables(alloc, out, names.variables.as_slice())
}

/// Puts the names of a body, if they are known.
fn put_names(alloc: Global, out: &mut Vec<u8>, names: Option<&BodyNames>) -> Result<(), NoMemory>
    ensures { OnOk result (out.new.items ≡ out.old.items ++ drawings.names_lines (option_copied names.entry)) }
{
    match names {
        Some(names) => put_names_of(alloc, out, names),
        None => Ok(()),
    }
}

/// The lines of a body, of its locals, of its names, and of its drop flags.
fn cluster_lines(
    alloc: Global,
    items: &Items,
    n: u32,
    before: usize,
    names: Option<&BodyNames>,
    body: &Body,
) -> Result<Vec<u8>, NoMemory>
    requires { IsShortBody body.now }
    ensures { IfOk result (λ lines. lines.items
        ≡ drawings.cluster_lines items.now n before (option_copied names.entry) body.now) }
{
    let text = body_text(alloc, items, n, body.params, body.locals.as_slice())?;
    let mut lines = Vec::new(alloc);
    put(&mut lines, text.as_slice())?;
    put_names(alloc, &mut lines, names)?;
    put_flags(alloc, &mut lines, before < body.locals.len(), before)?;
    Ok(lines)
}

/// Puts the beginning of a body's cluster.
fn put_cluster(
    alloc: Global,
    out: &mut Vec<u8>,
    items: &Items,
    n: u32,
    before: usize,
    names: Option<&BodyNames>,
    body: &Body,
) -> Result<(), NoMemory>
    requires { IsShortBody body.now }
    ensures { OnOk result (out.new.items ≡ out.old.items
        ++ drawings.cluster items.now n before (option_copied names.entry) body.now) }
{
    let lines = cluster_lines(alloc, items, n, before, names, body)?;
    put_cluster_of(alloc, out, n, lines.as_slice())
}

/// How many locals a body of a graph has.
fn locals_in(graph: &Graph, n: u32) -> usize
    ensures { result ≡ drawings.locals_in graph.now n }
{
    match graph.bodies.get(n as usize) {
        Some(body) => body.locals.len(),
        None => 0,
    }
}

/// How many blocks a body of a graph has.
fn blocks_in(graph: &Graph, n: u32) -> usize
    ensures { result ≡ drawings.blocks_in graph.now n }
{
    match graph.bodies.get(n as usize) {
        Some(body) => body.blocks.len(),
        None => 0,
    }
}

/// Puts a body, beside one that had so many locals and blocks.
fn put_body_of(
    alloc: Global,
    out: &mut Vec<u8>,
    items: &Items,
    sites: &[Site],
    locals: usize,
    blocks: usize,
    names: Option<&BodyNames>,
    n: u32,
    body: &Body,
) -> Result<(), NoMemory>
    requires { IsShortBody body.now }
    ensures { OnOk result (out.new.items ≡ out.old.items
        ++ drawings.body_of items.now sites.now locals blocks (option_copied names.entry) n body.now) }
{
    put_cluster(alloc, out, items, n, locals, names, body)?;
    put_blocks(alloc, out, items, sites, n, blocks, body.blocks.as_slice())?;
    put(out, b"  }\n")
}

/// The names of a body, if they are known.
fn names_of(names: &[BodyNames], n: u32) -> Option<&BodyNames>
    ensures { option_copied result ≡ slice_get names.now n }
{
    names.get(n as usize)
}

/// Puts a body, beside the one of the raw graph.
fn put_body(
    alloc: Global,
    out: &mut Vec<u8>,
    items: &Items,
    sites: &[Site],
    names: &[BodyNames],
    raw: &Graph,
    n: u32,
    body: &Body,
) -> Result<(), NoMemory>
    requires { IsShortBody body.now }
    ensures { OnOk result (out.new.items ≡ out.old.items
        ++ drawings.body_drawing items.now sites.now names.now raw.now n body.now) }
{
    put_body_of(
        alloc,
        out,
        items,
        sites,
        locals_in(raw, n),
        blocks_in(raw, n),
        names_of(names, n),
        n,
        body,
    )
}

fn put_bodies(
    alloc: Global,
    out: &mut Vec<u8>,
    items: &Items,
    sites: &[Site],
    names: &[BodyNames],
    raw: &Graph,
    bodies: &[Body],
) -> Result<(), NoMemory>
    requires count { length bodies.now < 2 ^ 32 - 1 }
    requires short { AreShortBodies bodies.now }
    ensures { OnOk result (out.new.items ≡ out.old.items
        ++ counted (drawings.body_drawing items.now sites.now names.now raw.now) 0 bodies.now) }
{
    for (n, body) in bodies.iter().enumerate() {
        put_body(alloc, out, items, sites, names, raw, n as u32, body)?;
    }
    Ok(())
}

/// A graph as Graphviz reads it: a cluster for each body, a box for each block, an arrow for each edge; behind a line that
/// has a site stand its place in the text and the name of what it uses, and in the label of a body whose names are known
/// its variables. What is not in the raw graph that it was made from, drop flags and the blocks of ladders, is marked.
/// Each list of the graph has fewer than 4,294,967,295 members.
///
/// # Errors
///
/// [`NoMemory`] where memory is wanted.
pub fn draw(
    alloc: Global,
    sites: &[Site],
    names: &[BodyNames],
    raw: &Graph,
    graph: &Graph,
) -> Result<Vec<u8>, NoMemory>
    requires { IsShortGraph graph.now }
    ensures { IfOk result (λ out. out.items ≡ drawings.drawing sites.now names.now raw.now graph.now) }
{
    let mut out = Vec::new(alloc);
    put(
        &mut out,
        b"digraph mirdrop {\n  node [shape=box, fontname=monospace];\n",
    )?;
    put_bodies(
        alloc,
        &mut out,
        &graph.items,
        sites,
        names,
        raw,
        graph.bodies.as_slice(),
    )?;
    put(&mut out, b"}\n")?;
    Ok(out)
}
