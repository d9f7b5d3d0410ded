//! The sites of lines.
ghost use Rattle.std.specs.Prelude.{◌≡◌, ◌++◌, ◌∷◌, [], IfOk, OnOk, map};
ghost use Rattle.std.specs.Option.{option_copied};
ghost use Rattle.lower_locals.specs.View.{entry_of};
ghost use Rattle.typed_tree.specs.Listed.{trees};
ghost use Rattle.lower_rules.specs.Sites as plain;
ghost use Rattle.cfg_graph.specs.declared.terminator.Term as term;
ghost use Rattle.cfg_build.specs.Told.{AreTold};
ghost use Rattle.cfg_build.specs.Lines as lines;
ghost use Rattle.lower_rules.specs.Listed.{placed};

use crate::places::{stmt_places, term_places, used_place};
use crate::{PlaceNames, Site, node_with, place_name};
use cfg_graph::{Place, Stmt, Term};
use mir_base::{List, Name, NoMemory};
use std::alloc::Global;
use typed_tree::{Node, Use};

/// Where a line stands.
#[derive(Clone, Copy)]
pub struct LineAt {
    pub body: u32,
    pub block: u32,
    pub line: u32,
}

/// A place in words; none where there is no place.
fn words_of(alloc: Global, names: PlaceNames, place: Option<&Place>) -> Result<Name, NoMemory>
    requires { AreTold names }
    ensures { IfOk result (λ name. name ≡ lines.words_of names.entry.items.now (map entry_of names.entry.locals.now)
        (trees names.entry.nodes.now) (option_copied place.entry)) }
{
    match place {
        Some(place) => place_name(alloc, names, place),
        None => Name::from_str(alloc, ""),
    }
}

/// How a statement uses a place, by how its node does.
fn use_by_stmt(stmt: &Stmt, by: Option<Use>) -> Use
    ensures { result ≡ plain.use_by_stmt stmt.now by }
{
    if let Stmt::Touch(_) = stmt {
        return Use::Borrow;
    }
    by.unwrap_or(Use::Move)
}

/// How a terminator uses a place, by how its node does.
fn use_by_term(by: Option<Use>) -> Use
    ensures { (one : term.Term) → result ≡ plain.use_by_term one by }
{
    by.unwrap_or(Use::Move)
}

/// A use is put behind others.
fn add_use(
    alloc: Global,
    names: PlaceNames,
    at: LineAt,
    node: &Node,
    by: Use,
    place: Option<&Place>,
    sites: &mut List<Site>,
) -> Result<(), NoMemory>
    requires { AreTold names }
    ensures { OnOk result (sites.new ≡ sites.old ++ record {
      body = at.body;
      block = at.block;
      line = at.line;
      at = node.now.at;
      by = by;
      name = lines.words_of names.entry.items.now (map entry_of names.entry.locals.now)
          (trees names.entry.nodes.now) (option_copied place.entry);
    } ∷ []) }
{
    let name = words_of(alloc, names, place)?;
    sites.push(Site {
        body: at.body,
        block: at.block,
        line: at.line,
        at: node.at,
        by,
        name,
    })
}

/// The site of a statement of the node with a number, if it has one.
pub fn add_stmt(
    alloc: Global,
    names: PlaceNames,
    at: LineAt,
    id: u32,
    stmt: &Stmt,
    sites: &mut List<Site>,
) -> Result<(), NoMemory>
    requires { AreTold names }
    ensures { OnOk result (sites.new ≡ sites.old ++ placed at.body at.block at.line
        (lines.of_stmt names.entry.items.now (map entry_of names.entry.locals.now) (trees names.entry.nodes.now) id stmt.now)) }
{
    let places = stmt_places(alloc, stmt)?;
    let Some(_first) = places.first else {
        return Ok(());
    };
    let Some(node) = node_with(names, id) else {
        return Ok(());
    };
    let by = use_by_stmt(stmt, node.by);
    add_use(
        alloc,
        names,
        at,
        node,
        by,
        used_place(node.by, places),
        sites,
    )
}

/// The site of a terminator of the node with a number, if it has one.
pub fn add_term(
    alloc: Global,
    names: PlaceNames,
    at: LineAt,
    id: u32,
    term: &Term,
    sites: &mut List<Site>,
) -> Result<(), NoMemory>
    requires { AreTold names }
    ensures { OnOk result (sites.new ≡ sites.old ++ placed at.body at.block at.line
        (lines.of_term names.entry.items.now (map entry_of names.entry.locals.now) (trees names.entry.nodes.now) id term.now)) }
{
    let places = term_places(alloc, term)?;
    let Some(_first) = places.first else {
        return Ok(());
    };
    let Some(node) = node_with(names, id) else {
        return Ok(());
    };
    let by = use_by_term(node.by);
    add_use(
        alloc,
        names,
        at,
        node,
        by,
        used_place(node.by, places),
        sites,
    )
}
