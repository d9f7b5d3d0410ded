//! The forest of the paths of a body.
ghost use Rattle.std.specs.Prelude.{◌≡◌, ◌<◌, ◌∷◌, ◌++◌, [], Contains, length, map, flat_map, replicate, slice_get, slice_set, slice_index_or, MatchOption, IfOk, OnOk, Some};
ghost use Rattle.std.specs.Option.{is_some};
ghost use Rattle.cfg_graph.specs.declared.graph.Body.{Body as GraphBody};
ghost use Rattle.cfg_graph.specs.Places.{named};
ghost use Rattle.cfg_graph.specs.Uses as graph;
ghost use Rattle.cfg_graph.specs.Moves.Gone.{leaves_gone};
ghost use Rattle.move_paths.specs.Forest.{IsForest, IsFound, IsPathBelow, IsRoot, IsStepBelow, all_children, children_of, path_at, HasLocals, Names, names_any};
ghost use Rattle.move_paths.specs.Trie.{AreOnce, Reaches};
ghost use Rattle.move_paths.specs.Uses.{block_uses, listed, use_of};

use crate::trie::{Near, Trie};
use crate::types::{is_behind_reference, is_watched};
use crate::uses::{Use, Used, add_inner_uses, result_place};
use cfg_graph::{Body, Graph, Place, Step, Term};
use mir_base::{List, NoMemory};
use mir_ty::{Items, TyId};
use std::alloc::Global;
use std::marker::Model;

/// What a forest has of a place.
#[derive(Clone, Copy)]
pub enum Found {
    /// The place is the path with this number.
    Exact(u32),
    /// The place is no path, and this is the nearest above it.
    Above(u32),
    /// The place is behind a reference.
    Outside,
}

/// The paths of a body that are watched for moves, numbered from 0.
#[derive(Drop)]
pub struct Forest {
    trie: Trie,
    children: List<List<u32>>,
    tys: List<TyId>,
}

impl Model for Forest {
    ghost use Rattle.std.specs.Prelude.{◌≡◌};
    ghost use Rattle.move_paths.specs.Forest.{PathForest, IsRooted, all_children};

    ghost Value = { PathForest };

    ghost view = { λ forest. record { tys = forest.tys; paths = forest.trie } };

    ghost invariant = { λ forest. IsRooted forest.tys forest.trie × (forest.children ≡ all_children forest.trie) };
}

impl Forest {
    /// How many paths there are.
    pub fn len(&self) -> u32
        ensures len { result ≡ length self.now.paths }
        ensures once { AreOnce self.now.paths }
    {
        self.trie.len()
    }

    /// The path one step above a path; `None` exactly for a local. A path has a greater number than the one above it.
    pub fn parent(&self, path: u32) -> Option<u32>
        requires { path < length self.now.paths }
        ensures { MatchOption result (IsRoot self.now.paths path) (λ upper. IsStepBelow self.now.paths upper path) }
    {
        self.trie.parent(path)
    }
}

impl Forest {
    /// The paths one step below a path, in the order of their numbers.
    pub fn children(&self, path: u32) -> &[u32]
        requires { path < length self.now.paths }
        ensures { result.now ≡ children_of self.now.paths path }
    {
        self.children.as_slice()[path as usize].as_slice()
    }

    /// The path a step below a path, if there is one. It is one look-up.
    pub fn child(&self, path: u32, step: Step) -> Option<u32>
        requires { path < length self.now.paths }
        ensures { IsPathBelow self.now.paths path step result }
    {
        self.trie.child(path, step)
    }

    /// The place of a path.
    pub fn place(&self, alloc: Global, path: u32) -> Result<Place, NoMemory>
        requires { path < length self.now.paths }
        ensures { IfOk result (λ place. named place ≡ path_at self.now.paths path) }
    {
        self.trie.place(alloc, path)
    }

    /// What the forest has of a place of its body, by the items of the graph that the forest was made from.
    pub fn find(&self, items: &Items, place: &Place) -> Found
        requires { place.now.local < length self.now.tys }
        ensures { IsFound items.now self.now (named place.now) result }
    {
        if is_behind_reference(items, self.tys.as_slice(), place) {
            return Found::Outside;
        }
        let near = self.trie.nearest(place);
        if near.depth == place.steps.as_slice().len() {
            Found::Exact(near.path)
        } else {
            Found::Above(near.path)
        }
    }

    /// How far paths lead along a place: the last path, and how many steps of the place lead to it.
    pub fn nearest(&self, place: &Place) -> Near
        requires { place.now.local < length self.now.tys }
        ensures { Reaches self.now.paths (named place.now) result }
    {
        let _ = self.tys.len();
        self.trie.nearest(place)
    }

    /// The path that a place is, if it is one. Nothing is asked of the place.
    pub fn exact(&self, place: &Place) -> Option<u32>
        ensures { MatchOption result (¬ Contains self.now.paths (named place.now)) (λ path. slice_get self.now.paths path ≡ Some (named place.now)) }
    {
        if place.local as usize >= self.tys.len() {
            return None;
        }
        let near = self.trie.nearest(place);
        if near.depth == place.steps.as_slice().len() {
            Some(near.path)
        } else {
            None
        }
    }
}

/// Whether a use takes a place or stores into it.
fn changes(how: Use) -> bool
    ensures { result ≡ is_some (leaves_gone (use_of how)) }
{
    matches!(how, Use::Moves | Use::Stores | Use::Drops | Use::Frees)
}

/// Whether a use makes paths: it changes a place of a local of the body that is watched.
fn makes_paths(items: &Items, body: &Body, how: Use, place: &Place) -> bool
    ensures { result ≡ names_any items.now body.now (use_of how, place.now) }
{
    let locals = body.locals.as_slice();
    (place.local as usize) < locals.len() && (changes(how) && is_watched(items, locals, place))
}

fn add_use(
    trie: &mut Trie,
    items: &Items,
    body: &Body,
    how: Use,
    place: &Place,
) -> Result<(), NoMemory>
    requires { HasLocals body.now trie.old }
    ensures { OnOk result (Names items.now body.now trie.old trie.new ((use_of how, place.now) ∷ [])) }
{
    if !makes_paths(items, body, how, place) {
        return Ok(());
    }
    trie.insert(place)
}

fn add_uses(trie: &mut Trie, items: &Items, body: &Body, uses: &[Used<'_>]) -> Result<(), NoMemory>
    requires { HasLocals body.now trie.old }
    ensures { OnOk result (Names items.now body.now trie.old trie.new (listed uses.now)) }
{
    for used in uses {
        add_use(trie, items, body, used.how, used.place)?;
    }
    Ok(())
}

/// Adds the place into which a terminator stores its result, if it has one.
fn add_result(trie: &mut Trie, items: &Items, body: &Body, term: &Term) -> Result<(), NoMemory>
    requires { HasLocals body.now trie.old }
    ensures { OnOk result (Names items.now body.now trie.old trie.new (map (λ place. (graph.Stores, place)) (graph.stored_by_term term.now))) }
{
    match result_place(term) {
        Some(place) => add_use(trie, items, body, Use::Stores, place),
        None => Ok(()),
    }
}

fn add_blocks(alloc: Global, trie: &mut Trie, items: &Items, body: &Body) -> Result<(), NoMemory>
    requires { HasLocals body.now trie.old }
    ensures { OnOk result (Names items.now body.now trie.old trie.new (flat_map block_uses body.now.blocks)) }
{
    let mut uses = List::new(alloc);
    for block in body.blocks.as_slice() {
        uses.truncate(0);
        add_inner_uses(&mut uses, block)?;
        add_uses(trie, items, body, uses.as_slice())?;
        add_result(trie, items, body, &block.term)?;
    }
    Ok(())
}

fn copy_types(alloc: Global, tys: &[TyId]) -> Result<List<TyId>, NoMemory>
    ensures { IfOk result (λ copy. copy ≡ tys.now) }
{
    let mut copy = List::new(alloc);
    for ty in tys {
        copy.push(*ty)?;
    }
    Ok(copy)
}

fn no_children(alloc: Global, count: u32) -> Result<List<List<u32>>, NoMemory>
    ensures { IfOk result (λ lists. lists ≡ replicate count []) }
{
    let mut lists = List::new(alloc);
    for _ in 0..count {
        lists.push(List::new(alloc))?;
    }
    Ok(lists)
}

fn add_child(lists: &mut List<List<u32>>, upper: u32, path: u32) -> Result<(), NoMemory>
    requires { upper < length lists.old }
    ensures { OnOk result (lists.new ≡ slice_set lists.old upper (slice_index_or lists.old upper [] ++ path ∷ [])) }
{
    lists.element_mut(upper as usize).push(path)
}

fn children_in(alloc: Global, trie: &Trie) -> Result<List<List<u32>>, NoMemory>
    ensures { IfOk result (λ lists. lists ≡ all_children trie.now) }
{
    let count = trie.len();
    let mut lists = no_children(alloc, count)?;
    for path in 0..count {
        if let Some(upper) = trie.parent(path) {
            add_child(&mut lists, upper, path)?;
        }
    }
    Ok(lists)
}

fn forest_of(alloc: Global, items: &Items, body: &Body) -> Result<Forest, NoMemory>
    ensures { IfOk result (λ forest. IsForest items.now body.now forest) }
{
    let Ok(locals) = u32::try_from(body.locals.len()) else {
        return Err(NoMemory::past_32_bits());
    };
    let mut trie = Trie::new(alloc, locals);
    add_blocks(alloc, &mut trie, items, body)?;
    let _ = trie.len();
    let children = children_in(alloc, &trie)?;
    Ok(Forest {
        trie,
        children,
        tys: copy_types(alloc, body.locals.as_slice())?,
    })
}

/// The paths of a body: its locals, the places that it moves, drops, frees or stores into which are neither behind a
/// reference nor within an element by an index, and their containers. Nothing is asked of the graph but that it has the
/// body. It costs a step for each step of a place that the body names.
pub fn paths(alloc: Global, graph: &Graph, body: u32) -> Result<Forest, NoMemory>
    requires { body < length graph.now.bodies }
    ensures { IfOk result (λ forest. (found : GraphBody) → slice_get graph.now.bodies body ≡ Some found → IsForest graph.now.items found forest) }
{
    forest_of(alloc, &graph.items, &graph.bodies.as_slice()[body as usize])
}
