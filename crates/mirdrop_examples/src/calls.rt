//! Calls that no run of the program makes: each succeeds where memory is there.
ghost use Rattle.std.specs.Prelude.{◌≡◌, []};

use cfg_graph::{Graph, Place, Steps};
use init_flow::MaybeInit;
use mir_base::{Key, List, NoMemory};
use mir_pipeline::read_typed;
use mir_text::read_listing;
use move_paths::paths;
use scope_table::scopes;
use std::alloc::Global;
use store_model::{At, Value, parts_in_order};
use typed_tree::Typed;
use unwind_tree::ExitTree;

/// Whether the first body of a program has scopes.
fn has_scopes(alloc: Global, typed: &Typed) -> bool {
    match typed.bodies.get(0) {
        Some(body) => scopes(alloc, body).is_ok(),
        None => false,
    }
}

/// Whether a text has a program, and its first body has scopes.
fn is_scoped(alloc: Global, text: &[u8]) -> bool {
    if text.len() > 200_000 {
        return false;
    }
    match read_typed(alloc, text) {
        Ok(typed) => {
            let scoped = has_scopes(alloc, &typed);
            typed.discard();
            scoped
        }
        Err(refusal) => {
            drop(refusal);
            false
        }
    }
}

const GRAPH: &[u8] =
    b"mirdrop 1\nbody 0 main 0\nlocal 0 ()\nblock 0 plain rank 0\n_0 = const ()\nreturn\nend\n";

/// Whether the first body of a graph can be asked what is present in it.
fn has_presence(alloc: Global, graph: &Graph) -> bool {
    if graph.bodies.is_empty() {
        return false;
    }
    match paths(alloc, graph, 0) {
        Ok(forest) => {
            let init = MaybeInit::new(alloc, graph, 0, &forest);
            drop(forest);
            let made = init.is_ok();
            drop(init);
            made
        }
        Err(_) => false,
    }
}

fn is_answered(alloc: Global) -> bool {
    match read_listing(alloc, GRAPH) {
        Ok(graph) => {
            let present = has_presence(alloc, &graph);
            graph.discard();
            present
        }
        Err(_) => false,
    }
}

fn local(alloc: Global, number: u32) -> Place {
    Place {
        local: number,
        steps: Steps::new(alloc),
    }
}

/// Whether the entries of two scopes are what is dropped where both are left, by a panic or otherwise, and the first one's
/// alone once the second is left.
fn are_left(alloc: Global, tree: &mut ExitTree) -> Result<bool, NoMemory>
    requires { tree.old ≡ [] }
{
    tree.enter()?;
    tree.schedule(0, Key(1), local(alloc, 1))?;
    tree.enter()?;
    tree.schedule(1, Key(2), local(alloc, 2))?;
    let unwound = tree.unwind_from(alloc)?.len();
    let left = tree.exit_to(alloc, 0)?.len();
    tree.leave();
    let left_later = tree.exit_to(alloc, 0)?.len();
    Ok(unwound == 2 && left == 2 && left_later == 1)
}

fn has_exits(alloc: Global) -> bool {
    let mut tree = ExitTree::new(alloc);
    let left = are_left(alloc, &mut tree);
    drop(tree);
    left == Ok(true)
}

/// Whether a panic alone drops a pending destination, and any exit does once it is completed.
fn is_completed(alloc: Global, tree: &mut ExitTree) -> Result<bool, NoMemory>
    requires { tree.old ≡ [] }
{
    tree.enter()?;
    tree.pending(0, 0, Key(1), local(alloc, 1))?;
    let left_before = tree.exit_to(alloc, 0)?.len();
    let unwound_before = tree.unwind_from(alloc)?.len();
    tree.complete(Key(1));
    let left = tree.exit_to(alloc, 0)?.len();
    let unwound = tree.unwind_from(alloc)?.len();
    Ok(left_before == 0 && unwound_before == 1 && left == 1 && unwound == 1)
}

fn has_pending(alloc: Global) -> bool {
    let mut tree = ExitTree::new(alloc);
    let completed = is_completed(alloc, &mut tree);
    drop(tree);
    completed == Ok(true)
}

fn is_part(step: Option<&At>, number: u32) -> bool {
    match step {
        Some(At::Part(part)) => *part == number,
        _ => false,
    }
}

/// The pair `(1, true)`.
fn pair(alloc: Global) -> Result<Value, NoMemory> {
    let mut parts = List::new(alloc);
    parts.push(Value::Int(1))?;
    parts.push(Value::Bool(true))?;
    Ok(Value::Parts {
        variant: 0,
        serial: None,
        parts,
    })
}

/// Whether a pair has the parts 0 and 1, in this order, and a number has none.
fn are_in_order(alloc: Global) -> Result<bool, NoMemory> {
    let both = parts_in_order(alloc, &pair(alloc)?)?;
    let none = parts_in_order(alloc, &Value::Int(1))?;
    Ok(both.len() == 2 && is_part(both.get(0), 0) && is_part(both.get(1), 1) && none.is_empty())
}

/// The scopes of a body, what is present in one of a graph, what exits of scopes drop, and the parts of values.
pub fn calls_of_no_run(alloc: Global) -> Option<usize> {
    if !is_scoped(alloc, b"fn main() {}") {
        return Some(0);
    }
    if !is_answered(alloc) {
        return Some(1);
    }
    if !has_exits(alloc) {
        return Some(2);
    }
    if are_in_order(alloc) != Ok(true) {
        return Some(3);
    }
    if !has_pending(alloc) {
        return Some(4);
    }
    None
}
