//! The first fault of a graph, in the order of its listing.
ghost use Rattle.std.specs.Prelude.{◌≡◌, ◌++◌, ◌+◌, ◌≤◌, ◌<◌, ◌^◌, IsTrue, length, zip, MatchResult, Some};
ghost use Rattle.std.specs.List.{list_any};
ghost use Rattle.cfg_graph.specs.WellFormed.Broken.{first_of};
ghost use Rattle.cfg_graph.specs.WellFormed.Buckets.{name_key as key_of_name, AreMet, RepeatsNone};
ghost use Rattle.cfg_graph.specs.WellFormed.Questions.{AreTests};
ghost use Rattle.cfg_graph.specs.WellFormed.Faults.{IsCounted, of_each, faults_of_body, is_main as main_is, end_faults, faults, first_fault as first_of_faults, IsWellFormed};

use crate::first_body_fault::fault_of_body;
use crate::first_item_fault::{NOWHERE, item_fault};
use crate::name_buckets::{BUCKETS, meet};
use crate::name_faults::is_same;
use crate::type_faults::{MOST_TYPES, Question, TypeTests, find_out, type_count};
use crate::{Body, Graph, GraphFault};
use mir_ty::{Items, Sig};

/// Whether the bucket of the name of the body with this number showed that it was not met before.
fn body_is_fresh(items: &Items, buckets: &mut [u8], n: u32) -> bool
    requires { AreMet (λ sig. key_of_name sig.name) items.now.bodies n buckets.old }
    ensures fresh { IsTrue result → RepeatsNone items.now.bodies n }
    ensures met { AreMet (λ sig. key_of_name sig.name) items.now.bodies (n + 1) buckets.new }
{
    match items.body_sig(n) {
        Some(sig) => meet(buckets, &sig.name),
        None => false,
    }
}

fn bodies_fault(graph: &Graph, tests: &TypeTests) -> Option<GraphFault>
    requires tests { AreTests graph.now.items tests.now }
    requires counted { IsCounted graph.now }
    ensures { result ≡ first_of (of_each (faults_of_body graph.now) 0 graph.now.bodies) }
{
    let mut buckets = [0u8; BUCKETS];
    let mut n: u32 = 0;
    while let Some(body) = graph.bodies.get(n as usize) {
        let fresh = body_is_fresh(&graph.items, &mut buckets, n);
        if let Some(fault) = fault_of_body(graph, tests, n, fresh, body) {
            return Some(fault);
        }
        n += 1;
    }
    None
}

/// Whether a body is `main`, without parameters.
fn is_main(graph: &Graph, sig: &Sig, body: &Body) -> bool
    ensures { result ≡ main_is graph.now (sig.now, body.now) }
{
    is_same(&sig.name, "main") && body.params == 0
}

fn has_main(graph: &Graph) -> bool
    requires { IsCounted graph.now }
    ensures { result ≡ list_any (main_is graph.now) (zip graph.now.items.bodies graph.now.bodies) }
{
    let mut n: u32 = 0;
    while let Some(body) = graph.bodies.get(n as usize) {
        match graph.items.body_sig(n) {
            Some(sig) => {
                if is_main(graph, sig, body) {
                    return true;
                }
            }
            None => return false,
        }
        n += 1;
    }
    false
}

fn end_fault(graph: &Graph) -> Option<GraphFault>
    requires { IsCounted graph.now }
    ensures { result ≡ first_of (end_faults graph.now) }
{
    if has_main(graph) {
        return None;
    }
    Some(GraphFault {
        number: 1,
        body: NOWHERE,
        block: NOWHERE,
        line: NOWHERE,
    })
}

#[tactic(auto, using(crate::proofs::Rests::first_of_both))]
fn first_fault(graph: &Graph, tests: &TypeTests, types: usize) -> Option<GraphFault>
    requires tests { AreTests graph.now.items tests.now }
    requires types { types ≡ length graph.now.items.types }
    requires counted { IsCounted graph.now }
    ensures { result ≡ first_of_faults graph.now }
{
    if let Some(fault) = item_fault(graph, tests, types) {
        return Some(fault);
    }
    match bodies_fault(graph, tests) {
        Some(fault) => Some(fault),
        None => end_fault(graph),
    }
}

/// The first fault, with room for what is known of the types.
fn fault_with_room(
    graph: &Graph,
    types: usize,
    exists: &mut [bool],
    misplaced: &mut [bool],
    finite: &mut [bool],
) -> Option<GraphFault>
    requires types { types ≡ length graph.now.items.types }
    requires counted { IsCounted graph.now }
    requires few { types < 2 ^ 32 }
    requires exists { types ≤ length exists.old }
    requires misplaced { types ≤ length misplaced.old }
    requires finite { types ≤ length finite.old }
    ensures { result ≡ first_of_faults graph.now }
{
    let exists = &mut exists[..types];
    find_out(&graph.items, Question::Exists, exists);
    let misplaced = &mut misplaced[..types];
    find_out(&graph.items, Question::MisplacesDyn, misplaced);
    let finite = &mut finite[..types];
    find_out(&graph.items, Question::IsFinite, finite);
    let tests = TypeTests {
        exists,
        misplaced,
        finite,
        rounds: 0,
    };
    first_fault(graph, &tests, types)
}

fn any_fault(graph: &Graph) -> Option<GraphFault>
    requires { IsCounted graph.now }
    ensures { result ≡ first_of_faults graph.now }
{
    let types = type_count(&graph.items);
    if types > MOST_TYPES {
        let tests = TypeTests {
            exists: &[],
            misplaced: &[],
            finite: &[],
            rounds: types,
        };
        return first_fault(graph, &tests, types);
    }
    let mut exists = [false; MOST_TYPES];
    let mut misplaced = [false; MOST_TYPES];
    let mut finite = [false; MOST_TYPES];
    fault_with_room(graph, types, &mut exists, &mut misplaced, &mut finite)
}

/// Whether a graph is well formed; otherwise its first fault in the order of its listing, and at one line the one with
/// the lowest number. The lists of a graph and of its bodies, and the statements of its blocks, are fewer than a number
/// of 32 bits can count.
///
/// It takes no memory, and on the stack about 400 KB for tables of the types and 130 KB for buckets of names, or 660 KB
/// where a type holds itself. It goes over each line once, and over the types as often as types stand in one another in
/// the wrong order of their numbers, which is mostly twice. The name of a struct, an enum, a trait or a body, and an impl,
/// are looked for among all before them only where their bucket, one of 131,072, has the same mark, one of 251, or has had
/// two: by chance about twenty of 13,000. Each `call` and each body of an impl looks at all structs and enums for `Drop`
/// bodies, each `unsize` at all impls. Where some type holds itself, the types are gone over again for each struct, enum
/// and closure from which there is a way to it. A graph of more than 131,072 types, as no listing has, is tested without
/// tables, along all ways from a type to those in it.
pub fn well_formed(graph: &Graph) -> Result<(), GraphFault>
    requires { IsCounted graph.now }
    ensures { MatchResult result (λ done. IsWellFormed graph.now) (λ fault. first_of_faults graph.now ≡ Some fault) }
{
    match any_fault(graph) {
        Some(fault) => Err(fault),
        None => Ok(()),
    }
}
