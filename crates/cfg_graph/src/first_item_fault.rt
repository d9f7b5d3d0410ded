//! The first fault of the items of a graph, in the order of its listing.
ghost use Rattle.std.specs.Prelude.{◌≡◌, ◌++◌, ◌+◌, ◌<◌, ◌^◌, length, option_map};
ghost use Rattle.cfg_graph.specs.WellFormed.Broken.{first_of};
ghost use Rattle.cfg_graph.specs.WellFormed.Questions.{AreTests};
ghost use Rattle.cfg_graph.specs.WellFormed.Faults.{adts_faults, traits_faults, impls_faults, closures_faults, item_faults};

use crate::impl_faults::{closure_fault, impl_fault};
use crate::item_faults::{adt_fault, trait_fault};
use crate::name_buckets::{BUCKETS, meet, meet_impl};
use crate::type_faults::TypeTests;
use crate::{Graph, GraphFault};
use mir_ty::Items;

/// In the place of a body, a block or a line that a fault does not have.
pub const NOWHERE: u32 = 4294967295;

/// A fault with this number, if there is one, at a line.
pub fn at(number: Option<u8>, body: u32, block: u32, line: u32) -> Option<GraphFault>
    ensures { result ≡ option_map (λ number. record { number = number; body = body; block = block; line = line }) number }
{
    match number {
        Some(number) => Some(GraphFault {
            number,
            body,
            block,
            line,
        }),
        None => None,
    }
}

fn adt_count(items: &Items) -> u32
    ensures { result ≡ length items.now.adts }
{
    let mut n: u32 = 0;
    while let Some(_adt) = items.adt(n) {
        n += 1;
    }
    n
}

fn trait_count(items: &Items) -> u32
    ensures count { result ≡ length items.now.traits }
    ensures few { length items.now.adts + length items.now.traits < 2 ^ 32 }
{
    let mut n: u32 = 0;
    while let Some(_def) = items.trait_def(n) {
        n += 1;
    }
    n
}

fn impl_count(items: &Items) -> u32
    ensures count { result ≡ length items.now.impls }
    ensures few { length items.now.adts + length items.now.traits + length items.now.impls < 2 ^ 32 }
{
    let mut n: u32 = 0;
    while let Some(_def) = items.impl_def(n) {
        n += 1;
    }
    n
}

fn adts_fault(graph: &Graph, tests: &TypeTests, types: usize) -> Option<GraphFault>
    requires tests { AreTests graph.now.items tests.now }
    requires types { types ≡ length graph.now.items.types }
    ensures { result ≡ first_of (adts_faults graph.now) }
{
    let bodies = graph.bodies.len();
    let mut buckets = [0u8; BUCKETS];
    let mut n: u32 = 0;
    while let Some(adt) = graph.items.adt(n) {
        let fresh = meet(&mut buckets, &adt.name);
        let number = adt_fault(&graph.items, tests, bodies, types, n, fresh, adt);
        if let Some(fault) = at(number, NOWHERE, NOWHERE, n) {
            return Some(fault);
        }
        n += 1;
    }
    None
}

fn traits_fault(graph: &Graph, tests: &TypeTests, before: u32) -> Option<GraphFault>
    requires tests { AreTests graph.now.items tests.now }
    requires before { before ≡ length graph.now.items.adts }
    ensures { result ≡ first_of (traits_faults graph.now) }
{
    let bodies = graph.bodies.len();
    let mut buckets = [0u8; BUCKETS];
    let mut n: u32 = 0;
    while let Some(def) = graph.items.trait_def(n) {
        let fresh = meet(&mut buckets, &def.name);
        let number = trait_fault(&graph.items, tests, bodies, n, fresh, def);
        if let Some(fault) = at(number, NOWHERE, NOWHERE, before + n) {
            return Some(fault);
        }
        n += 1;
    }
    None
}

fn impls_fault(graph: &Graph, before: u32) -> Option<GraphFault>
    requires { before ≡ length graph.now.items.adts + length graph.now.items.traits }
    ensures { result ≡ first_of (impls_faults graph.now) }
{
    let bodies = graph.bodies.len();
    let mut buckets = [0u8; BUCKETS];
    let mut n: u32 = 0;
    while let Some(def) = graph.items.impl_def(n) {
        let fresh = meet_impl(&mut buckets, def);
        let number = impl_fault(&graph.items, bodies, n, fresh, def);
        if let Some(fault) = at(number, NOWHERE, NOWHERE, before + n) {
            return Some(fault);
        }
        n += 1;
    }
    None
}

fn closures_fault(graph: &Graph, tests: &TypeTests, types: usize, before: u32) -> Option<GraphFault>
    requires tests { AreTests graph.now.items tests.now }
    requires types { types ≡ length graph.now.items.types }
    requires before { before ≡ length graph.now.items.adts + length graph.now.items.traits + length graph.now.items.impls }
    ensures { result ≡ first_of (closures_faults graph.now) }
{
    let bodies = graph.bodies.len();
    let mut n: u32 = 0;
    while let Some(def) = graph.items.closure_def(n) {
        let number = closure_fault(&graph.items, tests, bodies, types, n, def);
        if let Some(fault) = at(number, NOWHERE, NOWHERE, before + n) {
            return Some(fault);
        }
        n += 1;
    }
    None
}

/// The first fault of an item.
#[tactic(auto, using(crate::proofs::Rests::first_of_both))]
pub fn item_fault(graph: &Graph, tests: &TypeTests, types: usize) -> Option<GraphFault>
    requires tests { AreTests graph.now.items tests.now }
    requires types { types ≡ length graph.now.items.types }
    ensures { result ≡ first_of (item_faults graph.now) }
{
    if let Some(fault) = adts_fault(graph, tests, types) {
        return Some(fault);
    }
    let before = adt_count(&graph.items);
    if let Some(fault) = traits_fault(graph, tests, before) {
        return Some(fault);
    }
    let before = before + trait_count(&graph.items);
    if let Some(fault) = impls_fault(graph, before) {
        return Some(fault);
    }
    closures_fault(graph, tests, types, before + impl_count(&graph.items))
}
