//! What no rule of graphs bounds has 32 bits in memory: each such number is looked at once.
ghost use Rattle.std.specs.Prelude.{All};
ghost use Rattle.listing_write.specs.Fields.{Fits, TyFits};
ghost use Rattle.listing_trip.specs.Numbers.{AreNumbered, NumbersFit, OwnNumbersFit};

use cfg_graph::{Block, Body, Graph, Term};
use mir_ty::{Items, Ty, TyId};

fn type_fits(ty: &Ty)
    ensures { TyFits ty.now }
{
    match ty {
        Ty::Array(_element, count) => {
            let _count = *count;
        }
        Ty::Closure(number) => {
            let _number = *number;
        }
        _ => {}
    }
}

fn types_fit(items: &Items)
    ensures { All TyFits items.now.types }
{
    let mut n: u32 = 0;
    while let Some(ty) = items.ty(TyId(n)) {
        type_fits(ty);
        n += 1;
    }
}

fn block_fits(block: &Block)
    ensures { OwnNumbersFit block.now }
{
    let _rank = block.rank;
    if let Term::Bounds { length, .. } = &block.term {
        let _length = *length;
    }
}

fn body_fits(body: &Body)
    ensures { AreNumbered body.now }
{
    for block in body.blocks.as_slice() {
        block_fits(block);
    }
}

/// The numbers of a graph that no rule bounds have 32 bits.
pub fn numbers_fit(graph: &Graph)
    ensures { NumbersFit graph.now }
{
    types_fit(&graph.items);
    for body in graph.bodies.as_slice() {
        body_fits(body);
    }
}
