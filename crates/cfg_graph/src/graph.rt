ghost use Rattle.std.specs.Prelude.{◌≡◌, option_map, slice_get};

use crate::{Stmt, Term};
use mir_base::List;
use mir_ty::{Items, TyId};

/// The kind of a block.
#[derive(Clone, Copy, Debug)]
pub enum Kind {
    Plain,
    /// A turn of a loop begins here: entering it spends a tick.
    Turn,
    /// Reached while a panic unwinds.
    Cleanup,
}

/// A block: statements, and a terminator after them.
#[derive(Drop)]
pub struct Block {
    pub kind: Kind,
    /// Each edge to a block that is no turn block leads to a lower rank, so a run without turns ends.
    pub rank: u32,
    pub stmts: List<Stmt>,
    pub term: Term,
}

/// A body. It begins in block 0.
#[derive(Drop)]
pub struct Body {
    /// How many parameters it has: the locals 1 to this number.
    pub params: u32,
    /// The types of its locals; local 0 is the result.
    pub locals: List<TyId>,
    pub blocks: List<Block>,
}

/// A graph: the bodies of a program in the order of their numbers, over its items.
#[derive(Drop)]
pub struct Graph {
    pub items: Items,
    pub bodies: List<Body>,
}

impl Graph {
    /// The graph is let go. A value that ends is dropped where it ends, and that each statement and terminator is dropped
    /// is then proved in the crate where it does; here it is proved for all that hand their graph on.
    pub fn discard(self) {
        drop(self);
    }
}

/// A fault of a graph, and where it is.
///
/// Of a statement `line` is its number in its block, of a terminator the number of the block's statements. Where a
/// field has no meaning it is 4294967295: `block` for a fault of a local, whose number is `line`; `block` and
/// `line` for one of a body; `body` and `block` for one of an item, whose number in the order structs and enums,
/// traits, impls, closures is `line`; all three for a `main` that is missing.
#[derive(Clone, Copy, Debug)]
pub struct GraphFault {
    /// 1 to 7, for G1 to G7.
    pub number: u8,
    pub body: u32,
    pub block: u32,
    pub line: u32,
}

/// The rank of the block with this number; `None` exactly where the body has no such block.
pub fn rank(body: &Body, block: u32) -> Option<u32>
    ensures { result ≡ option_map (λ found. found.rank) (slice_get body.now.blocks block) }
{
    body.blocks.get(block as usize).map(|found| found.rank)
}
