//! G1, G4 and G5 of the edges of terminators.
ghost use Rattle.std.specs.Prelude.{◌≡◌, ◌++◌, nat_lt, length};
ghost use Rattle.std.specs.List.{list_all};
ghost use Rattle.cfg_graph.specs.Edges.{onward, unwind_of, unwind_targets, targets, is_cleanup as cleanup_block, lowers as lowers_rank};
ghost use Rattle.cfg_graph.specs.WellFormed.Cleanup.{edges_lower, cleans_up as cleaning, keeps_to_cleanup as cleanup_kept};
ghost use Rattle.cfg_graph.specs.WellFormed.Questions.{listed, edge_passes};

use crate::{Block, Body, Kind, Term, Unwind};

/// What is asked of the block to which an edge leads.
#[derive(Clone, Copy)]
pub enum EdgeTest {
    /// It exists.
    Exists,
    /// A turn begins there, or its rank is lower; or it does not exist.
    Lowers,
    /// It is a cleanup block, or does not exist.
    IsCleanup,
    /// It is no cleanup block, or does not exist.
    IsNoCleanup,
}

fn is_cleanup(block: &Block) -> bool
    ensures { result ≡ cleanup_block block.now }
{
    matches!(block.kind, Kind::Cleanup)
}

fn lowers(from: &Block, to: &Block) -> bool
    ensures { result ≡ lowers_rank from.now to.now }
{
    matches!(to.kind, Kind::Turn) || to.rank < from.rank
}

/// The blocks to which a terminator leads otherwise than by unwinding.
fn onward_of(term: &Term) -> (Option<u32>, Option<u32>)
    ensures { listed result.0 ++ listed result.1 ≡ onward term.now }
{
    match term {
        Term::Goto(block) => (Some(*block), None),
        Term::If { yes, no, .. } | Term::Case { yes, no, .. } => (Some(*no), Some(*yes)),
        Term::Math { then, .. } | Term::Negate { then, .. } | Term::Bounds { then, .. } => {
            (Some(*then), None)
        }
        Term::Call { then, .. } | Term::Virtual { then, .. } => (Some(*then), None),
        Term::Ask { then, .. } | Term::DropAt { then, .. } => (Some(*then), None),
        Term::Panic { .. } | Term::Return | Term::Resume => (None, None),
    }
}

/// Where a panic of a terminator goes on.
fn unwind_of_end(term: &Term) -> Option<Unwind>
    ensures { listed result ≡ unwind_of term.now }
{
    match term {
        Term::Math { unwind, .. } | Term::Negate { unwind, .. } | Term::Bounds { unwind, .. } => {
            Some(*unwind)
        }
        Term::Call { unwind, .. } | Term::Virtual { unwind, .. } => Some(*unwind),
        Term::Ask { unwind, .. } | Term::DropAt { unwind, .. } => Some(*unwind),
        Term::Panic { unwind, .. } => Some(*unwind),
        _ => None,
    }
}

/// The block in which a panic of a terminator goes on.
fn unwind_block_of(term: &Term) -> Option<u32>
    ensures { listed result ≡ unwind_targets term.now }
{
    match unwind_of_end(term) {
        Some(Unwind::Block(block)) => Some(block),
        _ => None,
    }
}

fn edge_is(test: EdgeTest, body: &Body, block: &Block, n: u32) -> bool
    ensures { result ≡ edge_passes body.now block.now test n }
{
    match body.blocks.get(n as usize) {
        Some(found) => match test {
            EdgeTest::Exists => true,
            EdgeTest::Lowers => lowers(block, found),
            EdgeTest::IsCleanup => is_cleanup(found),
            EdgeTest::IsNoCleanup => !is_cleanup(found),
        },
        None => !matches!(test, EdgeTest::Exists),
    }
}

fn edge_if_any(test: EdgeTest, body: &Body, block: &Block, n: Option<u32>) -> bool
    ensures { result ≡ list_all (edge_passes body.now block.now test) (listed n) }
{
    match n {
        Some(n) => edge_is(test, body, block, n),
        None => true,
    }
}

#[tactic(auto, using(crate::proofs::AskedOfLines::all_onward))]
fn onward_pass(test: EdgeTest, body: &Body, block: &Block) -> bool
    ensures { result ≡ list_all (edge_passes body.now block.now test) (onward block.now.term) }
{
    let (first, second) = onward_of(&block.term);
    edge_if_any(test, body, block, first) && edge_if_any(test, body, block, second)
}

fn unwind_passes(test: EdgeTest, body: &Body, block: &Block) -> bool
    ensures { result ≡ list_all (edge_passes body.now block.now test) (unwind_targets block.now.term) }
{
    edge_if_any(test, body, block, unwind_block_of(&block.term))
}

/// Whether all edges of a block pass.
#[tactic(auto, using(crate::proofs::AskedOfLines::all_targets))]
pub fn edges_pass(test: EdgeTest, body: &Body, block: &Block) -> bool
    ensures { result ≡ list_all (edge_passes body.now block.now test) (targets block.now.term) }
{
    onward_pass(test, body, block) && unwind_passes(test, body, block)
}

/// Whether a cleanup block may end by a terminator.
fn cleans_up(term: &Term) -> bool
    ensures { result ≡ cleaning term.now }
{
    match term {
        Term::Goto(_) | Term::If { .. } | Term::Case { .. } | Term::Resume => true,
        Term::DropAt { unwind, .. } => matches!(unwind, Unwind::Abort),
        _ => false,
    }
}

/// Whether the edges of a block keep the rules for cleanup blocks.
pub fn keeps_to_cleanup(body: &Body, block: &Block) -> bool
    ensures { result ≡ cleanup_kept body.now block.now }
{
    if is_cleanup(block) {
        return cleans_up(&block.term) && edges_pass(EdgeTest::IsCleanup, body, block);
    }
    !matches!(block.term, Term::Resume)
        && onward_pass(EdgeTest::IsNoCleanup, body, block)
        && unwind_passes(EdgeTest::IsCleanup, body, block)
}
