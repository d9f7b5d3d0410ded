//! Edges on which flags are set.
ghost use Rattle.std.specs.Prelude.{◌≡◌, IfOk, List as Listed};
ghost use Rattle.mir_ty.specs.ItemTable.{ItemTable};
ghost use Rattle.cfg_graph.specs.declared.graph.Body.{Body};
ghost use Rattle.store_model.specs.Places.Place as plain;
ghost use Rattle.drop_elaborate.specs.Elaborated as rules;
ghost use Rattle.drop_elaborate.specs.Elaborated.{EdgeTo};
ghost use Rattle.drop_blocks.specs.Ladders.{made_of, begun_of};
ghost use Rattle.drop_ends.specs.Edges.{IsMade, edge_to};

use cfg_graph::{Kind, Stmt, Term};
use drop_blocks::NewBlocks;
use mir_base::{List, NoMemory};

/// The kind of the blocks that are made for a block: what follows the beginning of a turn is no turn.
pub fn kind_after(kind: Kind) -> Kind
    ensures { (items : ItemTable) (body after : Body) (flagged : Listed plain.Place) →
        result ≡ rules.kind_after items body flagged after kind }
{
    match kind {
        Kind::Plain | Kind::Turn => Kind::Plain,
        Kind::Cleanup => Kind::Cleanup,
    }
}

/// An edge on which flags are set: at once to its end, or by a block of its own. Where it begins.
///
/// # Errors
///
/// [`NoMemory`] where memory is wanted, and where there are more blocks than 32 bits count.
pub fn edge(blocks: &mut NewBlocks, kind: Kind, stmts: List<Stmt>, to: u32) -> Result<u32, NoMemory>
    ensures built { IfOk result (λ from. begun_of from blocks.new ≡ edge_to kind stmts to (made_of blocks.old)) }
    ensures stands { IfOk result (λ from. (items : ItemTable) (body : Body) (flagged : Listed plain.Place) →
        IsMade (made_of blocks.old) (made_of blocks.new) (λ after. EdgeTo items body flagged after kind stmts from to)) }
{
    if stmts.as_slice().is_empty() {
        return Ok(to);
    }
    blocks.add(kind, stmts, Term::Goto(to))
}
