//! Blocks by what is decided of their drops.
ghost use Rattle.std.specs.Prelude.{◌≡◌, ◌++◌, IfOk, List as Listed, false};
ghost use Rattle.mir_ty.specs.ItemTable.{ItemTable};
ghost use Rattle.cfg_graph.specs.declared.graph.Body.{Body as GraphBody};
ghost use Rattle.cfg_graph.specs.declared.statement.Stmt.{Stmt as Line};
ghost use Rattle.drop_flags.specs.Flags.{AreFlags, HasRoom, paths_of};
ghost use Rattle.drop_blocks.specs.Ladders.{made_of};
ghost use Rattle.drop_ends.specs.Edges.{IsMade};
ghost use Rattle.drop_elaborate.specs.Elaborated as rules;
ghost use Rattle.drop_ends.specs.Ends as exact;
ghost use Rattle.drop_ends.specs.Ends.{made_end, end_by};
ghost use Rattle.cfg_graph.specs.Edges.{is_turn_kind};
ghost use Rattle.drop_ends.specs.Decisions.{DropEnds, EndsBy, IsBlockOf};

use crate::edges::kind_after;
use crate::ends::{ladder_end, term_end};
use cfg_graph::{Block, Kind, Place, Stmt, Term, Unwind};
use drop_blocks::{NewBlocks, Plan};
use drop_flags::Flags;
use mir_base::{List, NoMemory};
use move_paths::Use;
use std::alloc::Global;

/// What becomes of a drop.
#[derive(Drop)]
pub enum Decided {
    /// Nothing can be there: it goes on at once.
    Dead,
    /// All is there: it stays.
    Plain,
    /// It becomes the ladder of a plan.
    Planned(Plan),
}

fn drop_end(
    alloc: Global,
    flags: &Flags,
    decided: &Decided,
    kind: Kind,
    place: Place,
    next: u32,
    unwind: Unwind,
    stmts: &mut List<Stmt>,
    blocks: &mut NewBlocks,
) -> Result<Term, NoMemory>
    requires { HasRoom flags.now }
    ensures built { IfOk result (λ term. (items : ItemTable) (body : GraphBody) → AreFlags items body flags.now →
        made_end term (made_of blocks.new) ≡ exact.drop_end items body (paths_of flags.now) decided.now kind place
        next unwind (made_of blocks.old)) }
    ensures stands { IfOk result (λ term. (items : ItemTable) (body : GraphBody) → AreFlags items body flags.now →
        is_turn_kind kind ≡ false → (ending : Listed Line) × (stmts.new ≡ stmts.old ++ ending)
        × IsMade (made_of blocks.old) (made_of blocks.new) (λ after. DropEnds items body (paths_of flags.now) after decided.now kind place next unwind ending term)) }
{
    match decided {
        Decided::Dead => {
            flags.add_use(alloc, Use::Drops, &place, stmts)?;
            Ok(Term::Goto(next))
        }
        Decided::Plain => {
            flags.add_use(alloc, Use::Drops, &place, stmts)?;
            Ok(Term::DropAt {
                place,
                then: next,
                unwind,
            })
        }
        Decided::Planned(plan) => {
            let from = ladder_end(alloc, flags, plan, kind, &place, next, unwind, blocks)?;
            Ok(Term::Goto(from))
        }
    }
}

fn end_of(
    alloc: Global,
    flags: &Flags,
    decided: &Decided,
    kind: Kind,
    term: Term,
    stmts: &mut List<Stmt>,
    blocks: &mut NewBlocks,
) -> Result<Term, NoMemory>
    requires { HasRoom flags.now }
    ensures built { IfOk result (λ end. (items : ItemTable) (body : GraphBody) → AreFlags items body flags.now →
        made_end end (made_of blocks.new)
        ≡ end_by items body (paths_of flags.now) decided.now kind term (made_of blocks.old)) }
    ensures stands { IfOk result (λ end. (items : ItemTable) (body : GraphBody) → AreFlags items body flags.now →
        is_turn_kind kind ≡ false → (ending : Listed Line) × (stmts.new ≡ stmts.old ++ ending)
        × IsMade (made_of blocks.old) (made_of blocks.new) (λ after. EndsBy items body (paths_of flags.now) after decided.now kind term ending end)) }
{
    match term {
        Term::DropAt {
            place,
            then,
            unwind,
        } => drop_end(
            alloc, flags, decided, kind, place, then, unwind, stmts, blocks,
        ),
        other => {
            flags.add_term(alloc, &other, stmts)?;
            term_end(alloc, flags, kind, other, blocks)
        }
    }
}

/// A block with flags, and with an exact drop where it ends by one: by what is decided of it. Blocks that are made for it
/// stand behind the new ones. Its rank is 0.
///
/// # Errors
///
/// [`NoMemory`] where memory is wanted, and where there are more blocks than 32 bits count.
pub fn block_of(
    alloc: Global,
    flags: &Flags,
    decided: &Decided,
    number: u32,
    block: Block,
    blocks: &mut NewBlocks,
) -> Result<Block, NoMemory>
    requires { HasRoom flags.now }
    ensures kind { IfOk result (λ made. made.kind ≡ block.kind) }
    ensures built { IfOk result (λ made. (items : ItemTable) (body : GraphBody) → AreFlags items body flags.now →
        made_end made.term (made_of blocks.new) ≡ end_by items body (paths_of flags.now) decided.now
        (rules.kind_after items body (paths_of flags.now) body block.kind) block.term (made_of blocks.old)) }
    ensures stands { IfOk result (λ made. (items : ItemTable) (body : GraphBody) → AreFlags items body flags.now →
        IsMade (made_of blocks.old) (made_of blocks.new)
        (λ after. IsBlockOf items body (paths_of flags.now) after decided.now number block made)) }
{
    let Block {
        kind: own,
        stmts,
        term,
        ..
    } = block;
    let mut stmts = flags.stmts_of(alloc, number, stmts)?;
    let kind = kind_after(own);
    let term = end_of(alloc, flags, decided, kind, term, &mut stmts, blocks)?;
    Ok(Block {
        kind: own,
        rank: 0,
        stmts,
        term,
    })
}
