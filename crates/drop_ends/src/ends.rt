//! Where drops that become ladders, and all other terminators, lead.
ghost use Rattle.std.specs.Prelude.{◌≡◌, IfOk, List as Listed, ℕ, false};
ghost use Rattle.mir_ty.specs.ItemTable.{ItemTable};
ghost use Rattle.cfg_graph.specs.declared.graph.Body.{Body as GraphBody};
ghost use Rattle.store_model.specs.Places.Place as plain;
ghost use Rattle.drop_elaborate.specs.Elaborated as rules;
ghost use Rattle.drop_elaborate.specs.Elaborated.{EdgeTo, LadderTo, result_flags};
ghost use Rattle.drop_flags.specs.Flags.{AreFlags, HasRoom, paths_of};
ghost use Rattle.drop_blocks.specs.Ladders.{made_of, begun_of};
ghost use Rattle.drop_blocks.specs.View.{plan_in};
ghost use Rattle.drop_ends.specs.Edges.{IsMade, TwinTo};
ghost use Rattle.drop_ends.specs.Ends as exact;
ghost use Rattle.drop_ends.specs.Ends.{made_twin, made_end, twin_of};
ghost use Rattle.cfg_graph.specs.Edges.{is_turn_kind};

use crate::edges::edge;
use cfg_graph::{Kind, Place, Term, Unwind};
use drop_blocks::{Chains, NewBlocks, Plan, ladder};
use drop_copies::next_of;
use drop_flags::Flags;
use mir_base::{List, NoMemory};
use move_paths::Use;
use std::alloc::Global;

/// Where a panic in the ladder of a drop goes on.
fn twin_end(
    alloc: Global,
    flags: &Flags,
    place: &Place,
    unwind: Unwind,
    blocks: &mut NewBlocks,
) -> Result<Option<u32>, NoMemory>
    requires { HasRoom flags.now }
    ensures stands { IfOk result (λ twin. (items : ItemTable) (body : GraphBody) → AreFlags items body flags.now →
        IsMade (made_of blocks.old) (made_of blocks.new)
        (λ after. TwinTo items body (paths_of flags.now) after place.now twin unwind)) }
    ensures built { IfOk result (λ twin. (items : ItemTable) (body : GraphBody) → AreFlags items body flags.now →
        made_twin twin (made_of blocks.new)
        ≡ twin_of items body (paths_of flags.now) place.now unwind (made_of blocks.old)) }
{
    match unwind {
        Unwind::Block(block) => {
            let stmts = flags.stores_of(alloc, Use::Drops, place)?;
            let twin = edge(blocks, Kind::Cleanup, stmts, block)?;
            Ok(Some(twin))
        }
        Unwind::Resume => {
            let twin = blocks.add(Kind::Cleanup, List::new(alloc), Term::Resume)?;
            Ok(Some(twin))
        }
        Unwind::Abort => Ok(None),
    }
}

/// Where a drop leads that becomes the ladder of a plan: it goes on as the drop did, with the flags cleared that the drop
/// clears, in a calm chain and where it unwinds.
///
/// # Errors
///
/// [`NoMemory`] where memory is wanted, and where there are more blocks than 32 bits count.
pub fn ladder_end(
    alloc: Global,
    flags: &Flags,
    plan: &Plan,
    kind: Kind,
    place: &Place,
    next: u32,
    unwind: Unwind,
    blocks: &mut NewBlocks,
) -> Result<u32, NoMemory>
    requires { HasRoom flags.now }
    ensures built { IfOk result (λ from. (items : ItemTable) (body : GraphBody) → AreFlags items body flags.now →
        begun_of from blocks.new ≡ exact.ladder_end items body (paths_of flags.now) (plan_in plan.now) kind place.now next
        unwind (made_of blocks.old)) }
    ensures stands { IfOk result (λ from. (items : ItemTable) (body : GraphBody) → AreFlags items body flags.now →
        is_turn_kind kind ≡ false → IsMade (made_of blocks.old) (made_of blocks.new)
        (λ after. LadderTo items body (paths_of flags.now) after (plan_in plan.now) kind place.now from next unwind)) }
{
    let stmts = flags.stores_of(alloc, Use::Drops, place)?;
    let calm = edge(blocks, kind, stmts, next)?;
    let twin = twin_end(alloc, flags, place, unwind, blocks)?;
    let begun = ladder(alloc, kind, plan, place, Chains { calm, twin }, blocks)?;
    Ok(begun.calm)
}

/// A terminator that goes on in this block, if it stores a result, or only may panic; to any other it makes no difference.
fn onward_to(term: Term, onward: u32) -> Term
    ensures { (items : ItemTable) (body after : GraphBody) (flagged : Listed plain.Place) →
        result ≡ rules.onward_to items body flagged after onward term }
{
    match term {
        Term::Math {
            to,
            op,
            left,
            right,
            then: _,
            unwind,
        } => Term::Math {
            to,
            op,
            left,
            right,
            then: onward,
            unwind,
        },
        Term::Negate {
            to,
            of,
            then: _,
            unwind,
        } => Term::Negate {
            to,
            of,
            then: onward,
            unwind,
        },
        Term::Bounds {
            index,
            length,
            then: _,
            unwind,
        } => Term::Bounds {
            index,
            length,
            then: onward,
            unwind,
        },
        Term::Call {
            to,
            body,
            args,
            then: _,
            unwind,
        } => Term::Call {
            to,
            body,
            args,
            then: onward,
            unwind,
        },
        Term::Virtual {
            to,
            trait_no,
            method,
            args,
            then: _,
            unwind,
        } => Term::Virtual {
            to,
            trait_no,
            method,
            args,
            then: onward,
            unwind,
        },
        Term::Ask {
            to,
            then: _,
            unwind,
        } => Term::Ask {
            to,
            then: onward,
            unwind,
        },
        Term::Goto(to) => Term::Goto(to),
        Term::If { on, yes, no } => Term::If { on, yes, no },
        Term::Case {
            on,
            variant,
            yes,
            no,
        } => Term::Case {
            on,
            variant,
            yes,
            no,
        },
        Term::DropAt {
            place,
            then,
            unwind,
        } => Term::DropAt {
            place,
            then,
            unwind,
        },
        Term::Panic { why, unwind } => Term::Panic { why, unwind },
        Term::Return => Term::Return,
        Term::Resume => Term::Resume,
    }
}

/// Any other terminator: its result sets flags on the way on.
///
/// # Errors
///
/// [`NoMemory`] where memory is wanted, and where there are more blocks than 32 bits count.
pub fn term_end(
    alloc: Global,
    flags: &Flags,
    kind: Kind,
    term: Term,
    blocks: &mut NewBlocks,
) -> Result<Term, NoMemory>
    requires { HasRoom flags.now }
    ensures built { IfOk result (λ end. (items : ItemTable) (body : GraphBody) → AreFlags items body flags.now →
        made_end end (made_of blocks.new)
        ≡ exact.term_end items body (paths_of flags.now) kind term (made_of blocks.old)) }
    ensures stands { IfOk result (λ end. (from : ℕ) × ((items : ItemTable) (body : GraphBody) → AreFlags items body flags.now →
        IsMade (made_of blocks.old) (made_of blocks.new)
        (λ after. (end ≡ rules.onward_to items body (paths_of flags.now) after from term)
        × EdgeTo items body (paths_of flags.now) after kind (result_flags items body (paths_of flags.now) after term)
        from (rules.next_of items body (paths_of flags.now) after term)))) }
{
    let stmts = flags.result_stores(alloc, &term)?;
    let from = edge(blocks, kind, stmts, next_of(&term))?;
    Ok(onward_to(term, from))
}
