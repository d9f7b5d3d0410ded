//! Effects as statements and terminators.
ghost use Rattle.std.specs.Prelude.{◌≡◌, IfOk};
ghost use Rattle.lower_rules.specs.Build as build;
ghost use Rattle.cfg_meaning.specs.Actions.{site_of, operand_of, action_of};
ghost use Rattle.lower_code.specs.View.{effect_of};
ghost use Rattle.lower_passes.specs.Framed.{frame_of, term_by};

use crate::frames::LoweringFrame;
use crate::places::{
    operand, place, place_and_operand, place_and_operands, two_operands, two_places,
};
use cfg_graph::{Operand, Place, Stmt, Term, Unwind};
use lower_code::Action;
use mir_base::{Cmp, Math, NoMemory};
use std::alloc::Global;

/// The statement of a comparison.
fn compare(
    alloc: Global,
    frame: LoweringFrame,
    to: &Place,
    operator: Cmp,
    left: &Operand,
    right: &Operand,
) -> Result<Stmt, NoMemory>
    ensures { IfOk result (λ found. found ≡ Stmt.Compare (build.place_of (frame_of frame.entry) (site_of 0 to.now)) operator
        (build.operand_of (frame_of frame.entry) (operand_of 0 left.now))
        (build.operand_of (frame_of frame.entry) (operand_of 0 right.now))) }
{
    let to = place(alloc, frame, to)?;
    match two_operands(alloc, frame, left, right) {
        Ok((left, right)) => Ok(Stmt::Compare(to, operator, left, right)),
        Err(error) => {
            drop(to);
            Err(error)
        }
    }
}

/// A statement by keys as a statement by locals.
///
/// # Errors
///
/// [`NoMemory`] where memory is wanted.
pub fn statement(alloc: Global, frame: LoweringFrame, stmt: &Stmt) -> Result<Stmt, NoMemory>
    ensures { IfOk result (λ found. build.ByStmt found ≡ build.done_by (frame_of frame.entry) (action_of 0 stmt.now)) }
{
    match stmt {
        Stmt::Put(to, from) => {
            let (to, from) = place_and_operand(alloc, frame, to, from)?;
            Ok(Stmt::Put(to, from))
        }
        Stmt::Compare(to, operator, left, right) => {
            compare(alloc, frame, to, *operator, left, right)
        }
        Stmt::Not(to, of) => {
            let (to, of) = place_and_operand(alloc, frame, to, of)?;
            Ok(Stmt::Not(to, of))
        }
        Stmt::NewBox(to, content) => {
            let (to, content) = place_and_operand(alloc, frame, to, content)?;
            Ok(Stmt::NewBox(to, content))
        }
        Stmt::Unsize { to, trait_no, from } => {
            let trait_no = *trait_no;
            let (to, from) = place_and_operand(alloc, frame, to, from)?;
            Ok(Stmt::Unsize { to, trait_no, from })
        }
        Stmt::Borrow { to, unique, of } => {
            let unique = *unique;
            let (to, of) = two_places(alloc, frame, to, of)?;
            Ok(Stmt::Borrow { to, unique, of })
        }
        Stmt::Touch(of) => Ok(Stmt::Touch(place(alloc, frame, of)?)),
        Stmt::Free(of) => Ok(Stmt::Free(place(alloc, frame, of)?)),
        Stmt::Print(of) => Ok(Stmt::Print(operand(alloc, frame, of)?)),
        Stmt::Forget(of) => Ok(Stmt::Forget(operand(alloc, frame, of)?)),
        Stmt::Tuple(to, parts) => {
            let (to, parts) = place_and_operands(alloc, frame, to, parts.as_slice())?;
            Ok(Stmt::Tuple(to, parts))
        }
        Stmt::Array(to, parts) => {
            let (to, parts) = place_and_operands(alloc, frame, to, parts.as_slice())?;
            Ok(Stmt::Array(to, parts))
        }
        Stmt::Make {
            to,
            adt,
            variant,
            parts,
        } => {
            let (adt, variant) = (*adt, *variant);
            let (to, parts) = place_and_operands(alloc, frame, to, parts.as_slice())?;
            Ok(Stmt::Make {
                to,
                adt,
                variant,
                parts,
            })
        }
        Stmt::Close { to, closure, parts } => {
            let closure = *closure;
            let (to, parts) = place_and_operands(alloc, frame, to, parts.as_slice())?;
            Ok(Stmt::Close { to, closure, parts })
        }
    }
}

/// The terminator of an operation on numbers.
fn compute(
    alloc: Global,
    frame: LoweringFrame,
    to: &Place,
    op: Math,
    left: &Operand,
    right: &Operand,
    then: u32,
    unwind: Unwind,
) -> Result<Term, NoMemory>
    ensures { IfOk result (λ found. found ≡ Term.Math (build.place_of (frame_of frame.entry) (site_of 0 to.now)) op
        (build.operand_of (frame_of frame.entry) (operand_of 0 left.now))
        (build.operand_of (frame_of frame.entry) (operand_of 0 right.now)) then unwind) }
{
    let to = place(alloc, frame, to)?;
    match two_operands(alloc, frame, left, right) {
        Ok((left, right)) => Ok(Term::Math {
            to,
            op,
            left,
            right,
            then,
            unwind,
        }),
        Err(error) => {
            drop(to);
            Err(error)
        }
    }
}

/// The terminator of an effect that may panic, with its two ways on; `None` where the effect is a statement.
///
/// # Errors
///
/// [`NoMemory`] where memory is wanted.
pub fn terminator(
    alloc: Global,
    frame: LoweringFrame,
    action: &Action,
    then: u32,
    unwind: Unwind,
) -> Result<Option<Term>, NoMemory>
    ensures { IfOk result (λ found. found ≡ term_by (build.done_by (frame_of frame.entry) (effect_of 0 action.now)) then unwind) }
{
    let term = match action {
        Action::Stmt(_) => return Ok(None),
        Action::Math {
            to,
            op,
            left,
            right,
        } => compute(alloc, frame, to, *op, left, right, then, unwind)?,
        Action::Negate { to, of } => {
            let (to, of) = place_and_operand(alloc, frame, to, of)?;
            Term::Negate {
                to,
                of,
                then,
                unwind,
            }
        }
        Action::Bounds { index, length } => Term::Bounds {
            index: operand(alloc, frame, index)?,
            length: *length,
            then,
            unwind,
        },
        Action::Call { to, body, args } => {
            let (to, args) = place_and_operands(alloc, frame, to, args.as_slice())?;
            Term::Call {
                to,
                body: *body,
                args,
                then,
                unwind,
            }
        }
        Action::Virtual {
            to,
            trait_no,
            method,
            args,
        } => {
            let (to, args) = place_and_operands(alloc, frame, to, args.as_slice())?;
            Term::Virtual {
                to,
                trait_no: *trait_no,
                method: *method,
                args,
                then,
                unwind,
            }
        }
        Action::Ask { to } => Term::Ask {
            to: place(alloc, frame, to)?,
            then,
            unwind,
        },
    };
    Ok(Some(term))
}
