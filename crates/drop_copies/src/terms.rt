//! Terminators.
ghost use Rattle.std.specs.Prelude.{◌≡◌, IfOk, List as Listed};
ghost use Rattle.mir_ty.specs.ItemTable.{ItemTable};
ghost use Rattle.cfg_graph.specs.declared.graph.Body.{Body};
ghost use Rattle.store_model.specs.Places.Place as plain;
ghost use Rattle.drop_elaborate.specs.Elaborated as rules;

use crate::copy_place;
use crate::lines::{copy_operand, copy_operands};
use cfg_graph::Term;
use mir_base::NoMemory;
use std::alloc::Global;

/// A terminator once more. One that stores a result, or that only may panic, goes on in this block; to any other it
/// makes no difference.
pub fn copy_term(alloc: Global, term: &Term, onward: u32) -> Result<Term, NoMemory>
    ensures { IfOk result (λ copy. (items : ItemTable) (body after : Body) (flagged : Listed plain.Place) →
        copy ≡ rules.onward_to items body flagged after onward term.now) }
{
    match term {
        Term::Goto(block) => Ok(Term::Goto(*block)),
        Term::If { on, yes, no } => {
            let on = copy_operand(alloc, on)?;
            Ok(Term::If {
                on,
                yes: *yes,
                no: *no,
            })
        }
        Term::Case {
            on,
            variant,
            yes,
            no,
        } => {
            let on = copy_place(alloc, on)?;
            Ok(Term::Case {
                on,
                variant: *variant,
                yes: *yes,
                no: *no,
            })
        }
        Term::Math {
            to,
            op,
            left,
            right,
            then: _,
            unwind,
        } => {
            let to = copy_place(alloc, to)?;
            let left = copy_operand(alloc, left)?;
            let right = copy_operand(alloc, right)?;
            Ok(Term::Math {
                to,
                op: *op,
                left,
                right,
                then: onward,
                unwind: *unwind,
            })
        }
        Term::Negate {
            to,
            of,
            then: _,
            unwind,
        } => {
            let to = copy_place(alloc, to)?;
            let of = copy_operand(alloc, of)?;
            Ok(Term::Negate {
                to,
                of,
                then: onward,
                unwind: *unwind,
            })
        }
        Term::Bounds {
            index,
            length,
            then: _,
            unwind,
        } => {
            let index = copy_operand(alloc, index)?;
            Ok(Term::Bounds {
                index,
                length: *length,
                then: onward,
                unwind: *unwind,
            })
        }
        Term::Call {
            to,
            body,
            args,
            then: _,
            unwind,
        } => {
            let to = copy_place(alloc, to)?;
            let args = copy_operands(alloc, args.as_slice())?;
            Ok(Term::Call {
                to,
                body: *body,
                args,
                then: onward,
                unwind: *unwind,
            })
        }
        Term::Virtual {
            to,
            trait_no,
            method,
            args,
            then: _,
            unwind,
        } => {
            let to = copy_place(alloc, to)?;
            let args = copy_operands(alloc, args.as_slice())?;
            Ok(Term::Virtual {
                to,
                trait_no: *trait_no,
                method: *method,
                args,
                then: onward,
                unwind: *unwind,
            })
        }
        Term::Ask {
            to,
            then: _,
            unwind,
        } => {
            let to = copy_place(alloc, to)?;
            Ok(Term::Ask {
                to,
                then: onward,
                unwind: *unwind,
            })
        }
        Term::DropAt {
            place,
            then,
            unwind,
        } => {
            let place = copy_place(alloc, place)?;
            Ok(Term::DropAt {
                place,
                then: *then,
                unwind: *unwind,
            })
        }
        Term::Panic { why, unwind } => Ok(Term::Panic {
            why: *why,
            unwind: *unwind,
        }),
        Term::Return => Ok(Term::Return),
        Term::Resume => Ok(Term::Resume),
    }
}

/// The block in which a terminator goes on that stores a result, or that only may panic; 0 for any other.
pub fn next_of(term: &Term) -> u32
    ensures { (items : ItemTable) (body after : Body) (flagged : Listed plain.Place) →
        result ≡ rules.next_of items body flagged after term.now }
{
    match term {
        Term::Math { then, .. }
        | Term::Negate { then, .. }
        | Term::Bounds { then, .. }
        | Term::Call { then, .. }
        | Term::Virtual { then, .. }
        | Term::Ask { then, .. } => *then,
        _ => 0,
    }
}
