//! Operands and statements.
ghost use Rattle.std.specs.Prelude.{◌≡◌, IfOk};

use crate::copy_place;
use cfg_graph::{Operand, Stmt};
use mir_base::{List, NoMemory};
use std::alloc::Global;

/// An operand once more.
pub fn copy_operand(alloc: Global, operand: &Operand) -> Result<Operand, NoMemory>
    ensures { IfOk result (λ copy. copy ≡ operand.now) }
{
    match operand {
        Operand::Copied(place) => Ok(Operand::Copied(copy_place(alloc, place)?)),
        Operand::Moved(place) => Ok(Operand::Moved(copy_place(alloc, place)?)),
        Operand::Number(number, kind) => Ok(Operand::Number(*number, *kind)),
        Operand::Truth(truth) => Ok(Operand::Truth(*truth)),
        Operand::Unit => Ok(Operand::Unit),
    }
}

/// Operands once more, in a list without room to spare.
pub fn copy_operands(alloc: Global, operands: &[Operand]) -> Result<List<Operand>, NoMemory>
    ensures { IfOk result (λ copies. copies ≡ operands.now) }
{
    let mut copies = List::from_vec(Vec::with_capacity(alloc, operands.len())?);
    for operand in operands {
        copies.push(copy_operand(alloc, operand)?)?;
    }
    Ok(copies)
}

/// A statement once more.
pub fn copy_stmt(alloc: Global, stmt: &Stmt) -> Result<Stmt, NoMemory>
    ensures { IfOk result (λ copy. copy ≡ stmt.now) }
{
    match stmt {
        Stmt::Put(to, from) => {
            let to = copy_place(alloc, to)?;
            let from = copy_operand(alloc, from)?;
            Ok(Stmt::Put(to, from))
        }
        Stmt::Compare(to, cmp, left, right) => {
            let to = copy_place(alloc, to)?;
            let left = copy_operand(alloc, left)?;
            let right = copy_operand(alloc, right)?;
            Ok(Stmt::Compare(to, *cmp, left, right))
        }
        Stmt::Not(to, from) => {
            let to = copy_place(alloc, to)?;
            let from = copy_operand(alloc, from)?;
            Ok(Stmt::Not(to, from))
        }
        Stmt::Tuple(to, parts) => {
            let to = copy_place(alloc, to)?;
            let parts = copy_operands(alloc, parts.as_slice())?;
            Ok(Stmt::Tuple(to, parts))
        }
        Stmt::Array(to, parts) => {
            let to = copy_place(alloc, to)?;
            let parts = copy_operands(alloc, parts.as_slice())?;
            Ok(Stmt::Array(to, parts))
        }
        Stmt::Make {
            to,
            adt,
            variant,
            parts,
        } => {
            let to = copy_place(alloc, to)?;
            let parts = copy_operands(alloc, parts.as_slice())?;
            Ok(Stmt::Make {
                to,
                adt: *adt,
                variant: *variant,
                parts,
            })
        }
        Stmt::Close { to, closure, parts } => {
            let to = copy_place(alloc, to)?;
            let parts = copy_operands(alloc, parts.as_slice())?;
            Ok(Stmt::Close {
                to,
                closure: *closure,
                parts,
            })
        }
        Stmt::NewBox(to, from) => {
            let to = copy_place(alloc, to)?;
            let from = copy_operand(alloc, from)?;
            Ok(Stmt::NewBox(to, from))
        }
        Stmt::Unsize { to, trait_no, from } => {
            let to = copy_place(alloc, to)?;
            let from = copy_operand(alloc, from)?;
            Ok(Stmt::Unsize {
                to,
                trait_no: *trait_no,
                from,
            })
        }
        Stmt::Borrow { to, unique, of } => {
            let to = copy_place(alloc, to)?;
            let of = copy_place(alloc, of)?;
            Ok(Stmt::Borrow {
                to,
                unique: *unique,
                of,
            })
        }
        Stmt::Touch(place) => Ok(Stmt::Touch(copy_place(alloc, place)?)),
        Stmt::Print(from) => Ok(Stmt::Print(copy_operand(alloc, from)?)),
        Stmt::Forget(from) => Ok(Stmt::Forget(copy_operand(alloc, from)?)),
        Stmt::Free(place) => Ok(Stmt::Free(copy_place(alloc, place)?)),
    }
}
