//! The locals of a body with flags.
ghost use Rattle.std.specs.Prelude.{◌≡◌, ◌++◌, IfOk, Some, Contains, replicate};
ghost use Rattle.mir_ty.specs.AreItems.{AreItems};
ghost use Rattle.mir_ty.specs.ItemTable.{type_at};
ghost use Rattle.mir_ty.specs.declared.ty.Ty.{Ty as ItemTy};
ghost use Rattle.drop_bodies.specs.Laid.{IsBoolAt};

use cfg_graph::Body;
use mir_base::{List, NoMemory};
use mir_ty::{Items, Ty, TyId};
use std::alloc::Global;

/// Whether a type is `bool`.
fn is_bool(items: &Items, id: TyId) -> bool
    ensures exact { IsBoolAt items.now id result }
    ensures sound { AreItems items.now }
{
    matches!(items.ty(id), Some(Ty::Bool))
}

/// The type `bool`, which is among the types.
pub fn bool_of(items: &Items) -> TyId
    requires { Contains items.now.types ItemTy.Bool }
    ensures found { type_at items.now result ≡ Some ItemTy.Bool }
    ensures sound { AreItems items.now }
{
    let mut n: u32 = 0;
    while !is_bool(items, TyId(n)) {
        n += 1;
    }
    TyId(n)
}

/// The locals of a body, and behind them so many flags.
pub fn locals_with(
    alloc: Global,
    body: &Body,
    flag_ty: TyId,
    flags: usize,
) -> Result<List<TyId>, NoMemory>
    ensures { IfOk result (λ locals. locals ≡ body.now.locals ++ replicate flags flag_ty) }
{
    let mut locals = List::from_vec(Vec::with_capacity(alloc, body.locals.len())?);
    for ty in body.locals.as_slice() {
        locals.push(*ty)?;
    }
    for _n in 0..flags {
        locals.push(flag_ty)?;
    }
    Ok(locals)
}
