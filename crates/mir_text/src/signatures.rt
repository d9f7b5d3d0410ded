//! The signatures of bodies, as their locals tell them.
ghost use Rattle.std.specs.Prelude.{◌≡◌, ◌<◌, IfOk, take, drop, length};
ghost use Rattle.mir_ty.specs.AreItems.{AreTypes};
ghost use Rattle.listing_parts.specs.Table.{AreRead, Grow};
ghost use Rattle.mir_text.specs.BodiesRead.{FindsSig, IsResultOf};

use cfg_graph::Body;
use listing_parts::{Heads, give_number};
use mir_base::{List, Name, NoMemory};
use mir_ty::{Items, Sig, Ty, TyId};
use std::alloc::Global;

/// The types of so many parameters: those of the locals behind the first, as far as there are any.
fn param_types(alloc: Global, locals: &[TyId], count: u32) -> Result<List<TyId>, NoMemory>
    ensures { IfOk result (λ params. params ≡ take count (drop 1 locals.now)) }
{
    if locals.is_empty() {
        return Ok(List::new(alloc));
    }
    let behind = &locals[1..];
    let count = behind.len().min(count as usize);
    Ok(List::from_vec(Vec::from_slice(alloc, &behind[..count])?))
}

/// The type of the result: that of the first local, and `()` where there is none.
fn result_type(heads: &Heads, items: &mut Items, locals: &[TyId]) -> Result<TyId, NoMemory>
    requires read { AreRead heads.now items.old.types }
    requires within { AreTypes items.old.types locals.now }
    ensures result_of { IfOk result (λ id. IsResultOf items.new locals.now id) }
    ensures there { IfOk result (λ id. id.0 < length items.new.types) }
    ensures grow { Grow heads.now items.old items.new }
{
    match locals.get(0) {
        Some(id) => Ok(*id),
        None => give_number(heads, items, Ty::Unit),
    }
}

/// The signature of a body of this name.
pub fn signature(
    alloc: Global,
    heads: &Heads,
    items: &mut Items,
    name: &str,
    body: &Body,
) -> Result<Sig, NoMemory>
    requires read { AreRead heads.now items.old.types }
    requires within { AreTypes items.old.types body.now.locals }
    ensures { FindsSig heads.now items.old items.new name.now body.now result }
{
    let locals = body.locals.as_slice();
    match result_type(heads, items, locals) {
        Ok(result) => {
            let params = param_types(alloc, locals, body.params)?;
            Ok(Sig {
                name: Name::from_str(alloc, name)?,
                params,
                result,
            })
        }
        Err(NoMemory) => Err(NoMemory),
    }
}
