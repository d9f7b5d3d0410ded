use mir_base::Key;
use mir_ty::TyId;

/// A local of a body: the key by which the typed tree names it, and the type of what stands in it.
#[derive(Clone, Copy)]
pub struct Local {
    pub key: Key,
    pub ty: TyId,
}
