//! Where an expression stands.
ghost use Rattle.typeck_checker.specs.BodyScope.{HasGuards};

use mir_base::{Key, List};
use mir_ty::TyId;
use typeck_env::{LoopAround, Variables};

/// Where an expression stands: the struct or enum that `Self` is, the variables and loops around it, and the type of
/// the body's result.
pub struct BodyScope {
    pub self_adt: Option<u32>,
    pub variables: Variables,
    /// The innermost is the last.
    pub loops: List<LoopAround>,
    /// The keys of the bindings in whose own guard the expression stands, the youngest last.
    pub guards: List<Key>,
    pub answer: TyId,
    ghost guarded: { HasGuards variables guards },
}

/// As a derived one; but written here, it is proved here, and not again in each crate in which such a value ends.
impl Drop for BodyScope {
    fn drop(self) {
        let BodyScope {
            self_adt: _,
            variables,
            loops,
            guards,
            answer: _,
        } = self;
        drop(variables);
        drop(loops);
        drop(guards);
    }
}
