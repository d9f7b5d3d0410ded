//! The types of what a closure captures.
ghost use Rattle.std.specs.Prelude.{◌≡◌, reverse, IfErr, IfOk};
ghost use Rattle.mir_base.specs.declared.rule.RuleError.{RuleError};
ghost use Rattle.typing_rules.specs.Bodies as bodies;

use mir_base::{List, RuleError};
use mir_ty::TyId;
use std::alloc::Global;
use typeck_env::Variables;
use typeck_heads::push_to;

/// The types of the parts of a closure's value: those of the captures in `bound`, the oldest first.
///
/// # Errors
///
/// [`RuleError::Memory`] alone, where memory is wanted.
pub fn capture_types(alloc: Global, bound: &Variables) -> Result<List<TyId>, RuleError>
    ensures types { IfOk result (λ tys. tys ≡ bodies.types_of (reverse bound.now)) }
    ensures short { IfErr result (λ e. e ≡ RuleError.Memory) }
{
    let mut tys = List::new(alloc);
    for n in 0..bound.len() {
        let Some(variable) = bound.at(n) else {
            unreachable!();
        };
        push_to(&mut tys, variable.ty)?;
    }
    Ok(tys)
}
