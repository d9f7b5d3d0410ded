//! Loops around an expression that are entered and left.
ghost use Rattle.std.specs.Prelude.{◌≡◌, IfErr, IfOk, OnOk};
ghost use Rattle.mir_base.specs.declared.rule.RuleError.{RuleError};
ghost use Rattle.typeck_env.specs.Scope.{around_of, word_in};
ghost use Rattle.typeck_checker.specs.Stand.{env};
ghost use Rattle.typeck_checker.specs.Scopes.{OnlyPlace, without_loop};
ghost use Rattle.typing_rules.specs.Rows.{loop_around};
ghost use Rattle.typing_rules.specs.Scope.{within_loop};

use crate::Checker;
use mir_base::{Name, NoMemory, NodeId, RuleError};
use mir_ty::TyId;
use std::alloc::Global;
use typeck_env::LoopAround;

fn own_label(alloc: Global, label: Option<&str>) -> Result<Option<Name>, RuleError>
    ensures made { IfOk result (λ name. name ≡ word_in label.entry) }
    ensures short { IfErr result (λ e. e ≡ RuleError.Memory) }
{
    match label {
        Some(label) => match Name::from_str(alloc, label) {
            Ok(name) => Ok(Some(name)),
            Err(NoMemory) => Err(RuleError::Memory),
        },
        None => Ok(None),
    }
}

#[tactic(auto, using(crate::proofs::Innermost::entered))]
fn push_loop(checker: &mut Checker, around: LoopAround) -> Result<(), RuleError>
    ensures entered { OnOk result (env checker.new ≡ within_loop (around_of around) (env checker.old)) }
    ensures others { OnlyPlace checker.old checker.new }
    ensures short { IfErr result (λ e. e ≡ RuleError.Memory) }
{
    match checker.around.loops.push(around) {
        Ok(()) => Ok(()),
        Err(NoMemory) => Err(RuleError::Memory),
    }
}

/// A loop is entered, the innermost from now on.
pub fn enter_loop(
    checker: &mut Checker,
    label: Option<&str>,
    id: NodeId,
    has_value: bool,
    expected: Option<TyId>,
) -> Result<(), RuleError>
    ensures entered { OnOk result (env checker.new ≡ within_loop (loop_around (word_in label.entry) id.0 has_value expected) (env checker.old)) }
    ensures others { OnlyPlace checker.old checker.new }
    ensures short { IfErr result (λ e. e ≡ RuleError.Memory) }
{
    let label = own_label(checker.alloc, label)?;
    push_loop(
        checker,
        LoopAround {
            label,
            id,
            has_value,
            expected,
        },
    )
}

/// The innermost loop is left.
#[tactic(auto, using(crate::proofs::Innermost::left_some, crate::proofs::Innermost::left_none))]
pub fn leave_loop(checker: &mut Checker)
    ensures left { env checker.new ≡ without_loop (env checker.old) }
    ensures others { OnlyPlace checker.old checker.new }
{
    checker.around.loops.pop();
}
