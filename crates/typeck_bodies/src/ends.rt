//! How a body ends behind its block.
ghost use Rattle.std.specs.Prelude.{OnOk};
ghost use Rattle.typeck_checker.specs.Stand.{GivesValue, stack, state};
ghost use Rattle.typeck_bodies.specs.Heads.{Returns, ended};

use crate::saved_scope::put_back;
use crate::scopes::BodyHead;
use crate::{end_body, take_body};
use mir_base::RuleError;
use typeck_checker::Checker;

/// The body whose block is the last node: its nodes are numbered in text order, it stands behind the bodies that were
/// whole before it and before those of the closures in it, and the walk goes on where it stood before the body.
///
/// # Errors
///
/// The rule of its head at the place of the body where it has more than 2,048 nodes; [`RuleError::Memory`] where memory is
/// wanted.
pub fn body_end(checker: &mut Checker, head: BodyHead) -> Result<(), RuleError>
    ensures gives { GivesValue (λ u. u) (ended head (stack checker.old) (state checker.old)) result checker.new }
    ensures kept { OnOk result (Returns head checker.old checker.new) }
{
    let BodyHead {
        too_many,
        at,
        number,
        params,
        answer,
        outer,
        aside,
    } = head;
    let body = take_body(checker, too_many, at, number, &params, answer)?;
    end_body(checker, outer, body)?;
    put_back(checker, aside);
    Ok(())
}
