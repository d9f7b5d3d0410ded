//! Statements (The Rust Reference, "Statements").
ghost use Rattle.std.specs.Prelude.{◌≡◌};
ghost use Rattle.typeck_checker.specs.Stand.{GivesValue, KeepsStack, below, env, stack, state, top};
ghost use Rattle.typing_rules.specs.Rows.{evaluate_end};

use mir_base::{NodeId, Pos, Rule, RuleError};
use mir_ty::UNIT;
use typeck_checker::{Checker, One};
use typeck_env::{is_never, is_unit};
use typeck_heads::obeys;

/// An expression as a statement: without `;` it is `()` or `!`. Answers whether it has the type `!`.
pub fn evaluate_end(
    checker: &mut Checker,
    id: NodeId,
    at: Pos,
    has_semicolon: bool,
) -> Result<bool, RuleError>
    ensures gives { GivesValue (λ ends. (top (stack checker.new), ends, env checker.old))
        (evaluate_end (env checker.old) id.0 at has_semicolon (top (stack checker.old)) (state checker.old)) result checker.new }
    ensures kept { KeepsStack (below (stack checker.old)) checker.old result checker.new }
{
    let ty = checker.last_ty();
    let ends = is_never(&checker.walk.items, ty);
    let is_whole = has_semicolon || is_unit(&checker.walk.items, ty) || ends;
    obeys(Rule::T03, checker.last_at(), is_whole)?;
    checker.wrap_one(id, at, UNIT, One::Evaluate)?;
    Ok(ends)
}
