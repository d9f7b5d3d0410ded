//! The function `main` (The Rust Reference, "Main Functions"): it has no parameters, and its result is `()`.
ghost use Rattle.std.specs.Prelude.{◌≡◌, ◌&&◌, ◌||◌, ◌==◌, codes, not, option_and_then, slice_get};
ghost use Rattle.src_ast.specs.Seen.{nodes_of};
ghost use Rattle.typeck_checker.specs.Stand.{GivesValue, state};
ghost use Rattle.typing_rules.specs.Program as rules;
ghost use Rattle.typing_rules.specs.Scope as scope;
ghost use Rattle.well_typed.specs.Types as types;

use crate::counts::are_none;
use crate::head_of;
use mir_base::{Pos, Rule, RuleError};
use mir_ty::{Items, Sig};
use src_ast::Nodes;
use typeck_checker::Checker;
use typeck_env::is_unit;
use typeck_heads::obeys;

fn is_bare(items: &Items, params: Nodes, sig: &Sig) -> bool
    ensures { result ≡ ((rules.count_of (nodes_of params.entry) == 0) && types.is_unit items.now sig.now.result) }
{
    are_none(params) && is_unit(items, sig.result)
}

/// Whether a function is not `main`, or has the head of `main`.
fn is_main_head(items: &Items, name: &str, params: Nodes, sig: &Sig) -> bool
    ensures { result ≡ rules.is_main_head name.now (nodes_of params.entry) sig.now items.now }
{
    name != "main" || is_bare(items, params, sig)
}

/// A function that is called `main` has its head.
///
/// # Errors
///
/// T03 at the place of the function.
pub fn main_rule(checker: &Checker, at: Pos, name: &str, params: Nodes) -> Result<(), RuleError>
    ensures { GivesValue (λ u. u) (rules.main_rule at name.now (nodes_of params.entry) checker.now.walk.items (option_and_then (slice_get checker.now.walk.items.bodies) (scope.body_named checker.now.walk.items name.now)) (state checker.now)) result checker.now }
{
    match head_of(checker, name) {
        Some(sig) => obeys(
            Rule::T03,
            at,
            is_main_head(&checker.walk.items, name, params, sig),
        ),
        None => Ok(()),
    }
}
