//! What patterns bind.
ghost use Rattle.std.specs.Prelude.{◌≡◌, [], reverse, IfErr, OnOk};
ghost use Rattle.mir_base.specs.declared.rule.RuleError.{RuleError};
ghost use Rattle.typeck_patterns.specs.PatternContext.{pattern_context_of};
ghost use Rattle.typeck_checker.specs.Scopes.{OnlyPlace};
ghost use Rattle.src_ast.specs.Seen.{syn_of};
ghost use Rattle.typeck_checker.specs.Stand.{GivesValue, KeepsStack, env, stack, state, top};
ghost use Rattle.typing_rules.specs.Patterns as patterns;
ghost use Rattle.typing_rules.specs.Scope.{in_guard, with_variables};

use crate::{PatternContext, pattern};
use mir_base::RuleError;
use mir_ty::TyId;
use src_tree::SyntaxNode;
use typeck_checker::{Checker, enter_all};
use typeck_env::Variables;

/// The pattern of a place of a type; answers its bindings, the youngest first.
pub fn bindings(
    checker: &mut Checker,
    e: PatternContext,
    ty: TyId,
    node: &SyntaxNode,
) -> Result<Variables, RuleError>
    ensures gives { GivesValue (λ bound. (top (stack checker.new), reverse bound))
        (patterns.pattern (env checker.old) (pattern_context_of e) ty (syn_of node.now) [] (state checker.old)) result checker.new }
    ensures kept { KeepsStack (stack checker.old) checker.old result checker.new }
{
    let mut bound = Variables::new(checker.alloc);
    pattern(checker, &mut bound, e, ty, node)?;
    Ok(bound)
}

/// The bindings of a pattern come into scope.
#[tactic(auto, using(crate::proofs::Entered::plain_same))]
pub fn enter_bound(checker: &mut Checker, bound: &Variables) -> Result<(), RuleError>
    ensures entered { OnOk result (env checker.new ≡ with_variables (reverse bound.now) (env checker.old)) }
    ensures others { OnlyPlace checker.old checker.new }
    ensures short { IfErr result (λ e. e ≡ RuleError.Memory) }
{
    enter_all(checker, bound, false)
}

/// The bindings of a pattern come into scope inside the guard of their arm.
#[tactic(auto, using(crate::proofs::Entered::guarded_same))]
pub fn enter_guard(checker: &mut Checker, bound: &Variables) -> Result<(), RuleError>
    ensures entered { OnOk result (env checker.new ≡ with_variables (in_guard (reverse bound.now)) (env checker.old)) }
    ensures others { OnlyPlace checker.old checker.new }
    ensures short { IfErr result (λ e. e ≡ RuleError.Memory) }
{
    enter_all(checker, bound, true)
}
