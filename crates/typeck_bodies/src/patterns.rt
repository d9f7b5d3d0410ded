//! Parameters that are patterns (The Rust Reference, "Function parameters").
ghost use Rattle.std.specs.Prelude.{◌≡◌, ◌||◌, not, reverse, OnOk};
ghost use Rattle.src_ast.specs.Seen.{syn_of};
ghost use Rattle.typeck_checker.specs.Stand.{GivesValue, KeepsStack, ChangesNothing, env, stack, state};
ghost use Rattle.typing_rules.specs.Bodies as bodies;
ghost use Rattle.well_typed.specs.Types as types;
ghost use Rattle.typeck_bodies.specs.ParamAnswers.{GivesParam};
ghost use Rattle.typeck_bodies.specs.ParamForms.{type_by};
ghost use Rattle.typing_rules.specs.Bodies.{part_param_end, pattern_param_end};
ghost use Rattle.typing_rules.specs.Check.{and_then};

use mir_base::{Pos, Rule, RuleError};
use mir_ty::{Items, TyId};
use src_ast::{PatternForm, pattern_form};
use src_tree::SyntaxNode;
use typeck_checker::{Checker, resolve_param_type, resolve_type};
use typeck_env::{Variables, is_reference};
use typeck_heads::obeys;
use typeck_patterns::{PatternContext, pattern as check_pattern};

/// Whether a pattern is one name or `_`, in parentheses or not.
#[tactic(auto, using(crate::proofs::ParamShapes::plain_seen))]
fn is_name_or_wildcard(node: &SyntaxNode) -> bool
    ensures { result ≡ bodies.is_name_or_wildcard (syn_of node.now) }
{
    match pattern_form(node) {
        PatternForm::Wild => true,
        PatternForm::Bind(_) => true,
        PatternForm::Parens(inside) => is_name_or_wildcard(inside),
        _ => false,
    }
}

/// Whether a parameter of a type may have a pattern: a reference has a name or `_`.
fn may_have(items: &Items, ty: TyId, pattern: &SyntaxNode) -> bool
    ensures { result ≡ (bodies.is_name_or_wildcard (syn_of pattern.now) || not (types.is_reference items.now ty)) }
{
    is_name_or_wildcard(pattern) || !is_reference(items, ty)
}

fn part_param(
    checker: &mut Checker,
    bound: &mut Variables,
    ty: TyId,
    pattern: &SyntaxNode,
) -> Result<TyId, RuleError>
    ensures gives { GivesParam (part_param_end (env checker.old) ty (syn_of pattern.now) (reverse bound.old) (state checker.old)) result bound.new checker.new }
    ensures kept { KeepsStack (stack checker.old) checker.old result checker.new }
{
    let e = PatternContext {
        is_fixed: false,
        takes_all: true,
    };
    check_pattern(checker, bound, e, ty, pattern)?;
    Ok(ty)
}

fn pattern_param(
    checker: &mut Checker,
    bound: &mut Variables,
    at: Pos,
    ty: TyId,
    pattern: &SyntaxNode,
) -> Result<TyId, RuleError>
    ensures gives { GivesParam (pattern_param_end (env checker.old) at ty (syn_of pattern.now) (reverse bound.old) (state checker.old)) result bound.new checker.new }
    ensures kept { KeepsStack (stack checker.old) checker.old result checker.new }
{
    let may = may_have(&checker.walk.items, ty, pattern);
    obeys(Rule::T08, at, may)?;
    part_param(checker, bound, ty, pattern)
}

/// The type of a parameter, which may be a reference or not.
fn param_ty(checker: &mut Checker, may_refer: bool, node: &SyntaxNode) -> Result<TyId, RuleError>
    ensures gives { GivesValue (λ ty. ty) (type_by (env checker.old) may_refer (syn_of node.now) (state checker.old)) result checker.new }
    ensures same { OnOk result (ChangesNothing checker.old checker.new) }
{
    if may_refer {
        resolve_param_type(checker, node)
    } else {
        resolve_type(checker, node)
    }
}

/// A pattern with its type: the type comes first, as in a `let`.
pub fn typed_param(
    checker: &mut Checker,
    bound: &mut Variables,
    at: Pos,
    may_refer: bool,
    pattern: &SyntaxNode,
    ty: &SyntaxNode,
) -> Result<TyId, RuleError>
    ensures gives { GivesParam (and_then (type_by (env checker.old) may_refer (syn_of ty.now) (state checker.old)) (λ t. pattern_param_end (env checker.old) at t (syn_of pattern.now) (reverse bound.old))) result bound.new checker.new }
    ensures kept { KeepsStack (stack checker.old) checker.old result checker.new }
{
    let ty = param_ty(checker, may_refer, ty)?;
    pattern_param(checker, bound, at, ty, pattern)
}
