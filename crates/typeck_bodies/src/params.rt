//! The parameters of a function, a method or a closure.
ghost use Rattle.std.specs.Prelude.{◌≡◌, reverse};
ghost use Rattle.src_ast.specs.Seen.{nodes_of, syn_of};
ghost use Rattle.typeck_checker.specs.Stand.{KeepsStack, env, stack, state};
ghost use Rattle.typing_rules.specs.Bodies as bodies;
ghost use Rattle.typeck_bodies.specs.ParamAnswers.{GivesParam, GivesParams, KeepsBelow};
ghost use Rattle.typeck_bodies.specs.ParamForms.{type_by};

use crate::name_params::self_param;
use crate::patterns::typed_param;
use mir_base::{List, Rule, RuleError};
use mir_ty::TyId;
use src_ast::{Nodes, ParamForm, param_form};
use src_tree::SyntaxNode;
use typeck_checker::Checker;
use typeck_env::Variables;
use typeck_heads::{broken_rule, push_to};

/// A parameter: its pattern is the last node, its type is answered, and its bindings are noted behind those in `bound`.
/// `may_refer` is for the parameters of functions and methods, whose types may be references.
///
/// # Errors
///
/// The first rule that it breaks, T08 where a reference has a pattern that is neither a name nor `_`, with its place;
/// [`RuleError::Memory`] where memory is wanted.
pub fn param(
    checker: &mut Checker,
    bound: &mut Variables,
    may_refer: bool,
    node: &SyntaxNode,
) -> Result<TyId, RuleError>
    ensures gives { GivesParam (bodies.param (env checker.old) (type_by (env checker.old) may_refer) (syn_of node.now) (reverse bound.old) (state checker.old)) result bound.new checker.new }
    ensures kept { KeepsStack (stack checker.old) checker.old result checker.new }
{
    let at = node.at;
    match param_form(node) {
        ParamForm::Pattern { pattern, ty } => {
            typed_param(checker, bound, at, may_refer, pattern, ty)
        }
        ParamForm::SelfValue(receiver) => self_param(checker, bound, at, receiver),
        ParamForm::Other => Err(broken_rule(Rule::T20, at)),
    }
}

/// Parameters in their order: their patterns are the last nodes, their types are answered, and their bindings are noted
/// behind those in `bound`.
///
/// # Errors
///
/// As [`param`], at the first parameter that breaks a rule.
pub fn params_of(
    checker: &mut Checker,
    bound: &mut Variables,
    may_refer: bool,
    params: Nodes,
) -> Result<List<TyId>, RuleError>
    ensures gives { GivesParams (bodies.params_of (env checker.old) (type_by (env checker.old) may_refer) (nodes_of params.entry) (reverse bound.old) (state checker.old)) result bound.new checker.new }
    ensures kept { KeepsBelow (stack checker.old) checker.old result checker.new }
{
    let mut tys = List::new(checker.alloc);
    let mut rest = params;
    while let Some(split) = rest.split_first() {
        let ty = param(checker, bound, may_refer, split.first)?;
        push_to(&mut tys, ty)?;
        rest = split.rest;
    }
    Ok(tys)
}
