//! Patterns that are a path alone: a unit struct, a variant without parts, or a binding (The Rust Reference,
//! "Identifier patterns", "Path patterns").
ghost use Rattle.typeck_patterns.specs.NodeEnds.{partless_node, target_begun};
ghost use Rattle.std.specs.Prelude.{◌≡◌, reverse, None, Some};
ghost use Rattle.src_ast.specs.ItemForms.{kind_seen};
ghost use Rattle.src_ast.specs.Seen.{word_of};
ghost use Rattle.typeck_env.specs.Walked.{node_no};
ghost use Rattle.typing_rules.specs.Patterns as rules;
ghost use Rattle.typeck_patterns.specs.PatternContext.{GivesAnyhow, GivesBound, pattern_context_of};
ghost use Rattle.typeck_patterns.specs.Targets.{target_of as target_in};
ghost use Rattle.typeck_checker.specs.Stand.{Gives, GivesValue, KeepsStack, ChangesNothing, env, stack, state};

use crate::fields::target_end;
use crate::leaves::bind;
use crate::pattern_context::PatternContext;
use crate::targets::{PatternTarget, target_of};
use mir_base::{List, NodeId, Pos, Rule, RuleError};
use mir_ty::{Ty, TyId};
use src_ast::FieldKind;
use typeck_checker::{Checker, adt_at_head, adt_named, kind_at};
use typeck_env::{Variables, is_enum};
use typeck_heads::{broken_rule, obeys};

/// The pattern of a struct or a variant gets its number; its place is of that struct or enum.
pub fn target_begin(
    checker: &mut Checker,
    at: Pos,
    ty: TyId,
    target: PatternTarget,
) -> Result<NodeId, RuleError>
    ensures gives { GivesValue node_no (target_begun at ty (target_in target) (state checker.old)) result checker.new }
    ensures same { ChangesNothing checker.old checker.new }
{
    let id = checker.number()?;
    let own = checker.intern(Ty::Adt(target.adt))?;
    obeys(Rule::T03, at, ty.0 == own.0)?;
    Ok(id)
}

fn unit_node(
    checker: &mut Checker,
    at: Pos,
    takes_all: bool,
    ty: TyId,
    target: PatternTarget,
    is_whole: bool,
) -> Result<(), RuleError>
    ensures gives { Gives (partless_node at takes_all ty (target_in target) is_whole (state checker.old)) result checker.new }
    ensures kept { KeepsStack (stack checker.old) checker.old result checker.new }
{
    let id = target_begin(checker, at, ty, target)?;
    let given = List::new(checker.alloc);
    target_end(
        checker, id, at, takes_all, ty, target, given, is_whole, true,
    )
}

/// The pattern of a struct or a variant without parts; `is_whole` where it may have none.
fn unit_target(
    checker: &mut Checker,
    at: Pos,
    e: PatternContext,
    ty: TyId,
    target: PatternTarget,
    is_whole: bool,
) -> Result<(), RuleError>
    ensures gives { GivesAnyhow (λ earlier. rules.of_target at (pattern_context_of e) ty (target_in target) (rules.no_parts earlier is_whole) (state checker.old)) result checker.new }
    ensures kept { KeepsStack (stack checker.old) checker.old result checker.new }
{
    unit_node(checker, at, e.takes_all, ty, target, is_whole)
}

fn is_unit_kind(kind: FieldKind) -> bool
    ensures { result ≡ rules.is_unit_kind (kind_seen kind) }
{
    match kind {
        FieldKind::Unit => true,
        _ => false,
    }
}

fn lone_struct(
    checker: &mut Checker,
    at: Pos,
    e: PatternContext,
    ty: TyId,
    adt: u32,
) -> Result<(), RuleError>
    ensures gives { GivesAnyhow (λ earlier. rules.lone_struct (env checker.old) at (pattern_context_of e) ty adt earlier (state checker.old)) result checker.new }
    ensures kept { KeepsStack (stack checker.old) checker.old result checker.new }
{
    if is_unit_kind(kind_at(checker, adt, 0)) {
        unit_target(checker, at, e, ty, PatternTarget { adt, variant: 0 }, true)
    } else {
        Err(broken_rule(Rule::T18, at))
    }
}

/// A lone name: the pattern of a unit struct, or a binding. A struct with fields has no such pattern.
pub fn lone_name(
    checker: &mut Checker,
    bound: &mut Variables,
    at: Pos,
    e: PatternContext,
    ty: TyId,
    name: &str,
) -> Result<(), RuleError>
    ensures gives { GivesBound (rules.lone_name (env checker.old) at (pattern_context_of e) ty name.now (reverse bound.old) (state checker.old)) result bound.new checker.new }
    ensures kept { KeepsStack (stack checker.old) checker.old result checker.new }
{
    match adt_named(checker, name) {
        Some(adt) => {
            if is_enum(&checker.walk.items, adt) {
                bind(checker, bound, at, e, ty, name)
            } else {
                lone_struct(checker, at, e, ty, adt)
            }
        }
        None => bind(checker, bound, at, e, ty, name),
    }
}

fn self_alone(
    checker: &mut Checker,
    at: Pos,
    e: PatternContext,
    ty: TyId,
    first: Option<&str>,
) -> Result<(), RuleError>
    ensures gives { GivesAnyhow (λ earlier. rules.path_alone (env checker.old) at (pattern_context_of e) ty (word_of first.entry) None earlier (state checker.old)) result checker.new }
    ensures kept { KeepsStack (stack checker.old) checker.old result checker.new }
{
    let Some(adt) = adt_at_head(checker, None) else {
        return Err(broken_rule(Rule::T01, at));
    };
    let is_struct = !is_enum(&checker.walk.items, adt);
    obeys(Rule::T01, at, is_struct)?;
    lone_struct(checker, at, e, ty, adt)
}

fn variant_alone(
    checker: &mut Checker,
    at: Pos,
    e: PatternContext,
    ty: TyId,
    first: Option<&str>,
    second: &str,
) -> Result<(), RuleError>
    ensures gives { GivesAnyhow (λ earlier. rules.path_alone (env checker.old) at (pattern_context_of e) ty (word_of first.entry) (Some second.now) earlier (state checker.old)) result checker.new }
    ensures kept { KeepsStack (stack checker.old) checker.old result checker.new }
{
    let Some(target) = target_of(checker, first, Some(second)) else {
        return Err(broken_rule(Rule::T01, at));
    };
    let is_whole = is_unit_kind(kind_at(checker, target.adt, target.variant));
    unit_target(checker, at, e, ty, target, is_whole)
}

/// A path alone: `Self` as the pattern of a unit struct, or a variant without parts.
pub fn path_alone(
    checker: &mut Checker,
    at: Pos,
    e: PatternContext,
    ty: TyId,
    first: Option<&str>,
    second: Option<&str>,
) -> Result<(), RuleError>
    ensures gives { GivesAnyhow (λ earlier. rules.path_alone (env checker.old) at (pattern_context_of e) ty (word_of first.entry) (word_of second.entry) earlier (state checker.old)) result checker.new }
    ensures kept { KeepsStack (stack checker.old) checker.old result checker.new }
{
    match second {
        Some(name) => variant_alone(checker, at, e, ty, first, name),
        None => self_alone(checker, at, e, ty, first),
    }
}
