//! `let` (The Rust Reference, "let statements").
ghost use Rattle.std.specs.Prelude.{◌≡◌, ◌∷◌, ◌||◌, not, false, true, reverse, IfErr, OnOk, Some};
ghost use Rattle.mir_base.specs.declared.rule.RuleError.{RuleError};
ghost use Rattle.typeck_patterns.specs.PatternContext.{pattern_context_of};
ghost use Rattle.src_ast.specs.Seen.{syn_of};
ghost use Rattle.typeck_checker.specs.Stand.{Gives, GivesValue, KeepsStack, below, env, node_if_any, stack, state, top};
ghost use Rattle.typed_tree.specs.Tree as tree;
ghost use Rattle.typed_tree.specs.Tree.{present};
ghost use Rattle.typing_rules.specs.Places.{a_node_of, unit};
ghost use Rattle.typing_rules.specs.Rows as rows;
ghost use Rattle.typing_rules.specs.Scope as scope;
ghost use Rattle.typing_rules.specs.Scope.{with_variables};
ghost use Rattle.typing_rules.specs.Typed as typed;
ghost use Rattle.well_typed.specs.Places.{ty_of};
ghost use Rattle.well_typed.specs.Types.{is_same};
ghost use Rattle.well_typed.specs.Types as types;
ghost use Rattle.typeck_patterns.specs.LetAnswers.{KeepsTables, below_value, value_if};

use crate::PatternContext;
use crate::bound_names::{bindings, enter_bound};
use crate::scrutinees::pattern_context_of_last;
use mir_base::{NodeId, Pos, Rule, RuleError};
use mir_ty::{TyId, UNIT};
use src_ast::{PatternForm, pattern_form};
use src_tree::SyntaxNode;
use typeck_checker::{Checker, One, TwoParts, adt_named};
use typeck_env::{Fit, Variables, how_it_fits, is_enum, is_never, is_place};
use typeck_heads::{broken_rule, obeys};
use typed_tree::Node as TypedNode;

fn names_struct(checker: &Checker, name: &str) -> bool
    ensures { result ≡ typed.names_struct checker.now.walk.items (scope.adt_named checker.now.walk.items name.now) }
{
    match adt_named(checker, name) {
        Some(adt) => !is_enum(&checker.walk.items, adt),
        None => false,
    }
}

/// Whether a pattern is one name that binds, in parentheses or not; a lone name of a struct is none.
#[tactic(auto, using(crate::proofs::OneName::name_seen))]
pub fn is_one_name(checker: &Checker, node: &SyntaxNode) -> bool
    ensures { result ≡ typed.is_one_name checker.now.walk.items (syn_of node.now) }
{
    match pattern_form(node) {
        PatternForm::Bind(name) => !names_struct(checker, name),
        PatternForm::Parens(inside) => is_one_name(checker, inside),
        _ => false,
    }
}

/// Whether a pattern is `_`, in parentheses or not.
#[tactic(auto, using(crate::proofs::OneName::any_seen))]
pub fn takes_any(node: &SyntaxNode) -> bool
    ensures { result ≡ typed.takes_any (syn_of node.now) }
{
    match pattern_form(node) {
        PatternForm::Wild => true,
        PatternForm::Parens(inside) => takes_any(inside),
        _ => false,
    }
}

/// Whether the last node may be taken apart as a value of the type `expected`: a place of type `!` has no parts, so its
/// pattern is `_` there.
fn has_parts(checker: &Checker, takes_any: bool, expected: TyId) -> bool
    ensures { result ≡ (takes_any || (is_same (ty_of (top (stack checker.now))) expected || not (types.is_never checker.now.walk.items (ty_of (top (stack checker.now)))))) }
{
    let ty = checker.last_ty();
    takes_any || (ty == expected || !is_never(&checker.walk.items, ty))
}

fn place_of(checker: &mut Checker, takes_any: bool, expected: TyId) -> Result<(), RuleError>
    ensures gives { Gives (rows.place_for_parts (env checker.old) takes_any (Some expected) (top (stack checker.old)) (state checker.old)) result checker.new }
    ensures kept { KeepsStack (below (stack checker.old)) checker.old result checker.new }
{
    let has_parts = has_parts(checker, takes_any, expected);
    obeys(Rule::T03, checker.last_at(), has_parts)?;
    match how_it_fits(
        &checker.tables.pairs,
        &checker.walk.items,
        expected,
        checker.last_ty(),
    ) {
        Fit::Fits => checker.no_reference(),
        Fit::Coerced(_) => checker.use_value(Some(expected)),
        Fit::Differs => checker.use_value(Some(expected)),
    }
}

/// The last node, a place that is the initialiser of another pattern than one name: it is taken apart where it stands,
/// unless it is coerced; `takes_any` where the pattern is `_`.
pub fn place_for_parts(
    checker: &mut Checker,
    takes_any: bool,
    expected: Option<TyId>,
) -> Result<(), RuleError>
    ensures gives { Gives (rows.place_for_parts (env checker.old) takes_any expected (top (stack checker.old)) (state checker.old)) result checker.new }
    ensures kept { KeepsStack (below (stack checker.old)) checker.old result checker.new }
{
    match expected {
        Some(expected) => place_of(checker, takes_any, expected),
        None => checker.no_reference(),
    }
}

#[tactic(auto, using(crate::proofs::OneName::unused_same))]
fn is_unused(node: Option<&TypedNode>) -> bool
    ensures { result ≡ rows.is_unused_place (node_if_any node.entry) }
{
    match node {
        Some(node) => is_place(&node.form) && node.by.is_none(),
        None => false,
    }
}

/// Whether the initialiser, the last node but one, ends its block: it is of the type `!`, and no place that is not used.
fn ends(checker: &Checker) -> bool
    ensures { result ≡ rows.ends_by checker.now.walk.items (present (top (below (stack checker.now)))) }
{
    is_never(&checker.walk.items, checker.second_ty()) && !is_unused(checker.second())
}

fn put_let(checker: &mut Checker, id: NodeId, at: Pos, bound: &Variables) -> Result<(), RuleError>
    ensures made { OnOk result (stack checker.new ≡
        a_node_of id.0 at unit (tree.Let (top (stack checker.old)) (present (top (below (stack checker.old))))) ∷ below (below (stack checker.old))) }
    ensures state { OnOk result (state checker.new ≡ state checker.old) }
    ensures place { OnOk result (env checker.new ≡ with_variables (reverse bound.now) (env checker.old)) }
    ensures tables { OnOk result (checker.new.tables ≡ checker.old.tables) }
    ensures short { IfErr result (λ e. e ≡ RuleError.Memory) }
{
    checker.wrap_two(id, at, UNIT, TwoParts::Let)?;
    enter_bound(checker, bound)
}

fn put_let_alone(
    checker: &mut Checker,
    id: NodeId,
    at: Pos,
    bound: &Variables,
) -> Result<(), RuleError>
    ensures made { OnOk result (stack checker.new ≡ a_node_of id.0 at unit (tree.Let (top (stack checker.old)) tree.absent) ∷ below (stack checker.old)) }
    ensures state { OnOk result (state checker.new ≡ state checker.old) }
    ensures place { OnOk result (env checker.new ≡ with_variables (reverse bound.now) (env checker.old)) }
    ensures tables { OnOk result (checker.new.tables ≡ checker.old.tables) }
    ensures short { IfErr result (λ e. e ≡ RuleError.Memory) }
{
    checker.wrap_one(id, at, UNIT, One::Let)?;
    enter_bound(checker, bound)
}

fn let_typed_end(
    checker: &mut Checker,
    id: NodeId,
    at: Pos,
    e: PatternContext,
    ty: TyId,
    pattern: &SyntaxNode,
) -> Result<bool, RuleError>
    ensures gives { GivesValue (λ ends. (top (stack checker.new), ends, env checker.new))
        (rows.let_of_type id.0 at (pattern_context_of e) ty (present (top (stack checker.old))) (typed.matcher (env checker.old) (syn_of pattern.now)) (λ xs. with_variables xs (env checker.old)) (state checker.old)) result checker.new }
    ensures kept { KeepsTables (below (stack checker.old)) checker.old result checker.new }
{
    let bound = bindings(checker, e, ty, pattern)?;
    let ends = ends(checker);
    put_let(checker, id, at, &bound)?;
    Ok(ends)
}

fn let_untyped_end(
    checker: &mut Checker,
    id: NodeId,
    at: Pos,
    ty: TyId,
    pattern: &SyntaxNode,
) -> Result<bool, RuleError>
    ensures gives { GivesValue (λ ends. (top (stack checker.new), ends, env checker.new))
        (rows.let_of_type id.0 at (record { is_fixed = false; takes_all = true }) ty tree.absent (typed.matcher (env checker.old) (syn_of pattern.now)) (λ xs. with_variables xs (env checker.old)) (state checker.old)) result checker.new }
    ensures kept { KeepsTables (stack checker.old) checker.old result checker.new }
{
    let e = PatternContext {
        is_fixed: false,
        takes_all: true,
    };
    let bound = bindings(checker, e, ty, pattern)?;
    put_let_alone(checker, id, at, &bound)?;
    Ok(false)
}

/// What the pattern of a `let` is told: one name takes the whole value.
fn pattern_context_of_value(checker: &Checker, is_one_name: bool) -> PatternContext
    ensures { pattern_context_of result ≡ rows.of_value (env checker.now) is_one_name (present (top (stack checker.now))) checker.now.walk.items }
{
    if is_one_name {
        PatternContext {
            is_fixed: false,
            takes_all: true,
        }
    } else {
        pattern_context_of_last(checker, true)
    }
}

/// The type of what a `let` of a written type matches: a place that is taken apart, the last node, stands as it is.
fn matched_ty(checker: &Checker, ty: TyId) -> TyId
    ensures { result ≡ rows.matched_ty ty (top (stack checker.now)) }
{
    if is_unused(checker.last()) {
        checker.last_ty()
    } else {
        ty
    }
}

fn let_value_end(
    checker: &mut Checker,
    id: NodeId,
    at: Pos,
    is_one_name: bool,
    declared: Option<TyId>,
    pattern: &SyntaxNode,
) -> Result<bool, RuleError>
    ensures gives { GivesValue (λ ends. (top (stack checker.new), ends, env checker.new))
        (rows.let_end id.0 at (env checker.old) is_one_name declared (present (top (stack checker.old))) (typed.matcher (env checker.old) (syn_of pattern.now)) (λ xs. with_variables xs (env checker.old)) (state checker.old)) result checker.new }
    ensures kept { KeepsTables (below (stack checker.old)) checker.old result checker.new }
{
    let e = pattern_context_of_value(checker, is_one_name);
    match declared {
        Some(ty) => let_typed_end(checker, id, at, e, matched_ty(checker, ty), pattern),
        None => let_typed_end(checker, id, at, e, checker.last_ty(), pattern),
    }
}

/// A `let`, whose initialiser, if it has one, is the last node. Its bindings come into scope. Answers whether it ends
/// its block.
#[tactic(auto, using(crate::proofs::OneName::untyped_same))]
pub fn let_end(
    checker: &mut Checker,
    id: NodeId,
    at: Pos,
    is_one_name: bool,
    declared: Option<TyId>,
    has_value: bool,
    pattern: &SyntaxNode,
) -> Result<bool, RuleError>
    ensures gives { GivesValue (λ ends. (top (stack checker.new), ends, env checker.new))
        (rows.let_end id.0 at (env checker.old) is_one_name declared (value_if has_value (stack checker.old)) (typed.matcher (env checker.old) (syn_of pattern.now)) (λ xs. with_variables xs (env checker.old)) (state checker.old)) result checker.new }
    ensures kept { KeepsTables (below_value has_value (stack checker.old)) checker.old result checker.new }
{
    if has_value {
        return let_value_end(checker, id, at, is_one_name, declared, pattern);
    }
    match declared {
        Some(ty) => let_untyped_end(checker, id, at, ty, pattern),
        None => Err(broken_rule(Rule::T16, at)),
    }
}
