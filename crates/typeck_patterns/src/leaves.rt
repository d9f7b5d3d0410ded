//! Patterns without parts (The Rust Reference, "Literal patterns", "Identifier patterns").
ghost use Rattle.std.specs.Prelude.{◌≡◌, ◌∷◌, ◌&&◌, ◌||◌, is_some, not, IfErr, OnOk, reverse};
ghost use Rattle.mir_base.specs.declared.rule.RuleError.{RuleError};
ghost use Rattle.mir_ty.specs.Facts.{is_copy};
ghost use Rattle.typed_tree.specs.Tree as tree;
ghost use Rattle.typing_rules.specs.Patterns as rules;
ghost use Rattle.typing_rules.specs.Places.{a_node_of, used};
ghost use Rattle.typing_rules.specs.Rows as rows;
ghost use Rattle.typing_rules.specs.Scope.{Local, variable};
ghost use Rattle.well_typed.specs.Types as types;
ghost use Rattle.typeck_patterns.specs.PatternContext.{GivesBound, pattern_context_of};
ghost use Rattle.typeck_checker.specs.Forms.{leaf_form};
ghost use Rattle.typeck_checker.specs.Stand.{Gives, KeepsStack, Stays, stack, state};
ghost use Rattle.typing_rules.specs.Patterns.{kind_end, literal_pattern_end, number_end, sized_end, tested_end, truth_pattern_end};

use crate::pattern_context::PatternContext;
use mir_base::{IntKind, Key, Name, NoMemory, NodeId, Pos, Rule, RuleError};
use mir_ty::TyId;
use typeck_checker::{Checker, Leaf, int, is_signed, literal_value, most};
use typeck_env::{Variable, VariableMeaning, Variables, is_bool, is_dyn, kind_of, taking};
use typeck_heads::{broken_rule, obeys};
use typed_tree::{Form, Use};

/// `_`, which takes nothing of its place.
pub fn wildcard(checker: &mut Checker, at: Pos, ty: TyId) -> Result<(), RuleError>
    ensures gives { Gives (rules.wildcard at ty (state checker.old)) result checker.new }
    ensures kept { KeepsStack (stack checker.old) checker.old result checker.new }
{
    let id = checker.number()?;
    checker.put_leaf(id, at, ty, Leaf::Wildcard)
}

fn check_test(
    checker: &mut Checker,
    id: NodeId,
    at: Pos,
    takes_all: bool,
    ty: TyId,
    leaf: Leaf,
) -> Result<(), RuleError>
    ensures gives { Gives (tested_end id.0 at takes_all ty (leaf_form leaf) (state checker.old)) result checker.new }
    ensures kept { KeepsStack (stack checker.old) checker.old result checker.new }
{
    obeys(Rule::T18, at, !takes_all)?;
    checker.put_leaf(id, at, ty, leaf)?;
    checker.use_last(Use::Test)
}

fn tested_number(
    checker: &mut Checker,
    id: NodeId,
    at: Pos,
    takes_all: bool,
    ty: TyId,
    is_negative: bool,
    value: u64,
) -> Result<(), RuleError>
    ensures gives { Gives (number_end id.0 at takes_all ty is_negative value (state checker.old)) result checker.new }
    ensures kept { KeepsStack (stack checker.old) checker.old result checker.new }
{
    obeys(Rule::T18, at, !takes_all)?;
    let leaf = Leaf::NumberPattern(literal_value(is_negative, value));
    checker.put_leaf(id, at, ty, leaf)?;
    checker.use_last(Use::Test)
}

fn check_number(
    checker: &mut Checker,
    id: NodeId,
    at: Pos,
    takes_all: bool,
    ty: TyId,
    kind: IntKind,
    is_negative: bool,
    value: u64,
) -> Result<(), RuleError>
    ensures gives { Gives (sized_end id.0 at takes_all ty kind is_negative value (state checker.old)) result checker.new }
    ensures kept { KeepsStack (stack checker.old) checker.old result checker.new }
{
    obeys(Rule::T17, at, value <= most(kind, is_negative))?;
    tested_number(checker, id, at, takes_all, ty, is_negative, value)
}

fn agrees(suffix: Option<IntKind>, ty: TyId) -> bool
    ensures { result ≡ rules.agrees_kind suffix ty }
{
    match suffix {
        Some(kind) => int(kind).0 == ty.0,
        None => true,
    }
}

fn is_of_kind(suffix: Option<IntKind>, ty: TyId, is_negative: bool, kind: IntKind) -> bool
    ensures { result ≡ (rules.agrees_kind suffix ty && (not is_negative || rows.is_signed_kind kind)) }
{
    agrees(suffix, ty) && (!is_negative || is_signed(kind))
}

fn of_kind(
    checker: &mut Checker,
    id: NodeId,
    at: Pos,
    takes_all: bool,
    ty: TyId,
    kind: IntKind,
    is_negative: bool,
    value: u64,
    suffix: Option<IntKind>,
) -> Result<(), RuleError>
    ensures gives { Gives (kind_end id.0 at takes_all ty kind is_negative value suffix (state checker.old)) result checker.new }
    ensures kept { KeepsStack (stack checker.old) checker.old result checker.new }
{
    obeys(Rule::T03, at, is_of_kind(suffix, ty, is_negative, kind))?;
    check_number(checker, id, at, takes_all, ty, kind, is_negative, value)
}

fn literal_at(
    checker: &mut Checker,
    id: NodeId,
    at: Pos,
    takes_all: bool,
    ty: TyId,
    is_negative: bool,
    value: u64,
    suffix: Option<IntKind>,
) -> Result<(), RuleError>
    ensures gives { Gives (literal_pattern_end id.0 at takes_all ty is_negative value suffix (state checker.old)) result checker.new }
    ensures kept { KeepsStack (stack checker.old) checker.old result checker.new }
{
    match kind_of(&checker.walk.items, ty) {
        Some(kind) => of_kind(
            checker,
            id,
            at,
            takes_all,
            ty,
            kind,
            is_negative,
            value,
            suffix,
        ),
        None => Err(broken_rule(Rule::T03, at)),
    }
}

/// A number as a pattern, which tests its place.
pub fn literal_pattern(
    checker: &mut Checker,
    at: Pos,
    e: PatternContext,
    ty: TyId,
    is_negative: bool,
    value: u64,
    suffix: Option<IntKind>,
) -> Result<(), RuleError>
    ensures gives { Gives (rules.literal_pattern at (pattern_context_of e) ty is_negative value suffix (state checker.old)) result checker.new }
    ensures kept { KeepsStack (stack checker.old) checker.old result checker.new }
{
    let id = checker.number()?;
    literal_at(checker, id, at, e.takes_all, ty, is_negative, value, suffix)
}

fn of_bool(
    checker: &mut Checker,
    id: NodeId,
    at: Pos,
    takes_all: bool,
    ty: TyId,
    value: bool,
) -> Result<(), RuleError>
    ensures gives { Gives (truth_pattern_end id.0 at takes_all ty value (state checker.old)) result checker.new }
    ensures kept { KeepsStack (stack checker.old) checker.old result checker.new }
{
    let holds = is_bool(&checker.walk.items, ty);
    obeys(Rule::T03, at, holds)?;
    check_test(checker, id, at, takes_all, ty, Leaf::TruthPattern(value))
}

/// `true` or `false` as a pattern, which tests its place.
pub fn truth_pattern(
    checker: &mut Checker,
    at: Pos,
    e: PatternContext,
    ty: TyId,
    value: bool,
) -> Result<(), RuleError>
    ensures gives { Gives (rules.truth_pattern at (pattern_context_of e) ty value (state checker.old)) result checker.new }
    ensures kept { KeepsStack (stack checker.old) checker.old result checker.new }
{
    let id = checker.number()?;
    of_bool(checker, id, at, e.takes_all, ty, value)
}

/// The node of a binding.
fn put_binding(
    checker: &mut Checker,
    id: NodeId,
    at: Pos,
    ty: TyId,
    name: &str,
) -> Result<(), RuleError>
    ensures made { OnOk result (stack checker.new ≡
        used (rows.taking checker.old.walk.items ty) (a_node_of id.0 at ty (tree.Binding name.now)) ∷ stack checker.old) }
    ensures state { OnOk result (state checker.new ≡ state checker.old) }
    ensures place { OnOk result (Stays checker.old checker.new) }
    ensures short { IfErr result (λ e. e ≡ RuleError.Memory) }
{
    let by = taking(&checker.walk.items, ty);
    let Ok(name) = Name::from_str(checker.alloc, name) else {
        return Err(RuleError::Memory);
    };
    checker.put(id, at, ty, Form::Binding(name))?;
    checker.use_last(by)
}

/// A binding more, the youngest.
fn note(
    checker: &Checker,
    bound: &mut Variables,
    id: NodeId,
    ty: TyId,
    name: &str,
) -> Result<(), RuleError>
    ensures entered { OnOk result (bound.new ≡ record { name = name.now; ty = ty; meaning = Local id.0 } ∷ bound.old) }
    ensures short { IfErr result (λ e. e ≡ RuleError.Memory) }
{
    let Ok(name) = Name::from_str(checker.alloc, name) else {
        return Err(RuleError::Memory);
    };
    let variable = Variable {
        name,
        ty,
        meaning: VariableMeaning::Local(Key(id.0)),
    };
    match bound.enter(checker.alloc, variable) {
        Ok(()) => Ok(()),
        Err(NoMemory) => Err(RuleError::Memory),
    }
}

/// Whether a place may be copied or moved out of by a binding.
fn may_bind(checker: &Checker, is_fixed: bool, ty: TyId) -> bool
    ensures { result ≡ (is_copy checker.now.walk.items ty || not (is_fixed || types.is_dyn checker.now.walk.items ty)) }
{
    checker.walk.items.is_copy(ty) || !(is_fixed || is_dyn(&checker.walk.items, ty))
}

#[tactic(auto, using(crate::proofs::Youngest::last_one))]
fn bind_new(
    checker: &mut Checker,
    bound: &mut Variables,
    id: NodeId,
    at: Pos,
    is_fixed: bool,
    ty: TyId,
    name: &str,
) -> Result<(), RuleError>
    ensures gives { GivesBound (rules.bind_end id.0 at is_fixed ty name.now (reverse bound.old) (state checker.old)) result bound.new checker.new }
    ensures kept { KeepsStack (stack checker.old) checker.old result checker.new }
{
    let may_take = may_bind(checker, is_fixed, ty);
    obeys(Rule::T07, at, may_take)?;
    note(checker, bound, id, ty, name)?;
    put_binding(checker, id, at, ty, name)
}

/// Whether a name is bound already.
#[tactic(auto, using(crate::proofs::Youngest::known_same))]
fn is_bound(bound: &Variables, name: &str) -> bool
    ensures { result ≡ is_some (variable (reverse bound.now) name.now) }
{
    bound.find(name).is_some()
}

/// A name that binds its place: one pattern binds a name once.
pub fn bind(
    checker: &mut Checker,
    bound: &mut Variables,
    at: Pos,
    e: PatternContext,
    ty: TyId,
    name: &str,
) -> Result<(), RuleError>
    ensures gives { GivesBound (rules.bind at (pattern_context_of e) ty name.now (reverse bound.old) (state checker.old)) result bound.new checker.new }
    ensures kept { KeepsStack (stack checker.old) checker.old result checker.new }
{
    let id = checker.number()?;
    let is_new = !is_bound(bound, name);
    obeys(Rule::T02, at, is_new)?;
    bind_new(checker, bound, id, at, e.is_fixed, ty, name)
}
