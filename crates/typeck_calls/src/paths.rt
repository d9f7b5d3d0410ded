//! Paths that stand as values (The Rust Reference, "Path expressions").
ghost use Rattle.std.specs.Prelude.{◌≡◌, ◌||◌, codes, if◌then◌else◌, is_some, IfErr, IfOk};
ghost use Rattle.std.specs.Str.{bytes_eq};
ghost use Rattle.mir_base.specs.declared.rule.Rule.{Rule};
ghost use Rattle.mir_base.specs.declared.rule.RuleError.{RuleError};
ghost use Rattle.typeck_calls.specs.Callees.{value_seen};
ghost use Rattle.src_ast.specs.Seen.{word_of};
ghost use Rattle.typeck_checker.specs.Stand.{Gives, KeepsStack, env, stack, state};
ghost use Rattle.typed_tree.specs.Tree as tree;
ghost use Rattle.typing_rules.specs.Named as named;
ghost use Rattle.typing_rules.specs.Rows as rows;
ghost use Rattle.typing_rules.specs.Scope as scope;
ghost use Rattle.typing_rules.specs.Typed as typed;

use crate::callees::{is_box, missing};
use mir_base::{List, Pos, Rule, RuleError};
use mir_ty::{Items, Ty, TyId};
use src_ast::{FieldKind, PathForm};
use typeck_checker::{
    Checker, adt_at_head, adt_named, body_named, kind_at, method_of, put_variable, variable,
    variant_of_enum,
};
use typeck_env::is_enum;
use typeck_heads::broken_rule;
use typed_tree::Form;

/// What a path is as a value.
#[derive(Clone, Copy)]
pub enum PathValue {
    /// A struct or a variant without parts.
    Makes { adt: u32, variant: u32 },
    /// It breaks this rule.
    IsBroken(Rule),
}

fn is_built_in(name: &str) -> bool
    ensures { result ≡ named.is_built_in name.now }
{
    match name {
        "print" | "ask" | "drop" | "forget" => true,
        _ => false,
    }
}

fn unit_value(checker: &Checker, adt: u32, variant: u32) -> PathValue
    ensures { value_seen result ≡ named.unit_value (env checker.now) adt variant }
{
    match kind_at(checker, adt, variant) {
        FieldKind::Unit => PathValue::Makes { adt, variant },
        _ => PathValue::IsBroken(Rule::T13),
    }
}

fn struct_value(checker: &Checker, adt: u32) -> PathValue
    ensures { value_seen result ≡ named.struct_value checker.now.walk.items (env checker.now) adt }
{
    if is_enum(&checker.walk.items, adt) {
        PathValue::IsBroken(Rule::T01)
    } else {
        unit_value(checker, adt, 0)
    }
}

/// Whether a name is that of a function or a built-in, which are no values.
fn is_function(checker: &Checker, name: &str) -> bool
    ensures { result ≡ (is_some (scope.body_named checker.now.walk.items name.now) || named.is_built_in name.now) }
{
    body_named(checker, name).is_some() || is_built_in(name)
}

fn no_value(checker: &Checker, name: &str) -> PathValue
    ensures { value_seen result ≡ named.no_value checker.now.walk.items name.now }
{
    if is_function(checker, name) {
        PathValue::IsBroken(Rule::T13)
    } else {
        PathValue::IsBroken(Rule::T01)
    }
}

fn name_value(checker: &Checker, name: &str) -> PathValue
    ensures { value_seen result ≡ named.name_value checker.now.walk.items (env checker.now) name.now (scope.adt_named checker.now.walk.items name.now) }
{
    match adt_named(checker, name) {
        Some(adt) => struct_value(checker, adt),
        None => no_value(checker, name),
    }
}

#[tactic(auto, using(typeck_checker::proofs::NameTables::self_is))]
fn self_value(checker: &Checker) -> PathValue
    ensures { value_seen result ≡ named.or_broken checker.now.walk.items (env checker.now) (env checker.now).self_adt }
{
    match checker.around.self_adt {
        Some(adt) => struct_value(checker, adt),
        None => PathValue::IsBroken(Rule::T01),
    }
}

fn method_value(checker: &Checker, adt: u32, name: &str) -> Result<PathValue, RuleError>
    ensures found { IfOk result (λ value. value_seen value ≡ named.member_value checker.now.walk.items (env checker.now) adt name.now None) }
    ensures short { IfErr result (λ e. e ≡ RuleError.Memory) }
{
    match method_of(checker, adt, name)? {
        Some(_) => Ok(PathValue::IsBroken(Rule::T13)),
        None => Ok(PathValue::IsBroken(missing(&checker.walk.items, adt))),
    }
}

fn member_value(checker: &Checker, adt: u32, name: &str) -> Result<PathValue, RuleError>
    ensures found { IfOk result (λ value. value_seen value ≡ named.member_value checker.now.walk.items (env checker.now) adt name.now (named.variant_of_enum checker.now.walk.items adt name.now)) }
    ensures short { IfErr result (λ e. e ≡ RuleError.Memory) }
{
    match variant_of_enum(checker, adt, name) {
        Some(variant) => Ok(unit_value(checker, adt, variant)),
        None => method_value(checker, adt, name),
    }
}

fn of_box(name: &str) -> PathValue
    ensures { value_seen result ≡ named.IsBroken (if bytes_eq name.now (codes "new") then Rule.T13 else Rule.T12) }
{
    if name == "new" {
        PathValue::IsBroken(Rule::T13)
    } else {
        PathValue::IsBroken(Rule::T12)
    }
}

fn box_member(first: Option<&str>, name: &str) -> PathValue
    ensures { value_seen result ≡ named.box_member (word_of first.entry) name.now }
{
    match first {
        Some(first) => {
            if is_box(first) {
                of_box(name)
            } else {
                PathValue::IsBroken(Rule::T01)
            }
        }
        None => PathValue::IsBroken(Rule::T01),
    }
}

fn path_member(checker: &Checker, first: Option<&str>, name: &str) -> Result<PathValue, RuleError>
    ensures found { IfOk result (λ value. value_seen value ≡ named.path_member checker.now.walk.items (env checker.now) (word_of first.entry) name.now (scope.adt_at_head checker.now.walk.items (env checker.now) (word_of first.entry))) }
    ensures short { IfErr result (λ e. e ≡ RuleError.Memory) }
{
    match adt_at_head(checker, first) {
        Some(adt) => member_value(checker, adt, name),
        None => Ok(box_member(first, name)),
    }
}

/// What a path is as a value; a variable is none of it.
pub fn path_value(checker: &Checker, path: PathForm) -> Result<PathValue, RuleError>
    ensures found { IfOk result (λ value. value_seen value ≡ named.path_value checker.now.walk.items (env checker.now) (word_of path.entry.first) (word_of path.entry.second)) }
    ensures short { IfErr result (λ e. e ≡ RuleError.Memory) }
{
    match (path.first, path.second) {
        (first, Some(name)) => path_member(checker, first, name),
        (Some(name), None) => Ok(name_value(checker, name)),
        (None, None) => Ok(self_value(checker)),
    }
}

/// A value of a struct or a variant without parts, of this type.
fn unit_leaf(
    checker: &mut Checker,
    at: Pos,
    ty: TyId,
    adt: u32,
    variant: u32,
    expected: Option<TyId>,
) -> Result<(), RuleError>
    ensures gives { Gives (rows.leaf at ty (tree.Make adt variant tree.no_field) expected (state checker.old)) result checker.new }
    ensures kept { KeepsStack (stack checker.old) checker.old result checker.new }
{
    let id = checker.number()?;
    let fields = List::new(checker.alloc);
    checker.put(
        id,
        at,
        ty,
        Form::Make {
            adt,
            variant,
            fields,
        },
    )?;
    checker.coerce(expected)
}

fn makes_unit(
    checker: &mut Checker,
    at: Pos,
    adt: u32,
    variant: u32,
    expected: Option<TyId>,
) -> Result<(), RuleError>
    ensures gives { Gives (typed.makes_unit at (named.Makes adt variant) expected (state checker.old)) result checker.new }
    ensures kept { KeepsStack (stack checker.old) checker.old result checker.new }
{
    let ty = checker.intern(Ty::Adt(adt))?;
    unit_leaf(checker, at, ty, adt, variant, expected)
}

/// A path that is no variable, as a value.
pub fn path_alone(
    checker: &mut Checker,
    at: Pos,
    path: PathForm,
    expected: Option<TyId>,
) -> Result<(), RuleError>
    ensures gives { Gives (typed.path_alone (env checker.old) at (word_of path.entry.first) (word_of path.entry.second) expected (state checker.old)) result checker.new }
    ensures kept { KeepsStack (stack checker.old) checker.old result checker.new }
{
    match path_value(checker, path)? {
        PathValue::Makes { adt, variant } => makes_unit(checker, at, adt, variant, expected),
        PathValue::IsBroken(rule) => Err(broken_rule(rule, at)),
    }
}

/// A name as a value: the variable of that name, or what the name is without it.
fn name_path(
    checker: &mut Checker,
    at: Pos,
    name: &str,
    expected: Option<TyId>,
) -> Result<(), RuleError>
    ensures gives { Gives (typed.path (env checker.old) at (Some name.now) None expected (state checker.old)) result checker.new }
    ensures kept { KeepsStack (stack checker.old) checker.old result checker.new }
{
    match variable(checker, name) {
        Some(found) => {
            put_variable(checker, at, name, found)?;
            checker.use_value(expected)
        }
        None => path_alone(
            checker,
            at,
            PathForm {
                first: Some(name),
                second: None,
            },
            expected,
        ),
    }
}

/// A path as a value.
pub fn path(
    checker: &mut Checker,
    at: Pos,
    path: PathForm,
    expected: Option<TyId>,
) -> Result<(), RuleError>
    ensures gives { Gives (typed.path (env checker.old) at (word_of path.entry.first) (word_of path.entry.second) expected (state checker.old)) result checker.new }
    ensures kept { KeepsStack (stack checker.old) checker.old result checker.new }
{
    match (path.first, path.second) {
        (Some(name), None) => name_path(checker, at, name, expected),
        _ => path_alone(checker, at, path, expected),
    }
}
