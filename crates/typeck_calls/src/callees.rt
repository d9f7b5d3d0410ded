//! What is called (The Rust Reference, "Call expressions", "Paths in expressions").
ghost use Rattle.std.specs.Prelude.{◌≡◌, codes, if◌then◌else◌, IfErr, IfOk};
ghost use Rattle.std.specs.Str.{bytes_eq};
ghost use Rattle.mir_base.specs.declared.rule.Rule.{Rule};
ghost use Rattle.mir_base.specs.declared.rule.RuleError.{RuleError};
ghost use Rattle.mir_ty.specs.ItemTable.{ItemTable};
ghost use Rattle.typeck_calls.specs.Callees.{callee_seen};
ghost use Rattle.src_ast.specs.Seen.{syn_of, word_of};
ghost use Rattle.src_ast.specs.Syntax.{Path};
ghost use Rattle.typeck_checker.specs.Stand.{env};
ghost use Rattle.typing_rules.specs.Named as named;
ghost use Rattle.typing_rules.specs.Scope as scope;
ghost use Rattle.typing_rules.specs.Typed as typed;
ghost use Rattle.typing_rules.specs.Written as written;
ghost use Rattle.well_typed.specs.Types as types;

use mir_base::{Pos, Rule, RuleError};
use mir_ty::Items;
use src_ast::{ExpressionForm, FieldKind, PathForm, expression_form};
use src_tree::SyntaxNode;
use typeck_checker::{
    Checker, adt_at_head, adt_named, body_named, kind_at, method_of, variable, variant_of_enum,
};
use typeck_env::{closure_of, is_enum};

/// What a call calls.
#[derive(Clone, Copy)]
pub enum Callee {
    /// A function, or a method by its path, by its body.
    Function(u32),
    /// A struct or a variant whose parts are a list.
    Constructor { adt: u32, variant: u32 },
    Prints,
    Asks,
    Drops,
    Forgets,
    /// `Box::new`.
    Boxes,
    /// An expression, which has to be a closure.
    Value,
    /// A name that is not there breaks this rule.
    Unnamed(Rule),
    /// What cannot be called.
    NoCallee,
}

/// Whether a name is `Box`.
pub fn is_box(name: &str) -> bool
    ensures { result ≡ written.is_box name.now }
{
    name == "Box"
}

/// The rule that is broken where a name is not there behind `::`: an enum has no such variant, a struct no such method.
pub fn missing(items: &Items, adt: u32) -> Rule
    ensures { result ≡ named.missing items.now adt }
{
    if is_enum(items, adt) {
        Rule::T01
    } else {
        Rule::T12
    }
}

fn constructor_of(checker: &Checker, adt: u32, variant: u32) -> Callee
    ensures { callee_seen checker.now.walk.items result ≡ named.constructor_of checker.now.walk.items (env checker.now) adt variant }
{
    match kind_at(checker, adt, variant) {
        FieldKind::Tuple => Callee::Constructor { adt, variant },
        _ => Callee::NoCallee,
    }
}

fn built_in_callee(items: &Items, name: &str) -> Callee
    ensures { callee_seen items.now result ≡ named.built_in_callee name.now }
{
    match name {
        "print" => Callee::Prints,
        "ask" => Callee::Asks,
        "drop" => Callee::Drops,
        "forget" => Callee::Forgets,
        _ => Callee::Unnamed(Rule::T01),
    }
}

/// A struct as a callee; an enum is none.
fn struct_callee(checker: &Checker, adt: u32) -> Callee
    ensures { callee_seen checker.now.walk.items result ≡ (if types.is_enum checker.now.walk.items adt then named.Unnamed Rule.T01 else named.constructor_of checker.now.walk.items (env checker.now) adt 0) }
{
    if is_enum(&checker.walk.items, adt) {
        Callee::Unnamed(Rule::T01)
    } else {
        constructor_of(checker, adt, 0)
    }
}

fn adt_callee(checker: &Checker, name: &str) -> Callee
    ensures { callee_seen checker.now.walk.items result ≡ named.adt_callee checker.now.walk.items (env checker.now) name.now (scope.adt_named checker.now.walk.items name.now) }
{
    match adt_named(checker, name) {
        Some(adt) => struct_callee(checker, adt),
        None => built_in_callee(&checker.walk.items, name),
    }
}

fn body_callee(checker: &Checker, name: &str) -> Callee
    ensures { callee_seen checker.now.walk.items result ≡ named.body_callee checker.now.walk.items (env checker.now) name.now (scope.body_named checker.now.walk.items name.now) }
{
    match body_named(checker, name) {
        Some(body) => Callee::Function(body),
        None => adt_callee(checker, name),
    }
}

/// A callee behind a variable of its name, which is none where nothing has the name besides.
#[tactic(auto, using(crate::proofs::CalleeForms::function_stays))]
fn or_no_callee(items: &Items, callee: Callee) -> Callee
    ensures { callee_seen items.now result ≡ named.or_no_callee (callee_seen items.now callee) }
{
    match callee {
        Callee::Unnamed(_) => Callee::NoCallee,
        other => other,
    }
}

/// A name is a closure's variable first, then a function, a struct or a built-in.
fn name_callee(checker: &Checker, name: &str) -> Callee
    ensures { callee_seen checker.now.walk.items result ≡ named.variable_callee checker.now.walk.items (env checker.now) name.now (scope.variable (env checker.now).variables name.now) }
{
    match variable(checker, name) {
        Some(found) => {
            if closure_of(&checker.walk.items, found.ty).is_some() {
                Callee::Value
            } else {
                or_no_callee(&checker.walk.items, body_callee(checker, name))
            }
        }
        None => body_callee(checker, name),
    }
}

fn method_callee(checker: &Checker, adt: u32, name: &str) -> Result<Callee, RuleError>
    ensures found { IfOk result (λ callee. callee_seen checker.now.walk.items callee ≡ named.method_callee checker.now.walk.items adt (scope.method_of checker.now.walk.items adt name.now)) }
    ensures short { IfErr result (λ e. e ≡ RuleError.Memory) }
{
    match method_of(checker, adt, name)? {
        Some(body) => Ok(Callee::Function(body)),
        None => Ok(Callee::Unnamed(missing(&checker.walk.items, adt))),
    }
}

fn member_callee(checker: &Checker, adt: u32, name: &str) -> Result<Callee, RuleError>
    ensures found { IfOk result (λ callee. callee_seen checker.now.walk.items callee ≡ named.member_callee checker.now.walk.items (env checker.now) adt name.now (named.variant_of_enum checker.now.walk.items adt name.now)) }
    ensures short { IfErr result (λ e. e ≡ RuleError.Memory) }
{
    match variant_of_enum(checker, adt, name) {
        Some(variant) => Ok(constructor_of(checker, adt, variant)),
        None => method_callee(checker, adt, name),
    }
}

fn of_box(items: &Items, name: &str) -> Callee
    ensures { callee_seen items.now result ≡ (if bytes_eq name.now (codes "new") then named.Boxes else named.Unnamed Rule.T12) }
{
    if name == "new" {
        Callee::Boxes
    } else {
        Callee::Unnamed(Rule::T12)
    }
}

/// What is behind `Box::`; behind another name there is nothing.
fn box_callee(items: &Items, first: Option<&str>, name: &str) -> Callee
    ensures { callee_seen items.now result ≡ named.box_callee (word_of first.entry) name.now }
{
    match first {
        Some(first) => {
            if is_box(first) {
                of_box(items, name)
            } else {
                Callee::Unnamed(Rule::T01)
            }
        }
        None => Callee::Unnamed(Rule::T01),
    }
}

fn member_of_path(checker: &Checker, first: Option<&str>, name: &str) -> Result<Callee, RuleError>
    ensures found { IfOk result (λ callee. callee_seen checker.now.walk.items callee ≡ named.path_callee checker.now.walk.items (env checker.now) (word_of first.entry) name.now (scope.adt_at_head checker.now.walk.items (env checker.now) (word_of first.entry))) }
    ensures short { IfErr result (λ e. e ≡ RuleError.Memory) }
{
    match adt_at_head(checker, first) {
        Some(adt) => member_callee(checker, adt, name),
        None => Ok(box_callee(&checker.walk.items, first, name)),
    }
}

#[tactic(auto, using(typeck_checker::proofs::NameTables::self_is))]
fn self_callee(checker: &Checker) -> Callee
    ensures { callee_seen checker.now.walk.items result ≡ named.self_callee checker.now.walk.items (env checker.now) (env checker.now).self_adt }
{
    match checker.around.self_adt {
        Some(adt) => struct_callee(checker, adt),
        None => Callee::Unnamed(Rule::T01),
    }
}

fn path_callee(checker: &Checker, path: PathForm) -> Result<Callee, RuleError>
    ensures found { IfOk result (λ callee. callee_seen checker.now.walk.items callee ≡ named.callee_form checker.now.walk.items (env checker.now) (Path (word_of path.entry.first) (word_of path.entry.second))) }
    ensures short { IfErr result (λ e. e ≡ RuleError.Memory) }
{
    match (path.first, path.second) {
        (first, Some(name)) => member_of_path(checker, first, name),
        (Some(name), None) => Ok(name_callee(checker, name)),
        (None, None) => Ok(self_callee(checker)),
    }
}

/// What an expression is as a callee, in parentheses or not.
#[tactic(auto, using(crate::proofs::CalleeForms::callee_as, crate::proofs::CalleeForms::fewer_parens))]
pub fn callee_of(checker: &Checker, node: &SyntaxNode) -> Result<Callee, RuleError>
    ensures found { IfOk result (λ callee. callee_seen checker.now.walk.items callee ≡ named.callee_of checker.now.walk.items (env checker.now) (syn_of node.now)) }
    ensures short { IfErr result (λ e. e ≡ RuleError.Memory) }
{
    match expression_form(node) {
        ExpressionForm::Parens(inside) => callee_of(checker, inside),
        ExpressionForm::Path(path) => path_callee(checker, path),
        ExpressionForm::SelfValue => Ok(name_callee(checker, "self")),
        _ => Ok(Callee::Value),
    }
}

/// Where an expression stands without the parentheses around it.
#[tactic(auto, using(crate::proofs::CalleeForms::place_as, crate::proofs::CalleeForms::fewer_parens))]
fn place_inside(node: &SyntaxNode) -> Pos
    ensures { result ≡ named.place_inside (syn_of node.now) }
{
    match expression_form(node) {
        ExpressionForm::Parens(inside) => place_inside(inside),
        _ => node.at,
    }
}

/// Where a call that begins at a place is refused: one by a name that is not there where the name stands, in parentheses
/// or not.
#[tactic(auto, using(crate::proofs::CalleeForms::function_place))]
pub fn call_place(at: Pos, node: &SyntaxNode, callee: Callee) -> Pos
    ensures { (items : ItemTable) → result ≡ typed.call_place at (named.place_inside (syn_of node.now)) (callee_seen items callee) }
{
    match callee {
        Callee::Unnamed(_) => place_inside(node),
        _ => at,
    }
}
