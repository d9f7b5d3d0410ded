//! Types as they are written (The Rust Reference, "Types").
ghost use Rattle.std.specs.Prelude.{◌≡◌, ◌<◌, ◌≤◌, ◌||◌, not, nat_le, length, min, IfOk, IfSome, None};
ghost use Rattle.mir_ty.specs.AreItems.{AreTypes};
ghost use Rattle.typeck_heads.specs.Answers.{Answers};
ghost use Rattle.typeck_heads.specs.Forms.{around_of, array_by, array_short, written_by};
ghost use Rattle.src_ast.specs.Seen.{nodes_of, syn_of};
ghost use Rattle.src_ast.specs.Syntax.{NamedType, GenericType, DynType, SelfType, TupleType, ArrayType, RefType};
ghost use Rattle.typing_rules.specs.Check.{interned as interned_by};
ghost use Rattle.typing_rules.specs.Collected.{starting_with};
ghost use Rattle.typing_rules.specs.Written as types;
ghost use Rattle.typing_rules.specs.Written.{written_form, scalar_named, named_by, number_of, is_usize, length_shown, tuple_by, reference_to};

use crate::names::NameTable;
use crate::steps::{broken_rule, intern, obeys, push_to};
use mir_base::limits::{MAX_ARRAY_LENGTH, MAX_TUPLE_PARTS};
use mir_base::{IntKind, List, Pos, Rule, RuleError};
use mir_ty::{BOOL, I32, I64, Items, NEVER, Ty, TyId, U32, U64, UNIT, USIZE};
use src_ast::{First, Nodes, TypeForm, type_form};
use src_tree::SyntaxNode;
use std::alloc::Global;

/// Which names a written type may have, and which rules are asked of it.
#[derive(Drop)]
pub struct WrittenScope<'a> {
    pub alloc: Global,
    /// All rules, or those on names alone.
    pub has_limits: bool,
    /// The struct or enum that `Self` is.
    pub self_adt: Option<u32>,
    /// The names of structs and enums, by their numbers.
    pub adts: &'a NameTable,
    /// The names of traits, by their numbers.
    pub traits: &'a NameTable,
}

/// The type that a name of the language is.
pub fn scalar(name: &str) -> Option<TyId>
    ensures value { result ≡ scalar_named name.now }
    ensures small { IfSome result (λ id. id.0 < 8) }
{
    match name {
        "i32" => Some(I32),
        "i64" => Some(I64),
        "u32" => Some(U32),
        "u64" => Some(U64),
        "usize" => Some(USIZE),
        "bool" => Some(BOOL),
        _ => None,
    }
}

fn adt_named(
    items: &mut Items,
    scope: &WrittenScope,
    at: Pos,
    name: &str,
) -> Result<TyId, RuleError>
    ensures answers { Answers (named_by at (number_of scope.now.adts.now name.now) None (starting_with items.old)) result items.new }
    ensures grows { length items.old.types ≤ length items.new.types }
    ensures known { IfOk result (λ id. id.0 < length items.new.types) }
{
    let Some(number) = scope.adts.find(name) else {
        return Err(broken_rule(Rule::T01, at));
    };
    intern(items, Ty::Adt(number))
}

fn named_type(
    items: &mut Items,
    scope: &WrittenScope,
    at: Pos,
    name: &str,
) -> Result<TyId, RuleError>
    requires { 8 ≤ length items.old.types }
    ensures answers { Answers (written_form (around_of scope.now) at (NamedType name.now) (starting_with items.old)) result items.new }
    ensures grows { length items.old.types ≤ length items.new.types }
    ensures known { IfOk result (λ id. id.0 < length items.new.types) }
{
    match scalar(name) {
        Some(id) => Ok(id),
        None => adt_named(items, scope, at, name),
    }
}

#[cycle(types)]
fn generic(
    items: &mut Items,
    scope: &WrittenScope,
    at: Pos,
    name: &str,
    content: &SyntaxNode,
) -> Result<TyId, RuleError>
    requires { 8 ≤ length items.old.types }
    ensures answers { Answers (written_form (around_of scope.now) at (GenericType name.now (syn_of content.now)) (starting_with items.old)) result items.new }
    ensures grows { length items.old.types ≤ length items.new.types }
    ensures known { IfOk result (λ id. id.0 < length items.new.types) }
{
    obeys(Rule::T01, at, name == "Box")?;
    let inside = resolve_type(items, scope, content)?;
    intern(items, Ty::Boxed(inside))
}

fn object(
    items: &mut Items,
    scope: &WrittenScope,
    at: Pos,
    name: &str,
    trait_at: Pos,
    trait_name: &str,
) -> Result<TyId, RuleError>
    requires { 8 ≤ length items.old.types }
    ensures answers { Answers (written_form (around_of scope.now) at (DynType name.now (trait_at, trait_name.now)) (starting_with items.old)) result items.new }
    ensures grows { length items.old.types ≤ length items.new.types }
    ensures known { IfOk result (λ id. id.0 < length items.new.types) }
{
    obeys(Rule::T01, at, name == "Box")?;
    let Some(number) = scope.traits.find(trait_name) else {
        return Err(broken_rule(Rule::T01, trait_at));
    };
    let inside = intern(items, Ty::Dyn(number))?;
    intern(items, Ty::Boxed(inside))
}

fn self_type(items: &mut Items, scope: &WrittenScope, at: Pos) -> Result<TyId, RuleError>
    requires { 8 ≤ length items.old.types }
    ensures answers { Answers (written_form (around_of scope.now) at SelfType (starting_with items.old)) result items.new }
    ensures grows { length items.old.types ≤ length items.new.types }
    ensures known { IfOk result (λ id. id.0 < length items.new.types) }
{
    let Some(number) = scope.self_adt else {
        return Err(broken_rule(Rule::T01, at));
    };
    intern(items, Ty::Adt(number))
}

/// The types of some parts, in their order.
#[cycle(types)]
fn all_written(
    items: &mut Items,
    scope: &WrittenScope,
    parts: Nodes,
) -> Result<List<TyId>, RuleError>
    requires { 8 ≤ length items.old.types }
    ensures answers { Answers (types.all_written (around_of scope.now) (nodes_of parts.entry) (starting_with items.old)) result items.new }
    ensures grows { length items.old.types ≤ length items.new.types }
    ensures known { IfOk result (λ ids. AreTypes items.new.types ids) }
{
    let mut ids = List::new(scope.alloc);
    let mut rest = parts;
    while let Some(split) = rest.split_first() {
        let id = resolve_type(items, scope, split.first)?;
        push_to(&mut ids, id)?;
        rest = split.rest;
    }
    Ok(ids)
}

/// Whether a rule holds, which is asked only where there are limits.
fn free_or(has_limits: bool, holds: bool) -> bool
    ensures { result ≡ (not has_limits || holds) }
{
    !has_limits || holds
}

#[tactic(auto, using(crate::proofs::Types::of_many))]
fn tuple_of(items: &mut Items, ids: List<TyId>) -> Result<TyId, RuleError>
    requires ready { 8 ≤ length items.old.types }
    requires known { AreTypes items.old.types ids }
    ensures answers { Answers (tuple_by ids (starting_with items.old)) result items.new }
    ensures grows { length items.old.types ≤ length items.new.types }
    ensures known { IfOk result (λ id. id.0 < length items.new.types) }
{
    if ids.is_empty() {
        return Ok(UNIT);
    }
    intern(items, Ty::Tuple(ids))
}

#[cycle(types)]
fn tuple(items: &mut Items, scope: &WrittenScope, at: Pos, parts: Nodes) -> Result<TyId, RuleError>
    requires { 8 ≤ length items.old.types }
    ensures answers { Answers (written_form (around_of scope.now) at (TupleType (nodes_of parts.entry)) (starting_with items.old)) result items.new }
    ensures grows { length items.old.types ≤ length items.new.types }
    ensures known { IfOk result (λ id. id.0 < length items.new.types) }
{
    let ids = all_written(items, scope, parts)?;
    let is_short = free_or(scope.has_limits, ids.len() <= MAX_TUPLE_PARTS);
    let id = tuple_of(items, ids)?;
    obeys(Rule::T19, at, is_short)?;
    Ok(id)
}

/// Whether a length may have this suffix.
fn counts(suffix: Option<IntKind>) -> bool
    ensures { result ≡ is_usize suffix }
{
    match suffix {
        None => true,
        Some(kind) => match kind {
            IntKind::Usize => true,
            _ => false,
        },
    }
}

fn shown_count(count: u64) -> u32
    ensures { result ≡ length_shown count }
{
    if count > u32::MAX as u64 {
        u32::MAX
    } else {
        count as u32
    }
}

fn array_shown(
    items: &mut Items,
    scope: &WrittenScope,
    at: Pos,
    element: TyId,
    count: u64,
) -> Result<TyId, RuleError>
    requires { element.0 < length items.old.types }
    ensures answers { Answers (array_short (around_of scope.now) at count element (starting_with items.old)) result items.new }
    ensures grows { length items.old.types ≤ length items.new.types }
    ensures known { IfOk result (λ id. id.0 < length items.new.types) }
{
    obeys(
        Rule::T19,
        at,
        free_or(scope.has_limits, count <= MAX_ARRAY_LENGTH as u64),
    )?;
    intern(items, Ty::Array(element, shown_count(count)))
}

fn array_of(
    items: &mut Items,
    scope: &WrittenScope,
    at: Pos,
    element: TyId,
    count: u64,
    suffix: Option<IntKind>,
) -> Result<TyId, RuleError>
    requires { element.0 < length items.old.types }
    ensures answers { Answers (array_by (around_of scope.now) at count suffix element (starting_with items.old)) result items.new }
    ensures grows { length items.old.types ≤ length items.new.types }
    ensures known { IfOk result (λ id. id.0 < length items.new.types) }
{
    obeys(Rule::T03, at, free_or(scope.has_limits, counts(suffix)))?;
    array_shown(items, scope, at, element, count)
}

#[cycle(types)]
fn array(
    items: &mut Items,
    scope: &WrittenScope,
    at: Pos,
    element: &SyntaxNode,
    count: u64,
    suffix: Option<IntKind>,
) -> Result<TyId, RuleError>
    requires { 8 ≤ length items.old.types }
    ensures answers { Answers (written_form (around_of scope.now) at (ArrayType (syn_of element.now) count suffix) (starting_with items.old)) result items.new }
    ensures grows { length items.old.types ≤ length items.new.types }
    ensures known { IfOk result (λ id. id.0 < length items.new.types) }
{
    let id = resolve_type(items, scope, element)?;
    array_of(items, scope, at, id, count, suffix)
}

fn reference_of(items: &mut Items, unique: bool, to: TyId) -> Result<TyId, RuleError>
    requires { to.0 < length items.old.types }
    ensures answers { Answers (interned_by (reference_to unique to) (starting_with items.old)) result items.new }
    ensures grows { length items.old.types ≤ length items.new.types }
    ensures known { IfOk result (λ id. id.0 < length items.new.types) }
{
    if unique {
        intern(items, Ty::Unique(to))
    } else {
        intern(items, Ty::Shared(to))
    }
}

#[cycle(types)]
fn reference(
    items: &mut Items,
    scope: &WrittenScope,
    at: Pos,
    unique: bool,
    to: &SyntaxNode,
) -> Result<TyId, RuleError>
    requires { 8 ≤ length items.old.types }
    ensures answers { Answers (written_form (around_of scope.now) at (RefType unique (syn_of to.now)) (starting_with items.old)) result items.new }
    ensures grows { length items.old.types ≤ length items.new.types }
    ensures known { IfOk result (λ id. id.0 < length items.new.types) }
{
    let id = resolve_type(items, scope, to)?;
    obeys(Rule::T08, at, !scope.has_limits)?;
    reference_of(items, unique, id)
}

/// A type as it is written: its number, or the first broken rule.
#[cycle(types)]
#[tactic(auto, using(crate::proofs::Shapes::type_seen))]
pub fn resolve_type(
    items: &mut Items,
    scope: &WrittenScope,
    node: &SyntaxNode,
) -> Result<TyId, RuleError>
    requires { 8 ≤ length items.old.types }
    ensures answers { Answers (types.written (around_of scope.now) (syn_of node.now) (starting_with items.old)) result items.new }
    ensures grows { length items.old.types ≤ length items.new.types }
    ensures known { IfOk result (λ id. id.0 < length items.new.types) }
{
    let at = node.at;
    match type_form(node) {
        TypeForm::Name(name) => named_type(items, scope, at, name),
        TypeForm::Generic { name, content } => generic(items, scope, at, name, content),
        TypeForm::Dyn {
            name,
            trait_at,
            trait_name,
        } => object(items, scope, at, name, trait_at, trait_name),
        TypeForm::SelfType => self_type(items, scope, at),
        TypeForm::Parens(inside) => resolve_type(items, scope, inside),
        TypeForm::Tuple(parts) => tuple(items, scope, at, parts),
        TypeForm::Array {
            element,
            count,
            suffix,
        } => array(items, scope, at, element, count, suffix),
        TypeForm::Never => Ok(NEVER),
        TypeForm::Reference { unique, to } => reference(items, scope, at, unique, to),
        TypeForm::Other => Err(broken_rule(Rule::T20, at)),
    }
}

/// The type of a parameter as it is written, which may be a reference.
#[tactic(auto, using(crate::proofs::Shapes::type_seen, crate::proofs::Shapes::param_seen))]
pub fn written_param(
    items: &mut Items,
    scope: &WrittenScope,
    node: &SyntaxNode,
) -> Result<TyId, RuleError>
    requires { 8 ≤ length items.old.types }
    ensures answers { Answers (types.written_param (around_of scope.now) (syn_of node.now) (starting_with items.old)) result items.new }
    ensures grows { length items.old.types ≤ length items.new.types }
    ensures known { IfOk result (λ id. id.0 < length items.new.types) }
{
    match type_form(node) {
        TypeForm::Parens(inside) => written_param(items, scope, inside),
        TypeForm::Reference { unique, to } => {
            let id = resolve_type(items, scope, to)?;
            reference_of(items, unique, id)
        }
        _ => resolve_type(items, scope, node),
    }
}

/// A type as it is written; or that of a parameter, which may be a reference.
pub fn resolve_written(
    items: &mut Items,
    scope: &WrittenScope,
    node: &SyntaxNode,
    is_param: bool,
) -> Result<TyId, RuleError>
    requires { 8 ≤ length items.old.types }
    ensures answers { Answers (written_by is_param (around_of scope.now) (syn_of node.now) (starting_with items.old)) result items.new }
    ensures grows { length items.old.types ≤ length items.new.types }
    ensures known { IfOk result (λ id. id.0 < length items.new.types) }
{
    if is_param {
        written_param(items, scope, node)
    } else {
        resolve_type(items, scope, node)
    }
}
