//! Structs and enums as they are declared.
ghost use Rattle.std.specs.Prelude.{◌≡◌, ◌<◌, ◌≤◌, ◌∷◌, [], ◌++◌, length, false, true, IfOk, IfErr, OnOk, Option, ℕ};
ghost use Rattle.mir_base.specs.declared.rule.RuleError.{RuleError};
ghost use Rattle.mir_ty.specs.AreItems.{AreTypes, IsVariant, IsAdt};
ghost use Rattle.mir_ty.specs.ItemTable.{with_adt};
ghost use Rattle.typeck_heads.specs.Answers.{Answers};
ghost use Rattle.typeck_heads.specs.Forms.{around_of, known_of};
ghost use Rattle.src_ast.specs.Seen.{nodes_of, syn_of};
ghost use Rattle.src_ast.specs.Syntax.{list_of, number_word};
ghost use Rattle.src_ast.specs.View.{idents};
ghost use Rattle.typing_rules.specs.Check.{each_checked};
ghost use Rattle.typing_rules.specs.Collected as walk;
ghost use Rattle.typing_rules.specs.Collected.{starting_with};
ghost use Rattle.typing_rules.specs.Written as types;

use crate::steps::push_to;
use crate::written_types::{WrittenScope, resolve_type};
use mir_base::{List, Name, NoMemory, RuleError};
use mir_ty::{Items, TyId, Variant};
use src_ast::{Nodes, field_form};
use src_tree::SyntaxNode;
use std::alloc::{AllocError, Global};
use std::fmt::Write;

/// The type of a field, which is a node of its own.
#[tactic(auto, using(crate::proofs::Fields::field_type_seen))]
fn field_type(node: &SyntaxNode) -> &SyntaxNode
    ensures { syn_of result.now ≡ walk.field_type (syn_of node.now) }
{
    match field_form(node) {
        Some(field) => field.ty,
        None => node,
    }
}

/// The types of fields, in their order.
fn field_types(
    items: &mut Items,
    scope: &WrittenScope,
    fields: Nodes,
) -> Result<List<TyId>, RuleError>
    requires { 8 ≤ length items.old.types }
    ensures answers { Answers (each_checked (λ f. types.written (around_of scope.now) (walk.field_type f)) (list_of (nodes_of fields.entry)) (starting_with items.old)) result items.new }
    ensures grows { length items.old.types ≤ length items.new.types }
    ensures known { IfOk result (λ ids. AreTypes items.new.types ids) }
{
    let mut ids = List::new(scope.alloc);
    let mut rest = fields;
    while let Some(split) = rest.split_first() {
        let id = resolve_type(items, scope, field_type(split.first))?;
        push_to(&mut ids, id)?;
        rest = split.rest;
    }
    Ok(ids)
}

/// A number in decimal digits.
#[tactic(auto, using(crate::proofs::Decimal::decimal_word))]
pub fn number_name(alloc: Global, number: u64) -> Result<Name, AllocError>
    ensures { IfOk result (λ name. name ≡ number_word number) }
{
    let mut text = String::new(alloc);
    write!(text, "{number}")?;
    Ok(Name::from_string(text))
}

/// A copy of a name.
pub fn name_from(alloc: Global, name: &str) -> Result<Name, RuleError>
    ensures copy { IfOk result (λ copy. copy ≡ name.now) }
    ensures short { IfErr result (λ e. e ≡ RuleError.Memory) }
{
    match Name::from_str(alloc, name) {
        Ok(copy) => Ok(copy),
        Err(NoMemory) => Err(RuleError::Memory),
    }
}

/// The name of a field, or its number where it has none.
#[tactic(auto, using(crate::proofs::Fields::field_name_seen))]
fn field_name(alloc: Global, number: u64, node: &SyntaxNode) -> Result<Name, RuleError>
    ensures name { IfOk result (λ name. name ≡ walk.field_name number (syn_of node.now)) }
    ensures short { IfErr result (λ e. e ≡ RuleError.Memory) }
{
    match field_form(node) {
        Some(field) => name_from(alloc, field.name),
        None => match number_name(alloc, number) {
            Ok(name) => Ok(name),
            Err(_) => Err(RuleError::Memory),
        },
    }
}

/// The names of fields, in their order.
fn field_names(alloc: Global, fields: Nodes) -> Result<List<Name>, RuleError>
    ensures names { IfOk result (λ names. names ≡ walk.names_from 0 (list_of (nodes_of fields.entry))) }
    ensures short { IfErr result (λ e. e ≡ RuleError.Memory) }
{
    let mut names = List::new(alloc);
    let mut rest = fields;
    while let Some(split) = rest.split_first() {
        let name = field_name(alloc, names.len() as u64, split.first)?;
        push_to(&mut names, name)?;
        rest = split.rest;
    }
    Ok(names)
}

/// A variant with its fields.
#[tactic(auto, using(crate::proofs::Fields::as_many_names))]
pub fn variant(
    items: &mut Items,
    scope: &WrittenScope,
    name: &str,
    fields: Nodes,
) -> Result<Variant, RuleError>
    requires { 8 ≤ length items.old.types }
    ensures answers { Answers (walk.variant_of (around_of scope.now) name.now (nodes_of fields.entry) (starting_with items.old)) result items.new }
    ensures grows { length items.old.types ≤ length items.new.types }
    ensures known { IfOk result (λ variant. IsVariant items.new.types variant) }
{
    let ids = field_types(items, scope, fields)?;
    let field_names = field_names(scope.alloc, fields)?;
    let name = name_from(scope.alloc, name)?;
    Ok(Variant {
        name,
        fields: ids,
        field_names,
    })
}
