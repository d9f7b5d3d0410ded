//! Structs and enums, added to the items.
ghost use Rattle.std.specs.Prelude.{◌≡◌, ◌<◌, ◌≤◌, [], ◌∷◌, All, length, false, IfOk};
ghost use Rattle.mir_ty.specs.AreItems.{IsVariant};
ghost use Rattle.mir_ty.specs.ItemTable.{with_adt};
ghost use Rattle.typeck_heads.specs.Answers.{Answers};
ghost use Rattle.typeck_heads.specs.Forms.{around_of, known_of, is_one, struct_by, enum_by, variants_in};
ghost use Rattle.src_ast.specs.Seen.{nodes_of, syn_of};
ghost use Rattle.src_ast.specs.Syntax.{list_of};
ghost use Rattle.src_ast.specs.View.{idents};
ghost use Rattle.typing_rules.specs.Check.{each_checked};
ghost use Rattle.typing_rules.specs.Collected as walk;
ghost use Rattle.typing_rules.specs.Collected.{starting_with};

use crate::adt_items::{name_from, variant};
use crate::known_types::Known;
use crate::steps::{broken_rule, push_to};
use crate::written_types::WrittenScope;
use mir_base::{List, NoMemory, Rule, RuleError};
use mir_ty::{Adt, Items, Variant};
use src_ast::{Nodes, is_name, name_of, variant_form};
use src_tree::SyntaxNode;

/// Whether a name may be derived.
fn is_derivable(name: &str) -> bool
    ensures { result ≡ walk.is_derivable name.now }
{
    name == "Copy" || name == "Clone" || name == "Debug"
}

/// All that is derived may be.
fn derives_known(items: &Items, names: Nodes) -> Result<(), RuleError>
    ensures { Answers (walk.derives_known (idents (nodes_of names.entry)) (starting_with items.now)) result items.now }
{
    let mut rest = names;
    while let Some(split) = rest.split_first() {
        if !is_name(split.first) {
            return Ok(());
        }
        if !is_derivable(name_of(split.first)) {
            return Err(broken_rule(Rule::T01, split.first.at));
        }
        rest = split.rest;
    }
    Ok(())
}

/// Whether a name is derived.
pub fn derives(word: &str, names: Nodes) -> bool
    ensures { result ≡ walk.derives word.now (idents (nodes_of names.entry)) }
{
    let mut rest = names;
    while let Some(split) = rest.split_first() {
        if !is_name(split.first) {
            return false;
        }
        if word == name_of(split.first) {
            return true;
        }
        rest = split.rest;
    }
    false
}

/// A variant of an enum.
#[tactic(auto, using(crate::proofs::Variants::variant_seen))]
fn declare_variant(
    items: &mut Items,
    scope: &WrittenScope,
    node: &SyntaxNode,
) -> Result<Variant, RuleError>
    requires { 8 ≤ length items.old.types }
    ensures answers { Answers (walk.declared_variant (around_of scope.now) (syn_of node.now) (starting_with items.old)) result items.new }
    ensures grows { length items.old.types ≤ length items.new.types }
    ensures known { IfOk result (λ variant. IsVariant items.new.types variant) }
{
    match variant_form(node) {
        Some(form) => variant(items, scope, form.name, form.fields),
        None => Err(broken_rule(Rule::T20, node.at)),
    }
}

/// The variants of an enum, in their order.
fn all_declared(
    items: &mut Items,
    scope: &WrittenScope,
    variants: Nodes,
) -> Result<List<Variant>, RuleError>
    requires { 8 ≤ length items.old.types }
    ensures answers { Answers (each_checked (walk.declared_variant (around_of scope.now)) (list_of (nodes_of variants.entry)) (starting_with items.old)) result items.new }
    ensures grows { length items.old.types ≤ length items.new.types }
    ensures known { IfOk result (λ variants. All (IsVariant items.new.types) variants) }
{
    let mut declared_ones = List::new(scope.alloc);
    let mut rest = variants;
    while let Some(split) = rest.split_first() {
        let one = declare_variant(items, scope, split.first)?;
        push_to(&mut declared_ones, one)?;
        rest = split.rest;
    }
    Ok(declared_ones)
}

/// The variants of an enum of this name, which is `Self` in them.
fn own_variants(
    items: &mut Items,
    known: &Known,
    name: &str,
    variants: Nodes,
) -> Result<List<Variant>, RuleError>
    requires { 8 ≤ length items.old.types }
    ensures answers { Answers (variants_in (known_of known.now) name.now (nodes_of variants.entry) (starting_with items.old)) result items.new }
    ensures grows { length items.old.types ≤ length items.new.types }
    ensures known { IfOk result (λ variants. All (IsVariant items.new.types) variants) }
{
    let scope = known.scope(known.adts.find(name));
    all_declared(items, &scope, variants)
}

/// Adds a struct or an enum with its variants.
fn add(
    items: &mut Items,
    known: &Known,
    names: Nodes,
    name: &str,
    is_enum: bool,
    variants: List<Variant>,
) -> Result<(), RuleError>
    requires known { All (IsVariant items.old.types) variants }
    requires of_struct { is_enum ≡ false → is_one name.now variants }
    ensures answers { Answers (walk.added (λ items. with_adt items (walk.adt_of (known_of known.now) (idents (nodes_of names.entry)) name.now is_enum variants)) (starting_with items.old)) result items.new }
    ensures grows { length items.old.types ≤ length items.new.types }
{
    let copy = derives("Copy", names);
    let Ok(drop_body) = known.method_body(name, "Drop", "drop") else {
        return Err(RuleError::Memory);
    };
    let name = name_from(known.alloc, name)?;
    match items.add_adt(Adt {
        name,
        is_enum,
        variants,
        copy,
        drop_body,
    }) {
        Ok(_) => Ok(()),
        Err(NoMemory) => Err(RuleError::Memory),
    }
}

/// A struct.
pub fn struct_item(
    items: &mut Items,
    known: &Known,
    names: Nodes,
    name: &str,
    fields: Nodes,
) -> Result<(), RuleError>
    requires { 8 ≤ length items.old.types }
    ensures answers { Answers (struct_by (known_of known.now) (idents (nodes_of names.entry)) name.now (nodes_of fields.entry) (starting_with items.old)) result items.new }
    ensures grows { length items.old.types ≤ length items.new.types }
{
    derives_known(items, names)?;
    let scope = known.scope(known.adts.find(name));
    let only = variant(items, &scope, name, fields)?;
    let mut variants = List::new(known.alloc);
    push_to(&mut variants, only)?;
    add(items, known, names, name, false, variants)
}

/// An enum.
pub fn enum_item(
    items: &mut Items,
    known: &Known,
    names: Nodes,
    name: &str,
    variants: Nodes,
) -> Result<(), RuleError>
    requires { 8 ≤ length items.old.types }
    ensures answers { Answers (enum_by (known_of known.now) (idents (nodes_of names.entry)) name.now (nodes_of variants.entry) (starting_with items.old)) result items.new }
    ensures grows { length items.old.types ≤ length items.new.types }
{
    derives_known(items, names)?;
    let all = own_variants(items, known, name, variants)?;
    add(items, known, names, name, true, all)
}
