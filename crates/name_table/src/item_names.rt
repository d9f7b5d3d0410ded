//! Names of items, which have to differ.
ghost use Rattle.std.specs.Prelude.{◌≡◌, [], ◌||◌, Some};
ghost use Rattle.std.specs.List.{filter_map};
ghost use Rattle.typeck_heads.specs.Answers.{Answers};
ghost use Rattle.name_table.specs.Forms.{with_name_by, name_in_piece};
ghost use Rattle.src_ast.specs.ItemForms.{name_seen};
ghost use Rattle.src_ast.specs.Seen.{syn_of};
ghost use Rattle.src_ast.specs.View.{named};
ghost use Rattle.src_tree.specs.View.{parts_in, piece_of};
ghost use Rattle.typing_rules.specs.Collected as walk;
ghost use Rattle.typing_rules.specs.Collected.{starting_with, item_name};
ghost use Rattle.typing_rules.specs.Items.{items_of, item_syns};
ghost use Rattle.well_typed.specs.Names.{is_among, built_in};

use mir_base::{NoMemory, Rule, RuleError};
use mir_ty::Items;
use src_ast::{ItemForm, item_form, name_of};
use src_tree::{NodePiece, SyntaxNode};
use std::alloc::Global;
use typeck_heads::{NameTable, broken_rule};

/// Whether a name is one of the language, which no item may have.
fn is_built_in(name: &str) -> bool
    ensures { result ≡ is_among name.now built_in }
{
    match name {
        "i32"
        | "i64"
        | "u32"
        | "u64"
        | "usize"
        | "bool"
        | "Box"
        | "Drop"
        | "Copy"
        | "Clone"
        | "Debug"
        | "print"
        | "ask"
        | "forget"
        | "drop"
        | "panic" => true,
        _ => false,
    }
}

/// The name of an item; an impl has none.
#[tactic(auto, using(crate::proofs::ItemNames::item_name_seen))]
fn own_name(node: &SyntaxNode) -> Option<&SyntaxNode>
    ensures { name_seen result ≡ item_name (syn_of node.now) }
{
    match item_form(node) {
        ItemForm::Struct { name, .. } => Some(name),
        ItemForm::Enum { name, .. } => Some(name),
        ItemForm::Trait { name, .. } => Some(name),
        ItemForm::Fn(function) => Some(function.name),
        ItemForm::Impl { .. } => None,
        ItemForm::Other => None,
    }
}

#[tactic(auto, using(crate::proofs::ItemNames::at_token, crate::proofs::ItemNames::at_node))]
fn name_at(piece: &NodePiece) -> Option<&SyntaxNode>
    ensures { name_seen result ≡ name_in_piece (piece_of piece.now) }
{
    match piece {
        NodePiece::Node(node) => own_name(node),
        NodePiece::Token(_) => None,
    }
}

/// Whether a name is in a table.
#[tactic(auto, using(crate::proofs::ItemNames::any_named))]
fn is_seen(seen: &NameTable, name: &str) -> bool
    ensures { result ≡ is_among name.now seen.now }
{
    seen.find(name).is_some()
}

fn either(first: bool, second: bool) -> bool
    ensures { result ≡ (first || second) }
{
    first || second
}

/// Whether a name may not be given to one more item.
fn is_taken(seen: &NameTable, name: &str) -> bool
    ensures { result ≡ (is_among name.now seen.now || is_among name.now built_in) }
{
    either(is_seen(seen, name), is_built_in(name))
}

/// The names so far with one more.
fn with_one(
    items: &Items,
    alloc: Global,
    seen: NameTable,
    name: &SyntaxNode,
) -> Result<NameTable, RuleError>
    ensures { Answers (with_name_by (Some (named (syn_of name.now))) seen (starting_with items.now)) result items.now }
{
    let word = name_of(name);
    if is_taken(&seen, word) {
        return Err(broken_rule(Rule::T02, name.at));
    }
    match seen.with(alloc, word) {
        Ok(more) => Ok(more),
        Err(NoMemory) => Err(RuleError::Memory),
    }
}

/// The names so far with one more, where there is one.
fn with_name(
    items: &Items,
    alloc: Global,
    seen: NameTable,
    name: Option<&SyntaxNode>,
) -> Result<NameTable, RuleError>
    ensures { Answers (with_name_by (name_seen name.entry) seen (starting_with items.now)) result items.now }
{
    match name {
        Some(name) => with_one(items, alloc, seen, name),
        None => Ok(seen),
    }
}

/// The names of structs, enums, traits and functions differ, and none is one of the language.
pub fn names_differ(items: &Items, alloc: Global, pieces: &[NodePiece]) -> Result<(), RuleError>
    ensures { Answers (walk.names_differ (filter_map item_name (item_syns (items_of (parts_in pieces.now)))) [] (starting_with items.now)) result items.now }
{
    let mut seen = NameTable::new(alloc);
    for piece in pieces {
        seen = with_name(items, alloc, seen, name_at(piece))?;
    }
    Ok(())
}
