//! What structs and enums derive.
ghost use Rattle.std.specs.Prelude.{◌≡◌, ◌+◌, Some, slice_get, IfErr, IfOk};
ghost use Rattle.mir_base.specs.declared.rule.RuleError.{RuleError};
ghost use Rattle.std.specs.List.{filter_map, list_all};
ghost use Rattle.mir_ty.specs.Facts.{is_copy};
ghost use Rattle.typeck_heads.specs.Answers.{Answers};
ghost use Rattle.name_table.specs.AdtForms.{adt_seen};
ghost use Rattle.name_table.specs.Forms.{can_copy, derives_by, told_by};
ghost use Rattle.src_ast.specs.Seen.{nodes_of, syn_of};
ghost use Rattle.src_ast.specs.View.{idents};
ghost use Rattle.src_tree.specs.View.{parts_in, piece_of};
ghost use Rattle.typing_rules.specs.Collected as walk;
ghost use Rattle.typing_rules.specs.Collected.{adt_item, all_derive, drop_owners, starting_with};
ghost use Rattle.typing_rules.specs.Items.{item_syns, items_of};

use crate::known_names::{NameSort, names_of};
use mir_base::{List, Pos, Rule, RuleError};
use mir_ty::{Adt, Items, TyId, Variant};
use src_ast::{ItemForm, Nodes, item_form};
use src_tree::{NodePiece, SyntaxNode};
use std::alloc::Global;
use typeck_heads::{NameTable, broken_rule, derives};

/// A struct or an enum as it is written.
#[derive(Clone, Copy)]
pub struct AdtForm<'a> {
    pub at: Pos,
    /// The names that it derives.
    pub derives: Nodes<'a>,
}

/// The struct or enum that an item is.
#[tactic(auto, using(crate::proofs::ItemForms::adt_item_seen))]
pub fn adt_form(node: &SyntaxNode) -> Option<AdtForm<'_>>
    ensures { adt_seen result ≡ adt_item (syn_of node.now) }
{
    match item_form(node) {
        ItemForm::Struct { derives, .. } => Some(AdtForm {
            at: node.at,
            derives,
        }),
        ItemForm::Enum { derives, .. } => Some(AdtForm {
            at: node.at,
            derives,
        }),
        ItemForm::Trait { .. } => None,
        ItemForm::Impl { .. } => None,
        ItemForm::Fn(_) => None,
        ItemForm::Other => None,
    }
}

#[tactic(auto, using(crate::proofs::ItemWalk::told_token, crate::proofs::ItemWalk::told_node))]
pub fn adt_at(piece: &NodePiece) -> Option<AdtForm<'_>>
    ensures { adt_seen result ≡ told_by adt_item (piece_of piece.now) }
{
    match piece {
        NodePiece::Node(node) => adt_form(node),
        NodePiece::Token(_) => None,
    }
}

fn all_copy(items: &Items, ids: &List<TyId>) -> bool
    ensures { result ≡ list_all (is_copy items.now) ids.now }
{
    ids.iter().all(|id| items.is_copy(*id))
}

fn all_fields_copy(items: &Items, variants: &List<Variant>) -> bool
    ensures { result ≡ list_all (λ v. list_all (is_copy items.now) v.fields) variants.now }
{
    variants
        .iter()
        .all(|variant| all_copy(items, &variant.fields))
}

/// Whether a struct or an enum has an impl of `Drop`, also one that lacks its `drop`.
fn is_dropped(dropped: &NameTable, adt: &Adt) -> bool
    ensures { result ≡ walk.is_dropped dropped.now adt.now }
{
    adt.drop_body.is_some() || dropped.find(adt.name.as_str()).is_some()
}

/// Whether a struct or an enum may be Copy: it has no `Drop` impl, and all its fields are Copy (The Rust Reference,
/// "Copy").
fn may_copy(items: &Items, dropped: &NameTable, adt: &Adt) -> bool
    ensures { result ≡ can_copy items.now dropped.now adt.now }
{
    !is_dropped(dropped, adt) && all_fields_copy(items, &adt.variants)
}

fn may_derive(items: &Items, dropped: &NameTable, names: Nodes, adt: &Adt) -> bool
    ensures { result ≡ walk.may_derive items.now dropped.now (idents (nodes_of names.entry)) (Some adt.now) }
{
    !derives("Copy", names) || (derives("Clone", names) && may_copy(items, dropped, adt))
}

fn adt_may_derive(items: &Items, dropped: &NameTable, names: Nodes, number: u32) -> bool
    ensures { result ≡ walk.may_derive items.now dropped.now (idents (nodes_of names.entry)) (slice_get items.now.adts number) }
{
    match items.adt(number) {
        Some(adt) => may_derive(items, dropped, names, adt),
        None => true,
    }
}

/// The number of the next struct or enum.
pub fn next_number(number: u32) -> Result<u32, RuleError>
    ensures next { IfOk result (λ next. next ≡ number + 1) }
    ensures short { IfErr result (λ e. e ≡ RuleError.Memory) }
{
    match number.checked_add(1) {
        Some(next) => Ok(next),
        None => Err(RuleError::past_32_bits()),
    }
}

/// A struct or an enum with this number derives what it may; the number of the next one.
fn derives_at(
    items: &Items,
    dropped: &NameTable,
    number: u32,
    adt: Option<AdtForm>,
) -> Result<u32, RuleError>
    ensures { Answers (derives_by dropped.now number (adt_seen adt.entry) (starting_with items.now)) result items.now }
{
    let Some(adt) = adt else {
        return Ok(number);
    };
    if !adt_may_derive(items, dropped, adt.derives, number) {
        return Err(broken_rule(Rule::T10, adt.at));
    }
    next_number(number)
}

/// All structs and enums derive what they may, where these have an impl of `Drop`.
fn derive_beside(items: &Items, dropped: &NameTable, pieces: &[NodePiece]) -> Result<(), RuleError>
    ensures { Answers (all_derive dropped.now 0 (filter_map adt_item (item_syns (items_of (parts_in pieces.now)))) (starting_with items.now)) result items.now }
{
    let mut number = 0;
    for piece in pieces {
        number = derives_at(items, dropped, number, adt_at(piece))?;
    }
    Ok(())
}

/// All structs and enums derive what they may.
pub fn derive(items: &Items, alloc: Global, pieces: &[NodePiece]) -> Result<(), RuleError>
    ensures { Answers (all_derive (drop_owners (items_of (parts_in pieces.now))) 0 (filter_map adt_item (item_syns (items_of (parts_in pieces.now)))) (starting_with items.now)) result items.now }
{
    let dropped = names_of(alloc, NameSort::Dropped, pieces)?;
    let done = derive_beside(items, &dropped, pieces);
    drop(dropped);
    done
}
