//! How the parts of variants are written, as the text has them.
ghost use Rattle.std.specs.Prelude.{◌≡◌, ◌++◌, ◌∷◌, [], IfOk, OnOk, map};
ghost use Rattle.src_ast.specs.ItemForms.{kind_seen};
ghost use Rattle.src_ast.specs.Seen.{nodes_of, syn_of};
ghost use Rattle.src_tree.specs.View.{parts_in, piece_of};
ghost use Rattle.typing_rules.specs.Items.{all_kinds, item_syns, items_of};
ghost use Rattle.typeck_checker.specs.Tables.{all_kinds_of};
ghost use Rattle.type_check.specs.Kinds.{kind_in, kinds_at, kinds_in};

use mir_base::{List, NoMemory};
use src_ast::{FieldKind, ItemForm, Nodes, item_form, variant_form};
use src_tree::{NodePiece, SyntaxNode};
use std::alloc::Global;

#[tactic(auto, using(crate::proofs::KindForms::variant_seen))]
fn variant_kind(node: &SyntaxNode) -> FieldKind
    ensures { kind_seen result ≡ kind_in (syn_of node.now) }
{
    match variant_form(node) {
        Some(form) => form.kind,
        None => FieldKind::Unit,
    }
}

/// How the parts of the variants of an enum are written.
fn variant_kinds(alloc: Global, variants: Nodes) -> Result<List<FieldKind>, NoMemory>
    ensures { IfOk result (λ kinds. map kind_seen kinds ≡ kinds_in (nodes_of variants.entry)) }
{
    let mut kinds = List::new(alloc);
    let mut rest = variants;
    while let Some(split) = rest.split_first() {
        kinds.push(variant_kind(split.first))?;
        rest = split.rest;
    }
    Ok(kinds)
}

fn struct_kind(alloc: Global, kind: FieldKind) -> Result<List<FieldKind>, NoMemory>
    ensures { IfOk result (λ kinds. map kind_seen kinds ≡ kind_seen kind ∷ []) }
{
    let mut kinds = List::new(alloc);
    kinds.push(kind)?;
    Ok(kinds)
}

/// How the parts of a struct or an enum are written, behind those of others; other items have none.
#[tactic(auto, using(crate::proofs::KindForms::item_seen))]
fn add_item(
    alloc: Global,
    node: &SyntaxNode,
    kinds: &mut List<List<FieldKind>>,
) -> Result<(), NoMemory>
    ensures { OnOk result (all_kinds_of kinds.new ≡ all_kinds_of kinds.old ++ all_kinds (syn_of node.now ∷ [])) }
{
    match item_form(node) {
        ItemForm::Struct { kind, .. } => kinds.push(struct_kind(alloc, kind)?),
        ItemForm::Enum { variants, .. } => kinds.push(variant_kinds(alloc, variants)?),
        ItemForm::Trait { .. } => Ok(()),
        ItemForm::Impl { .. } => Ok(()),
        ItemForm::Fn(_) => Ok(()),
        ItemForm::Other => Ok(()),
    }
}

#[tactic(auto, using(crate::proofs::KindWalk::at_token, crate::proofs::KindWalk::at_node))]
fn add_piece(
    alloc: Global,
    piece: &NodePiece,
    kinds: &mut List<List<FieldKind>>,
) -> Result<(), NoMemory>
    ensures { OnOk result (all_kinds_of kinds.new ≡ all_kinds_of kinds.old ++ kinds_at (piece_of piece.now)) }
{
    match piece {
        NodePiece::Node(node) => add_item(alloc, node, kinds),
        NodePiece::Token(_) => Ok(()),
    }
}

/// How the parts of each variant of each struct and enum are written, in their order.
///
/// # Errors
///
/// [`NoMemory`] where memory is wanted.
pub fn kinds(alloc: Global, pieces: &[NodePiece]) -> Result<List<List<FieldKind>>, NoMemory>
    ensures { IfOk result (λ kinds. all_kinds_of kinds ≡ all_kinds (item_syns (items_of (parts_in pieces.now)))) }
{
    let mut kinds = List::new(alloc);
    for piece in pieces {
        add_piece(alloc, piece, &mut kinds)?;
    }
    Ok(kinds)
}
