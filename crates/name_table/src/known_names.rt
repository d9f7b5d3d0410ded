//! The names of structs and enums, of traits, and the paths of bodies, each by its number.
ghost use Rattle.std.specs.Prelude.{◌≡◌, ◌∷◌, [], ◌++◌, IfOk, IfErr, OnOk, List as Listed, Some, None, if◌then◌else◌, ℕ, map, codes};
ghost use Rattle.std.specs.List.{filter_map};
ghost use Rattle.std.specs.String.{string_bytes};
ghost use Rattle.mir_base.specs.declared.rule.RuleError.{RuleError};
ghost use Rattle.typeck_heads.specs.Forms.{bodies_in_piece, known_of, listed};
ghost use Rattle.name_table.specs.Forms.{owner_if_drop as owner_if_drop_of, own_paths, path_of_body, path_within, paths_in_piece, sought as sought_by, told_by, trait_named};
ghost use Rattle.src_ast.specs.ItemForms.{name_seen};
ghost use Rattle.src_ast.specs.Seen.{syn_of, word_of};
ghost use Rattle.src_ast.specs.View.{named};
ghost use Rattle.src_tree.specs.View.{layout_of, parts_in, piece_of};
ghost use Rattle.typing_rules.specs.Collected as walk;
ghost use Rattle.typing_rules.specs.Items as told;
ghost use Rattle.typing_rules.specs.Items.{bodies_among, bodies_in, is_body_row, item_syns, items_of, path_in};

use mir_base::{NoMemory, RuleError};
use src_ast::{ItemForm, item_form, name_of};
use src_tree::{GrammarRow, NodePiece, SyntaxNode};
use std::alloc::{AllocError, Global};
use std::mem;
use typeck_heads::{Known, NameTable, path_of_method};

/// Of which items the names are.
#[derive(Clone, Copy)]
pub enum NameSort {
    /// Of structs and enums.
    Adts,
    Traits,
    /// Of structs and enums, each in an impl of `Drop`.
    Dropped,
}

/// The names of the impl around a body; none where there is no impl.
#[derive(Clone, Copy)]
pub struct ImplNames<'a> {
    pub trait_: Option<&'a str>,
    pub owner: Option<&'a str>,
}

#[tactic(auto, using(crate::proofs::ItemForms::adt_name_seen))]
fn adt_name(node: &SyntaxNode) -> Option<&str>
    ensures { word_of result ≡ told.adt_name (syn_of node.now) }
{
    match item_form(node) {
        ItemForm::Struct { name, .. } => Some(name_of(name)),
        ItemForm::Enum { name, .. } => Some(name_of(name)),
        ItemForm::Trait { .. } => None,
        ItemForm::Impl { .. } => None,
        ItemForm::Fn(_) => None,
        ItemForm::Other => None,
    }
}

#[tactic(auto, using(crate::proofs::ItemForms::trait_name_seen))]
fn trait_name(node: &SyntaxNode) -> Option<&str>
    ensures { word_of result ≡ told.trait_name (syn_of node.now) }
{
    match item_form(node) {
        ItemForm::Trait { name, .. } => Some(name_of(name)),
        ItemForm::Struct { .. } => None,
        ItemForm::Enum { .. } => None,
        ItemForm::Impl { .. } => None,
        ItemForm::Fn(_) => None,
        ItemForm::Other => None,
    }
}

fn is_drop(name: &str) -> bool
    ensures { result ≡ walk.is_drop name.now }
{
    name == "Drop"
}

fn name_where(is: bool, name: &SyntaxNode) -> Option<&str>
    ensures { word_of result ≡ (if is then Some (named (syn_of name.now)).1 else None) }
{
    if is { Some(name_of(name)) } else { None }
}

/// The struct or enum of an impl of a trait, if that is `Drop`.
fn owner_if_drop<'a>(trait_: Option<&SyntaxNode>, name: &'a SyntaxNode) -> Option<&'a str>
    ensures { word_of result ≡ owner_if_drop_of (name_seen trait_.entry) (named (syn_of name.now)) }
{
    match trait_ {
        Some(trait_) => name_where(is_drop(name_of(trait_)), name),
        None => None,
    }
}

/// The struct or enum of an impl of `Drop`.
#[tactic(auto, using(crate::proofs::ItemForms::drop_owner_seen))]
fn drop_owner(node: &SyntaxNode) -> Option<&str>
    ensures { word_of result ≡ walk.drop_owner (syn_of node.now) }
{
    match item_form(node) {
        ItemForm::Impl { trait_, name, .. } => owner_if_drop(trait_, name),
        ItemForm::Struct { .. } => None,
        ItemForm::Enum { .. } => None,
        ItemForm::Trait { .. } => None,
        ItemForm::Fn(_) => None,
        ItemForm::Other => None,
    }
}

fn sought(sort: NameSort, node: &SyntaxNode) -> Option<&str>
    ensures { word_of result ≡ sought_by sort (syn_of node.now) }
{
    match sort {
        NameSort::Adts => adt_name(node),
        NameSort::Traits => trait_name(node),
        NameSort::Dropped => drop_owner(node),
    }
}

#[tactic(auto, using(crate::proofs::ItemWalk::told_token, crate::proofs::ItemWalk::told_node))]
fn sought_at(sort: NameSort, piece: &NodePiece) -> Option<&str>
    ensures { word_of result ≡ told_by (sought_by sort) (piece_of piece.now) }
{
    match piece {
        NodePiece::Node(node) => sought(sort, node),
        NodePiece::Token(_) => None,
    }
}

/// A table with one name more.
fn with_name(alloc: Global, table: NameTable, name: &str) -> Result<NameTable, RuleError>
    ensures named { IfOk result (λ more. more ≡ table ++ name.now ∷ []) }
    ensures short { IfErr result (λ e. e ≡ RuleError.Memory) }
{
    match table.with(alloc, name) {
        Ok(more) => Ok(more),
        Err(NoMemory) => Err(RuleError::Memory),
    }
}

/// A name is put behind the others.
fn add_name(alloc: Global, table: &mut NameTable, name: &str) -> Result<(), RuleError>
    ensures named { OnOk result (table.new ≡ table.old ++ name.now ∷ []) }
    ensures short { IfErr result (λ e. e ≡ RuleError.Memory) }
{
    let names = mem::replace(table, NameTable::new(alloc));
    *table = with_name(alloc, names, name)?;
    Ok(())
}

/// A table with one name more, where there is one.
fn with_found(alloc: Global, table: NameTable, name: Option<&str>) -> Result<NameTable, RuleError>
    ensures named { IfOk result (λ more. more ≡ table ++ listed (word_of name.entry)) }
    ensures short { IfErr result (λ e. e ≡ RuleError.Memory) }
{
    match name {
        Some(name) => with_name(alloc, table, name),
        None => Ok(table),
    }
}

/// The names of all items of a sort among the parts of a text, in their order.
///
/// # Errors
///
/// [`RuleError::Memory`] alone, where memory is wanted.
pub fn names_of(alloc: Global, sort: NameSort, pieces: &[NodePiece]) -> Result<NameTable, RuleError>
    ensures names { IfOk result (λ names. names ≡ filter_map (sought_by sort) (item_syns (items_of (parts_in pieces.now)))) }
    ensures short { IfErr result (λ e. e ≡ RuleError.Memory) }
{
    let mut names = NameTable::new(alloc);
    for piece in pieces {
        names = with_found(alloc, names, sought_at(sort, piece))?;
    }
    Ok(names)
}

/// The path of a method that is in no impl of a trait.
fn own_path(alloc: Global, owner: &str, name: &str) -> Result<String, AllocError>
    ensures { IfOk result (λ path. string_bytes path ≡ codes "<" ++ owner.now ++ codes ">::" ++ name.now) }
{
    let mut path = String::from_str(alloc, "<")?;
    path.push_str(owner)?;
    path.push_str(">::")?;
    path.push_str(name)?;
    Ok(path)
}

/// The path of a name in an impl, or in none.
fn path(alloc: Global, names: ImplNames, name: &str) -> Result<String, AllocError>
    ensures { IfOk result (λ path. string_bytes path ≡ path_within names.entry name.now) }
{
    match names.owner {
        Some(owner) => match names.trait_ {
            Some(trait_) => path_of_method(alloc, owner, trait_, name),
            None => own_path(alloc, owner, name),
        },
        None => String::from_str(alloc, name),
    }
}

fn trait_word(trait_: Option<&SyntaxNode>) -> Option<&str>
    ensures { word_of result ≡ trait_named trait_.entry }
{
    match trait_ {
        Some(name) => Some(name_of(name)),
        None => None,
    }
}

/// The names of an impl; none where an item is no impl.
#[tactic(auto, using(crate::proofs::ItemForms::path_seen))]
fn impl_names(node: &SyntaxNode) -> ImplNames<'_>
    ensures { (name : Listed ℕ) → path_within result name ≡ path_in (syn_of node.now) name }
{
    match item_form(node) {
        ItemForm::Impl { trait_, name, .. } => ImplNames {
            trait_: trait_word(trait_),
            owner: Some(name_of(name)),
        },
        _ => ImplNames {
            trait_: None,
            owner: None,
        },
    }
}

/// The name of a function or a method; a closure has none.
#[tactic(auto, using(crate::proofs::ItemForms::own_name_seen))]
fn own_name(node: &SyntaxNode) -> Option<&str>
    ensures { word_of result ≡ told.own_name (syn_of node.now) }
{
    match item_form(node) {
        ItemForm::Fn(function) => Some(name_of(function.name)),
        ItemForm::Struct { .. } => None,
        ItemForm::Enum { .. } => None,
        ItemForm::Trait { .. } => None,
        ItemForm::Impl { .. } => None,
        ItemForm::Other => None,
    }
}

/// The path of a body; an empty one of a closure.
fn body_path(alloc: Global, names: ImplNames, node: &SyntaxNode) -> Result<String, AllocError>
    ensures { IfOk result (λ path. string_bytes path ≡ path_of_body names.entry (syn_of node.now)) }
{
    match own_name(node) {
        Some(name) => path(alloc, names, name),
        None => Ok(String::new(alloc)),
    }
}

fn add_body(
    alloc: Global,
    table: &mut NameTable,
    names: ImplNames,
    node: &SyntaxNode,
) -> Result<(), RuleError>
    ensures found { OnOk result (table.new ≡ table.old ++ path_of_body names.entry (syn_of node.now) ∷ []) }
    ensures short { IfErr result (λ e. e ≡ RuleError.Memory) }
{
    match body_path(alloc, names, node) {
        Ok(path) => add_name(alloc, table, path.as_str()),
        Err(_) => Err(RuleError::Memory),
    }
}

fn is_body(row: GrammarRow) -> bool
    ensures { result ≡ is_body_row row }
{
    match row {
        GrammarRow::Fn | GrammarRow::Method | GrammarRow::Closure => true,
        _ => false,
    }
}

/// The path of a node, if it is a body, is put behind the others.
fn add_own(
    alloc: Global,
    table: &mut NameTable,
    names: ImplNames,
    node: &SyntaxNode,
) -> Result<(), RuleError>
    ensures found { OnOk result (table.new ≡ table.old ++ own_paths (path_of_body names.entry) node.now.row (syn_of node.now)) }
    ensures short { IfErr result (λ e. e ≡ RuleError.Memory) }
{
    if is_body(node.row) {
        add_body(alloc, table, names, node)
    } else {
        Ok(())
    }
}

/// The paths of the bodies among the parts of a node are put behind the others.
#[cycle(paths)]
fn add_inner(
    alloc: Global,
    table: &mut NameTable,
    names: ImplNames,
    pieces: &[NodePiece],
) -> Result<(), RuleError>
    ensures found { OnOk result (table.new ≡ table.old ++ map (path_of_body names.entry) (bodies_among (parts_in pieces.now))) }
    ensures short { IfErr result (λ e. e ≡ RuleError.Memory) }
{
    for piece in pieces {
        add_piece(alloc, table, names, piece)?;
    }
    Ok(())
}

#[cycle(paths)]
#[tactic(auto, using(crate::proofs::ItemWalk::inner_token, crate::proofs::ItemWalk::inner_node))]
fn add_piece(
    alloc: Global,
    table: &mut NameTable,
    names: ImplNames,
    piece: &NodePiece,
) -> Result<(), RuleError>
    ensures found { OnOk result (table.new ≡ table.old ++ map (path_of_body names.entry) (bodies_in_piece (piece_of piece.now))) }
    ensures short { IfErr result (λ e. e ≡ RuleError.Memory) }
{
    match piece {
        NodePiece::Node(node) => add_node(alloc, table, names, node),
        NodePiece::Token(_) => Ok(()),
    }
}

/// The path of a node, if it is a body, and those of the bodies in it are put behind the others.
#[cycle(paths)]
#[tactic(auto, using(crate::proofs::ItemWalk::node_found))]
fn add_node(
    alloc: Global,
    table: &mut NameTable,
    names: ImplNames,
    node: &SyntaxNode,
) -> Result<(), RuleError>
    ensures found { OnOk result (table.new ≡ table.old ++ map (path_of_body names.entry) (bodies_in (layout_of node.now))) }
    ensures short { IfErr result (λ e. e ≡ RuleError.Memory) }
{
    add_own(alloc, table, names, node)?;
    add_inner(alloc, table, names, node.parts.as_slice())
}

/// The paths of the bodies of an item are put behind the others.
fn add_item(alloc: Global, table: &mut NameTable, node: &SyntaxNode) -> Result<(), RuleError>
    ensures found { OnOk result (table.new ≡ table.old ++ map (told.body_path (syn_of node.now)) (bodies_in (layout_of node.now))) }
    ensures short { IfErr result (λ e. e ≡ RuleError.Memory) }
{
    add_node(alloc, table, impl_names(node), node)
}

#[tactic(auto, using(crate::proofs::ItemWalk::paths_token, crate::proofs::ItemWalk::paths_node))]
fn add_item_at(alloc: Global, table: &mut NameTable, piece: &NodePiece) -> Result<(), RuleError>
    ensures found { OnOk result (table.new ≡ table.old ++ paths_in_piece (piece_of piece.now)) }
    ensures short { IfErr result (λ e. e ≡ RuleError.Memory) }
{
    match piece {
        NodePiece::Node(node) => add_item(alloc, table, node),
        NodePiece::Token(_) => Ok(()),
    }
}

/// The paths of all bodies, in their order.
fn body_paths(alloc: Global, pieces: &[NodePiece]) -> Result<NameTable, RuleError>
    ensures paths { IfOk result (λ paths. paths ≡ told.body_paths (items_of (parts_in pieces.now))) }
    ensures short { IfErr result (λ e. e ≡ RuleError.Memory) }
{
    let mut table = NameTable::new(alloc);
    for piece in pieces {
        add_item_at(alloc, &mut table, piece)?;
    }
    Ok(table)
}

/// What is known of all items by their names alone.
pub fn names_of_items(alloc: Global, pieces: &[NodePiece]) -> Result<Known, RuleError>
    ensures known { IfOk result (λ known. known_of known ≡ walk.known_of (items_of (parts_in pieces.now))) }
    ensures short { IfErr result (λ e. e ≡ RuleError.Memory) }
{
    let adts = names_of(alloc, NameSort::Adts, pieces)?;
    let traits = names_of(alloc, NameSort::Traits, pieces)?;
    let paths = body_paths(alloc, pieces)?;
    Ok(Known {
        alloc,
        adts,
        traits,
        paths,
    })
}
