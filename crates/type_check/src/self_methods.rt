//! The methods of impls that have `self`, by their names.
ghost use Rattle.std.specs.Prelude.{◌≡◌, ◌++◌, ◌∷◌, [], IfOk, Some, if◌then◌else◌};
ghost use Rattle.std.specs.List.{flat_map};
ghost use Rattle.std.specs.String.{string_bytes};
ghost use Rattle.src_ast.specs.Seen.{nodes_of, syn_of};
ghost use Rattle.src_ast.specs.Syntax.{list_of};
ghost use Rattle.src_ast.specs.View.{named};
ghost use Rattle.src_tree.specs.View.{parts_in, piece_of};
ghost use Rattle.typing_rules.specs.Items as told;
ghost use Rattle.typing_rules.specs.Items.{full_name, item_syns, items_of};
ghost use Rattle.type_check.specs.SelfMethods.{self_methods_at};

use mir_base::NoMemory;
use src_ast::{Function, ItemForm, Nodes, ParamForm, item_form, name_of, param_form};
use src_tree::{NodePiece, SyntaxNode};
use std::alloc::{AllocError, Global};
use typeck_heads::NameTable;

#[tactic(auto, using(crate::proofs::SelfForms::self_seen))]
fn is_self(node: &SyntaxNode) -> bool
    ensures { result ≡ told.is_self (syn_of node.now) }
{
    match param_form(node) {
        ParamForm::SelfValue(_) => true,
        ParamForm::Pattern { pattern: _, ty: _ } => false,
        ParamForm::Other => false,
    }
}

/// Whether parameters begin with `self`.
fn has_self(params: Nodes) -> bool
    ensures { result ≡ told.has_self (nodes_of params.entry) }
{
    match params.split_first() {
        Some(split) => is_self(split.first),
        None => false,
    }
}

fn method_word(alloc: Global, owner: &str, name: &str) -> Result<String, AllocError>
    ensures { IfOk result (λ word. string_bytes word ≡ full_name (Some owner.now) name.now) }
{
    let mut word = String::from_str(alloc, owner)?;
    word.push_str("::")?;
    word.push_str(name)?;
    Ok(word)
}

/// A table with one method more.
fn with_method(
    alloc: Global,
    table: NameTable,
    owner: &str,
    name: &str,
) -> Result<NameTable, NoMemory>
    ensures { IfOk result (λ more. more ≡ table ++ full_name (Some owner.now) name.now ∷ []) }
{
    match method_word(alloc, owner, name) {
        Ok(word) => table.with(alloc, word.as_str()),
        Err(_) => Err(NoMemory),
    }
}

/// A table with a function of an impl, where it has `self`.
fn with_head(
    alloc: Global,
    table: NameTable,
    owner: &str,
    function: Function,
) -> Result<NameTable, NoMemory>
    ensures { IfOk result (λ more. more ≡ table ++ (if told.has_self (nodes_of function.entry.params) then full_name (Some owner.now) (named (syn_of function.entry.name.now)).1 ∷ [] else [])) }
{
    if has_self(function.params) {
        with_method(alloc, table, owner, name_of(function.name))
    } else {
        Ok(table)
    }
}

#[tactic(auto, using(crate::proofs::SelfForms::method_seen))]
fn with_function(
    alloc: Global,
    table: NameTable,
    owner: &str,
    node: &SyntaxNode,
) -> Result<NameTable, NoMemory>
    ensures { IfOk result (λ more. more ≡ table ++ told.self_method owner.now (syn_of node.now)) }
{
    match item_form(node) {
        ItemForm::Fn(function) => with_head(alloc, table, owner, function),
        ItemForm::Struct { .. } => Ok(table),
        ItemForm::Enum { .. } => Ok(table),
        ItemForm::Trait { .. } => Ok(table),
        ItemForm::Impl { .. } => Ok(table),
        ItemForm::Other => Ok(table),
    }
}

/// A table with the functions of an impl that have `self`.
fn with_functions(
    alloc: Global,
    table: NameTable,
    owner: &str,
    functions: Nodes,
) -> Result<NameTable, NoMemory>
    ensures { IfOk result (λ more. more ≡ table ++ flat_map (told.self_method owner.now) (list_of (nodes_of functions.entry))) }
{
    let mut names = table;
    let mut rest = functions;
    while let Some(split) = rest.split_first() {
        names = with_function(alloc, names, owner, split.first)?;
        rest = split.rest;
    }
    Ok(names)
}

#[tactic(auto, using(crate::proofs::SelfForms::item_seen))]
fn with_item(alloc: Global, table: NameTable, node: &SyntaxNode) -> Result<NameTable, NoMemory>
    ensures { IfOk result (λ more. more ≡ table ++ told.self_methods_of (syn_of node.now)) }
{
    match item_form(node) {
        ItemForm::Impl {
            trait_: _,
            name,
            methods,
        } => with_functions(alloc, table, name_of(name), methods),
        ItemForm::Struct { .. } => Ok(table),
        ItemForm::Enum { .. } => Ok(table),
        ItemForm::Trait { .. } => Ok(table),
        ItemForm::Fn(_) => Ok(table),
        ItemForm::Other => Ok(table),
    }
}

#[tactic(auto, using(crate::proofs::SelfForms::at_token, crate::proofs::SelfForms::at_node))]
fn with_piece(alloc: Global, table: NameTable, piece: &NodePiece) -> Result<NameTable, NoMemory>
    ensures { IfOk result (λ more. more ≡ table ++ self_methods_at (piece_of piece.now)) }
{
    match piece {
        NodePiece::Node(node) => with_item(alloc, table, node),
        NodePiece::Token(_) => Ok(table),
    }
}

/// The methods of impls that have `self`, by their names.
///
/// # Errors
///
/// [`NoMemory`] where memory is wanted.
pub fn self_methods(alloc: Global, pieces: &[NodePiece]) -> Result<NameTable, NoMemory>
    ensures { IfOk result (λ names. names ≡ told.self_methods (item_syns (items_of (parts_in pieces.now)))) }
{
    let mut names = NameTable::new(alloc);
    for piece in pieces {
        names = with_piece(alloc, names, piece)?;
    }
    Ok(names)
}
