//! Types as they are written inside bodies (The Rust Reference, "Types").
ghost use Rattle.std.specs.Prelude.{◌≡◌, ◌≤◌, length, true, OnOk};
ghost use Rattle.mir_ty.specs.ItemTable.{no_items};
ghost use Rattle.src_ast.specs.Seen.{maybe_of, syn_of};
ghost use Rattle.typeck_checker.specs.Stand.{GivesValue, ChangesNothing, env, state};
ghost use Rattle.typeck_checker.specs.Tables.{AreTablesOf};
ghost use Rattle.typeck_heads.specs.Forms.{written_by};
ghost use Rattle.typing_rules.specs.Bodies as bodies;
ghost use Rattle.typing_rules.specs.Bodies.{all_rules};
ghost use Rattle.typing_rules.specs.Typed as typed;
ghost use Rattle.typing_rules.specs.Written as types;

use crate::{Checker, Tables};
use mir_base::{List, RuleError};
use mir_ty::{Items, TyId, UNIT, USIZE};
use src_tree::SyntaxNode;
use std::alloc::Global;
use std::collections::HashSet;
use std::mem;
use typeck_heads::{NameTable, WrittenScope, resolve_written};

/// Tables of no names.
fn no_tables(alloc: Global) -> Tables
    ensures { AreTablesOf no_items result }
{
    Tables {
        adts: NameTable::new(alloc),
        traits: NameTable::new(alloc),
        kinds: List::new(alloc),
        self_methods: NameTable::new(alloc),
        adt_names: NameTable::new(alloc),
        trait_names: NameTable::new(alloc),
        body_names: NameTable::new(alloc),
        members: List::new(alloc),
        methods: List::new(alloc),
        pairs: HashSet::new(alloc),
        drop_bodies: HashSet::new(alloc),
    }
}

/// Behind an error there are no items, and tables of no names.
fn clear(alloc: Global, items: &mut Items, tables: &mut Tables)
    ensures items { items.new ≡ no_items }
    ensures tables { AreTablesOf no_items tables.new }
{
    drop(mem::replace(items, Items::new(alloc)));
    drop(mem::replace(tables, no_tables(alloc)));
}

/// Whether the types with which each table begins are there.
fn has_scalars(items: &Items) -> bool
    ensures { result ≡ true → 8 ≤ length items.now.types }
{
    items.ty(USIZE).is_some()
}

/// A type as it is written, or that of a parameter. Behind an error the checker knows no items any more.
fn resolve_by(checker: &mut Checker, node: &SyntaxNode, is_param: bool) -> Result<TyId, RuleError>
    ensures gives { GivesValue (λ id. id) (written_by is_param (all_rules (env checker.old)) (syn_of node.now) (state checker.old)) result checker.new }
    ensures same { OnOk result (ChangesNothing checker.old checker.new) }
{
    if !has_scalars(&checker.walk.items) {
        return Err(RuleError::cannot_be());
    }
    let scope = WrittenScope {
        alloc: checker.alloc,
        has_limits: true,
        self_adt: checker.around.self_adt,
        adts: &checker.tables.adts,
        traits: &checker.tables.traits,
    };
    match resolve_written(&mut checker.walk.items, &scope, node, is_param) {
        Ok(id) => Ok(id),
        Err(e) => {
            clear(checker.alloc, &mut checker.walk.items, &mut checker.tables);
            Err(e)
        }
    }
}

/// A type as it is written. Behind an error the checker knows no items any more.
pub fn resolve_type(checker: &mut Checker, node: &SyntaxNode) -> Result<TyId, RuleError>
    ensures gives { GivesValue (λ id. id) (types.written (all_rules (env checker.old)) (syn_of node.now) (state checker.old)) result checker.new }
    ensures same { OnOk result (ChangesNothing checker.old checker.new) }
{
    resolve_by(checker, node, false)
}

/// The type of a parameter as it is written, which may be a reference. Behind an error the checker knows no items any
/// more.
pub fn resolve_param_type(checker: &mut Checker, node: &SyntaxNode) -> Result<TyId, RuleError>
    ensures gives { GivesValue (λ id. id) (types.written_param (all_rules (env checker.old)) (syn_of node.now) (state checker.old)) result checker.new }
    ensures same { OnOk result (ChangesNothing checker.old checker.new) }
{
    resolve_by(checker, node, true)
}

/// The type that a `let` declares, if it does.
pub fn resolve_type_if(
    checker: &mut Checker,
    ty: Option<&SyntaxNode>,
) -> Result<Option<TyId>, RuleError>
    ensures gives { GivesValue (λ ty. ty) (typed.declared (env checker.old) (maybe_of ty.entry) (state checker.old)) result checker.new }
    ensures same { OnOk result (ChangesNothing checker.old checker.new) }
{
    match ty {
        Some(node) => {
            let ty = resolve_type(checker, node)?;
            Ok(Some(ty))
        }
        None => Ok(None),
    }
}

/// The type of a body's result: the one that is written, or `()`.
pub fn answer_of(checker: &mut Checker, ty: Option<&SyntaxNode>) -> Result<TyId, RuleError>
    ensures gives { GivesValue (λ ty. ty) (bodies.answer_of (env checker.old) (maybe_of ty.entry) (state checker.old)) result checker.new }
    ensures same { OnOk result (ChangesNothing checker.old checker.new) }
{
    match ty {
        Some(node) => resolve_type(checker, node),
        None => Ok(UNIT),
    }
}
