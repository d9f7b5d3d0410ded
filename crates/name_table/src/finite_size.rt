//! Structs and enums of a finite size (rustc's error E0072, "recursive type has infinite size").
ghost use Rattle.std.specs.Prelude.{◌≡◌, Some, IfErr, IfOk, IfSome};
ghost use Rattle.std.specs.List.{filter_map};
ghost use Rattle.mir_base.specs.declared.rule.RuleError.{RuleError};
ghost use Rattle.mir_ty.specs.declared.ty.Ty.{Ty};
ghost use Rattle.typeck_heads.specs.Answers.{Answers};
ghost use Rattle.name_table.specs.AdtForms.{adt_seen};
ghost use Rattle.name_table.specs.Forms.{all_numbered, finite_by, numbered_by};
ghost use Rattle.name_table.specs.Holding.{IsOrderOf, IsOrderWith};
ghost use Rattle.src_tree.specs.View.{parts_in};
ghost use Rattle.typing_rules.specs.Collected as walk;
ghost use Rattle.typing_rules.specs.Collected.{adt_item, starting_with};
ghost use Rattle.typing_rules.specs.Items.{item_syns, items_of};

use crate::containment::holds_itself;
use crate::derives::{AdtForm, adt_at, next_number};
use crate::order::order_of;
use mir_base::{Pos, Rule, RuleError};
use mir_ty::{Items, Ty};
use src_tree::NodePiece;
use std::alloc::Global;
use typeck_heads::{intern, obeys};

/// The struct or enum with this number does not hold itself.
fn is_finite(
    items: &mut Items,
    alloc: Global,
    order: &[u32],
    number: u32,
    at: Pos,
) -> Result<(), RuleError>
    requires { IsOrderWith items.old order.now (Ty.Adt number) }
    ensures { Answers (walk.is_finite number at (starting_with items.old)) result items.new }
{
    let ty = intern(items, Ty::Adt(number))?;
    let holds = holds_itself(items, alloc, order, ty)?;
    obeys(Rule::T09, at, !holds)
}

fn finite_at(
    items: &mut Items,
    alloc: Global,
    order: &[u32],
    number: u32,
    adt: Option<AdtForm>,
) -> Result<u32, RuleError>
    requires { IfSome adt (λ _. IsOrderWith items.old order.now (Ty.Adt number)) }
    ensures { Answers (finite_by number (adt_seen adt.entry) (starting_with items.old)) result items.new }
{
    match adt {
        Some(adt) => {
            is_finite(items, alloc, order, number, adt.at)?;
            next_number(number)
        }
        None => Ok(number),
    }
}

/// Each struct and enum by itself: none holds itself.
fn one_by_one(
    items: &mut Items,
    alloc: Global,
    order: &[u32],
    pieces: &[NodePiece],
) -> Result<(), RuleError>
    requires { IsOrderOf items.old order.now 0 (filter_map adt_item (item_syns (items_of (parts_in pieces.now)))) }
    ensures { Answers (walk.all_finite 0 (filter_map adt_item (item_syns (items_of (parts_in pieces.now)))) (starting_with items.old)) result items.new }
{
    let mut number = 0;
    for piece in pieces {
        number = finite_at(items, alloc, order, number, adt_at(piece))?;
    }
    Ok(())
}

fn numbered_at(items: &mut Items, number: u32, adt: Option<AdtForm>) -> Result<u32, RuleError>
    ensures { Answers (numbered_by number (adt_seen adt.entry) (starting_with items.old)) result items.new }
{
    match adt {
        Some(_) => {
            intern(items, Ty::Adt(number))?;
            next_number(number)
        }
        None => Ok(number),
    }
}

/// All structs and enums get numbers as types.
fn number_adts(items: &mut Items, pieces: &[NodePiece]) -> Result<(), RuleError>
    ensures { Answers (all_numbered 0 (filter_map adt_item (item_syns (items_of (parts_in pieces.now)))) (starting_with items.old)) result items.new }
{
    let mut number = 0;
    for piece in pieces {
        number = numbered_at(items, number, adt_at(piece))?;
    }
    Ok(())
}

/// An order of the types with all structs and enums among them.
fn order_with_all(items: &Items, alloc: Global, pieces: &[NodePiece]) -> Result<Vec<u32>, RuleError>
    ensures order { IfOk result (λ order. IsOrderOf items.now order.items 0 (filter_map adt_item (item_syns (items_of (parts_in pieces.now))))) }
    ensures short { IfErr result (λ e. e ≡ RuleError.Memory) }
{
    let Ok(mut all) = items.copy(alloc) else {
        return Err(RuleError::Memory);
    };
    let order = match number_adts(&mut all, pieces) {
        Ok(()) => order_of(&all, alloc),
        Err(_) => Err(RuleError::Memory),
    };
    drop(all);
    order
}

/// No struct or enum holds itself.
pub fn finite(items: &mut Items, alloc: Global, pieces: &[NodePiece]) -> Result<(), RuleError>
    ensures { Answers (walk.all_finite 0 (filter_map adt_item (item_syns (items_of (parts_in pieces.now)))) (starting_with items.old)) result items.new }
{
    let order = order_with_all(items, alloc, pieces)?;
    one_by_one(items, alloc, order.as_slice(), pieces)
}
