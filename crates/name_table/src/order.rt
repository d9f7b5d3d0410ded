//! Places of types, in which types that hold one another share one and each other type stands behind what it holds:
//! the strongly connected components of what holds what, in the order in which Tarjan's search in depth closes them.
//! That no type stands before what it holds is tested afterwards, so the search itself promises nothing.
ghost use Rattle.std.specs.Prelude.{◌≡◌, ◌<◌, ◌^◌, IfErr, IfOk};
ghost use Rattle.mir_base.specs.declared.rule.RuleError.{RuleError};
ghost use Rattle.name_table.specs.Holding.{IsOrder};

use crate::containment::{is_order, type_count};
use mir_base::{List, RuleError};
use mir_ty::{Items, Ty, TyId};
use std::alloc::Global;

/// What is left to do in a search.
#[derive(Clone, Copy, Drop)]
enum TypeVisit {
    Enter(TyId),
    /// What is reached from a type is reached from the one that holds it.
    Reach { from: TyId, to: TyId },
    /// All that it holds has been gone over.
    Leave(TyId),
}

/// How far a search has come, with a number or a place for each type.
#[derive(Drop)]
struct TypeSearch {
    /// The numbers of types in the order in which they were entered, from 1; 0 for one that was not.
    entered: Vec<u32>,
    /// The least number that is known to be reached, among types without a place.
    reached: Vec<u32>,
    places: Vec<u32>,
    /// Types that were entered and have no place yet.
    open: Vec<TyId>,
    left: Vec<TypeVisit>,
    next_number: u32,
    next_place: u32,
}

fn at(numbers: &[u32], id: TyId) -> u32 {
    match numbers.get(id.0 as usize) {
        Some(number) => *number,
        None => u32::MAX,
    }
}

fn put(numbers: &mut [u32], id: TyId, number: u32) {
    if let Some(place) = numbers.get_mut(id.0 as usize) {
        *place = number;
    }
}

fn later(left: &mut Vec<TypeVisit>, visit: TypeVisit) -> Result<(), RuleError>
    ensures { IfErr result (λ e. e ≡ RuleError.Memory) }
{
    match left.push(visit) {
        Ok(()) => Ok(()),
        Err(_) => Err(RuleError::Memory),
    }
}

/// A type that another holds is entered next, and then gone back from.
fn part_later(left: &mut Vec<TypeVisit>, from: TyId, to: TyId) -> Result<(), RuleError>
    ensures { IfErr result (λ e. e ≡ RuleError.Memory) }
{
    later(left, TypeVisit::Reach { from, to })?;
    later(left, TypeVisit::Enter(to))
}

fn parts_later(left: &mut Vec<TypeVisit>, from: TyId, parts: &List<TyId>) -> Result<(), RuleError>
    ensures { IfErr result (λ e. e ≡ RuleError.Memory) }
{
    for part in parts.as_slice() {
        part_later(left, from, *part)?;
    }
    Ok(())
}

fn fields_later(
    items: &Items,
    left: &mut Vec<TypeVisit>,
    from: TyId,
    number: u32,
) -> Result<(), RuleError>
    ensures { IfErr result (λ e. e ≡ RuleError.Memory) }
{
    let Some(adt) = items.adt(number) else {
        return Ok(());
    };
    for variant in adt.variants.as_slice() {
        parts_later(left, from, &variant.fields)?;
    }
    Ok(())
}

/// What a type holds comes next.
fn held_later(items: &Items, left: &mut Vec<TypeVisit>, id: TyId) -> Result<(), RuleError>
    ensures { IfErr result (λ e. e ≡ RuleError.Memory) }
{
    match items.ty(id) {
        Some(Ty::Adt(number)) => fields_later(items, left, id, *number),
        Some(Ty::Tuple(parts)) => parts_later(left, id, parts),
        Some(Ty::Array(element, _)) => part_later(left, id, *element),
        _ => Ok(()),
    }
}

/// A type gets the next number, and what it holds comes next.
fn open(items: &Items, search: &mut TypeSearch, id: TyId) -> Result<(), RuleError>
    ensures { IfErr result (λ e. e ≡ RuleError.Memory) }
{
    search.next_number = search.next_number.saturating_add(1);
    put(search.entered.as_mut_slice(), id, search.next_number);
    put(search.reached.as_mut_slice(), id, search.next_number);
    let Ok(()) = search.open.push(id) else {
        return Err(RuleError::Memory);
    };
    later(&mut search.left, TypeVisit::Leave(id))?;
    held_later(items, &mut search.left, id)
}

fn enter(items: &Items, search: &mut TypeSearch, id: TyId) -> Result<(), RuleError>
    ensures { IfErr result (λ e. e ≡ RuleError.Memory) }
{
    if at(search.entered.as_slice(), id) == 0 {
        open(items, search, id)
    } else {
        Ok(())
    }
}

fn reach(search: &mut TypeSearch, from: TyId, to: TyId) {
    let number = at(search.reached.as_slice(), to);
    if number < at(search.reached.as_slice(), from) {
        put(search.reached.as_mut_slice(), from, number);
    }
}

/// The types that were opened from this one on share the next place.
fn close(search: &mut TypeSearch, id: TyId) {
    let place = search.next_place;
    search.next_place = place.saturating_add(1);
    while let Some(member) = search.open.pop() {
        put(search.places.as_mut_slice(), member, place);
        put(search.reached.as_mut_slice(), member, u32::MAX);
        if member.0 == id.0 {
            return;
        }
    }
}

fn leave(search: &mut TypeSearch, id: TyId) {
    if at(search.reached.as_slice(), id) == at(search.entered.as_slice(), id) {
        close(search, id);
    }
}

/// Goes on until nothing is left to do.
fn search_all(items: &Items, search: &mut TypeSearch) -> Result<(), RuleError>
    ensures { IfErr result (λ e. e ≡ RuleError.Memory) }
{
    for _ in 0..u64::MAX {
        match search.left.pop() {
            Some(TypeVisit::Enter(id)) => enter(items, search, id)?,
            Some(TypeVisit::Reach { from, to }) => reach(search, from, to),
            Some(TypeVisit::Leave(id)) => leave(search, id),
            None => return Ok(()),
        }
    }
    Ok(())
}

fn zeros(alloc: Global, count: usize) -> Result<Vec<u32>, RuleError>
    ensures { IfErr result (λ e. e ≡ RuleError.Memory) }
{
    match vec![in alloc; 0u32; count] {
        Ok(numbers) => Ok(numbers),
        Err(_) => Err(RuleError::Memory),
    }
}

/// A search with all types to be entered.
fn search_for(alloc: Global, count: usize) -> Result<TypeSearch, RuleError>
    requires { count < 2 ^ 32 }
    ensures { IfErr result (λ e. e ≡ RuleError.Memory) }
{
    let mut search = TypeSearch {
        entered: zeros(alloc, count)?,
        reached: zeros(alloc, count)?,
        places: zeros(alloc, count)?,
        open: Vec::new(alloc),
        left: Vec::new(alloc),
        next_number: 0,
        next_place: 0,
    };
    for n in 0..count {
        later(&mut search.left, TypeVisit::Enter(TyId(n as u32)))?;
    }
    Ok(search)
}

fn places(items: &Items, alloc: Global) -> Result<Vec<u32>, RuleError>
    ensures { IfErr result (λ e. e ≡ RuleError.Memory) }
{
    let mut search = search_for(alloc, type_count(items))?;
    search_all(items, &mut search)?;
    Ok(search.places)
}

/// An order in which no type stands before what it holds. Types that hold one another share a place.
#[tactic(auto, using(crate::proofs::HeldTypes::no_order))]
pub fn order_of(items: &Items, alloc: Global) -> Result<Vec<u32>, RuleError>
    ensures order { IfOk result (λ order. IsOrder items.now order.items) }
    ensures short { IfErr result (λ e. e ≡ RuleError.Memory) }
{
    let order = places(items, alloc)?;
    if is_order(items, order.as_slice()) {
        Ok(order)
    } else {
        Ok(Vec::new(alloc))
    }
}
