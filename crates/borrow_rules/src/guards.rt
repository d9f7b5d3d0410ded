//! Guards: none changes a place that overlaps its scrutinee, nor stores into a binding of its arm or borrows one by
//! `&mut`.
ghost use Rattle.std.specs.Prelude.{◌≡◌, ◌==◌, ◌&&◌, ◌||◌, ◌++◌, ◌∷◌, [], IfOk, OnOk, map};
ghost use Rattle.std.specs.List.{filter_map, list_any};
ghost use Rattle.typing_rules.specs.Accesses as rules;
ghost use Rattle.typing_rules.specs.Accesses.{◌⊕◌};
ghost use Rattle.borrow_rules.specs.AccessView.{accessed_in, aliases_in, bound_in, key_if_any, place_if_any, told_in};

use crate::access::{changes, replaces};
use crate::bindings::BoundPart;
use crate::place::{copy_place, overlap_if_any};
use crate::{AccessPlace, Accessed, Alias, CollectedAccesses};
use mir_base::{Key, List, NoMemory, Pos};
use std::alloc::Global;

fn has_key(key: Key, bounds: &[BoundPart]) -> bool
    ensures { result ≡ list_any (λ bound. bound.key.0 == key.0) bounds.now }
{
    bounds.iter().any(|bound| bound.key.0 == key.0)
}

/// Whether a key is that of a binding.
fn is_bound(root: Option<Key>, bounds: &[BoundPart]) -> bool
    ensures { result ≡ rules.is_bound (key_if_any root) (map bound_in bounds.now) }
{
    match root {
        Some(root) => has_key(root, bounds),
        None => false,
    }
}

fn is_against_guard(
    scrutinee: &Option<AccessPlace>,
    bounds: &[BoundPart],
    accessed: &Accessed,
) -> bool
    ensures { result ≡ ((rules.changes (accessed_in accessed.now).access && rules.overlap_if_any (place_if_any scrutinee.now) (accessed_in accessed.now).place) || (rules.replaces (accessed_in accessed.now).access && rules.is_bound (accessed_in accessed.now).root (map bound_in bounds.now))) }
{
    (changes(accessed.access) && overlap_if_any(scrutinee, &accessed.place))
        || (replaces(accessed.access) && is_bound(accessed.root, bounds))
}

/// Where a guard does what it may not.
fn against_guard(
    alloc: Global,
    scrutinee: &Option<AccessPlace>,
    bounds: &[BoundPart],
    accesses: &[Accessed],
) -> Result<Vec<Pos>, NoMemory>
    ensures { IfOk result (λ conflicts. conflicts.items ≡
        filter_map (rules.against_guard (place_if_any scrutinee.now) (map bound_in bounds.now)) (map accessed_in accesses.now)) }
{
    let mut conflicts = Vec::new(alloc);
    for accessed in accesses {
        if is_against_guard(scrutinee, bounds, accessed) {
            conflicts.push(accessed.at)?;
        }
    }
    Ok(conflicts)
}

/// What is told of a guard, and where it does what it may not.
pub fn of_guard(
    alloc: Global,
    scrutinee: &Option<AccessPlace>,
    bounds: &[BoundPart],
    told: CollectedAccesses,
    out: &mut CollectedAccesses,
) -> Result<(), NoMemory>
    ensures { OnOk result (told_in out.new ≡ told_in out.old ⊕
        rules.of_guard (place_if_any scrutinee.now) (map bound_in bounds.now) (told_in told)) }
{
    let conflicts = against_guard(alloc, scrutinee, bounds, told.accesses.as_slice())?;
    out.append(told)?;
    out.append_conflicts(conflicts)
}

/// An alias more, of a place that may be a temporary.
fn add_alias(
    alloc: Global,
    key: Key,
    place: &Option<AccessPlace>,
    all: &mut List<Alias>,
) -> Result<(), NoMemory>
    ensures { OnOk result (aliases_in all.new ≡ aliases_in all.old ++ (key.0, place_if_any place.now) ∷ []) }
{
    let place = copy_place(alloc, place)?;
    all.push(Alias { key, place })
}

/// The aliases inside a guard: the bindings of its arm, before those around it.
pub fn aliases_with(
    alloc: Global,
    bounds: &[BoundPart],
    aliases: &[Alias],
) -> Result<List<Alias>, NoMemory>
    ensures { IfOk result (λ all. aliases_in all ≡ rules.aliases_with (map bound_in bounds.now) (aliases_in aliases.now)) }
{
    let mut all = List::new(alloc);
    for bound in bounds {
        add_alias(alloc, bound.key, &bound.taken.place, &mut all)?;
    }
    for alias in aliases {
        add_alias(alloc, alias.key, &alias.place, &mut all)?;
    }
    Ok(all)
}
