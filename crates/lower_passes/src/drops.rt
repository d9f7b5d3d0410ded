//! What a panic drops.
#![tactic(auto, using(crate::proofs::Lists::entries_last))]

ghost use Rattle.std.specs.Prelude.{◌≡◌, ◌∷◌, ◌++◌, ◌↔◌, [], IfOk, IsTrue, OnOk, map};
ghost use Rattle.lower_code.specs.View.{entry_of};
ghost use Rattle.src_meaning.specs.Scopes.{needing_drop, all_entries};
ghost use Rattle.lower_passes.specs.Scoped.{entries_of, held, scopes_of};

use crate::scope::{Entries, Scope, Scopes};
use lower_code::Entry;
use mir_base::{List, NoMemory};
use mir_ty::Items;

/// An entry is put behind others, if its type needs a drop.
fn add_if_needing(items: &Items, entry: &Entry, drops: &mut Vec<Entry>) -> Result<(), NoMemory>
    ensures { OnOk result (map entry_of drops.new.items ≡
        map entry_of drops.old.items ++ needing_drop items.now (entry_of entry.now ∷ [])) }
{
    if items.needs_drop(entry.ty) {
        drops.push(*entry)?;
    }
    Ok(())
}

/// The entries whose types need a drop are put behind others, the youngest first.
fn add_needing(items: &Items, entries: &Entries, drops: &mut Vec<Entry>) -> Result<(), NoMemory>
    ensures { OnOk result (map entry_of drops.new.items ≡
        map entry_of drops.old.items ++ needing_drop items.now (held entries.entry.now)) }
{
    let mut at = entries;
    while let Entries::Youngest(entry, older) = at {
        add_if_needing(items, entry, drops)?;
        at = older;
    }
    Ok(())
}

/// What a panic drops in a scope is put behind others, the youngest first.
fn add_scope(items: &Items, scope: &Scope, drops: &mut Vec<Entry>) -> Result<(), NoMemory>
    ensures { OnOk result (map entry_of drops.new.items ≡ map entry_of drops.old.items
        ++ needing_drop items.now (held scope.now.pending ++ held scope.now.entries)) }
{
    add_needing(items, &scope.pending, drops)?;
    add_needing(items, &scope.entries, drops)
}

/// Whether no type of these entries needs a drop.
pub fn drops_none(items: &Items, entries: &Entries) -> bool
    ensures { IsTrue result ↔ (needing_drop items.now (held entries.entry.now) ≡ []) }
{
    match entries {
        Entries::NoEntry => true,
        Entries::Youngest(entry, older) => {
            if !items.needs_drop(entry.ty) {
                drops_none(items, older)
            } else {
                false
            }
        }
    }
}

/// What a panic drops in these scopes, the youngest last: the entries and pending destinations whose types need a drop.
/// They take the memory of a list that is no longer needed, whose entries go. It costs as many steps as there are entries.
///
/// # Errors
///
/// [`NoMemory`] where memory is wanted.
pub fn panic_drops(
    items: &Items,
    scopes: &Scopes,
    room: List<Entry>,
) -> Result<List<Entry>, NoMemory>
    ensures { IfOk result (λ drops. entries_of drops ≡ needing_drop items.now (all_entries (scopes_of scopes.entry.now))) }
{
    let mut drops = room.into_vec();
    drops.clear();
    let mut at = scopes;
    while let Scopes::Innermost(scope, around) = at {
        add_scope(items, scope, &mut drops)?;
        at = around;
    }
    drops.reverse();
    Ok(List::from_vec(drops))
}
