//! What an exit drops.
ghost use Rattle.std.specs.Prelude.{◌≡◌, ◌≤◌, drop, length, IfOk};
ghost use Rattle.unwind_tree.specs.Trees.{left_by_exit, left_by_panic};
ghost use Rattle.unwind_tree.specs.Rooms.{seen_all};

use crate::places::{add_entries, add_pending};
use crate::scope::Scope;
use cfg_graph::Place;
use mir_base::{List, NoMemory};
use std::alloc::Global;

/// The scopes from a number on.
pub fn from_number(scopes: &[Scope], number: usize) -> &[Scope]
    requires { number ≤ length scopes.now }
    ensures { result.now ≡ drop number scopes.now }
{
    &scopes[number..]
}

/// What leaving scopes by any exit but a panic drops, the innermost scope first.
pub fn exit_places(alloc: Global, scopes: &[Scope]) -> Result<List<Place>, NoMemory>
    ensures { IfOk result (λ places. places ≡ left_by_exit (seen_all scopes.now)) }
{
    let mut places = List::new(alloc);
    for number in (0..scopes.len()).rev() {
        add_entries(alloc, scopes[number].entries.as_slice(), &mut places)?;
    }
    Ok(places)
}

/// What leaving scopes by a panic drops, the innermost scope first.
pub fn panic_places(alloc: Global, scopes: &[Scope]) -> Result<List<Place>, NoMemory>
    ensures { IfOk result (λ places. places ≡ left_by_panic (seen_all scopes.now)) }
{
    let mut places = List::new(alloc);
    for number in (0..scopes.len()).rev() {
        add_pending(alloc, scopes[number].pending.as_slice(), &mut places)?;
        add_entries(alloc, scopes[number].entries.as_slice(), &mut places)?;
    }
    Ok(places)
}
