//! Finding a destination that is pending.
ghost use Rattle.std.specs.Prelude.{◌≡◌, MatchOption};
ghost use Rattle.std.specs.List.{position};
ghost use Rattle.unwind_tree.specs.Rooms.{has_key, IsAbsentFrom, IsFoundAt, IsTakenFrom};

use crate::scope::{Pending, Scope};
use mir_base::{Key, List};

/// Where in a scope a destination with this key is pending.
fn place_of(pending: &[Pending], key: Key) -> Option<usize>
    ensures { result ≡ position (has_key key) pending.now }
{
    pending
        .iter()
        .position(|destination| destination.scheduled.key == key)
}

/// Where in the innermost scope that has one a destination with this key is pending: the scope, and the place in it.
fn find(scopes: &[Scope], key: Key) -> Option<(usize, usize)>
    ensures { MatchOption result (IsAbsentFrom key 0 scopes.now) (λ found. IsFoundAt key found.0 found.1 scopes.now) }
{
    for number in (0..scopes.len()).rev() {
        if let Some(at) = place_of(scopes[number].pending.as_slice(), key) {
            return Some((number, at));
        }
    }
    None
}

/// Takes a destination with this key out of the innermost scope that has one; `None` comes where none has.
pub fn take_pending(scopes: &mut List<Scope>, key: Key) -> Option<Pending>
    ensures { MatchOption result (IsAbsentFrom key 0 scopes.old) (λ taken. IsTakenFrom key taken scopes.old scopes.new) }
{
    match find(scopes.as_slice(), key) {
        Some((number, at)) => Some(scopes.element_mut(number).pending.remove(at)),
        None => None,
    }
}
