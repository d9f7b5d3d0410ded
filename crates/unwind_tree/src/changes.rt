//! Changes of one of the open scopes.
ghost use Rattle.std.specs.Prelude.{◌<◌, length, OnOk, OnErr};
ghost use Rattle.unwind_tree.specs.Rooms.{room_of, IsChangedAt, AsBefore, WithEntry, WithRoom, WithPending, Filled};

use crate::Scheduled;
use crate::scope::{Pending, Scope};
use mir_base::{List, NoMemory};

/// A scope has a youngest entry more.
pub fn add_entry(scopes: &mut List<Scope>, number: usize, entry: Scheduled) -> Result<(), NoMemory>
    requires { number < length scopes.old }
    ensures added { OnOk result (IsChangedAt number (WithEntry entry) scopes.old scopes.new) }
    ensures refused { OnErr result (IsChangedAt number AsBefore scopes.old scopes.new) }
{
    scopes.element_mut(number).entries.add(entry)
}

/// A scope has room for an entry more.
pub fn make_room(scopes: &mut List<Scope>, number: usize) -> Result<(), NoMemory>
    requires { number < length scopes.old }
    ensures made { OnOk result (IsChangedAt number WithRoom scopes.old scopes.new) }
    ensures refused { OnErr result (IsChangedAt number AsBefore scopes.old scopes.new) }
{
    scopes.element_mut(number).entries.make_room()
}

/// A destination is pending in a scope.
pub fn add_pending(
    scopes: &mut List<Scope>,
    number: usize,
    destination: Pending,
) -> Result<(), NoMemory>
    requires { number < length scopes.old }
    ensures added { OnOk result (IsChangedAt number (WithPending destination) scopes.old scopes.new) }
    ensures refused { OnErr result (IsChangedAt number AsBefore scopes.old scopes.new) }
{
    scopes.element_mut(number).pending.push(destination)?;
    Ok(())
}

/// A scope that has room has a youngest entry more, and room for one less.
pub fn fill(scopes: &mut List<Scope>, number: usize, entry: Scheduled)
    requires { 0 < room_of number scopes.old }
    ensures { IsChangedAt number (Filled entry) scopes.old scopes.new }
{
    scopes.element_mut(number).entries.fill(entry);
}
