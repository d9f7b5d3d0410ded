ghost use Rattle.std.specs.Prelude.{◌≡◌, ◌==◌, ◌+◌, ℕ, IfOk, length, map, slice_get};
ghost use Rattle.std.specs.List.{position};
ghost use Rattle.std.specs.Option.{option_map_or};
ghost use Rattle.src_meaning.specs.Locals.OfBody.{local_among};
ghost use Rattle.lower_locals.specs.Places.{found};
ghost use Rattle.lower_locals.specs.View.{entry_of, key_of, keys, tys};

use crate::Local;
use crate::places::NumbersByKey;
use mir_base::{Key, List, NoMemory};
use mir_ty::TyId;
use std::alloc::Global;
use std::marker::Model;

/// The locals of a body by number: 0 is that of the result. Looking up a key costs about the same for all locals.
#[derive(Drop)]
pub struct Locals {
    locals: List<Local>,
    /// For each key, the first local that has it.
    places: NumbersByKey,
}

impl Model for Locals {
    ghost use Rattle.std.specs.Prelude.{List as Listed, ℕ, ◌≡◌, ◌==◌, map};
    ghost use Rattle.std.specs.List.{position};
    ghost use Rattle.src_meaning.specs.Scopes.{Entry};
    ghost use Rattle.lower_locals.specs.Places.{found};
    ghost use Rattle.lower_locals.specs.View.{entry_of, key_of};

    ghost Value = { Listed Entry };

    ghost view = { λ table. map entry_of table.locals };

    ghost invariant = { λ table. (key : ℕ) →
        found table.places key ≡ position (λ k. k == key) (map key_of table.locals) };
}

impl Locals {
    /// A table of these locals, in their order.
    ///
    /// # Errors
    ///
    /// [`NoMemory`] where memory is wanted, and where there are more locals than 32 bits count.
    pub(crate) fn of(alloc: Global, locals: List<Local>) -> Result<Locals, NoMemory>
        ensures { IfOk result (λ table. table ≡ map entry_of locals) }
    {
        let places = first_places(alloc, locals.as_slice())?;
        Ok(Locals { locals, places })
    }

    /// The locals in the order of their numbers.
    pub fn as_slice(&self) -> &[Local]
        ensures { map entry_of result.now ≡ self.now }
    {
        self.locals.as_slice()
    }

    /// The number of the local that a key names, which is the first one that has it; `None` where the key names none.
    pub fn local_of(&self, key: Key) -> Option<u32>
        ensures first { result ≡ position (λ k. k == key.0) (keys self.now) }
        ensures among { local_among (keys self.now) key.0
            ≡ option_map_or (λ n. n) result (length (keys self.now) + key.0) }
    {
        self.places.find(key)
    }

    /// The type of a local by its number, and `None` where there is no such local.
    pub fn ty(&self, local: u32) -> Option<TyId>
        ensures { result ≡ slice_get (tys self.now) local }
    {
        match self.locals.get(local as usize) {
            Some(found) => Some(found.ty),
            None => None,
        }
    }
}

/// For how many keys of each local there is room in the row, at most. A body has some three nodes for each of its locals.
const KEYS_OF_A_LOCAL: usize = 8;

/// From which key on how many keys are in the row: all those of the locals, where these are near each other.
fn row_of(locals: &[Local]) -> (Key, usize) {
    let mut least = u32::MAX;
    let mut greatest = 0;
    for local in locals {
        least = least.min(local.key.0);
        greatest = greatest.max(local.key.0);
    }
    let count = (greatest.saturating_sub(least) as usize).saturating_add(1);
    (
        Key(least),
        count.min(locals.len().saturating_mul(KEYS_OF_A_LOCAL)),
    )
}

/// The first place of each key among locals. A place that is put in takes the place of the one before, so they are put
/// in from the last to the first.
fn first_places(alloc: Global, locals: &[Local]) -> Result<NumbersByKey, NoMemory>
    ensures { IfOk result (λ places. (key : ℕ) →
        found places key ≡ position (λ k. k == key) (map key_of locals.now)) }
{
    if locals.len() > u32::MAX as usize {
        return Err(NoMemory::past_32_bits());
    }
    let (first, count) = row_of(locals);
    let mut places = NumbersByKey::new(alloc, first, count)?;
    for number in (0..locals.len()).rev() {
        places.put(locals[number].key, number as u32)?;
    }
    Ok(places)
}
