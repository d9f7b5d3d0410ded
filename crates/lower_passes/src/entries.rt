//! Lists of entries.
#![tactic(auto, using(crate::proofs::Lists::entries_last))]

ghost use Rattle.std.specs.Prelude.{◌≡◌, ◌∷◌, IfOk};
ghost use Rattle.lower_code.specs.View.{entry_of, keys_seen};
ghost use Rattle.src_meaning.specs.Scopes as plain;
ghost use Rattle.lower_passes.specs.Scoped as seen;
ghost use Rattle.lower_passes.specs.Scoped.{held};

use crate::scope::Entries;
use bumpalo::Bump;
use lower_code::Entry;
use mir_base::{Key, NoMemory};

/// An entry that is younger than others.
pub fn push_entry<'a>(
    bump: &'a Bump,
    entry: Entry,
    older: Entries<'a>,
) -> Result<Entries<'a>, NoMemory>
    ensures { IfOk result (λ all. held all ≡ entry_of entry ∷ held older.entry) }
{
    let older: &'a Entries<'a> = bump.try_alloc(older)?;
    Ok(Entries::Youngest(entry, older))
}

/// Whether an entry has a key.
fn has_key(entries: Entries, key: Key) -> bool
    ensures { result ≡ seen.has_key key.0 (held entries.entry) }
{
    match entries {
        Entries::NoEntry => false,
        Entries::Youngest(entry, older) => {
            if entry.key == key {
                true
            } else {
                has_key(*older, key)
            }
        }
    }
}

/// The entries but those with a key, each made anew.
fn made_without<'a>(bump: &'a Bump, key: Key, entries: Entries<'a>) -> Result<Entries<'a>, NoMemory>
    ensures { IfOk result (λ left. held left ≡ plain.without_key key.0 (held entries.entry)) }
{
    match entries {
        Entries::NoEntry => Ok(entries),
        Entries::Youngest(one, older) => {
            let left = made_without(bump, key, *older)?;
            if one.key == key {
                Ok(left)
            } else {
                push_entry(bump, one, left)
            }
        }
    }
}

/// The entries but those with a key.
pub fn without_key<'a>(
    bump: &'a Bump,
    key: Key,
    entries: Entries<'a>,
) -> Result<Entries<'a>, NoMemory>
    ensures { IfOk result (λ left. held left ≡ plain.without_key key.0 (held entries.entry)) }
{
    if has_key(entries, key) {
        made_without(bump, key, entries)
    } else {
        Ok(entries)
    }
}

/// The youngest entries go as long as they have these keys, the last first.
fn strip_entries<'a>(keys: &[Key], entries: Entries<'a>) -> Entries<'a>
    ensures { plain.without_keys (keys_seen keys.now) (held result) ≡ plain.without_keys (keys_seen keys.now) (held entries.entry) }
{
    let mut rest = entries;
    let mut left = keys.len();
    while left > 0 {
        left -= 1;
        match rest {
            Entries::Youngest(entry, older) if entry.key == keys[left] => rest = *older,
            _ => return rest,
        }
    }
    rest
}

/// The entries but those with one of these keys. Operands are mostly the youngest entries, the last key's the first.
pub fn without_keys<'a>(
    bump: &'a Bump,
    keys: &[Key],
    entries: Entries<'a>,
) -> Result<Entries<'a>, NoMemory>
    ensures { IfOk result (λ left. held left ≡ plain.without_keys (keys_seen keys.now) (held entries.entry)) }
{
    let mut left = strip_entries(keys, entries);
    for key in keys {
        left = without_key(bump, *key, left)?;
    }
    Ok(left)
}
