//! Names and impls that were met before, by buckets: what leaves no trace in its bucket repeats none of them.
ghost use Rattle.std.specs.Prelude.{◌≡◌, ◌≢◌, ◌⊎◌, ◌<◌, ℕ, Some, IsTrue, length, slice_get};
ghost use Rattle.cfg_graph.specs.WellFormed.Buckets.{name_key as key_of_name, impl_key as key_of_impl, IsMarked};

use mir_base::Name;
use mir_ty::ImplDef;

/// How many buckets there are: more than names or impls in a listing.
pub const BUCKETS: usize = 131072;

/// Keys are below this, which is 251 times the number of buckets.
const KEYS: usize = 32899072;

/// In a bucket that nothing was put into.
const EMPTY: u8 = 0;

/// In a bucket that keys of more than one mark were put into.
const SEVERAL: u8 = 255;

/// The key of a name, by its bytes.
fn name_key(name: &Name) -> usize
    ensures value { result ≡ key_of_name name.now }
    ensures below { result < 32899072 }
{
    let mut key: usize = 0;
    for byte in name.as_bytes() {
        key = (key * 5167 + *byte as usize) % KEYS;
    }
    key
}

/// The key of an impl, by its trait and its type.
fn impl_key(def: &ImplDef) -> usize
    ensures value { result ≡ key_of_impl def.now }
    ensures below { result < 32899072 }
{
    (def.trait_no as usize * 81007 + def.adt as usize) % KEYS
}

/// What stands in a bucket with another mark in it, or none, when this mark is put into it.
fn bucket_with(before: u8, mark: u8) -> u8
    ensures marked { (result ≡ mark) ⊎ (result ≡ 255) }
    ensures several { before ≢ 0 → result ≡ 255 }
{
    if before == EMPTY { mark } else { SEVERAL }
}

/// Puts a key into its bucket, and says whether the bucket showed that it was not put there before.
fn put(buckets: &mut [u8], key: usize) -> bool
    requires enough { length buckets.old ≡ 131072 }
    requires below { key < 32899072 }
    ensures fresh { IsTrue result → IsMarked buckets.old key → ⊥ }
    ensures met { IsMarked buckets.new key }
    ensures kept { (other : ℕ) → IsMarked buckets.old other → IsMarked buckets.new other }
    ensures enough { length buckets.new ≡ 131072 }
{
    let at = key % BUCKETS;
    let mark = (key / BUCKETS + 1) as u8;
    let before = buckets[at];
    if before == mark || before == SEVERAL {
        return false;
    }
    buckets[at] = bucket_with(before, mark);
    true
}

/// Puts a name into its bucket, and says whether the bucket showed that it was not put there before.
pub fn meet(buckets: &mut [u8], name: &Name) -> bool
    requires { length buckets.old ≡ 131072 }
    ensures fresh { IsTrue result → IsMarked buckets.old (key_of_name name.now) → ⊥ }
    ensures met { IsMarked buckets.new (key_of_name name.now) }
    ensures kept { (other : ℕ) → IsMarked buckets.old other → IsMarked buckets.new other }
    ensures enough { length buckets.new ≡ 131072 }
{
    let key = name_key(name);
    put(buckets, key)
}

/// Puts an impl into its bucket, and says whether the bucket showed that it was not put there before.
pub fn meet_impl(buckets: &mut [u8], def: &ImplDef) -> bool
    requires { length buckets.old ≡ 131072 }
    ensures fresh { IsTrue result → IsMarked buckets.old (key_of_impl def.now) → ⊥ }
    ensures met { IsMarked buckets.new (key_of_impl def.now) }
    ensures kept { (other : ℕ) → IsMarked buckets.old other → IsMarked buckets.new other }
    ensures enough { length buckets.new ≡ 131072 }
{
    let key = impl_key(def);
    put(buckets, key)
}
