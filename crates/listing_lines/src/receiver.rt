//! The type of `self` in a trait's methods.
ghost use Rattle.std.specs.Prelude.{◌≡◌, ◌<◌, length};
ghost use Rattle.std.specs.Option.{option_copied};
ghost use Rattle.listing_parts.specs.Found.{seen};
ghost use Rattle.listing_parts.specs.Table.{AreRead};
ghost use Rattle.listing_lines.specs.TraitReading as reading;
ghost use Rattle.listing_lines.specs.TraitsRead.{GivesSelf};

use listing_parts::{Heads, give_number, name, strip};
use mir_base::NoMemory;
use mir_ty::{Items, Ty, TyId};

fn self_mark(text: &[u8]) -> Option<(bool, &[u8])>
    ensures { seen result ≡ reading.self_mark text.now }
{
    match strip(text, "&dyn ") {
        Some(rest) => Some((false, rest)),
        None => Some((true, strip(text, "&mut dyn ")?)),
    }
}

/// What stands behind the trait's own name.
fn own_name<'a>(own: &str, text: &'a [u8]) -> Option<&'a [u8]>
    ensures { option_copied result ≡ reading.own_read own.now text.now }
{
    let (word, rest) = name(text);
    if word == own.as_bytes() {
        Some(rest)
    } else {
        None
    }
}

/// Whether the reference of `self` is `&mut`, and what stands behind its type.
pub fn receiver<'a>(own: &str, text: &'a [u8]) -> Option<(bool, &'a [u8])>
    ensures { seen result ≡ reading.self_read own.now text.now }
{
    let (unique, rest) = self_mark(text)?;
    Some((unique, own_name(own, rest)?))
}

fn reference(unique: bool, to: TyId) -> Ty
    ensures { result ≡ reading.reference_to unique to }
{
    if unique {
        Ty::Unique(to)
    } else {
        Ty::Shared(to)
    }
}

/// The type of `self` in the trait with number `n`.
pub fn self_type(heads: &Heads, items: &mut Items, n: u32, unique: bool) -> Result<TyId, NoMemory>
    requires read { AreRead heads.now items.old.types }
    requires head { n < length heads.now.traits }
    ensures { GivesSelf heads.now items.old items.new n unique result }
{
    match give_number(heads, items, Ty::Dyn(n)) {
        Ok(to) => give_number(heads, items, reference(unique, to)),
        Err(NoMemory) => Err(NoMemory),
    }
}
