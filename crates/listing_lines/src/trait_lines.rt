//! The lines of traits.
ghost use Rattle.std.specs.Prelude.{◌≡◌, ◌<◌, IfSome, IfOk, length};
ghost use Rattle.listing_write.specs.Types.{trait_name};
ghost use Rattle.listing_lines.specs.ItemsRead.{seen_name};
ghost use Rattle.listing_parts.specs.Table.{AreRead};
ghost use Rattle.listing_lines.specs.TraitReading as reading;
ghost use Rattle.listing_lines.specs.TraitsRead.{FindsTrait};

use crate::blank_name;
use crate::methods::read_methods;
use listing_parts::{Heads, ReadError, strip};
use mir_base::{List, Name, NoMemory};
use mir_ty::{Items, Sig, TraitDef};
use std::alloc::Global;

/// The name of the trait with number `n` among the heads, and what stands behind it.
fn own_head<'a>(heads: &Heads, n: u32, text: &'a [u8]) -> Option<(&'a str, &'a [u8])>
    ensures value { seen_name result ≡ reading.own_head heads.now n text.now }
    ensures named { IfSome result (λ f. (n < length heads.now.traits) × (f.0.now ≡ trait_name heads.now n)) }
{
    let (name, rest) = blank_name(strip(text, "trait ")?)?;
    let head = heads.trait_def(n)?;
    if name.as_bytes() == head.name.as_bytes() {
        Some((name, rest))
    } else {
        None
    }
}

fn make_trait(alloc: Global, name: &str, methods: List<Sig>) -> Result<TraitDef, NoMemory>
    ensures { IfOk result (λ def. def ≡ reading.trait_of name.now methods) }
{
    let name = Name::from_str(alloc, name)?;
    Ok(TraitDef { name, methods })
}

fn trait_behind<'a>(
    alloc: Global,
    heads: &Heads,
    items: &mut Items,
    n: u32,
    own: &str,
    text: &'a [u8],
) -> Result<(TraitDef, &'a [u8]), ReadError>
    requires read { AreRead heads.now items.old.types }
    requires head { n < length heads.now.traits }
    requires named { own.now ≡ trait_name heads.now n }
    ensures { FindsTrait heads.now items.old items.new n result (reading.trait_from heads.now own.now text.now) }
{
    match read_methods(alloc, heads, items, n, own, text) {
        Ok((methods, rest)) => match strip(rest, "\n") {
            Some(rest) => match make_trait(alloc, own, methods) {
                Ok(def) => Ok((def, rest)),
                Err(NoMemory) => Err(ReadError::NoMemory),
            },
            None => Err(ReadError::Unreadable),
        },
        Err(error) => Err(error),
    }
}

/// The trait with number `n`, whose line a text begins with, and what stands behind the line. It has the name of the
/// trait with this number among the heads, and `self` of each of its methods is a reference to `dyn` of it. Its types
/// stand in the items, to which it is not added. `Unreadable` comes where the text does not begin with such a line; the
/// table of the types may have grown then too.
pub fn trait_line<'a>(
    alloc: Global,
    heads: &Heads,
    items: &mut Items,
    n: u32,
    text: &'a [u8],
) -> Result<(TraitDef, &'a [u8]), ReadError>
    requires { AreRead heads.now items.old.types }
    ensures { FindsTrait heads.now items.old items.new n result (reading.trait_read heads.now n text.now) }
{
    match own_head(heads, n, text) {
        Some((own, rest)) => trait_behind(alloc, heads, items, n, own, rest),
        None => Err(ReadError::Unreadable),
    }
}
