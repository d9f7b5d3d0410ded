//! The lines of bodies, locals and blocks.
ghost use Rattle.std.specs.Prelude.{◌≡◌};
ghost use Rattle.std.specs.Option.{option_copied};
ghost use Rattle.listing_parts.specs.Found.{seen};
ghost use Rattle.listing_parts.specs.Table.{AreRead};
ghost use Rattle.listing_parts.specs.TypesRead.{FindsType};
ghost use Rattle.listing_lines.specs.LineReading as reading;
ghost use Rattle.listing_lines.specs.LinesRead.{seen_named};

use crate::words::{due_number, utf8_name};
use cfg_graph::Kind;
use listing_parts::{Heads, ReadError, plain_number, read_type, strip};
use mir_ty::{Items, TyId};
use std::alloc::Global;

/// The name and the number of parameters of the body with number `n`, and what stands behind its line, where the text
/// begins with it. The name is one or more characters, in UTF-8.
pub fn body_line(n: u32, text: &[u8]) -> Option<((&str, u32), &[u8])>
    ensures { seen_named result ≡ reading.body_read n text.now }
{
    let rest = strip(due_number(n, strip(text, "body ")?)?, " ")?;
    let (name, rest) = utf8_name(rest)?;
    let (params, rest) = plain_number(strip(rest, " ")?)?;
    Some(((name, params), strip(rest, "\n")?))
}

fn local_head(n: u32, text: &[u8]) -> Option<&[u8]>
    ensures { option_copied result ≡ reading.local_head n text.now }
{
    strip(due_number(n, strip(text, "local ")?)?, " ")
}

/// The type of the local with number `n`, and what stands behind its line. `Unreadable` comes where the text does not
/// begin with it; the table of the types may have grown then too.
pub fn local_line<'a>(
    alloc: Global,
    heads: &Heads,
    items: &mut Items,
    n: u32,
    text: &'a [u8],
) -> Result<(TyId, &'a [u8]), ReadError>
    requires { AreRead heads.now items.old.types }
    ensures { FindsType heads.now items.old items.new result (reading.local_read heads.now n text.now) }
{
    match local_head(n, text) {
        Some(rest) => match read_type(alloc, heads, items, rest) {
            Ok((id, rest)) => match strip(rest, "\n") {
                Some(rest) => Ok((id, rest)),
                None => Err(ReadError::Unreadable),
            },
            Err(error) => Err(error),
        },
        None => Err(ReadError::Unreadable),
    }
}

fn kind(text: &[u8]) -> Option<(Kind, &[u8])>
    ensures { seen result ≡ reading.kind_read text.now }
{
    if let Some(rest) = strip(text, "plain") {
        Some((Kind::Plain, rest))
    } else if let Some(rest) = strip(text, "turn") {
        Some((Kind::Turn, rest))
    } else {
        Some((Kind::Cleanup, strip(text, "cleanup")?))
    }
}

/// The kind and the rank of the block with number `n`, and what stands behind its line, where the text begins with it.
pub fn block_line(n: u32, text: &[u8]) -> Option<((Kind, u32), &[u8])>
    ensures { seen result ≡ reading.block_read n text.now }
{
    let rest = strip(due_number(n, strip(text, "block ")?)?, " ")?;
    let (kind, rest) = kind(rest)?;
    let (rank, rest) = plain_number(strip(rest, " rank ")?)?;
    Some(((kind, rank), strip(rest, "\n")?))
}
