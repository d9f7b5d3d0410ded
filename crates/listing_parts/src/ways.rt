//! Ways out of what may panic.
ghost use Rattle.std.specs.Prelude.{◌≡◌};
ghost use Rattle.listing_write.specs.Reading.Parts as reading;
ghost use Rattle.listing_parts.specs.Found.{seen};

use crate::words::{number, strip};
use cfg_graph::Unwind;

/// Where a panic goes on.
pub fn unwind(text: &[u8]) -> Option<(Unwind, &[u8])>
    ensures { seen result ≡ reading.unwind_read text.now }
{
    if let Some((block, rest)) = number(text) {
        Some((Unwind::Block(block), rest))
    } else if let Some(rest) = strip(text, "resume") {
        Some((Unwind::Resume, rest))
    } else {
        Some((Unwind::Abort, strip(text, "abort")?))
    }
}

/// Where what may panic goes on, and where its panic does.
pub fn ways(text: &[u8]) -> Option<((u32, Unwind), &[u8])>
    ensures { seen result ≡ reading.ways_read text.now }
{
    let (next, rest) = number(strip(text, " then ")?)?;
    let (unwind, rest) = unwind(strip(rest, " unwind ")?)?;
    Some(((next, unwind), rest))
}
