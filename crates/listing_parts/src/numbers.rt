//! Numbers, exactly as they are written.
ghost use Rattle.std.specs.Prelude.{◌≡◌};
ghost use Rattle.listing_parts.specs.Found.{seen};
ghost use Rattle.listing_parts.specs.TypeReading as reading;

use crate::{number, strip};

/// A number of 32 bits at the front of a text, as it is written: a zero stands alone.
pub fn plain_number(text: &[u8]) -> Option<(u32, &[u8])>
    ensures { seen result ≡ reading.plain_number text.now }
{
    match strip(text, "0") {
        Some(rest) => Some((0, rest)),
        None => number(text),
    }
}

/// The number that a whole text is.
pub fn whole_number(text: &[u8]) -> Option<u32>
    ensures { result ≡ reading.whole_number text.now }
{
    match plain_number(text) {
        Some((n, [])) => Some(n),
        _ => None,
    }
}
