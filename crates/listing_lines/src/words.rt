//! Numbers and names in their places.
ghost use Rattle.std.specs.Prelude.{◌≡◌, option_map};
ghost use Rattle.std.specs.Option.{option_copied};
ghost use Rattle.listing_parts.specs.Found.{seen};
ghost use Rattle.listing_lines.specs.LineReading as reading;

use listing_parts::{Heads, name, plain_number, strip};

/// What stands behind the number that is due.
pub fn due_number(n: u32, text: &[u8]) -> Option<&[u8]>
    ensures { option_copied result ≡ reading.due_number n text.now }
{
    let (k, rest) = plain_number(text)?;
    if k == n { Some(rest) } else { None }
}

/// The longest name of one byte or more at the front of a text, and what stands behind it, where the name is UTF-8.
pub fn utf8_name(text: &[u8]) -> Option<(&str, &[u8])>
    ensures { option_map (λ f. (f.0.now, f.1.now)) result ≡ reading.name_read text.now }
{
    let (word, rest) = name(text);
    if word.is_empty() {
        return None;
    }
    match str::from_utf8(word) {
        Ok(word) => Some((word, rest)),
        Err(_) => None,
    }
}

/// The number of the struct or enum whose name stands in front.
pub fn known_adt<'a>(heads: &Heads, text: &'a [u8]) -> Option<(u32, &'a [u8])>
    ensures { seen result ≡ reading.known_adt_read heads.now text.now }
{
    let (word, rest) = name(text);
    let n = heads.adt_number(word);
    match heads.adt(n) {
        Some(_) => Some((n, rest)),
        None => None,
    }
}

/// The number of the trait whose name stands in front.
pub fn known_trait<'a>(heads: &Heads, text: &'a [u8]) -> Option<(u32, &'a [u8])>
    ensures { seen result ≡ reading.known_trait_read heads.now text.now }
{
    let (word, rest) = name(text);
    let n = heads.trait_number(word);
    match heads.trait_def(n) {
        Some(_) => Some((n, rest)),
        None => None,
    }
}
