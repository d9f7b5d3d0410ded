//! Names of items and fields.
ghost use Rattle.std.specs.Prelude.{◌≡◌, IfOk};
ghost use Rattle.std.specs.Fmt.{decimal};
ghost use Rattle.cfg_graph.specs.WellFormed.NameFaults.{is_among, same_name, type_words};
ghost use Rattle.listing_lines.specs.ItemReading as reading;
ghost use Rattle.listing_lines.specs.ItemsRead.{seen_name};

use crate::utf8_name;
use listing_parts::strip;
use mir_base::{List, Name, NoMemory};
use std::alloc::Global;
use std::fmt::Write;

fn number_name(alloc: Global, n: usize) -> Result<Name, NoMemory>
    ensures { IfOk result (λ name. name ≡ decimal n) }
{
    let mut text = String::new(alloc);
    write!(text, "{n}")?;
    Ok(Name::from_string(text))
}

/// The names 0, 1 and so on.
pub fn field_names(alloc: Global, count: usize) -> Result<List<Name>, NoMemory>
    ensures { IfOk result (λ names. names ≡ reading.first_names count) }
{
    let mut names = List::new(alloc);
    for n in 0..count {
        names.push(number_name(alloc, n)?)?;
    }
    Ok(names)
}

/// A name in UTF-8 behind which a blank stands, and what stands behind that.
pub fn blank_name(text: &[u8]) -> Option<(&str, &[u8])>
    ensures { seen_name result ≡ reading.blank_name text.now }
{
    let (name, rest) = utf8_name(text)?;
    Some((name, strip(rest, " ")?))
}

fn is_word(name: &[u8], word: &str) -> bool
    ensures { result ≡ same_name name.now word.now }
{
    name == word.as_bytes()
}

/// Whether a name is a word of another type.
fn is_type_word(name: &[u8]) -> bool
    ensures { result ≡ is_among type_words name.now }
{
    is_word(name, "i32")
        || is_word(name, "i64")
        || is_word(name, "u32")
        || is_word(name, "u64")
        || is_word(name, "usize")
        || is_word(name, "bool")
        || is_word(name, "Box")
        || is_word(name, "dyn")
}

/// The name of a struct or enum, behind which a blank stands.
pub fn adt_name(text: &[u8]) -> Option<(&str, &[u8])>
    ensures { seen_name result ≡ reading.adt_name_read text.now }
{
    let (name, rest) = utf8_name(text)?;
    if is_type_word(name.as_bytes()) {
        return None;
    }
    match strip(name.as_bytes(), "closure#") {
        Some(_) => None,
        None => Some((name, strip(rest, " ")?)),
    }
}
