//! How a type begins, and how it ends.
ghost use Rattle.std.specs.Prelude.{◌≡◌};
ghost use Rattle.std.specs.Option.{option_copied};
ghost use Rattle.listing_parts.specs.Found.{seen};
ghost use Rattle.listing_parts.specs.TypeReading as reading;

use crate::numbers::plain_number;
use crate::type_words::{is_word, type_of_word};
use crate::{Heads, name, strip};
use mir_ty::{Ty, TyId};

/// What stands around another type.
#[derive(Clone, Copy, Drop)]
pub enum TypeAround {
    Box,
    Array,
    Shared,
    Unique,
}

/// What a type begins with.
#[derive(Drop)]
pub enum Begin {
    /// A type without others in it.
    Whole(Ty),
    /// One other type follows.
    Around(TypeAround),
    /// A row of others follows.
    Row,
}

/// `&`, or `&mut` before a type; the name `mut` stands before a brace.
fn reference(text: &[u8]) -> (Begin, &[u8])
    ensures { (result.0, result.1.now) ≡ reading.reference_begin text.now }
{
    if let Some(rest) = strip(text, "mut ") {
        if strip(rest, "}").is_none() {
            return (Begin::Around(TypeAround::Unique), rest);
        }
    }
    (Begin::Around(TypeAround::Shared), text)
}

/// A type that begins with a mark.
fn read_marked(text: &[u8]) -> Option<(Begin, &[u8])>
    ensures { seen result ≡ reading.marked_begin text.now }
{
    if let Some(rest) = strip(text, "(") {
        Some((Begin::Row, rest))
    } else if let Some(rest) = strip(text, "[") {
        Some((Begin::Around(TypeAround::Array), rest))
    } else if let Some(rest) = strip(text, "!") {
        Some((Begin::Whole(Ty::Never), rest))
    } else {
        Some(reference(strip(text, "&")?))
    }
}

/// A `dyn` type behind its word.
fn object<'a>(heads: &Heads, text: &'a [u8]) -> Option<(Begin, &'a [u8])>
    ensures { seen result ≡ reading.object_begin heads.now text.now }
{
    let (name, rest) = name(strip(text, " ")?);
    let n = heads.trait_number(name);
    match heads.trait_def(n) {
        Some(_) => Some((Begin::Whole(Ty::Dyn(n)), rest)),
        None => None,
    }
}

/// A type that begins with a word.
fn read_worded<'a>(heads: &Heads, word: &[u8], rest: &'a [u8]) -> Option<(Begin, &'a [u8])>
    ensures { seen result ≡ reading.worded_begin heads.now word.now rest.now }
{
    if is_word(word, "Box") {
        Some((Begin::Around(TypeAround::Box), strip(rest, "<")?))
    } else if is_word(word, "dyn") {
        object(heads, rest)
    } else {
        Some((Begin::Whole(type_of_word(heads, word)?), rest))
    }
}

/// The beginning of a type, and what stands behind it.
pub fn type_begin<'a>(heads: &Heads, text: &'a [u8]) -> Option<(Begin, &'a [u8])>
    ensures { seen result ≡ reading.begin_read heads.now text.now }
{
    let (word, rest) = name(text);
    if word.is_empty() {
        read_marked(text)
    } else {
        read_worded(heads, word, rest)
    }
}

/// The length of an array behind its element.
fn array_end(text: &[u8]) -> Option<(u32, &[u8])>
    ensures { seen result ≡ reading.array_end text.now }
{
    let (n, rest) = plain_number(strip(text, "; ")?)?;
    Some((n, strip(rest, "]")?))
}

/// What ends a type behind the one in it: the length, which is 0 where there is none.
pub fn around_end(around: TypeAround, text: &[u8]) -> Option<(u32, &[u8])>
    ensures { seen result ≡ reading.around_end around text.now }
{
    match around {
        TypeAround::Box => Some((0, strip(text, ">")?)),
        TypeAround::Array => array_end(text),
        TypeAround::Shared => Some((0, text)),
        TypeAround::Unique => Some((0, text)),
    }
}

/// The type around another one.
pub fn around_type(around: TypeAround, inside: TyId, length: u32) -> Ty
    ensures { result ≡ reading.around_type around inside length }
{
    match around {
        TypeAround::Box => Ty::Boxed(inside),
        TypeAround::Array => Ty::Array(inside, length),
        TypeAround::Shared => Ty::Shared(inside),
        TypeAround::Unique => Ty::Unique(inside),
    }
}

/// What stands behind a row of types: one type has a comma behind it.
pub fn row_end<'a>(parts: &[TyId], text: &'a [u8]) -> Option<&'a [u8]>
    ensures { option_copied result ≡ reading.row_end parts.now text.now }
{
    match parts {
        [_] => strip(text, ",)"),
        _ => strip(text, ")"),
    }
}
