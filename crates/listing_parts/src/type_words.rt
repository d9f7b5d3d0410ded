//! Types that are one word.
ghost use Rattle.std.specs.Prelude.{◌≡◌};
ghost use Rattle.cfg_graph.specs.WellFormed.NameFaults.{same_name};
ghost use Rattle.listing_parts.specs.TypeReading as reading;

use crate::numbers::whole_number;
use crate::{Heads, strip};
use mir_base::IntKind;
use mir_ty::Ty;

/// Whether a name is this word.
pub fn is_word(name: &[u8], word: &str) -> bool
    ensures { result ≡ same_name name.now word.now }
{
    name == word.as_bytes()
}

fn word_type(name: &[u8]) -> Option<Ty>
    ensures { result ≡ reading.word_type name.now }
{
    if is_word(name, "i32") {
        Some(Ty::Int(IntKind::I32))
    } else if is_word(name, "i64") {
        Some(Ty::Int(IntKind::I64))
    } else if is_word(name, "u32") {
        Some(Ty::Int(IntKind::U32))
    } else if is_word(name, "u64") {
        Some(Ty::Int(IntKind::U64))
    } else if is_word(name, "usize") {
        Some(Ty::Int(IntKind::Usize))
    } else if is_word(name, "bool") {
        Some(Ty::Bool)
    } else {
        None
    }
}

fn adt_type(heads: &Heads, name: &[u8]) -> Option<Ty>
    ensures { result ≡ reading.adt_type heads.now name.now }
{
    let n = heads.adt_number(name);
    match heads.adt(n) {
        Some(_) => Some(Ty::Adt(n)),
        None => None,
    }
}

fn named_type(heads: &Heads, name: &[u8]) -> Option<Ty>
    ensures { result ≡ reading.named_type heads.now name.now }
{
    match strip(name, "closure#") {
        Some(number) => Some(Ty::Closure(whole_number(number)?)),
        None => adt_type(heads, name),
    }
}

/// The type that a word is, where it is one.
pub fn type_of_word(heads: &Heads, name: &[u8]) -> Option<Ty>
    ensures { result ≡ reading.type_of_word heads.now name.now }
{
    match word_type(name) {
        Some(ty) => Some(ty),
        None => named_type(heads, name),
    }
}
