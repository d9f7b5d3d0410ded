//! Which names can stand in a listing.
ghost use Rattle.std.specs.Prelude.{◌≡◌, ◌==◌};
ghost use Rattle.std.specs.List.{list_any, list_all};
ghost use Rattle.cfg_graph.specs.WellFormed.NameFaults.{is_name as name_stands, is_adt_name as adt_name_stands, is_among, stands_in_names as byte_stands, type_words, same_name as names_same, marks};

use mir_base::Name;

/// The marks that end a name.
const MARKS: [u8; 12] = [
    b'(', b')', b'[', b']', b'{', b'}', b'<', b'>', b',', b';', b'&', b'!',
];

fn is_mark(byte: u8) -> bool
    ensures { result ≡ list_any (λ mark. byte == mark) marks }
{
    MARKS.iter().any(|mark| byte == *mark)
}

fn stands_in_names(byte: u8) -> bool
    ensures { result ≡ byte_stands byte }
{
    byte > 32 && !is_mark(byte)
}

fn all_stand(bytes: &[u8]) -> bool
    ensures { result ≡ list_all byte_stands bytes.now }
{
    bytes.iter().all(|byte| stands_in_names(*byte))
}

/// Whether a name is one or more characters above the space and has no mark in it.
pub fn is_name(name: &Name) -> bool
    ensures { result ≡ name_stands name.now }
{
    name.len() > 0 && all_stand(name.as_bytes())
}

pub fn is_same(name: &Name, word: &str) -> bool
    ensures { result ≡ names_same name.now word.now }
{
    name.as_str() == word
}

/// Whether a name is a word that begins another type.
fn is_type_word(name: &Name) -> bool
    ensures { result ≡ is_among type_words name.now }
{
    is_same(name, "i32")
        || is_same(name, "i64")
        || is_same(name, "u32")
        || is_same(name, "u64")
        || is_same(name, "usize")
        || is_same(name, "bool")
        || is_same(name, "Box")
        || is_same(name, "dyn")
}

/// Whether a name can be that of a struct or an enum.
pub fn is_adt_name(name: &Name) -> bool
    ensures { result ≡ adt_name_stands name.now }
{
    is_name(name) && !is_type_word(name) && !name.as_bytes().starts_with("closure#".as_bytes())
}
