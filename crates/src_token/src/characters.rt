ghost use Rattle.std.specs.Prelude.{◌≡◌, ◌<◌, ◌≤◌, ◌+◌, ◌||◌, ◌==◌, IfOk, IfSome, length, position, slice_index, false, is_some, if◌then◌else◌};
ghost use Rattle.std.specs.List.{prefix_len, list_all};
ghost use Rattle.std.specs.Str.{bytes_eq, encode_utf8_all};
ghost use Rattle.unicode_ident.specs.Ident.{is_xid_start, is_xid_continue};
ghost use Rattle.src_token.specs.Beginnings.{beginning_of, is_identifier};
ghost use Rattle.src_token.specs.declared.piece.Beginning.{Beginning};
ghost use Rattle.src_token.specs.Comments.{opens, closes};
ghost use Rattle.src_token.specs.Marks.{one_mark};
ghost use Rattle.src_token.specs.Rows.{is_backslash, is_inside_text, is_inside_line};
ghost use Rattle.src_token.specs.Scanning.{closing};
ghost use Rattle.src_token.specs.Words.{keyword_of, keyword_among};

use crate::marks::mark_of_one;
use crate::{Beginning, KEYWORDS, Word};
use mir_base::{Name, NoMemory};
use std::alloc::Global;
use unicode_ident::{is_xid_continue, is_xid_start};

/// What kind of piece a character begins.
pub fn beginning(c: char) -> Beginning
    ensures { result ≡ beginning_of c }
{
    match c {
        ' ' | '\t' | '\r' | '\n' => Beginning::Blank,
        '0'..='9' => Beginning::Digit,
        '\'' => Beginning::Quote,
        '"' => Beginning::DoubleQuote,
        '/' => Beginning::Slash,
        '_' => Beginning::Letter,
        _ => other_beginning(c),
    }
}

/// How many characters at the beginning may go on an identifier.
pub fn run_length(rest: &[char]) -> usize
    ensures value { result ≡ prefix_len is_xid_continue rest.now }
    ensures within { result ≤ length rest.now }
{
    for (i, c) in rest.iter().enumerate() {
        if !is_xid_continue(*c) {
            return i;
        }
    }
    rest.len()
}

/// How many characters there are before the end of a line.
pub fn line_length(rest: &[char]) -> usize
    ensures value { result ≡ prefix_len is_inside_line rest.now }
    ensures within { result ≤ length rest.now }
{
    for (i, c) in rest.iter().enumerate() {
        if *c == '\n' {
            return i;
        }
    }
    rest.len()
}

/// How many characters there are before a quote or the end of a line.
pub fn text_length(rest: &[char]) -> usize
    ensures value { result ≡ prefix_len is_inside_text rest.now }
    ensures within { result ≤ length rest.now }
{
    for (i, c) in rest.iter().enumerate() {
        if *c == '"' || *c == '\n' {
            return i;
        }
    }
    rest.len()
}

/// How many characters there are before the first `\`, if there is one.
pub fn before_backslash(inside: &[char]) -> Option<usize>
    ensures value { result ≡ position is_backslash inside.now }
    ensures within { IfSome result (λ before. before < length inside.now) }
{
    inside.iter().position(|c| *c == '\\')
}

/// Whether characters are an identifier or a keyword.
pub fn is_an_identifier(name: &[char]) -> bool
    ensures { result ≡ is_identifier name.now }
{
    match name {
        [] => false,
        [c] => is_xid_start(*c),
        [c, others @ ..] => begins_an_identifier(*c) && all_continue(others),
    }
}

fn begins_an_identifier(c: char) -> bool
    ensures { result ≡ (is_xid_start c || (c == 95)) }
{
    is_xid_start(c) || c == '_'
}

fn all_continue(others: &[char]) -> bool
    ensures { result ≡ list_all is_xid_continue others.now }
{
    others.iter().all(|c| is_xid_continue(*c))
}

/// Whether characters are those of an ASCII text.
pub fn spells(text: &str, piece: &[char]) -> bool
    ensures { result ≡ bytes_eq text.now piece.now }
{
    let bytes = text.as_bytes();
    if bytes.len() != piece.len() {
        return false;
    }
    for (i, byte) in bytes.iter().enumerate() {
        if u32::from(piece[i]) != u32::from(*byte) {
            return false;
        }
    }
    true
}

/// The keyword that characters are, if they are one.
#[tactic(auto, unfolding(crate::specs::Words::keyword_of))]
pub fn keyword(piece: &[char]) -> Option<Word>
    ensures { result ≡ keyword_of piece.now }
{
    if piece.len() > 8 {
        return None;
    }
    match piece.len() {
        0 | 1 => None,
        2 => keyword_in(&KEYWORDS[0..5], piece),
        3 => keyword_in(&KEYWORDS[5..16], piece),
        4 => keyword_in(&KEYWORDS[16..26], piece),
        5 => keyword_in(&KEYWORDS[26..40], piece),
        6 => keyword_in(&KEYWORDS[40..47], piece),
        7 => keyword_in(&KEYWORDS[47..49], piece),
        _ => keyword_in(&KEYWORDS[49..52], piece),
    }
}

fn keyword_in(table: &[(&str, Word)], piece: &[char]) -> Option<Word>
    ensures { result ≡ keyword_among (λ entry. entry.0.now) (λ entry. entry.1) table.now piece.now }
{
    for entry in table {
        if spells(entry.0, piece) {
            return Some(entry.1);
        }
    }
    None
}

/// Characters as a name.
pub fn name_of(alloc: Global, piece: &[char]) -> Result<Name, NoMemory>
    ensures { IfOk result (λ name. name ≡ encode_utf8_all piece.now) }
{
    let mut text = String::with_capacity(alloc, piece.len())?;
    for c in piece {
        text.push(*c)?;
    }
    Ok(Name::from_string(text))
}

/// How many characters there are up to the end of a comment whose `/*` stands before them.
pub fn comment_length(inside: &[char]) -> Option<usize>
    ensures value { result ≡ closing 0 false inside.now }
    ensures within { IfSome result (λ count. count ≤ length inside.now + 1) }
{
    let mut depth: usize = 0;
    let mut second = false;
    for (i, c) in inside.iter().enumerate() {
        if second {
            second = false;
            continue;
        }
        let next = character_at(inside, i + 1);
        if closes_comment(*c, next) {
            if depth == 0 {
                return Some(i + 2);
            }
            depth -= 1;
            second = true;
            continue;
        }
        if opens_comment(*c, next) {
            depth += 1;
            second = true;
            continue;
        }
    }
    None
}

fn closes_comment(c: char, next: char) -> bool
    ensures { result ≡ closes c next }
{
    c == '*' && next == '/'
}

fn opens_comment(c: char, next: char) -> bool
    ensures { result ≡ opens c next }
{
    c == '/' && next == '*'
}

/// The character at an index, and `\0` past the end.
pub fn character_at(characters: &[char], index: usize) -> char
    ensures { result ≡ slice_index characters.now index }
{
    match characters.get(index) {
        Some(c) => *c,
        None => '\0',
    }
}

fn other_beginning(c: char) -> Beginning
    ensures { result ≡ (if is_some (one_mark c) then Beginning.Sign else if is_xid_start c then Beginning.Letter else Beginning.Other) }
{
    if mark_of_one(c).is_some() {
        Beginning::Sign
    } else if is_xid_start(c) {
        Beginning::Letter
    } else {
        Beginning::Other
    }
}
