ghost use Rattle.std.specs.Prelude.{◌≡◌, ◌<◌, ◌≤◌, ◌-◌, ◌^◌, IfOk, IfErr, length};
ghost use Rattle.std.specs.Str.{IsUtf8, chars, encode_utf8_all};
ghost use Rattle.src_token.specs.Cursors.{place_past_byte};
ghost use Rattle.src_token.specs.Places.{place_after};
ghost use Rattle.src_token.specs.Tokens.{Tokens, Refused, CutTokens, CutRefused, error_at};

use crate::cursor::Cursor;
use crate::pieces::next;
use crate::{LexError, Reading, Spanned, TokenFault, TokenPiece};
use mir_base::{List, Pos};
use std::alloc::{AllocError, Global};

/// The tokens of a text, each the longest that begins where the last one ends; comments and blanks are none.
/// A text has at most 4,294,967,294 bytes.
///
/// The first error of the text is answered: UTF-8 before all, then the first piece that is no token (The Rust
/// Reference, "Lexical structure", as far as the language goes).
pub fn lex(alloc: Global, text: &[u8]) -> Result<List<Spanned>, LexError>
    requires { length text.now < 2 ^ 32 - 1 }
    ensures tokens { IfOk result (λ tokens. Tokens text.now tokens) }
    ensures refused { IfErr result (λ error. Refused text.now error) }
{
    let text = match str::from_utf8(text) {
        Ok(text) => text,
        Err(error) => return Err(LexError::NotUtf8(end_of(&text[..error.valid_up_to()]))),
    };
    let characters = characters_of(alloc, text)?;
    lex_characters(alloc, characters.as_slice())
}

fn characters_of(alloc: Global, text: &str) -> Result<Vec<char>, AllocError>
    ensures value { IfOk result (λ characters. characters.items ≡ chars text.now) }
    ensures spelled { IfOk result (λ characters. encode_utf8_all characters.items ≡ text.now) }
{
    text.chars().collect(alloc)
}

/// The place of the end of a text, where it is UTF-8.
pub fn end_of(text: &[u8]) -> Pos
    requires { length text.now < 2 ^ 32 - 1 }
    ensures { IsUtf8 text.now → result ≡ place_after (chars text.now) }
{
    let mut at = Pos { line: 1, col: 1 };
    for byte in text {
        at = past_byte(at, *byte);
    }
    at
}

/// The place of what follows a byte of a text in UTF-8. A character has one byte that does not go on another.
fn past_byte(at: Pos, byte: u8) -> Pos
    requires lines { at.line < 2 ^ 32 - 1 }
    requires columns { at.col < 2 ^ 32 - 1 }
    ensures { result ≡ place_past_byte at byte }
{
    if byte == b'\n' {
        return Pos {
            line: at.line + 1,
            col: 1,
        };
    }
    if 128 <= byte && byte < 192 {
        return at;
    }
    Pos {
        line: at.line,
        col: at.col + 1,
    }
}

fn error(fault: TokenFault, at: Pos) -> LexError
    ensures { result ≡ error_at fault at }
{
    match fault {
        TokenFault::BadChar => LexError::BadChar(at),
        TokenFault::BadNumber => LexError::BadNumber(at),
        TokenFault::OpenComment => LexError::OpenComment(at),
        TokenFault::OpenText => LexError::OpenText(at),
    }
}

/// The tokens of the characters of a text, or the first error of their pieces.
fn lex_characters(alloc: Global, characters: &[char]) -> Result<List<Spanned>, LexError>
    requires { length (encode_utf8_all characters.now) < 2 ^ 32 - 1 }
    ensures tokens { IfOk result (λ tokens. CutTokens characters.now tokens) }
    ensures refused { IfErr result (λ error. CutRefused characters.now error) }
{
    let mut tokens = List::new(alloc);
    let mut cursor = Cursor::start();
    let mut passed = 0;
    while passed < characters.len() {
        let TokenPiece { length, reading } = next(alloc, &characters[passed..])?;
        let after = cursor.advance(characters, passed, passed + length);
        match reading {
            Reading::Skipped => {}
            Reading::Reads(token) => tokens.push(Spanned {
                token,
                at: cursor.at,
                start: cursor.bytes,
                end: after.bytes,
            })?,
            Reading::Fails(fault, before) => {
                let place = cursor.advance(characters, passed, passed + before);
                return Err(error(fault, place.at));
            }
        }
        cursor = after;
        passed += length;
    }
    Ok(tokens)
}
