ghost use Rattle.std.specs.Prelude.{◌≡◌, ◌<◌, IfOk, length, drop, false};
ghost use Rattle.src_token.specs.Marks as marks;
ghost use Rattle.src_token.specs.Rows.{text_reading};
ghost use Rattle.src_token.specs.Scanning.{next_piece, number_piece, word_piece, label_piece, text_piece, slash_piece, sign_piece, comment_piece, closing, Stands};
ghost use Rattle.src_token.specs.Words.{word_token};

use crate::characters::{
    before_backslash, beginning, character_at, comment_length, is_an_identifier, keyword,
    line_length, name_of, run_length, text_length,
};
use crate::marks::{mark_of_one, mark_of_two};
use crate::numbers::number;
use crate::{Beginning, Mark, Reading, Token, TokenFault, TokenPiece};
use mir_base::NoMemory;
use std::alloc::Global;

impl TokenPiece {
    fn new(length: usize, reading: Reading) -> TokenPiece
        ensures { result ≡ record { length = length; reading = reading } }
    {
        TokenPiece { length, reading }
    }
}

/// The piece at the beginning of some characters.
pub fn next(alloc: Global, rest: &[char]) -> Result<TokenPiece, NoMemory>
    requires { 0 < length rest.now }
    ensures value { IfOk result (λ piece. piece ≡ next_piece rest.now) }
    ensures fits { IfOk result (λ piece. Stands rest.now piece) }
{
    next_by_kind(alloc, rest)
}

fn next_by_kind(alloc: Global, rest: &[char]) -> Result<TokenPiece, NoMemory>
    requires { 0 < length rest.now }
    ensures { IfOk result (λ piece. piece ≡ next_piece rest.now) }
{
    match beginning(rest[0]) {
        Beginning::Blank => Ok(TokenPiece::new(1, Reading::Skipped)),
        Beginning::Digit => Ok(number_at(rest)),
        Beginning::Quote => label_at(alloc, rest),
        Beginning::DoubleQuote => text_at(alloc, rest),
        Beginning::Slash => Ok(slash_at(rest)),
        Beginning::Sign => Ok(sign_at(rest)),
        Beginning::Letter => word_at(alloc, rest),
        Beginning::Other => Ok(TokenPiece::new(1, Reading::Fails(TokenFault::BadChar, 0))),
    }
}

fn number_at(rest: &[char]) -> TokenPiece
    requires { 0 < length rest.now }
    ensures { result ≡ number_piece rest.now }
{
    let length = 1 + run_length(&rest[1..]);
    TokenPiece::new(length, number(&rest[..length]))
}

fn word_at(alloc: Global, rest: &[char]) -> Result<TokenPiece, NoMemory>
    requires { 0 < length rest.now }
    ensures { IfOk result (λ piece. piece ≡ word_piece rest.now) }
{
    let length = 1 + run_length(&rest[1..]);
    let token = word(alloc, &rest[..length])?;
    Ok(TokenPiece::new(length, Reading::Reads(token)))
}

fn word(alloc: Global, piece: &[char]) -> Result<Token, NoMemory>
    ensures { IfOk result (λ token. token ≡ word_token piece.now) }
{
    if let Some(word) = keyword(piece) {
        return Ok(Token::Word(word));
    }
    if let Some(mark) = mark_of(piece) {
        return Ok(Token::Mark(mark));
    }
    let name = name_of(alloc, piece)?;
    Ok(Token::Name(name))
}

fn mark_of(piece: &[char]) -> Option<Mark>
    ensures { result ≡ marks.mark_of piece.now }
{
    match piece {
        [c] => mark_of_one(*c),
        [c, d] => mark_of_two(*c, *d),
        _ => None,
    }
}

fn label_at(alloc: Global, rest: &[char]) -> Result<TokenPiece, NoMemory>
    requires { 0 < length rest.now }
    ensures { IfOk result (λ piece. piece ≡ label_piece rest.now) }
{
    let behind = &rest[1..];
    let length = run_length(behind);
    let name = &behind[..length];
    if !is_an_identifier(name) {
        return Ok(TokenPiece::new(1, Reading::Fails(TokenFault::BadChar, 0)));
    }
    let name = name_of(alloc, name)?;
    Ok(TokenPiece::new(1 + length, Reading::Reads(Token::Label(name))))
}

fn text_at(alloc: Global, rest: &[char]) -> Result<TokenPiece, NoMemory>
    requires { 0 < length rest.now }
    ensures { IfOk result (λ piece. piece ≡ text_piece rest.now) }
{
    let behind = &rest[1..];
    let length = text_length(behind);
    if character_at(rest, 1 + length) != '"' {
        return Ok(TokenPiece::new(1, Reading::Fails(TokenFault::OpenText, 0)));
    }
    let reading = text(alloc, &behind[..length])?;
    Ok(TokenPiece::new(2 + length, reading))
}

fn text(alloc: Global, inside: &[char]) -> Result<Reading, NoMemory>
    ensures { IfOk result (λ reading. reading ≡ text_reading inside.now) }
{
    if let Some(before) = before_backslash(inside) {
        return Ok(Reading::Fails(TokenFault::BadChar, 1 + before));
    }
    let text = name_of(alloc, inside)?;
    Ok(Reading::Reads(Token::Text(text)))
}

fn slash_at(rest: &[char]) -> TokenPiece
    requires { 0 < length rest.now }
    ensures { result ≡ slash_piece rest.now }
{
    match character_at(rest, 1) {
        '/' => TokenPiece::new(line_length(rest), Reading::Skipped),
        '*' => comment_at(rest),
        _ => TokenPiece::new(1, Reading::Reads(Token::Mark(Mark::Slash))),
    }
}

fn comment_at(rest: &[char]) -> TokenPiece
    requires { 1 < length rest.now }
    ensures { result ≡ comment_piece (closing 0 false (drop 2 rest.now)) }
{
    match comment_length(&rest[2..]) {
        Some(length) => TokenPiece::new(2 + length, Reading::Skipped),
        None => TokenPiece::new(2, Reading::Fails(TokenFault::OpenComment, 0)),
    }
}

fn sign_at(rest: &[char]) -> TokenPiece
    requires { 0 < length rest.now }
    ensures { result ≡ sign_piece rest.now }
{
    let first = rest[0];
    if let Some(mark) = mark_of_two(first, character_at(rest, 1)) {
        return TokenPiece::new(2, Reading::Reads(Token::Mark(mark)));
    }
    match mark_of_one(first) {
        Some(mark) => TokenPiece::new(1, Reading::Reads(Token::Mark(mark))),
        None => TokenPiece::new(1, Reading::Fails(TokenFault::BadChar, 0)),
    }
}
