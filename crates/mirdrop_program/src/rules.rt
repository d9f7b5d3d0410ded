//! Refusals at a place in the text.
ghost use Rattle.std.specs.Prelude.{◌≡◌, ◌++◌, OnOk, codes, string_bytes};
ghost use Rattle.std.specs.Fmt.{decimal};
ghost use Rattle.mirdrop_program.specs.Lines as lines;

use crate::parts::{put, put_line_feed, put_numbered};
use mir_base::{Pos, Rule};
use std::alloc::AllocError;

/// Puts a place in the text and the end of the line.
pub fn put_place(out: &mut String, at: Pos) -> Result<(), AllocError>
    ensures { OnOk result (string_bytes out.new ≡ string_bytes out.old ++ lines.place_words at) }
{
    put_numbered(out, " at ", at.line)?;
    put_numbered(out, ":", at.col)?;
    put_line_feed(out)
}

/// Puts the line of a refusal with these words at a place of the text.
pub fn put_refused_at(out: &mut String, words: &str, at: Pos) -> Result<(), AllocError>
    ensures { OnOk result (string_bytes out.new ≡ string_bytes out.old ++ lines.refused_at words.now at) }
{
    put(out, "refused: ")?;
    put(out, words)?;
    put_place(out, at)
}

fn lex_words(code: u8) -> &'static str
    ensures { result.now ≡ lines.lex_words code }
{
    match code {
        1 => "1 BadChar",
        2 => "2 BadNumber",
        3 => "3 OpenComment",
        4 => "4 OpenText",
        _ => "5 NotUtf8",
    }
}

/// Puts the line of bytes that have no tokens, by the code of the reason.
pub fn put_lex_line(out: &mut String, code: u8, at: Pos) -> Result<(), AllocError>
    ensures { OnOk result (string_bytes out.new ≡ string_bytes out.old ++ lines.refused_at (lines.lex_words code) at) }
{
    put_refused_at(out, lex_words(code), at)
}

fn rule_words(rule: Rule) -> &'static str
    ensures { result.now ≡ lines.rule_words rule }
{
    match rule {
        Rule::T01 => "T01 UnknownName",
        Rule::T02 => "T02 RepeatedName",
        Rule::T03 => "T03 Mismatch",
        Rule::T04 => "T04 WrongCount",
        Rule::T05 => "T05 NoPlace",
        Rule::T06 => "T06 BadLabel",
        Rule::T07 => "T07 MoveOut",
        Rule::T08 => "T08 BadReference",
        Rule::T09 => "T09 InfiniteType",
        Rule::T10 => "T10 BadCopy",
        Rule::T11 => "T11 BadImpl",
        Rule::T12 => "T12 NoMember",
        Rule::T13 => "T13 BadCall",
        Rule::T14 => "T14 Overlap",
        Rule::T15 => "T15 SelfReplaced",
        Rule::T16 => "T16 NeedsType",
        Rule::T17 => "T17 LiteralRange",
        Rule::T18 => "T18 BadPattern",
        Rule::T19 => "T19 TooMany",
        Rule::T20 => "T20 Later",
    }
}

/// Puts the line of a broken rule.
pub fn put_rule_line(out: &mut String, rule: Rule, at: Pos) -> Result<(), AllocError>
    ensures { OnOk result (string_bytes out.new ≡ string_bytes out.old ++ lines.refused_at (lines.rule_words rule) at) }
{
    put_refused_at(out, rule_words(rule), at)
}
