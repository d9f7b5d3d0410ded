ghost use Rattle.std.specs.Prelude.{◌≡◌};
ghost use Rattle.mir_pipeline.specs.declared.refusal.Refusal.{Refusal};
ghost use Rattle.mir_pipeline.specs.Trees.{refusal_of, of_rule, of_tokens};

use lower_rules::Site;
use mir_base::{Pos, Rule, RuleError};
use move_errors::BadUse;
use src_parse::ParseError;
use src_token::LexError;
use std::error::Error;
use std::fmt;

/// Why a text is refused. The first reason of the first layer that has one is answered.
#[derive(Drop)]
pub enum Refusal {
    /// The bytes have no tokens. The codes are 1 for a character that begins no token, 2 for a number that is none
    /// of the language, 3 for a comment without its end, 4 for a text between quotes without its end, and 5 for
    /// bytes that are not UTF-8.
    Lex { code: u8, at: Pos },
    /// No tree goes on with the token of this number, counted from 0; where it is the number of tokens, the text ends
    /// too early.
    Syntax { at: u32, pos: Pos },
    /// Only trees that are nested more than 64 levels deep go on with the token of this number.
    TooDeep { at: u32, pos: Pos },
    /// The tree breaks this rule of typing, and none before it.
    Broken { rule: Rule, at: Pos },
    /// A place is used that is gone there, or a container or a part of it; with the site of the use in the text.
    U1 { bad: BadUse, site: Site },
    /// A place is stored into of which a container is gone there; with the site of the store in the text.
    U2 { bad: BadUse, site: Site },
    /// Memory was wanted and could not be had.
    Memory,
}

impl fmt::Display for Refusal {
    fn fmt<W: fmt::Write>(&self, f: &mut fmt::Formatter<W>) -> fmt::Result {
        let text = match self {
            Refusal::Lex { .. } => "the bytes are no tokens",
            Refusal::Syntax { .. } => "no text of the language goes on so",
            Refusal::TooDeep { .. } => "the text is nested too deep",
            Refusal::Broken { .. } => "the program breaks a rule of the language",
            Refusal::U1 { .. } => "the program uses what is gone",
            Refusal::U2 { .. } => "the program stores into a part of what is gone",
            Refusal::Memory => "out of memory",
        };
        write!(f, "{text}")
    }
}

impl fmt::Debug for Refusal {
    fn fmt<W: fmt::Write>(&self, f: &mut fmt::Formatter<W>) -> fmt::Result {
        fmt::Display::fmt(self, f)
    }
}

impl Error for Refusal {}

impl From<LexError> for Refusal {
    ghost from_gives = { λ error refusal. refusal ≡ refusal_of error };

    fn from(error: LexError) -> Refusal {
        let (code, at) = match error {
            LexError::BadChar(at) => (1, at),
            LexError::BadNumber(at) => (2, at),
            LexError::OpenComment(at) => (3, at),
            LexError::OpenText(at) => (4, at),
            LexError::NotUtf8(at) => (5, at),
            LexError::Memory => return Refusal::Memory,
        };
        Refusal::Lex { code, at }
    }
}

impl From<ParseError> for Refusal {
    ghost from_gives = { λ error refusal. refusal ≡ of_tokens error };

    fn from(error: ParseError) -> Refusal {
        match error {
            ParseError::Syntax { at, pos } => Refusal::Syntax { at, pos },
            ParseError::TooDeep { at, pos } => Refusal::TooDeep { at, pos },
            ParseError::Memory => Refusal::Memory,
        }
    }
}

impl From<RuleError> for Refusal {
    ghost from_gives = { λ error refusal. refusal ≡ of_rule error };

    fn from(error: RuleError) -> Refusal {
        match error {
            RuleError::Broken { rule, at } => Refusal::Broken { rule, at },
            RuleError::Memory => Refusal::Memory,
        }
    }
}
