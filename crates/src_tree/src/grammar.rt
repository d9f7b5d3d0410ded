//! Which rows may stand where, and how they begin: the definitions of the grammar as functions.
ghost use Rattle.std.specs.Prelude.{◌≡◌, Some, None, option_map};
ghost use Rattle.src_tree.specs.Grammar.{sort_of as sort_is, level as level_is, sort_number as sort_number_is, mark_number as mark_number_is, word_number as word_number_is, is_text as is_text_of, is as is_kind, is_plain as is_plain_row, may_be as may_be_row, first as first_of, allowed as is_allowed, begins_by as begins_by_row, may_begin as may_begin_row, seen as seen_of, place_of as place_is, belongs as belongs_to, is_blocklike as is_blocklike_row};

use crate::{GrammarPart, GrammarPlace, GrammarRow, Seen, Sort, Start, TokenKind};
use mir_base::Name;
use src_token::{Mark, Token, Word};

fn sort_of(row: GrammarRow) -> Sort
    ensures { result ≡ sort_is row }
{
    match row {
        GrammarRow::File => Sort::File,
        GrammarRow::Struct
        | GrammarRow::Enum
        | GrammarRow::Trait
        | GrammarRow::Impl
        | GrammarRow::Fn => Sort::Item,
        GrammarRow::Method => Sort::Method,
        GrammarRow::Head => Sort::Head,
        GrammarRow::Field => Sort::Field,
        GrammarRow::Variant => Sort::Variant,
        GrammarRow::Ident => Sort::Name,
        GrammarRow::NamedType
        | GrammarRow::GenericType
        | GrammarRow::DynType
        | GrammarRow::SelfType
        | GrammarRow::TupleType
        | GrammarRow::ArrayType
        | GrammarRow::NeverType
        | GrammarRow::RefType => Sort::Type_,
        GrammarRow::WildPattern
        | GrammarRow::BindPattern
        | GrammarRow::NumberPattern
        | GrammarRow::BoolPattern
        | GrammarRow::PathPattern
        | GrammarRow::CallPattern
        | GrammarRow::StructPattern
        | GrammarRow::TuplePattern
        | GrammarRow::ArrayPattern
        | GrammarRow::OrPattern
        | GrammarRow::Param
        | GrammarRow::SelfParam
        | GrammarRow::Arm
        | GrammarRow::LastArm => Sort::Pattern,
        GrammarRow::FieldPattern => Sort::FieldPattern,
        GrammarRow::FieldInit => Sort::FieldInit,
        GrammarRow::LabelName => Sort::Label,
        _ => Sort::Expr,
    }
}

fn level(row: GrammarRow) -> u8
    ensures { result ≡ level_is row }
{
    match row {
        GrammarRow::Return
        | GrammarRow::Break
        | GrammarRow::Closure
        | GrammarRow::Let
        | GrammarRow::Empty
        | GrammarRow::Semi
        | GrammarRow::LabelName
        | GrammarRow::Arm
        | GrammarRow::LastArm
        | GrammarRow::OrPattern => 0,
        GrammarRow::Assign => 1,
        GrammarRow::Or => 2,
        GrammarRow::And => 3,
        GrammarRow::Compare => 4,
        GrammarRow::Sum => 5,
        GrammarRow::Product => 6,
        GrammarRow::Prefix => 7,
        GrammarRow::FieldAccess => 8,
        GrammarRow::MethodCall | GrammarRow::TupleField | GrammarRow::Call | GrammarRow::Index => 9,
        _ => 10,
    }
}

fn mark_number(mark: Mark) -> u8
    ensures { result ≡ mark_number_is mark }
{
    match mark {
        Mark::OpenBrace => 0,
        Mark::CloseBrace => 1,
        Mark::OpenParenthesis => 2,
        Mark::CloseParenthesis => 3,
        Mark::OpenBracket => 4,
        Mark::CloseBracket => 5,
        Mark::Comma => 6,
        Mark::Semi => 7,
        Mark::Colon => 8,
        Mark::PathSep => 9,
        Mark::Dot => 10,
        Mark::DotDot => 11,
        Mark::RArrow => 12,
        Mark::FatArrow => 13,
        Mark::Eq => 14,
        Mark::EqEq => 15,
        Mark::Ne => 16,
        Mark::Lt => 17,
        Mark::Le => 18,
        Mark::Gt => 19,
        Mark::Ge => 20,
        Mark::Plus => 21,
        Mark::Minus => 22,
        Mark::Star => 23,
        Mark::Slash => 24,
        Mark::Percent => 25,
        Mark::Not => 26,
        Mark::AndAnd => 27,
        Mark::OrOr => 28,
        Mark::And => 29,
        Mark::Or => 30,
        Mark::Pound => 31,
        Mark::Underscore => 32,
    }
}

/// The number of a word that rows name behind their first token; 0 for the others.
fn word_number(word: Word) -> u8
    ensures { result ≡ word_number_is word }
{
    match word {
        Word::Struct => 1,
        Word::Enum => 2,
        Word::For => 3,
        Word::Dyn => 4,
        Word::Mut => 5,
        Word::SelfValue => 6,
        Word::Let => 7,
        Word::If => 8,
        Word::Else => 9,
        Word::Loop => 10,
        Word::While => 11,
        Word::Fn => 12,
        _ => 0,
    }
}

pub(crate) fn is_text(name: &Name, text: &str) -> bool
    ensures { result ≡ is_text_of name.now text.now }
{
    name.as_str() == text
}

/// Whether a token is of a kind.
pub fn is(kind: TokenKind, token: &Token) -> bool
    ensures { result ≡ is_kind kind token.now }
{
    match (kind, token) {
        (TokenKind::Mark(mark), Token::Mark(other)) => mark_number(mark) == mark_number(*other),
        (TokenKind::Word(word), Token::Word(other)) => word_number(word) == word_number(*other),
        (TokenKind::Name, Token::Name(_)) => true,
        (TokenKind::Number, Token::Number { .. }) => true,
        (TokenKind::Digits, Token::Number { suffix: None, .. }) => true,
        (TokenKind::Label, Token::Label(_)) => true,
        (TokenKind::Text, Token::Text(_)) => true,
        (TokenKind::Derive, Token::Name(name)) => is_text(name, "derive"),
        _ => false,
    }
}

fn is_blocklike(row: GrammarRow) -> bool
    ensures { result ≡ is_blocklike_row row }
{
    matches!(
        row,
        GrammarRow::Block
            | GrammarRow::If
            | GrammarRow::Match
            | GrammarRow::Loop
            | GrammarRow::While
    )
}

/// Whether it may stand where nothing else is asked for.
fn is_plain(row: GrammarRow) -> bool
    ensures { result ≡ is_plain_row row }
{
    !matches!(
        row,
        GrammarRow::Let
            | GrammarRow::Empty
            | GrammarRow::Semi
            | GrammarRow::LabelName
            | GrammarRow::Param
            | GrammarRow::SelfParam
            | GrammarRow::Arm
            | GrammarRow::LastArm
    )
}

fn may_be(start: Start, row: GrammarRow) -> bool
    ensures { result ≡ may_be_row start row }
{
    match start {
        Start::Anything | Start::Value | Start::ArmBody => is_plain(row),
        Start::Statement => {
            is_plain(row) || matches!(row, GrammarRow::Let | GrammarRow::Semi | GrammarRow::Empty)
        }
        Start::NextStatement => is_plain(row) || matches!(row, GrammarRow::Let | GrammarRow::Semi),
        Start::NotBlocklike => is_plain(row) && !is_blocklike(row),
        Start::NotBlock => is_plain(row) && !matches!(row, GrammarRow::Block),
        Start::Jump => is_plain(row) || matches!(row, GrammarRow::LabelName),
        Start::JumpInHead => {
            (is_plain(row) && !matches!(row, GrammarRow::Block))
                || matches!(row, GrammarRow::LabelName)
        }
        Start::OnlyLabel => matches!(row, GrammarRow::LabelName),
        Start::OnlyBlock => matches!(row, GrammarRow::Block),
        Start::BlockOrIf => matches!(row, GrammarRow::Block | GrammarRow::If),
        Start::IsArm => matches!(row, GrammarRow::Arm | GrammarRow::LastArm),
        Start::IsParam => matches!(row, GrammarRow::Param | GrammarRow::SelfParam),
    }
}

fn begins_by(start: Start, row: GrammarRow) -> bool
    ensures { result ≡ begins_by_row start row }
{
    match start {
        Start::IsArm | Start::IsParam => may_be(start, row) || is_plain(row),
        _ => may_be(start, row),
    }
}

fn sort_number(sort: Sort) -> u8
    ensures { result ≡ sort_number_is sort }
{
    match sort {
        Sort::File => 0,
        Sort::Item => 1,
        Sort::Method => 2,
        Sort::Head => 3,
        Sort::Field => 4,
        Sort::Variant => 5,
        Sort::Name => 6,
        Sort::Type_ => 7,
        Sort::Pattern => 8,
        Sort::FieldPattern => 9,
        Sort::Expr => 10,
        Sort::FieldInit => 11,
        Sort::Label => 12,
    }
}

fn belongs(sort: Sort, row: GrammarRow) -> bool
    ensures { result ≡ belongs_to sort row }
{
    match (sort, row) {
        (Sort::Expr, GrammarRow::LabelName) => true,
        _ => sort_number(sort) == sort_number(sort_of(row)),
    }
}

/// Whether a node of a row may stand at a place.
pub fn is_allowed(place: GrammarPlace, row: GrammarRow) -> bool
    ensures { result ≡ is_allowed place row }
{
    belongs(place.sort, row) && place.least <= level(row) && may_be(place.start, row)
}

/// Whether a row may begin at a place, perhaps to be a part of what stands there.
pub fn may_begin(place: GrammarPlace, row: GrammarRow) -> bool
    ensures { result ≡ may_begin_row place row }
{
    belongs(place.sort, row) && place.least <= level(row) && begins_by(place.start, row)
}

fn first(start: Start) -> Start
    ensures { result ≡ first_of start }
{
    match start {
        Start::Statement | Start::NextStatement | Start::Value | Start::NotBlocklike => {
            Start::NotBlocklike
        }
        Start::ArmBody | Start::NotBlock | Start::JumpInHead => Start::NotBlock,
        _ => Start::Anything,
    }
}

/// What the parts of a node see of its place.
pub fn seen_from(place: GrammarPlace) -> Seen
    ensures { result ≡ seen_of place }
{
    Seen {
        sort: place.sort,
        head: place.head,
        start: first(place.start),
    }
}

/// The place of a part of a node that stands in a head or not.
pub fn place_of(head: bool, part: GrammarPart) -> GrammarPlace
    ensures { result ≡ place_is head part }
{
    let (least, start) = match part {
        GrammarPart::At(place) => return place,
        GrammarPart::Operand(least) => (least, Start::Anything),
        GrammarPart::AfterBreak => (0, if head { Start::JumpInHead } else { Start::Jump }),
        GrammarPart::AfterReturn => (
            0,
            if head {
                Start::NotBlock
            } else {
                Start::Anything
            },
        ),
    };
    GrammarPlace {
        sort: Sort::Expr,
        least,
        head,
        start,
    }
}
