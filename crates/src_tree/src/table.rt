//! The rows of the grammar as a table of steps. A row is followed from a point of its own, token by token and part
//! by part; the points are numbers of the table.
use crate::{GrammarPart, GrammarPlace, GrammarRow, Sort, Start, TokenKind};
use src_token::{Mark, Word};

/// What a node still has to have. A number is that of the step behind a token or a part.
#[derive(Clone, Copy)]
pub enum GrammarStep {
    /// It ends.
    Ends(GrammarRow),
    /// A token of a kind.
    Token(TokenKind, u16),
    /// A token of a kind, or else what the last number says.
    Either(TokenKind, u16, u16),
    /// A part.
    Part(GrammarPart, u16),
    /// A part, or its end.
    Maybe(GrammarPart, u16, GrammarRow),
    /// Parts, each but the last with a comma behind it, up to a closing token; where `dots`, `..` may stand last.
    List {
        part: GrammarPart,
        later: GrammarPart,
        dots: bool,
        close: TokenKind,
        after: u16,
    },
    /// Parts without commas up to a closing token.
    Many(GrammarPart, TokenKind, u16),
    /// Items up to the end of the text.
    Items,
    /// What follows a pattern of an or-pattern.
    Alternatives,
    /// Statements; where true, behind one that ended by its brace.
    Statements(bool),
    /// Arms; where true, behind one.
    Arms(bool),
    ArmBody,
    AfterBreak,
}

/// Where a node is: at a step, or in its list behind a part, behind a comma or behind `..`.
#[derive(Clone, Copy)]
pub enum GrammarPoint {
    At(u16),
    More(u16),
    Later(u16),
    Last(u16),
}

/// How a node begins that begins with a part: its row, the place of the part, and where it is behind the token.
#[derive(Clone, Copy)]
pub struct JoinedBeginning {
    pub row: GrammarRow,
    pub place: GrammarPlace,
    pub at: u16,
}

pub const ITEM_PLACE: GrammarPlace = GrammarPlace {
    sort: Sort::Item,
    least: 0,
    head: false,
    start: Start::Anything,
};

pub const EXPR_STATEMENT_PLACE: GrammarPlace = GrammarPlace {
    sort: Sort::Expr,
    least: 0,
    head: false,
    start: Start::Statement,
};

pub const EXPR_NEXT_STATEMENT_PLACE: GrammarPlace = GrammarPlace {
    sort: Sort::Expr,
    least: 0,
    head: false,
    start: Start::NextStatement,
};

pub const PATTERN_IS_ARM_PLACE: GrammarPlace = GrammarPlace {
    sort: Sort::Pattern,
    least: 0,
    head: false,
    start: Start::IsArm,
};

pub const EXPR_ARM_BODY_PLACE: GrammarPlace = GrammarPlace {
    sort: Sort::Expr,
    least: 0,
    head: false,
    start: Start::ArmBody,
};

pub const TYPE_PLACE: GrammarPlace = GrammarPlace {
    sort: Sort::Type_,
    least: 0,
    head: false,
    start: Start::Anything,
};

pub const FIELD_PLACE: GrammarPlace = GrammarPlace {
    sort: Sort::Field,
    least: 0,
    head: false,
    start: Start::Anything,
};

pub const NAME_PLACE: GrammarPlace = GrammarPlace {
    sort: Sort::Name,
    least: 0,
    head: false,
    start: Start::Anything,
};

pub const VARIANT_PLACE: GrammarPlace = GrammarPlace {
    sort: Sort::Variant,
    least: 0,
    head: false,
    start: Start::Anything,
};

pub const HEAD_PLACE: GrammarPlace = GrammarPlace {
    sort: Sort::Head,
    least: 0,
    head: false,
    start: Start::Anything,
};

pub const METHOD_PLACE: GrammarPlace = GrammarPlace {
    sort: Sort::Method,
    least: 0,
    head: false,
    start: Start::Anything,
};

pub const EXPR_ONLY_BLOCK_PLACE: GrammarPlace = GrammarPlace {
    sort: Sort::Expr,
    least: 0,
    head: false,
    start: Start::OnlyBlock,
};

pub const PATTERN_IS_PARAM_1_PLACE: GrammarPlace = GrammarPlace {
    sort: Sort::Pattern,
    least: 1,
    head: false,
    start: Start::IsParam,
};

pub const PATTERN_IS_PARAM_SELF_1_PLACE: GrammarPlace = GrammarPlace {
    sort: Sort::Pattern,
    least: 1,
    head: true,
    start: Start::IsParam,
};

pub const PATTERN_PLACE: GrammarPlace = GrammarPlace {
    sort: Sort::Pattern,
    least: 0,
    head: false,
    start: Start::Anything,
};

pub const FIELD_PATTERN_PLACE: GrammarPlace = GrammarPlace {
    sort: Sort::FieldPattern,
    least: 0,
    head: false,
    start: Start::Anything,
};

pub const EXPR_PLACE: GrammarPlace = GrammarPlace {
    sort: Sort::Expr,
    least: 0,
    head: false,
    start: Start::Anything,
};

pub const PATTERN_1_PLACE: GrammarPlace = GrammarPlace {
    sort: Sort::Pattern,
    least: 1,
    head: false,
    start: Start::Anything,
};

pub const LABEL_ONLY_LABEL_PLACE: GrammarPlace = GrammarPlace {
    sort: Sort::Label,
    least: 0,
    head: false,
    start: Start::OnlyLabel,
};

pub const FIELD_INIT_PLACE: GrammarPlace = GrammarPlace {
    sort: Sort::FieldInit,
    least: 0,
    head: false,
    start: Start::Anything,
};

pub const EXPR_BLOCK_OR_IF_PLACE: GrammarPlace = GrammarPlace {
    sort: Sort::Expr,
    least: 0,
    head: false,
    start: Start::BlockOrIf,
};

pub const EXPR_IN_HEAD_PLACE: GrammarPlace = GrammarPlace {
    sort: Sort::Expr,
    least: 0,
    head: true,
    start: Start::Anything,
};

pub const TABLE: [GrammarStep; 228] = [
    GrammarStep::Ends(GrammarRow::Struct),
    GrammarStep::Token(TokenKind::Mark(Mark::Semi), 0),
    GrammarStep::List {
        part: GrammarPart::At(TYPE_PLACE),
        later: GrammarPart::At(TYPE_PLACE),
        dots: false,
        close: TokenKind::Mark(Mark::CloseParenthesis),
        after: 1,
    },
    GrammarStep::List {
        part: GrammarPart::At(FIELD_PLACE),
        later: GrammarPart::At(FIELD_PLACE),
        dots: false,
        close: TokenKind::Mark(Mark::CloseBrace),
        after: 0,
    },
    GrammarStep::Token(TokenKind::Mark(Mark::OpenBrace), 3),
    GrammarStep::Either(TokenKind::Mark(Mark::OpenParenthesis), 2, 4),
    GrammarStep::Either(TokenKind::Mark(Mark::Semi), 0, 5),
    GrammarStep::Part(GrammarPart::At(NAME_PLACE), 6),
    GrammarStep::Ends(GrammarRow::Enum),
    GrammarStep::List {
        part: GrammarPart::At(VARIANT_PLACE),
        later: GrammarPart::At(VARIANT_PLACE),
        dots: false,
        close: TokenKind::Mark(Mark::CloseBrace),
        after: 8,
    },
    GrammarStep::Token(TokenKind::Mark(Mark::OpenBrace), 9),
    GrammarStep::Part(GrammarPart::At(NAME_PLACE), 10),
    GrammarStep::Token(TokenKind::Word(Word::Enum), 11),
    GrammarStep::Either(TokenKind::Word(Word::Struct), 7, 12),
    GrammarStep::Token(TokenKind::Mark(Mark::CloseBracket), 13),
    GrammarStep::List {
        part: GrammarPart::At(NAME_PLACE),
        later: GrammarPart::At(NAME_PLACE),
        dots: false,
        close: TokenKind::Mark(Mark::CloseParenthesis),
        after: 14,
    },
    GrammarStep::Token(TokenKind::Mark(Mark::OpenParenthesis), 15),
    GrammarStep::Token(TokenKind::Derive, 16),
    GrammarStep::Token(TokenKind::Mark(Mark::OpenBracket), 17),
    GrammarStep::Ends(GrammarRow::Trait),
    GrammarStep::Many(
        GrammarPart::At(HEAD_PLACE),
        TokenKind::Mark(Mark::CloseBrace),
        19,
    ),
    GrammarStep::Token(TokenKind::Mark(Mark::OpenBrace), 20),
    GrammarStep::Part(GrammarPart::At(NAME_PLACE), 21),
    GrammarStep::Ends(GrammarRow::Impl),
    GrammarStep::Many(
        GrammarPart::At(METHOD_PLACE),
        TokenKind::Mark(Mark::CloseBrace),
        23,
    ),
    GrammarStep::Token(TokenKind::Mark(Mark::OpenBrace), 24),
    GrammarStep::Part(GrammarPart::At(NAME_PLACE), 25),
    GrammarStep::Either(TokenKind::Word(Word::For), 26, 25),
    GrammarStep::Part(GrammarPart::At(NAME_PLACE), 27),
    GrammarStep::Ends(GrammarRow::Fn),
    GrammarStep::Part(GrammarPart::At(EXPR_ONLY_BLOCK_PLACE), 29),
    GrammarStep::Part(GrammarPart::At(TYPE_PLACE), 30),
    GrammarStep::Either(TokenKind::Mark(Mark::RArrow), 31, 30),
    GrammarStep::List {
        part: GrammarPart::At(PATTERN_IS_PARAM_1_PLACE),
        later: GrammarPart::At(PATTERN_IS_PARAM_1_PLACE),
        dots: false,
        close: TokenKind::Mark(Mark::CloseParenthesis),
        after: 32,
    },
    GrammarStep::Token(TokenKind::Mark(Mark::OpenParenthesis), 33),
    GrammarStep::Part(GrammarPart::At(NAME_PLACE), 34),
    GrammarStep::Ends(GrammarRow::Method),
    GrammarStep::Part(GrammarPart::At(EXPR_ONLY_BLOCK_PLACE), 36),
    GrammarStep::Part(GrammarPart::At(TYPE_PLACE), 37),
    GrammarStep::Either(TokenKind::Mark(Mark::RArrow), 38, 37),
    GrammarStep::List {
        part: GrammarPart::At(PATTERN_IS_PARAM_SELF_1_PLACE),
        later: GrammarPart::At(PATTERN_IS_PARAM_1_PLACE),
        dots: false,
        close: TokenKind::Mark(Mark::CloseParenthesis),
        after: 39,
    },
    GrammarStep::Token(TokenKind::Mark(Mark::OpenParenthesis), 40),
    GrammarStep::Part(GrammarPart::At(NAME_PLACE), 41),
    GrammarStep::Ends(GrammarRow::Head),
    GrammarStep::Token(TokenKind::Mark(Mark::Semi), 43),
    GrammarStep::Part(GrammarPart::At(TYPE_PLACE), 44),
    GrammarStep::Either(TokenKind::Mark(Mark::RArrow), 45, 44),
    GrammarStep::List {
        part: GrammarPart::At(PATTERN_IS_PARAM_SELF_1_PLACE),
        later: GrammarPart::At(PATTERN_IS_PARAM_1_PLACE),
        dots: false,
        close: TokenKind::Mark(Mark::CloseParenthesis),
        after: 46,
    },
    GrammarStep::Token(TokenKind::Mark(Mark::OpenParenthesis), 47),
    GrammarStep::Part(GrammarPart::At(NAME_PLACE), 48),
    GrammarStep::Ends(GrammarRow::Field),
    GrammarStep::Part(GrammarPart::At(TYPE_PLACE), 50),
    GrammarStep::Token(TokenKind::Mark(Mark::Colon), 51),
    GrammarStep::Ends(GrammarRow::Variant),
    GrammarStep::List {
        part: GrammarPart::At(TYPE_PLACE),
        later: GrammarPart::At(TYPE_PLACE),
        dots: false,
        close: TokenKind::Mark(Mark::CloseParenthesis),
        after: 53,
    },
    GrammarStep::List {
        part: GrammarPart::At(FIELD_PLACE),
        later: GrammarPart::At(FIELD_PLACE),
        dots: false,
        close: TokenKind::Mark(Mark::CloseBrace),
        after: 53,
    },
    GrammarStep::Either(TokenKind::Mark(Mark::OpenBrace), 55, 53),
    GrammarStep::Either(TokenKind::Mark(Mark::OpenParenthesis), 54, 56),
    GrammarStep::Ends(GrammarRow::Ident),
    GrammarStep::Ends(GrammarRow::LabelName),
    GrammarStep::Ends(GrammarRow::DynType),
    GrammarStep::Token(TokenKind::Mark(Mark::Gt), 60),
    GrammarStep::Part(GrammarPart::At(NAME_PLACE), 61),
    GrammarStep::Ends(GrammarRow::GenericType),
    GrammarStep::Token(TokenKind::Mark(Mark::Gt), 63),
    GrammarStep::Part(GrammarPart::At(TYPE_PLACE), 64),
    GrammarStep::Either(TokenKind::Word(Word::Dyn), 62, 65),
    GrammarStep::Ends(GrammarRow::NamedType),
    GrammarStep::Either(TokenKind::Mark(Mark::Lt), 66, 67),
    GrammarStep::Ends(GrammarRow::SelfType),
    GrammarStep::Ends(GrammarRow::TupleType),
    GrammarStep::List {
        part: GrammarPart::At(TYPE_PLACE),
        later: GrammarPart::At(TYPE_PLACE),
        dots: false,
        close: TokenKind::Mark(Mark::CloseParenthesis),
        after: 70,
    },
    GrammarStep::Ends(GrammarRow::ArrayType),
    GrammarStep::Token(TokenKind::Mark(Mark::CloseBracket), 72),
    GrammarStep::Token(TokenKind::Number, 73),
    GrammarStep::Token(TokenKind::Mark(Mark::Semi), 74),
    GrammarStep::Part(GrammarPart::At(TYPE_PLACE), 75),
    GrammarStep::Ends(GrammarRow::NeverType),
    GrammarStep::Ends(GrammarRow::RefType),
    GrammarStep::Part(GrammarPart::At(TYPE_PLACE), 78),
    GrammarStep::Either(TokenKind::Word(Word::Mut), 79, 79),
    GrammarStep::Ends(GrammarRow::WildPattern),
    GrammarStep::Ends(GrammarRow::BindPattern),
    GrammarStep::Token(TokenKind::Name, 82),
    GrammarStep::Ends(GrammarRow::SelfParam),
    GrammarStep::Either(TokenKind::Word(Word::SelfValue), 84, 83),
    GrammarStep::Ends(GrammarRow::CallPattern),
    GrammarStep::List {
        part: GrammarPart::At(PATTERN_PLACE),
        later: GrammarPart::At(PATTERN_PLACE),
        dots: true,
        close: TokenKind::Mark(Mark::CloseParenthesis),
        after: 86,
    },
    GrammarStep::Ends(GrammarRow::StructPattern),
    GrammarStep::List {
        part: GrammarPart::At(FIELD_PATTERN_PLACE),
        later: GrammarPart::At(FIELD_PATTERN_PLACE),
        dots: true,
        close: TokenKind::Mark(Mark::CloseBrace),
        after: 88,
    },
    GrammarStep::Ends(GrammarRow::PathPattern),
    GrammarStep::Either(TokenKind::Mark(Mark::OpenBrace), 89, 90),
    GrammarStep::Either(TokenKind::Mark(Mark::OpenParenthesis), 87, 91),
    GrammarStep::Part(GrammarPart::At(NAME_PLACE), 92),
    GrammarStep::Either(TokenKind::Mark(Mark::OpenBrace), 89, 82),
    GrammarStep::Either(TokenKind::Mark(Mark::OpenParenthesis), 87, 94),
    GrammarStep::Either(TokenKind::Mark(Mark::PathSep), 93, 95),
    GrammarStep::Either(TokenKind::Mark(Mark::PathSep), 93, 92),
    GrammarStep::Ends(GrammarRow::NumberPattern),
    GrammarStep::Token(TokenKind::Number, 98),
    GrammarStep::Ends(GrammarRow::BoolPattern),
    GrammarStep::Ends(GrammarRow::TuplePattern),
    GrammarStep::List {
        part: GrammarPart::At(PATTERN_PLACE),
        later: GrammarPart::At(PATTERN_PLACE),
        dots: true,
        close: TokenKind::Mark(Mark::CloseParenthesis),
        after: 101,
    },
    GrammarStep::Ends(GrammarRow::ArrayPattern),
    GrammarStep::List {
        part: GrammarPart::At(PATTERN_PLACE),
        later: GrammarPart::At(PATTERN_PLACE),
        dots: true,
        close: TokenKind::Mark(Mark::CloseBracket),
        after: 103,
    },
    GrammarStep::Token(TokenKind::Word(Word::SelfValue), 84),
    GrammarStep::Either(TokenKind::Word(Word::Mut), 105, 105),
    GrammarStep::Ends(GrammarRow::FieldPattern),
    GrammarStep::Part(GrammarPart::At(PATTERN_PLACE), 107),
    GrammarStep::Either(TokenKind::Mark(Mark::Colon), 108, 107),
    GrammarStep::Token(TokenKind::Name, 107),
    GrammarStep::Ends(GrammarRow::Empty),
    GrammarStep::Ends(GrammarRow::Let),
    GrammarStep::Token(TokenKind::Mark(Mark::Semi), 112),
    GrammarStep::Part(GrammarPart::At(EXPR_PLACE), 113),
    GrammarStep::Either(TokenKind::Mark(Mark::Eq), 114, 113),
    GrammarStep::Part(GrammarPart::At(TYPE_PLACE), 115),
    GrammarStep::Either(TokenKind::Mark(Mark::Colon), 116, 115),
    GrammarStep::Part(GrammarPart::At(PATTERN_1_PLACE), 117),
    GrammarStep::Ends(GrammarRow::Return),
    GrammarStep::Maybe(GrammarPart::AfterReturn, 119, GrammarRow::Return),
    GrammarStep::AfterBreak,
    GrammarStep::Ends(GrammarRow::Continue),
    GrammarStep::Maybe(
        GrammarPart::At(LABEL_ONLY_LABEL_PLACE),
        122,
        GrammarRow::Continue,
    ),
    GrammarStep::Ends(GrammarRow::Closure),
    GrammarStep::Part(GrammarPart::At(EXPR_ONLY_BLOCK_PLACE), 124),
    GrammarStep::Part(GrammarPart::At(TYPE_PLACE), 125),
    GrammarStep::Either(TokenKind::Mark(Mark::RArrow), 126, 125),
    GrammarStep::List {
        part: GrammarPart::At(PATTERN_IS_PARAM_1_PLACE),
        later: GrammarPart::At(PATTERN_IS_PARAM_1_PLACE),
        dots: false,
        close: TokenKind::Mark(Mark::Or),
        after: 127,
    },
    GrammarStep::Token(TokenKind::Mark(Mark::Or), 128),
    GrammarStep::Either(TokenKind::Mark(Mark::OrOr), 127, 129),
    GrammarStep::List {
        part: GrammarPart::At(NAME_PLACE),
        later: GrammarPart::At(NAME_PLACE),
        dots: false,
        close: TokenKind::Mark(Mark::CloseBracket),
        after: 130,
    },
    GrammarStep::Token(TokenKind::Mark(Mark::OpenBracket), 131),
    GrammarStep::Ends(GrammarRow::Prefix),
    GrammarStep::Part(GrammarPart::Operand(7), 133),
    GrammarStep::Either(TokenKind::Word(Word::Mut), 134, 134),
    GrammarStep::Ends(GrammarRow::Number),
    GrammarStep::Ends(GrammarRow::Truth),
    GrammarStep::Ends(GrammarRow::SelfValue),
    GrammarStep::Ends(GrammarRow::StructExpr),
    GrammarStep::List {
        part: GrammarPart::At(FIELD_INIT_PLACE),
        later: GrammarPart::At(FIELD_INIT_PLACE),
        dots: false,
        close: TokenKind::Mark(Mark::CloseBrace),
        after: 139,
    },
    GrammarStep::Ends(GrammarRow::Path),
    GrammarStep::Either(TokenKind::Mark(Mark::OpenBrace), 140, 141),
    GrammarStep::Part(GrammarPart::At(NAME_PLACE), 142),
    GrammarStep::Either(TokenKind::Mark(Mark::PathSep), 143, 142),
    GrammarStep::Part(GrammarPart::At(NAME_PLACE), 141),
    GrammarStep::Either(TokenKind::Mark(Mark::PathSep), 145, 141),
    GrammarStep::Ends(GrammarRow::Panic),
    GrammarStep::Token(TokenKind::Mark(Mark::CloseParenthesis), 147),
    GrammarStep::Either(TokenKind::Text, 148, 148),
    GrammarStep::Token(TokenKind::Mark(Mark::OpenParenthesis), 149),
    GrammarStep::Either(TokenKind::Mark(Mark::Not), 150, 144),
    GrammarStep::Either(TokenKind::Mark(Mark::Not), 150, 146),
    GrammarStep::Ends(GrammarRow::Round),
    GrammarStep::List {
        part: GrammarPart::At(EXPR_PLACE),
        later: GrammarPart::At(EXPR_PLACE),
        dots: false,
        close: TokenKind::Mark(Mark::CloseParenthesis),
        after: 153,
    },
    GrammarStep::Ends(GrammarRow::Square),
    GrammarStep::List {
        part: GrammarPart::At(EXPR_PLACE),
        later: GrammarPart::At(EXPR_PLACE),
        dots: false,
        close: TokenKind::Mark(Mark::CloseBracket),
        after: 155,
    },
    GrammarStep::Statements(false),
    GrammarStep::Ends(GrammarRow::If),
    GrammarStep::Part(GrammarPart::At(EXPR_BLOCK_OR_IF_PLACE), 158),
    GrammarStep::Either(TokenKind::Word(Word::Else), 159, 158),
    GrammarStep::Part(GrammarPart::At(EXPR_ONLY_BLOCK_PLACE), 160),
    GrammarStep::Part(GrammarPart::At(EXPR_IN_HEAD_PLACE), 161),
    GrammarStep::Token(TokenKind::Mark(Mark::Eq), 162),
    GrammarStep::Part(GrammarPart::At(PATTERN_PLACE), 163),
    GrammarStep::Either(TokenKind::Word(Word::Let), 164, 162),
    GrammarStep::Arms(false),
    GrammarStep::Token(TokenKind::Mark(Mark::OpenBrace), 166),
    GrammarStep::Part(GrammarPart::At(EXPR_IN_HEAD_PLACE), 167),
    GrammarStep::Ends(GrammarRow::Loop),
    GrammarStep::Part(GrammarPart::At(EXPR_ONLY_BLOCK_PLACE), 169),
    GrammarStep::Ends(GrammarRow::While),
    GrammarStep::Part(GrammarPart::At(EXPR_ONLY_BLOCK_PLACE), 171),
    GrammarStep::Part(GrammarPart::At(EXPR_IN_HEAD_PLACE), 172),
    GrammarStep::Token(TokenKind::Mark(Mark::Eq), 173),
    GrammarStep::Part(GrammarPart::At(PATTERN_PLACE), 174),
    GrammarStep::Either(TokenKind::Word(Word::Let), 175, 173),
    GrammarStep::Token(TokenKind::Word(Word::While), 176),
    GrammarStep::Either(TokenKind::Word(Word::Loop), 170, 177),
    GrammarStep::Either(TokenKind::Mark(Mark::Colon), 178, 59),
    GrammarStep::Ends(GrammarRow::FieldInit),
    GrammarStep::Part(GrammarPart::At(EXPR_PLACE), 180),
    GrammarStep::Either(TokenKind::Mark(Mark::Colon), 181, 180),
    GrammarStep::Ends(GrammarRow::Assign),
    GrammarStep::Part(GrammarPart::Operand(0), 183),
    GrammarStep::Ends(GrammarRow::Or),
    GrammarStep::Part(GrammarPart::Operand(3), 185),
    GrammarStep::Ends(GrammarRow::And),
    GrammarStep::Part(GrammarPart::Operand(4), 187),
    GrammarStep::Ends(GrammarRow::Compare),
    GrammarStep::Part(GrammarPart::Operand(5), 189),
    GrammarStep::Ends(GrammarRow::Sum),
    GrammarStep::Part(GrammarPart::Operand(6), 191),
    GrammarStep::Ends(GrammarRow::Product),
    GrammarStep::Part(GrammarPart::Operand(7), 193),
    GrammarStep::Ends(GrammarRow::Call),
    GrammarStep::List {
        part: GrammarPart::At(EXPR_PLACE),
        later: GrammarPart::At(EXPR_PLACE),
        dots: false,
        close: TokenKind::Mark(Mark::CloseParenthesis),
        after: 195,
    },
    GrammarStep::Ends(GrammarRow::MethodCall),
    GrammarStep::List {
        part: GrammarPart::At(EXPR_PLACE),
        later: GrammarPart::At(EXPR_PLACE),
        dots: false,
        close: TokenKind::Mark(Mark::CloseParenthesis),
        after: 197,
    },
    GrammarStep::Ends(GrammarRow::FieldAccess),
    GrammarStep::Either(TokenKind::Mark(Mark::OpenParenthesis), 198, 199),
    GrammarStep::Ends(GrammarRow::TupleField),
    GrammarStep::Token(TokenKind::Digits, 201),
    GrammarStep::Either(TokenKind::Name, 200, 202),
    GrammarStep::Ends(GrammarRow::Index),
    GrammarStep::Token(TokenKind::Mark(Mark::CloseBracket), 204),
    GrammarStep::Part(GrammarPart::At(EXPR_PLACE), 205),
    GrammarStep::Ends(GrammarRow::Semi),
    GrammarStep::Alternatives,
    GrammarStep::Part(GrammarPart::At(PATTERN_1_PLACE), 208),
    GrammarStep::Ends(GrammarRow::Param),
    GrammarStep::Part(GrammarPart::At(TYPE_PLACE), 210),
    GrammarStep::ArmBody,
    GrammarStep::Token(TokenKind::Mark(Mark::FatArrow), 212),
    GrammarStep::Part(GrammarPart::At(EXPR_PLACE), 213),
    GrammarStep::Items,
    GrammarStep::Ends(GrammarRow::Block),
    GrammarStep::Token(TokenKind::Mark(Mark::CloseBrace), 216),
    GrammarStep::Statements(true),
    GrammarStep::Ends(GrammarRow::Match),
    GrammarStep::Arms(true),
    GrammarStep::Token(TokenKind::Mark(Mark::CloseBrace), 219),
    GrammarStep::Ends(GrammarRow::Arm),
    GrammarStep::Either(TokenKind::Mark(Mark::Comma), 222, 222),
    GrammarStep::Ends(GrammarRow::LastArm),
    GrammarStep::Either(TokenKind::Mark(Mark::Comma), 222, 224),
    GrammarStep::Ends(GrammarRow::Break),
    GrammarStep::Maybe(GrammarPart::AfterReturn, 226, GrammarRow::Break),
];

// Where a node is behind its first token, and other points that are named.
pub const DERIVED: u16 = 18;

pub const STRUCT: u16 = 7;

pub const ENUM: u16 = 11;

pub const TRAIT: u16 = 22;

pub const IMPL: u16 = 28;

pub const FN: u16 = 35;

pub const METHOD: u16 = 42;

pub const HEAD: u16 = 49;

pub const FIELD: u16 = 52;

pub const VARIANT: u16 = 57;

pub const IDENT: u16 = 58;

pub const LABEL_NAME: u16 = 59;

pub const TYPE_NAME: u16 = 68;

pub const SELF_TYPE: u16 = 69;

pub const TUPLE_TYPE: u16 = 71;

pub const ARRAY_TYPE: u16 = 76;

pub const NEVER_TYPE: u16 = 77;

pub const REF_TYPE: u16 = 80;

pub const WILD: u16 = 81;

pub const BIND: u16 = 83;

pub const BIND_OR_SELF: u16 = 85;

pub const PATTERN_NAME: u16 = 96;

pub const PATTERN_SELF_TYPE: u16 = 97;

pub const PATTERN_NUMBER: u16 = 98;

pub const PATTERN_MINUS: u16 = 99;

pub const PATTERN_TRUTH: u16 = 100;

pub const TUPLE_PATTERN: u16 = 102;

pub const ARRAY_PATTERN: u16 = 104;

pub const SELF_PARAM: u16 = 84;

pub const REF_SELF: u16 = 106;

pub const FIELD_PATTERN: u16 = 109;

pub const FIELD_PATTERN_MUT: u16 = 110;

pub const EMPTY: u16 = 111;

pub const LET: u16 = 118;

pub const RETURN: u16 = 120;

pub const BREAK: u16 = 121;

pub const CONTINUE: u16 = 123;

pub const CLOSURE: u16 = 132;

pub const PREFIX: u16 = 134;

pub const REFERENCE: u16 = 135;

pub const NUMBER: u16 = 136;

pub const TRUTH: u16 = 137;

pub const SELF_VALUE: u16 = 138;

pub const PATH: u16 = 144;

pub const PATH_IN_HEAD: u16 = 146;

pub const PANIC: u16 = 151;

pub const PANIC_IN_HEAD: u16 = 152;

pub const ROUND: u16 = 154;

pub const SQUARE: u16 = 156;

pub const BLOCK: u16 = 157;

pub const IF: u16 = 165;

pub const MATCH: u16 = 168;

pub const LOOP: u16 = 170;

pub const WHILE: u16 = 176;

pub const LABELLED: u16 = 179;

pub const FIELD_INIT: u16 = 182;

pub const ASSIGN: u16 = 184;

pub const OR: u16 = 186;

pub const AND: u16 = 188;

pub const COMPARE: u16 = 190;

pub const SUM: u16 = 192;

pub const PRODUCT: u16 = 194;

pub const CALL: u16 = 196;

pub const DOT: u16 = 203;

pub const INDEX: u16 = 206;

pub const SEMI: u16 = 207;

pub const ALTERNATIVE: u16 = 209;

pub const PARAM: u16 = 211;

pub const ARM_BODY: u16 = 212;

pub const GUARD: u16 = 214;

pub const ITEMS: u16 = 215;

pub const BLOCK_END: u16 = 216;

pub const CLOSE_BLOCK: u16 = 217;

pub const NEXT_STATEMENTS: u16 = 218;

pub const MATCH_END: u16 = 219;

pub const NEXT_ARMS: u16 = 220;

pub const CLOSE_MATCH: u16 = 221;

pub const BEHIND_BLOCK: u16 = 223;

pub const BEHIND_BODY: u16 = 225;

pub const BEHIND_LABEL: u16 = 227;

pub const BREAK_END: u16 = 226;
