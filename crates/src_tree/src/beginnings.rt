//! How nodes begin.
ghost use Rattle.std.specs.Prelude.{◌≡◌, Some, None, option_map};
ghost use Rattle.src_tree.specs.Grammar.{item as item_of, method as method_of, head as head_of, named_field as field_of, variant as variant_of, name as name_of, label as label_of, type_ as type_of, pattern as pattern_of, field_pattern as field_pattern_of, expression as expression_of, field_init as field_init_of, entry as entry_is, infix_expr as infix_expr_of, infix_pattern as infix_pattern_of, joined as joined_is, joined_by as joined_by_row, named as named_of, is_panic};
ghost use Rattle.src_tree.specs.Table.{rest_at, entry_of, joined_of};

use crate::grammar::is_text;
use crate::table::*;
use crate::{GrammarPlace, GrammarRow, Seen, Sort, Start};
use mir_base::Name;
use src_token::{Mark, Token, Word};

#[tactic(auto, using(crate::proofs::Named::derived_is, crate::proofs::Named::struct_is, crate::proofs::Named::enum_is, crate::proofs::Named::trait_is, crate::proofs::Named::impl_is))]
fn item(token: &Token) -> Option<(GrammarRow, u16)>
    ensures { option_map entry_of result ≡ item_of token.now }
{
    let begun = match token {
        Token::Mark(Mark::Pound) => (GrammarRow::Struct, DERIVED),
        Token::Word(Word::Struct) => (GrammarRow::Struct, STRUCT),
        Token::Word(Word::Enum) => (GrammarRow::Enum, ENUM),
        Token::Word(Word::Trait) => (GrammarRow::Trait, TRAIT),
        Token::Word(Word::Impl) => (GrammarRow::Impl, IMPL),
        Token::Word(Word::Fn) => (GrammarRow::Fn, FN),
        _ => return None,
    };
    Some(begun)
}

#[tactic(auto, using(crate::proofs::Named::method_is))]
fn method(token: &Token) -> Option<(GrammarRow, u16)>
    ensures { option_map entry_of result ≡ method_of token.now }
{
    let begun = match token {
        Token::Word(Word::Fn) => (GrammarRow::Method, METHOD),
        _ => return None,
    };
    Some(begun)
}

#[tactic(auto, using(crate::proofs::Named::head_is))]
fn head(token: &Token) -> Option<(GrammarRow, u16)>
    ensures { option_map entry_of result ≡ head_of token.now }
{
    let begun = match token {
        Token::Word(Word::Fn) => (GrammarRow::Head, HEAD),
        _ => return None,
    };
    Some(begun)
}

#[tactic(auto, using(crate::proofs::Named::field_is))]
fn named_field(token: &Token) -> Option<(GrammarRow, u16)>
    ensures { option_map entry_of result ≡ field_of token.now }
{
    let begun = match token {
        Token::Name(_) => (GrammarRow::Field, FIELD),
        _ => return None,
    };
    Some(begun)
}

#[tactic(auto, using(crate::proofs::Named::variant_is))]
fn variant(token: &Token) -> Option<(GrammarRow, u16)>
    ensures { option_map entry_of result ≡ variant_of token.now }
{
    let begun = match token {
        Token::Name(_) => (GrammarRow::Variant, VARIANT),
        _ => return None,
    };
    Some(begun)
}

#[tactic(auto, using(crate::proofs::Named::ident_is))]
fn ident(token: &Token) -> Option<(GrammarRow, u16)>
    ensures { option_map entry_of result ≡ name_of token.now }
{
    let begun = match token {
        Token::Name(_) => (GrammarRow::Ident, IDENT),
        _ => return None,
    };
    Some(begun)
}

#[tactic(auto, using(crate::proofs::Named::label_name_is))]
fn label(token: &Token) -> Option<(GrammarRow, u16)>
    ensures { option_map entry_of result ≡ label_of token.now }
{
    let begun = match token {
        Token::Label(_) => (GrammarRow::LabelName, LABEL_NAME),
        _ => return None,
    };
    Some(begun)
}

#[tactic(auto, using(crate::proofs::Named::field_init_is))]
fn field_init(token: &Token) -> Option<(GrammarRow, u16)>
    ensures { option_map entry_of result ≡ field_init_of token.now }
{
    let begun = match token {
        Token::Name(_) => (GrammarRow::FieldInit, FIELD_INIT),
        _ => return None,
    };
    Some(begun)
}

#[tactic(auto, using(crate::proofs::Named::type_name_is, crate::proofs::Named::self_type_is, crate::proofs::Named::tuple_type_is, crate::proofs::Named::array_type_is, crate::proofs::Named::never_type_is, crate::proofs::Named::ref_type_is))]
fn type_row(token: &Token) -> Option<(GrammarRow, u16)>
    ensures { option_map entry_of result ≡ type_of token.now }
{
    let begun = match token {
        Token::Name(_) => (GrammarRow::NamedType, TYPE_NAME),
        Token::Word(Word::SelfType) => (GrammarRow::SelfType, SELF_TYPE),
        Token::Mark(Mark::OpenParenthesis) => (GrammarRow::TupleType, TUPLE_TYPE),
        Token::Mark(Mark::OpenBracket) => (GrammarRow::ArrayType, ARRAY_TYPE),
        Token::Mark(Mark::Not) => (GrammarRow::NeverType, NEVER_TYPE),
        Token::Mark(Mark::And) => (GrammarRow::RefType, REF_TYPE),
        _ => return None,
    };
    Some(begun)
}

#[tactic(auto, using(crate::proofs::Named::wild_is, crate::proofs::Named::bind_or_self_is, crate::proofs::Named::bind_is, crate::proofs::Named::pattern_name_is, crate::proofs::Named::pattern_self_type_is, crate::proofs::Named::pattern_number_is, crate::proofs::Named::pattern_minus_is, crate::proofs::Named::pattern_truth_is, crate::proofs::Named::tuple_pattern_is, crate::proofs::Named::array_pattern_is, crate::proofs::Named::self_param_is, crate::proofs::Named::ref_self_is))]
fn pattern(self_: bool, token: &Token) -> Option<(GrammarRow, u16)>
    ensures { option_map entry_of result ≡ pattern_of self_ token.now }
{
    let begun = match token {
        Token::Mark(Mark::Underscore) => (GrammarRow::WildPattern, WILD),
        Token::Word(Word::Mut) => (
            GrammarRow::BindPattern,
            if self_ { BIND_OR_SELF } else { BIND },
        ),
        Token::Name(_) => (GrammarRow::BindPattern, PATTERN_NAME),
        Token::Word(Word::SelfType) => (GrammarRow::PathPattern, PATTERN_SELF_TYPE),
        Token::Number { .. } => (GrammarRow::NumberPattern, PATTERN_NUMBER),
        Token::Mark(Mark::Minus) => (GrammarRow::NumberPattern, PATTERN_MINUS),
        Token::Word(Word::True) => (GrammarRow::BoolPattern, PATTERN_TRUTH),
        Token::Word(Word::False) => (GrammarRow::BoolPattern, PATTERN_TRUTH),
        Token::Mark(Mark::OpenParenthesis) => (GrammarRow::TuplePattern, TUPLE_PATTERN),
        Token::Mark(Mark::OpenBracket) => (GrammarRow::ArrayPattern, ARRAY_PATTERN),
        Token::Word(Word::SelfValue) if self_ => (GrammarRow::SelfParam, SELF_PARAM),
        Token::Mark(Mark::And) if self_ => (GrammarRow::SelfParam, REF_SELF),
        _ => return None,
    };
    Some(begun)
}

#[tactic(auto, using(crate::proofs::Named::field_pattern_is, crate::proofs::Named::field_pattern_mut_is))]
fn field_pattern(token: &Token) -> Option<(GrammarRow, u16)>
    ensures { option_map entry_of result ≡ field_pattern_of token.now }
{
    let begun = match token {
        Token::Name(_) => (GrammarRow::FieldPattern, FIELD_PATTERN),
        Token::Word(Word::Mut) => (GrammarRow::FieldPattern, FIELD_PATTERN_MUT),
        _ => return None,
    };
    Some(begun)
}

#[tactic(auto, using(crate::proofs::Named::path_is, crate::proofs::Named::path_in_head_is, crate::proofs::Named::panic_is, crate::proofs::Named::panic_in_head_is))]
fn named_beginning(head: bool, name: &Name) -> u16
    ensures { rest_at result ≡ named_of (is_panic name.now) head }
{
    match (is_text(name, "panic"), head) {
        (false, false) => PATH,
        (false, true) => PATH_IN_HEAD,
        (true, false) => PANIC,
        (true, true) => PANIC_IN_HEAD,
    }
}

#[tactic(auto, using(crate::proofs::Named::empty_is, crate::proofs::Named::let_is, crate::proofs::Named::return_is, crate::proofs::Named::break_is, crate::proofs::Named::continue_is, crate::proofs::Named::closure_is, crate::proofs::Named::prefix_is, crate::proofs::Named::reference_is, crate::proofs::Named::number_is, crate::proofs::Named::truth_is, crate::proofs::Named::self_value_is, crate::proofs::Named::path_in_head_is, crate::proofs::Named::path_is, crate::proofs::Named::round_is, crate::proofs::Named::square_is, crate::proofs::Named::block_is, crate::proofs::Named::match_is, crate::proofs::Named::loop_is, crate::proofs::Named::while_is, crate::proofs::Named::labelled_is))]
fn expression(head: bool, token: &Token) -> Option<(GrammarRow, u16)>
    ensures { option_map entry_of result ≡ expression_of head token.now }
{
    let begun = match token {
        Token::Mark(Mark::Semi) => (GrammarRow::Empty, EMPTY),
        Token::Word(Word::Let) => (GrammarRow::Let, LET),
        Token::Word(Word::Return) => (GrammarRow::Return, RETURN),
        Token::Word(Word::Break) => (GrammarRow::Break, BREAK),
        Token::Word(Word::Continue) => (GrammarRow::Continue, CONTINUE),
        Token::Word(Word::Move) => (GrammarRow::Closure, CLOSURE),
        Token::Mark(Mark::Minus) => (GrammarRow::Prefix, PREFIX),
        Token::Mark(Mark::Not) => (GrammarRow::Prefix, PREFIX),
        Token::Mark(Mark::Star) => (GrammarRow::Prefix, PREFIX),
        Token::Mark(Mark::And) => (GrammarRow::Prefix, REFERENCE),
        Token::Number { .. } => (GrammarRow::Number, NUMBER),
        Token::Word(Word::True) => (GrammarRow::Truth, TRUTH),
        Token::Word(Word::False) => (GrammarRow::Truth, TRUTH),
        Token::Word(Word::SelfValue) => (GrammarRow::SelfValue, SELF_VALUE),
        Token::Name(name) => (GrammarRow::Path, named_beginning(head, name)),
        Token::Word(Word::SelfType) => (GrammarRow::Path, if head { PATH_IN_HEAD } else { PATH }),
        Token::Mark(Mark::OpenParenthesis) => (GrammarRow::Round, ROUND),
        Token::Mark(Mark::OpenBracket) => (GrammarRow::Square, SQUARE),
        Token::Mark(Mark::OpenBrace) => (GrammarRow::Block, BLOCK),
        Token::Word(Word::If) => (GrammarRow::If, IF),
        Token::Word(Word::Match) => (GrammarRow::Match, MATCH),
        Token::Word(Word::Loop) => (GrammarRow::Loop, LOOP),
        Token::Word(Word::While) => (GrammarRow::While, WHILE),
        Token::Label(_) => (GrammarRow::Loop, LABELLED),
        _ => return None,
    };
    Some(begun)
}

/// How a token begins a node: the first row that it can be, and where it is behind the token.
pub fn entry(seen: Seen, token: &Token) -> Option<(GrammarRow, u16)>
    ensures { option_map entry_of result ≡ entry_is seen token.now }
{
    match seen.sort {
        Sort::File => None,
        Sort::Item => item(token),
        Sort::Method => method(token),
        Sort::Head => head(token),
        Sort::Field => named_field(token),
        Sort::Variant => variant(token),
        Sort::Name => ident(token),
        Sort::Type_ => type_row(token),
        Sort::Pattern => pattern(seen.head, token),
        Sort::FieldPattern => field_pattern(token),
        Sort::Expr => expression(seen.head, token),
        Sort::FieldInit => field_init(token),
        Sort::Label => label(token),
    }
}

fn joined_by(seen: Seen, row: GrammarRow, least: u8, at: u16) -> Option<JoinedBeginning>
    ensures { option_map joined_of result ≡ joined_by_row seen row least (rest_at at) }
{
    Some(JoinedBeginning {
        row,
        place: GrammarPlace {
            sort: seen.sort,
            least,
            head: seen.head,
            start: seen.start,
        },
        at,
    })
}

#[tactic(auto, using(crate::proofs::Named::assign_is, crate::proofs::Named::and_is, crate::proofs::Named::compare_is, crate::proofs::Named::sum_is, crate::proofs::Named::product_is, crate::proofs::Named::call_is, crate::proofs::Named::dot_is, crate::proofs::Named::index_is, crate::proofs::Named::semi_is))]
fn infix_expr(seen: Seen, token: &Token) -> Option<JoinedBeginning>
    ensures { option_map joined_of result ≡ infix_expr_of seen token.now }
{
    match token {
        Token::Mark(Mark::Eq) => joined_by(seen, GrammarRow::Assign, 2, ASSIGN),
        Token::Mark(Mark::OrOr) => joined_by(seen, GrammarRow::Or, 2, OR),
        Token::Mark(Mark::AndAnd) => joined_by(seen, GrammarRow::And, 3, AND),
        Token::Mark(Mark::EqEq) => joined_by(seen, GrammarRow::Compare, 5, COMPARE),
        Token::Mark(Mark::Ne) => joined_by(seen, GrammarRow::Compare, 5, COMPARE),
        Token::Mark(Mark::Lt) => joined_by(seen, GrammarRow::Compare, 5, COMPARE),
        Token::Mark(Mark::Le) => joined_by(seen, GrammarRow::Compare, 5, COMPARE),
        Token::Mark(Mark::Gt) => joined_by(seen, GrammarRow::Compare, 5, COMPARE),
        Token::Mark(Mark::Ge) => joined_by(seen, GrammarRow::Compare, 5, COMPARE),
        Token::Mark(Mark::Plus) => joined_by(seen, GrammarRow::Sum, 5, SUM),
        Token::Mark(Mark::Minus) => joined_by(seen, GrammarRow::Sum, 5, SUM),
        Token::Mark(Mark::Star) => joined_by(seen, GrammarRow::Product, 6, PRODUCT),
        Token::Mark(Mark::Slash) => joined_by(seen, GrammarRow::Product, 6, PRODUCT),
        Token::Mark(Mark::Percent) => joined_by(seen, GrammarRow::Product, 6, PRODUCT),
        Token::Mark(Mark::OpenParenthesis) => joined_by(seen, GrammarRow::Call, 9, CALL),
        Token::Mark(Mark::Dot) => joined_by(seen, GrammarRow::TupleField, 8, DOT),
        Token::Mark(Mark::OpenBracket) => joined_by(seen, GrammarRow::Index, 8, INDEX),
        Token::Mark(Mark::Semi) => Some(JoinedBeginning {
            row: GrammarRow::Semi,
            place: GrammarPlace {
                sort: Sort::Expr,
                least: 0,
                head: seen.head,
                start: Start::Value,
            },
            at: SEMI,
        }),
        _ => None,
    }
}

#[tactic(auto, using(crate::proofs::Named::alternative_is, crate::proofs::Named::param_is, crate::proofs::Named::arm_body_is, crate::proofs::Named::guard_is))]
fn infix_pattern(seen: Seen, token: &Token) -> Option<JoinedBeginning>
    ensures { option_map joined_of result ≡ infix_pattern_of seen token.now }
{
    match token {
        Token::Mark(Mark::Or) => joined_by(seen, GrammarRow::OrPattern, 1, ALTERNATIVE),
        Token::Mark(Mark::Colon) => joined_by(seen, GrammarRow::Param, 1, PARAM),
        Token::Mark(Mark::FatArrow) => joined_by(seen, GrammarRow::Arm, 0, ARM_BODY),
        Token::Word(Word::If) => joined_by(seen, GrammarRow::Arm, 0, GUARD),
        _ => None,
    }
}

/// How a token behind a node makes it the first part of another.
pub fn join_beginning(seen: Seen, token: &Token) -> Option<JoinedBeginning>
    ensures { option_map joined_of result ≡ joined_is seen token.now }
{
    match seen.sort {
        Sort::Expr => infix_expr(seen, token),
        Sort::Pattern => infix_pattern(seen, token),
        _ => None,
    }
}
