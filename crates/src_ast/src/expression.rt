ghost use Rattle.std.specs.Prelude.{◌≡◌, option_map};
ghost use Rattle.src_ast.specs.Expressions.{expression_of, init_of};
ghost use Rattle.src_ast.specs.Seen.{made_of, syn_of};
ghost use Rattle.src_ast.specs.Sorts.{expression_part, init_part};
ghost use Rattle.src_ast.specs.Syntax.{shape_of};
ghost use Rattle.src_tree.specs.declared.row.GrammarRow.{GrammarRow};

use crate::control::{break_of, continue_of, if_of, while_of};
use crate::nodes::{First, Last, LeadingNames, Nodes};
use crate::operators::{and, assign, compare, index, or, prefix, product, sum};
use crate::path::{PathForm, behind_path, path_of};
use crate::statement::is_statement;
use crate::tokens::{a_label, a_name, a_number, has, has_true};
use mir_base::{Cmp, IntKind, Math};
use src_token::Mark;
use src_tree::{GrammarRow, NodePiece, SyntaxNode, TokenKind};

/// An expression (The Rust Reference, "Expressions").
#[derive(Clone, Copy)]
pub enum ExpressionForm<'a> {
    Number {
        value: u64,
        suffix: Option<IntKind>,
    },
    Truth(bool),
    Path(PathForm<'a>),
    /// `self`.
    SelfValue,
    Negate(&'a SyntaxNode),
    Not(&'a SyntaxNode),
    Deref(&'a SyntaxNode),
    Borrow {
        unique: bool,
        operand: &'a SyntaxNode,
    },
    Math {
        operator: Math,
        left: &'a SyntaxNode,
        right: &'a SyntaxNode,
    },
    Compare {
        operator: Cmp,
        left: &'a SyntaxNode,
        right: &'a SyntaxNode,
    },
    /// `&&`.
    And {
        left: &'a SyntaxNode,
        right: &'a SyntaxNode,
    },
    /// `||`.
    Or {
        left: &'a SyntaxNode,
        right: &'a SyntaxNode,
    },
    Assign {
        place: &'a SyntaxNode,
        value: &'a SyntaxNode,
    },
    Call {
        callee: &'a SyntaxNode,
        args: Nodes<'a>,
    },
    MethodCall {
        receiver: &'a SyntaxNode,
        name: &'a str,
        args: Nodes<'a>,
    },
    Field {
        base: &'a SyntaxNode,
        name: &'a str,
    },
    /// A part of a tuple.
    Part {
        base: &'a SyntaxNode,
        number: u64,
    },
    Index {
        base: &'a SyntaxNode,
        index: &'a SyntaxNode,
    },
    /// A path with initialisers in braces.
    Struct {
        path: PathForm<'a>,
        fields: Nodes<'a>,
    },
    Parens(&'a SyntaxNode),
    Tuple(Nodes<'a>),
    Array(Nodes<'a>),
    Block {
        statements: Nodes<'a>,
        tail: Option<&'a SyntaxNode>,
    },
    If {
        condition: &'a SyntaxNode,
        body: &'a SyntaxNode,
        otherwise: Option<&'a SyntaxNode>,
    },
    IfLet {
        pattern: &'a SyntaxNode,
        scrutinee: &'a SyntaxNode,
        body: &'a SyntaxNode,
        otherwise: Option<&'a SyntaxNode>,
    },
    Match {
        scrutinee: &'a SyntaxNode,
        arms: Nodes<'a>,
    },
    Loop {
        label: Option<&'a str>,
        body: &'a SyntaxNode,
    },
    While {
        label: Option<&'a str>,
        condition: &'a SyntaxNode,
        body: &'a SyntaxNode,
    },
    WhileLet {
        label: Option<&'a str>,
        pattern: &'a SyntaxNode,
        scrutinee: &'a SyntaxNode,
        body: &'a SyntaxNode,
    },
    Break {
        label: Option<&'a str>,
        value: Option<&'a SyntaxNode>,
    },
    Continue {
        label: Option<&'a str>,
    },
    Return(Option<&'a SyntaxNode>),
    Closure {
        /// The names that it captures.
        captures: Nodes<'a>,
        params: Nodes<'a>,
        answer: Option<&'a SyntaxNode>,
        block: &'a SyntaxNode,
    },
    /// `panic!()`.
    Panic,
    /// No expression.
    Other,
}

/// An initialiser of a field; without a value it is the variable of that name.
#[derive(Clone, Copy)]
pub struct InitForm<'a> {
    pub name: &'a str,
    pub value: Option<&'a SyntaxNode>,
}

/// An arm of a `match`.
#[derive(Clone, Copy)]
pub struct ArmForm<'a> {
    pub pattern: &'a SyntaxNode,
    pub guard: Option<&'a SyntaxNode>,
    pub body: &'a SyntaxNode,
}

fn call(pieces: &[NodePiece]) -> ExpressionForm<'_>
    ensures { expression_of result ≡ expression_part (made_of GrammarRow.Call pieces.now) }
{
    match Nodes::among(pieces).split_first() {
        Some(First { first, rest }) => ExpressionForm::Call {
            callee: first,
            args: rest,
        },
        None => ExpressionForm::Other,
    }
}

fn method_call(pieces: &[NodePiece]) -> ExpressionForm<'_>
    ensures { expression_of result ≡ expression_part (made_of GrammarRow.MethodCall pieces.now) }
{
    match Nodes::among(pieces).split_first() {
        Some(First { first, rest }) => ExpressionForm::MethodCall {
            receiver: first,
            name: a_name(pieces),
            args: rest,
        },
        None => ExpressionForm::Other,
    }
}

fn field(pieces: &[NodePiece]) -> ExpressionForm<'_>
    ensures { expression_of result ≡ expression_part (made_of GrammarRow.FieldAccess pieces.now) }
{
    match Nodes::among(pieces).first() {
        Some(first) => ExpressionForm::Field {
            base: first,
            name: a_name(pieces),
        },
        None => ExpressionForm::Other,
    }
}

fn part(pieces: &[NodePiece]) -> ExpressionForm<'_>
    ensures { expression_of result ≡ expression_part (made_of GrammarRow.TupleField pieces.now) }
{
    match Nodes::among(pieces).first() {
        Some(first) => ExpressionForm::Part {
            base: first,
            number: a_number(pieces).0,
        },
        None => ExpressionForm::Other,
    }
}

fn match_on(pieces: &[NodePiece]) -> ExpressionForm<'_>
    ensures { expression_of result ≡ expression_part (made_of GrammarRow.Match pieces.now) }
{
    match Nodes::among(pieces).split_first() {
        Some(First { first, rest }) => ExpressionForm::Match {
            scrutinee: first,
            arms: rest,
        },
        None => ExpressionForm::Other,
    }
}

fn loop_of(pieces: &[NodePiece]) -> ExpressionForm<'_>
    ensures { expression_of result ≡ expression_part (made_of GrammarRow.Loop pieces.now) }
{
    match Nodes::among(pieces).first() {
        Some(first) => ExpressionForm::Loop {
            label: a_label(pieces),
            body: first,
        },
        None => ExpressionForm::Other,
    }
}

fn number(pieces: &[NodePiece]) -> ExpressionForm<'_>
    ensures { expression_of result ≡ expression_part (made_of GrammarRow.Number pieces.now) }
{
    let (value, suffix) = a_number(pieces);
    ExpressionForm::Number { value, suffix }
}

fn struct_of(pieces: &[NodePiece]) -> ExpressionForm<'_>
    ensures { expression_of result ≡ expression_part (made_of GrammarRow.StructExpr pieces.now) }
{
    ExpressionForm::Struct {
        path: path_of(pieces),
        fields: behind_path(pieces),
    }
}

fn round(pieces: &[NodePiece]) -> ExpressionForm<'_>
    ensures { expression_of result ≡ expression_part (made_of GrammarRow.Round pieces.now) }
{
    let parts = Nodes::among(pieces);
    match parts.split_first() {
        Some(First { first, rest }) => {
            if rest.is_empty()
                && !has(TokenKind::Mark(Mark::Comma), pieces)
                && !has(TokenKind::Mark(Mark::DotDot), pieces)
            {
                ExpressionForm::Parens(first)
            } else {
                ExpressionForm::Tuple(parts)
            }
        }
        None => ExpressionForm::Tuple(parts),
    }
}

fn block(pieces: &[NodePiece]) -> ExpressionForm<'_>
    ensures { expression_of result ≡ expression_part (made_of GrammarRow.Block pieces.now) }
{
    let statements = Nodes::among(pieces);
    match statements.split_last() {
        Some(Last { earlier, last }) => {
            if is_statement(last) {
                ExpressionForm::Block {
                    statements,
                    tail: None,
                }
            } else {
                ExpressionForm::Block {
                    statements: earlier,
                    tail: Some(last),
                }
            }
        }
        None => ExpressionForm::Block {
            statements,
            tail: None,
        },
    }
}

fn closure(pieces: &[NodePiece]) -> ExpressionForm<'_>
    ensures { expression_of result ≡ expression_part (made_of GrammarRow.Closure pieces.now) }
{
    let LeadingNames { names, others } = Nodes::among(pieces).split_names();
    let Some(block) = others.last() else {
        return ExpressionForm::Other;
    };
    let heads = others.but_last();
    if has(TokenKind::Mark(Mark::RArrow), pieces) {
        ExpressionForm::Closure {
            captures: names,
            params: heads.but_last(),
            answer: heads.last(),
            block,
        }
    } else {
        ExpressionForm::Closure {
            captures: names,
            params: heads,
            answer: None,
            block,
        }
    }
}

/// A node as an initialiser of a field, if it is one.
#[tactic(auto, using(crate::proofs::Named::no_init_seen, crate::proofs::Named::seen_as))]
pub fn init_form(node: &SyntaxNode) -> Option<InitForm<'_>>
    ensures { option_map init_of result ≡ init_part (shape_of (syn_of node.now)) }
{
    let pieces = node.parts.as_slice();
    match node.row {
        GrammarRow::FieldInit => Some(InitForm {
            name: a_name(pieces),
            value: Nodes::among(pieces).first(),
        }),
        _ => None,
    }
}

/// A node as an expression; `ExpressionForm::Other` where it is none.
#[tactic(auto, using(crate::proofs::Named::no_expression_seen, crate::proofs::Named::seen_as))]
pub fn expression_form(node: &SyntaxNode) -> ExpressionForm<'_>
    ensures { expression_of result ≡ expression_part (shape_of (syn_of node.now)) }
{
    let pieces = node.parts.as_slice();
    match node.row {
        GrammarRow::Number => number(pieces),
        GrammarRow::Truth => ExpressionForm::Truth(has_true(pieces)),
        GrammarRow::SelfValue => ExpressionForm::SelfValue,
        GrammarRow::Path => ExpressionForm::Path(path_of(pieces)),
        GrammarRow::Prefix => prefix(pieces),
        GrammarRow::Sum => sum(pieces),
        GrammarRow::Product => product(pieces),
        GrammarRow::Compare => compare(pieces),
        GrammarRow::And => and(pieces),
        GrammarRow::Or => or(pieces),
        GrammarRow::Assign => assign(pieces),
        GrammarRow::Call => call(pieces),
        GrammarRow::MethodCall => method_call(pieces),
        GrammarRow::FieldAccess => field(pieces),
        GrammarRow::TupleField => part(pieces),
        GrammarRow::Index => index(pieces),
        GrammarRow::StructExpr => struct_of(pieces),
        GrammarRow::Round => round(pieces),
        GrammarRow::Square => ExpressionForm::Array(Nodes::among(pieces)),
        GrammarRow::Block => block(pieces),
        GrammarRow::If => if_of(pieces),
        GrammarRow::Match => match_on(pieces),
        GrammarRow::Loop => loop_of(pieces),
        GrammarRow::While => while_of(pieces),
        GrammarRow::Break => break_of(pieces),
        GrammarRow::Continue => continue_of(pieces),
        GrammarRow::Return => ExpressionForm::Return(Nodes::among(pieces).first()),
        GrammarRow::Closure => closure(pieces),
        GrammarRow::Panic => ExpressionForm::Panic,
        _ => ExpressionForm::Other,
    }
}
