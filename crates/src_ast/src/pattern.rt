ghost use Rattle.std.specs.Prelude.{◌≡◌, option_map};
ghost use Rattle.src_ast.specs.Patterns.{field_pattern_of, pattern_of};
ghost use Rattle.src_ast.specs.Seen.{made_of, syn_of};
ghost use Rattle.src_ast.specs.Sorts.{field_pattern_part, pattern_part};
ghost use Rattle.src_ast.specs.Syntax.{shape_of};
ghost use Rattle.src_ast.specs.View.{has_mark, tokens_in};
ghost use Rattle.src_token.specs.declared.mark.Mark.{Mark};
ghost use Rattle.src_tree.specs.View.{parts_in};
ghost use Rattle.src_tree.specs.declared.row.GrammarRow.{GrammarRow};

use crate::nodes::{First, Nodes};
use crate::path::{PathForm, behind_path, path_of};
use crate::tokens::{a_name, a_number, has, has_true};
use mir_base::IntKind;
use src_token::Mark;
use src_tree::{GrammarRow, NodePiece, SyntaxNode, TokenKind};

/// A pattern (The Rust Reference, "Patterns").
#[derive(Clone, Copy)]
pub enum PatternForm<'a> {
    /// `_`.
    Wild,
    /// A name, with `mut` or without.
    Bind(&'a str),
    /// A number.
    Literal {
        is_negative: bool,
        value: u64,
        suffix: Option<IntKind>,
    },
    /// `true` or `false`.
    Truth(bool),
    /// `Self`, or a path of two names.
    Path(PathForm<'a>),
    /// A path with parts in parentheses; `dots` where `..` stands last.
    Parts {
        path: PathForm<'a>,
        parts: Nodes<'a>,
        dots: bool,
    },
    /// A path with fields in braces.
    Fields {
        path: PathForm<'a>,
        fields: Nodes<'a>,
        dots: bool,
    },
    /// A pattern in parentheses.
    Parens(&'a SyntaxNode),
    Tuple {
        parts: Nodes<'a>,
        dots: bool,
    },
    Array {
        elements: Nodes<'a>,
        dots: bool,
    },
    /// Alternatives with `|` between them.
    Or(Nodes<'a>),
    /// No pattern.
    Other,
}

/// A field in a pattern; without a pattern it binds its own name.
#[derive(Clone, Copy)]
pub struct FieldPatternForm<'a> {
    pub name: &'a str,
    pub pattern: Option<&'a SyntaxNode>,
}

fn has_dots(pieces: &[NodePiece]) -> bool
    ensures { result ≡ has_mark Mark.DotDot (tokens_in (parts_in pieces.now)) }
{
    has(TokenKind::Mark(Mark::DotDot), pieces)
}

fn number(pieces: &[NodePiece]) -> PatternForm<'_>
    ensures { pattern_of result ≡ pattern_part (made_of GrammarRow.NumberPattern pieces.now) }
{
    let (value, suffix) = a_number(pieces);
    PatternForm::Literal {
        is_negative: has(TokenKind::Mark(Mark::Minus), pieces),
        value,
        suffix,
    }
}

fn parts(pieces: &[NodePiece]) -> PatternForm<'_>
    ensures { pattern_of result ≡ pattern_part (made_of GrammarRow.CallPattern pieces.now) }
{
    PatternForm::Parts {
        path: path_of(pieces),
        parts: behind_path(pieces),
        dots: has_dots(pieces),
    }
}

fn fields(pieces: &[NodePiece]) -> PatternForm<'_>
    ensures { pattern_of result ≡ pattern_part (made_of GrammarRow.StructPattern pieces.now) }
{
    PatternForm::Fields {
        path: path_of(pieces),
        fields: behind_path(pieces),
        dots: has_dots(pieces),
    }
}

fn round(pieces: &[NodePiece]) -> PatternForm<'_>
    ensures { pattern_of result ≡ pattern_part (made_of GrammarRow.TuplePattern pieces.now) }
{
    let parts = Nodes::among(pieces);
    let dots = has_dots(pieces);
    match parts.split_first() {
        Some(First { first, rest }) => {
            if rest.is_empty() && !has(TokenKind::Mark(Mark::Comma), pieces) && !dots {
                PatternForm::Parens(first)
            } else {
                PatternForm::Tuple { parts, dots }
            }
        }
        None => PatternForm::Tuple { parts, dots },
    }
}

/// A node as a pattern; `PatternForm::Other` where it is none.
#[tactic(auto, using(crate::proofs::Named::no_pattern_seen, crate::proofs::Named::seen_as))]
pub fn pattern_form(node: &SyntaxNode) -> PatternForm<'_>
    ensures { pattern_of result ≡ pattern_part (shape_of (syn_of node.now)) }
{
    let pieces = node.parts.as_slice();
    match node.row {
        GrammarRow::WildPattern => PatternForm::Wild,
        GrammarRow::BindPattern => PatternForm::Bind(a_name(pieces)),
        GrammarRow::NumberPattern => number(pieces),
        GrammarRow::BoolPattern => PatternForm::Truth(has_true(pieces)),
        GrammarRow::PathPattern => PatternForm::Path(path_of(pieces)),
        GrammarRow::CallPattern => parts(pieces),
        GrammarRow::StructPattern => fields(pieces),
        GrammarRow::TuplePattern => round(pieces),
        GrammarRow::ArrayPattern => PatternForm::Array {
            elements: Nodes::among(pieces),
            dots: has_dots(pieces),
        },
        GrammarRow::OrPattern => PatternForm::Or(Nodes::among(pieces)),
        _ => PatternForm::Other,
    }
}

/// A node as a field in a pattern, if it is one.
#[tactic(auto, using(crate::proofs::Named::no_field_pattern_seen, crate::proofs::Named::seen_as))]
pub fn field_pattern_form(node: &SyntaxNode) -> Option<FieldPatternForm<'_>>
    ensures { option_map field_pattern_of result ≡ field_pattern_part (shape_of (syn_of node.now)) }
{
    let pieces = node.parts.as_slice();
    match node.row {
        GrammarRow::FieldPattern => Some(FieldPatternForm {
            name: a_name(pieces),
            pattern: Nodes::among(pieces).first(),
        }),
        _ => None,
    }
}
