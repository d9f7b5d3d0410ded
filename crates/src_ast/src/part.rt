ghost use Rattle.std.specs.Prelude.{◌≡◌, option_map};
ghost use Rattle.src_ast.specs.PartForms.{field_of, param_of, receiver_seen, variant_of};
ghost use Rattle.src_ast.specs.Seen.{made_of, syn_of};
ghost use Rattle.src_ast.specs.Syntax.{SelfParam, shape_of};
ghost use Rattle.src_ast.specs.View.{made, self_row, tokens_in, views};
ghost use Rattle.src_tree.specs.View.{parts_in};
ghost use Rattle.src_tree.specs.declared.row.GrammarRow.{GrammarRow};
ghost use Rattle.src_ast.specs.Sorts.{param_part, field_part, variant_part};

use crate::item::{FieldKind, field_kind};
use crate::nodes::{First, Nodes};
use crate::tokens::{a_name, has};
use src_token::{Mark, Word};
use src_tree::{GrammarRow, NodePiece, SyntaxNode, TokenKind};

/// How a method takes `self`.
#[derive(Clone, Copy)]
pub enum Receiver {
    /// `self`.
    Value,
    /// `&self`.
    Shared,
    /// `&mut self`.
    Unique,
}

/// A parameter.
#[derive(Clone, Copy)]
pub enum ParamForm<'a> {
    Pattern {
        pattern: &'a SyntaxNode,
        ty: &'a SyntaxNode,
    },
    SelfValue(Receiver),
    /// No parameter.
    Other,
}

/// A field with its name.
#[derive(Clone, Copy)]
pub struct FieldForm<'a> {
    pub name: &'a str,
    pub ty: &'a SyntaxNode,
}

/// A variant of an enum.
#[derive(Clone, Copy)]
pub struct VariantForm<'a> {
    pub name: &'a str,
    pub kind: FieldKind,
    /// Types, or fields with names.
    pub fields: Nodes<'a>,
}

fn pattern_param(pieces: &[NodePiece]) -> ParamForm<'_>
    ensures { param_of result ≡ param_part (made_of GrammarRow.Param pieces.now) }
{
    let Some(First { first, rest }) = Nodes::among(pieces).split_first() else {
        return ParamForm::Other;
    };
    match rest.first() {
        Some(ty) => ParamForm::Pattern { pattern: first, ty },
        None => ParamForm::Other,
    }
}

fn taken_self(pieces: &[NodePiece]) -> Receiver
    ensures { SelfParam (receiver_seen result) ≡ self_row (tokens_in (parts_in pieces.now)) }
{
    if !has(TokenKind::Mark(Mark::And), pieces) {
        Receiver::Value
    } else if has(TokenKind::Word(Word::Mut), pieces) {
        Receiver::Unique
    } else {
        Receiver::Shared
    }
}

/// A node as a parameter; `ParamForm::Other` where it is none.
#[tactic(auto, using(crate::proofs::Named::no_param_seen, crate::proofs::Named::seen_as))]
pub fn param_form(node: &SyntaxNode) -> ParamForm<'_>
    ensures { param_of result ≡ param_part (shape_of (syn_of node.now)) }
{
    match node.row {
        GrammarRow::Param => pattern_param(node.parts.as_slice()),
        GrammarRow::SelfParam => ParamForm::SelfValue(taken_self(node.parts.as_slice())),
        _ => ParamForm::Other,
    }
}

/// A node as a field with its name, if it is one.
#[tactic(auto, using(crate::proofs::Named::no_field_seen, crate::proofs::Named::seen_as))]
pub fn field_form(node: &SyntaxNode) -> Option<FieldForm<'_>>
    ensures { option_map field_of result ≡ field_part (shape_of (syn_of node.now)) }
{
    match node.row {
        GrammarRow::Field => named_field(node.parts.as_slice()),
        _ => None,
    }
}

fn named_field(pieces: &[NodePiece]) -> Option<FieldForm<'_>>
    ensures { option_map field_of result ≡ field_part (made_of GrammarRow.Field pieces.now) }
{
    match Nodes::among(pieces).first() {
        Some(ty) => Some(FieldForm {
            name: a_name(pieces),
            ty,
        }),
        None => None,
    }
}

/// A node as a variant, if it is one.
#[tactic(auto, using(crate::proofs::Named::no_variant_seen, crate::proofs::Named::seen_as))]
pub fn variant_form(node: &SyntaxNode) -> Option<VariantForm<'_>>
    ensures { option_map variant_of result ≡ variant_part (shape_of (syn_of node.now)) }
{
    let pieces = node.parts.as_slice();
    match node.row {
        GrammarRow::Variant => Some(VariantForm {
            name: a_name(pieces),
            kind: field_kind(pieces),
            fields: Nodes::among(pieces),
        }),
        _ => None,
    }
}
