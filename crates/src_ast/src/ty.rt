ghost use Rattle.std.specs.Prelude.{◌≡◌};
ghost use Rattle.src_ast.specs.Seen.{made_of, syn_of};
ghost use Rattle.src_ast.specs.Syntax.{shape_of};
ghost use Rattle.src_ast.specs.Types.{type_of};
ghost use Rattle.src_ast.specs.View.{made, named, tokens_in, views};
ghost use Rattle.src_tree.specs.View.{parts_in};
ghost use Rattle.src_tree.specs.declared.row.GrammarRow.{GrammarRow};
ghost use Rattle.src_ast.specs.Sorts.{type_part};

use crate::nodes::{First, Nodes};
use crate::tokens::{a_name, a_number, has};
use mir_base::{IntKind, Pos};
use src_token::{Mark, Word};
use src_tree::{GrammarRow, NodePiece, SyntaxNode, TokenKind};

/// A type as it is written (The Rust Reference, "Types").
#[derive(Clone, Copy)]
pub enum TypeForm<'a> {
    /// A name by itself.
    Name(&'a str),
    /// `Box<T>`, whatever the name.
    Generic {
        name: &'a str,
        content: &'a SyntaxNode,
    },
    /// `Box<dyn Trait>`, whatever the name; the trait's name has its place.
    Dyn {
        name: &'a str,
        trait_at: Pos,
        trait_name: &'a str,
    },
    /// `Self`.
    SelfType,
    /// A type in parentheses.
    Parens(&'a SyntaxNode),
    /// A tuple; without parts, `()`.
    Tuple(Nodes<'a>),
    /// An array, with the suffix of its count.
    Array {
        element: &'a SyntaxNode,
        count: u64,
        suffix: Option<IntKind>,
    },
    /// `!`.
    Never,
    /// `&T`, or `&mut T` where it is unique.
    Reference {
        unique: bool,
        to: &'a SyntaxNode,
    },
    /// No type.
    Other,
}

/// A node as a type; `TypeForm::Other` where it is none.
#[tactic(auto, using(crate::proofs::Named::no_type_seen, crate::proofs::Named::seen_as))]
pub fn type_form(node: &SyntaxNode) -> TypeForm<'_>
    ensures { type_of result ≡ type_part (shape_of (syn_of node.now)) }
{
    match node.row {
        GrammarRow::NamedType => TypeForm::Name(a_name(node.parts.as_slice())),
        GrammarRow::SelfType => TypeForm::SelfType,
        GrammarRow::NeverType => TypeForm::Never,
        GrammarRow::GenericType => generic(node.parts.as_slice()),
        GrammarRow::DynType => object(node.parts.as_slice()),
        GrammarRow::TupleType => round(node.parts.as_slice()),
        GrammarRow::ArrayType => array(node.parts.as_slice()),
        GrammarRow::RefType => reference(node.parts.as_slice()),
        _ => TypeForm::Other,
    }
}

fn generic(pieces: &[NodePiece]) -> TypeForm<'_>
    ensures { type_of result ≡ type_part (made_of GrammarRow.GenericType pieces.now) }
{
    match Nodes::among(pieces).first() {
        Some(content) => TypeForm::Generic {
            name: a_name(pieces),
            content,
        },
        None => TypeForm::Other,
    }
}

fn reference(pieces: &[NodePiece]) -> TypeForm<'_>
    ensures { type_of result ≡ type_part (made_of GrammarRow.RefType pieces.now) }
{
    match Nodes::among(pieces).first() {
        Some(to) => TypeForm::Reference {
            unique: has(TokenKind::Word(Word::Mut), pieces),
            to,
        },
        None => TypeForm::Other,
    }
}

fn array(pieces: &[NodePiece]) -> TypeForm<'_>
    ensures { type_of result ≡ type_part (made_of GrammarRow.ArrayType pieces.now) }
{
    match Nodes::among(pieces).first() {
        Some(element) => {
            let (count, suffix) = a_number(pieces);
            TypeForm::Array {
                element,
                count,
                suffix,
            }
        }
        None => TypeForm::Other,
    }
}

fn round(pieces: &[NodePiece]) -> TypeForm<'_>
    ensures { type_of result ≡ type_part (made_of GrammarRow.TupleType pieces.now) }
{
    let parts = Nodes::among(pieces);
    match parts.split_first() {
        Some(First { first, rest }) => {
            if rest.is_empty()
                && !has(TokenKind::Mark(Mark::Comma), pieces)
                && !has(TokenKind::Mark(Mark::DotDot), pieces)
            {
                TypeForm::Parens(first)
            } else {
                TypeForm::Tuple(parts)
            }
        }
        None => TypeForm::Tuple(parts),
    }
}

fn object(pieces: &[NodePiece]) -> TypeForm<'_>
    ensures { type_of result ≡ type_part (made_of GrammarRow.DynType pieces.now) }
{
    match Nodes::among(pieces).first() {
        Some(trait_) => TypeForm::Dyn {
            name: a_name(pieces),
            trait_at: trait_.at,
            trait_name: name_of(trait_),
        },
        None => TypeForm::Other,
    }
}

/// The name that a node is; an empty one where it is none.
#[tactic(auto, using(crate::proofs::Named::unnamed_seen, crate::proofs::Named::seen_as))]
pub fn name_of(node: &SyntaxNode) -> &str
    ensures { (node.now.at, result.now) ≡ named (syn_of node.now) }
{
    match node.row {
        GrammarRow::Ident => a_name(node.parts.as_slice()),
        _ => "",
    }
}
