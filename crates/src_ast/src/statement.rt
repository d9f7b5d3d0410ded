ghost use Rattle.std.specs.Prelude.{◌≡◌};
ghost use Rattle.src_ast.specs.Expressions.{statement_of};
ghost use Rattle.src_ast.specs.Seen.{made_of, syn_of};
ghost use Rattle.src_ast.specs.Sorts.{statement_part};
ghost use Rattle.src_ast.specs.Syntax.{shape_of};
ghost use Rattle.src_ast.specs.View.{is_statement as is_statement_of};
ghost use Rattle.src_tree.specs.declared.row.GrammarRow.{GrammarRow};

use crate::nodes::{First, Nodes};
use crate::tokens::has;
use src_token::Mark;
use src_tree::{GrammarRow, NodePiece, SyntaxNode, TokenKind};

/// A statement by itself (The Rust Reference, "Statements"). An expression without `;` is none.
#[derive(Clone, Copy)]
pub enum StatementForm<'a> {
    Let {
        pattern: &'a SyntaxNode,
        ty: Option<&'a SyntaxNode>,
        value: Option<&'a SyntaxNode>,
    },
    /// `;`.
    Empty,
    /// An expression with `;`.
    Semi(&'a SyntaxNode),
    /// No statement.
    Other,
}

fn let_statement(pieces: &[NodePiece]) -> StatementForm<'_>
    ensures { statement_of result ≡ statement_part (made_of GrammarRow.Let pieces.now) }
{
    let Some(First { first, rest }) = Nodes::among(pieces).split_first() else {
        return StatementForm::Other;
    };
    if !has(TokenKind::Mark(Mark::Colon), pieces) {
        return StatementForm::Let {
            pattern: first,
            ty: None,
            value: rest.first(),
        };
    }
    match rest.split_first() {
        Some(behind) => StatementForm::Let {
            pattern: first,
            ty: Some(behind.first),
            value: behind.rest.first(),
        },
        None => StatementForm::Other,
    }
}

fn semi(pieces: &[NodePiece]) -> StatementForm<'_>
    ensures { statement_of result ≡ statement_part (made_of GrammarRow.Semi pieces.now) }
{
    match Nodes::among(pieces).first() {
        Some(expression) => StatementForm::Semi(expression),
        None => StatementForm::Other,
    }
}

/// A node as a statement; `StatementForm::Other` where it is none.
#[tactic(auto, using(crate::proofs::Named::no_statement_seen, crate::proofs::Named::seen_as))]
pub fn statement_form(node: &SyntaxNode) -> StatementForm<'_>
    ensures { statement_of result ≡ statement_part (shape_of (syn_of node.now)) }
{
    let pieces = node.parts.as_slice();
    match node.row {
        GrammarRow::Let => let_statement(pieces),
        GrammarRow::Empty => StatementForm::Empty,
        GrammarRow::Semi => semi(pieces),
        _ => StatementForm::Other,
    }
}

/// Whether a node is a statement by itself.
#[tactic(auto, using(crate::proofs::Named::statement_seen))]
pub fn is_statement(node: &SyntaxNode) -> bool
    ensures { result ≡ is_statement_of (syn_of node.now) }
{
    match statement_form(node) {
        StatementForm::Other => false,
        _ => true,
    }
}
