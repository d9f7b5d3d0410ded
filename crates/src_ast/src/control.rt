ghost use Rattle.std.specs.Prelude.{◌≡◌, true, false, option_map};
ghost use Rattle.src_ast.specs.Expressions.{arm_of, expression_of};
ghost use Rattle.src_ast.specs.Seen.{made_of, nodes_of, syn_of, word_of};
ghost use Rattle.src_ast.specs.Sorts.{arm_part, expression_part};
ghost use Rattle.src_ast.specs.Syntax.{shape_of};
ghost use Rattle.src_ast.specs.View.{arm_row, if_row, label_name, while_row};
ghost use Rattle.src_tree.specs.declared.row.GrammarRow.{GrammarRow};

use crate::expression::{ArmForm, ExpressionForm};
use crate::nodes::{First, Nodes};
use crate::tokens::{a_label, has};
use src_token::Word;
use src_tree::{GrammarRow, NodePiece, SyntaxNode, TokenKind};

fn if_let(nodes: Nodes<'_>) -> ExpressionForm<'_>
    ensures { expression_of result ≡ expression_part (if_row true (nodes_of nodes.entry)) }
{
    let Some(one) = nodes.split_first() else {
        return ExpressionForm::Other;
    };
    let Some(two) = one.rest.split_first() else {
        return ExpressionForm::Other;
    };
    match two.rest.split_first() {
        Some(three) => ExpressionForm::IfLet {
            pattern: one.first,
            scrutinee: two.first,
            body: three.first,
            otherwise: three.rest.first(),
        },
        None => ExpressionForm::Other,
    }
}

fn if_plain(nodes: Nodes<'_>) -> ExpressionForm<'_>
    ensures { expression_of result ≡ expression_part (if_row false (nodes_of nodes.entry)) }
{
    let Some(one) = nodes.split_first() else {
        return ExpressionForm::Other;
    };
    match one.rest.split_first() {
        Some(two) => ExpressionForm::If {
            condition: one.first,
            body: two.first,
            otherwise: two.rest.first(),
        },
        None => ExpressionForm::Other,
    }
}

pub(crate) fn if_of(pieces: &[NodePiece]) -> ExpressionForm<'_>
    ensures { expression_of result ≡ expression_part (made_of GrammarRow.If pieces.now) }
{
    let nodes = Nodes::among(pieces);
    if has(TokenKind::Word(Word::Let), pieces) {
        if_let(nodes)
    } else {
        if_plain(nodes)
    }
}

fn while_let<'a>(label: Option<&'a str>, nodes: Nodes<'a>) -> ExpressionForm<'a>
    ensures { expression_of result ≡ expression_part (while_row true (word_of label.entry) (nodes_of nodes.entry)) }
{
    let Some(one) = nodes.split_first() else {
        return ExpressionForm::Other;
    };
    let Some(two) = one.rest.split_first() else {
        return ExpressionForm::Other;
    };
    match two.rest.split_first() {
        Some(three) => ExpressionForm::WhileLet {
            label,
            pattern: one.first,
            scrutinee: two.first,
            body: three.first,
        },
        None => ExpressionForm::Other,
    }
}

fn while_plain<'a>(label: Option<&'a str>, nodes: Nodes<'a>) -> ExpressionForm<'a>
    ensures { expression_of result ≡ expression_part (while_row false (word_of label.entry) (nodes_of nodes.entry)) }
{
    let Some(one) = nodes.split_first() else {
        return ExpressionForm::Other;
    };
    match one.rest.split_first() {
        Some(two) => ExpressionForm::While {
            label,
            condition: one.first,
            body: two.first,
        },
        None => ExpressionForm::Other,
    }
}

pub(crate) fn while_of(pieces: &[NodePiece]) -> ExpressionForm<'_>
    ensures { expression_of result ≡ expression_part (made_of GrammarRow.While pieces.now) }
{
    let nodes = Nodes::among(pieces);
    let label = a_label(pieces);
    if has(TokenKind::Word(Word::Let), pieces) {
        while_let(label, nodes)
    } else {
        while_plain(label, nodes)
    }
}

fn guarded_arm(nodes: Nodes<'_>) -> Option<ArmForm<'_>>
    ensures { option_map arm_of result ≡ arm_part (arm_row true (nodes_of nodes.entry)) }
{
    let one = nodes.split_first()?;
    let two = one.rest.split_first()?;
    let three = two.rest.split_first()?;
    Some(ArmForm {
        pattern: one.first,
        guard: Some(two.first),
        body: three.first,
    })
}

fn unguarded_arm(nodes: Nodes<'_>) -> Option<ArmForm<'_>>
    ensures { option_map arm_of result ≡ arm_part (arm_row false (nodes_of nodes.entry)) }
{
    let one = nodes.split_first()?;
    let two = one.rest.split_first()?;
    Some(ArmForm {
        pattern: one.first,
        guard: None,
        body: two.first,
    })
}

fn arm(pieces: &[NodePiece]) -> Option<ArmForm<'_>>
    ensures { option_map arm_of result ≡ arm_part (made_of GrammarRow.Arm pieces.now) }
{
    let nodes = Nodes::among(pieces);
    if has(TokenKind::Word(Word::If), pieces) {
        guarded_arm(nodes)
    } else {
        unguarded_arm(nodes)
    }
}

/// A node as an arm, if it is one.
#[tactic(auto, using(crate::proofs::Named::no_arm_seen, crate::proofs::Named::seen_as))]
pub fn arm_form(node: &SyntaxNode) -> Option<ArmForm<'_>>
    ensures { option_map arm_of result ≡ arm_part (shape_of (syn_of node.now)) }
{
    match node.row {
        GrammarRow::Arm | GrammarRow::LastArm => arm(node.parts.as_slice()),
        _ => None,
    }
}

/// The label that a node is, if it is one.
#[tactic(auto, using(crate::proofs::Named::no_label_seen, crate::proofs::Named::seen_as))]
fn label_if(node: &SyntaxNode) -> Option<&str>
    ensures { word_of result ≡ label_name (shape_of (syn_of node.now)) }
{
    match node.row {
        GrammarRow::LabelName => Some(match a_label(node.parts.as_slice()) {
            Some(label) => label,
            None => "",
        }),
        _ => None,
    }
}

pub(crate) fn continue_of(pieces: &[NodePiece]) -> ExpressionForm<'_>
    ensures { expression_of result ≡ expression_part (made_of GrammarRow.Continue pieces.now) }
{
    match Nodes::among(pieces).first() {
        Some(node) => ExpressionForm::Continue {
            label: label_if(node),
        },
        None => ExpressionForm::Continue { label: None },
    }
}

#[tactic(auto, using(crate::proofs::Named::label_seen))]
pub(crate) fn break_of(pieces: &[NodePiece]) -> ExpressionForm<'_>
    ensures { expression_of result ≡ expression_part (made_of GrammarRow.Break pieces.now) }
{
    let nodes = Nodes::among(pieces);
    let Some(First { first, rest }) = nodes.split_first() else {
        return ExpressionForm::Break {
            label: None,
            value: None,
        };
    };
    match label_if(first) {
        Some(label) => ExpressionForm::Break {
            label: Some(label),
            value: rest.first(),
        },
        None => ExpressionForm::Break {
            label: None,
            value: Some(first),
        },
    }
}
