//! Numbers as they are written (The Rust Reference, "Literal expressions").
ghost use Rattle.std.specs.Prelude.{◌≡◌, option_map};
ghost use Rattle.src_ast.specs.Seen.{syn_of};
ghost use Rattle.typing_rules.specs.Typed as rules;
ghost use Rattle.typeck_exprs.specs.Forms.{digits_of, is_plain_literal};

use mir_base::IntKind;
use src_ast::{ExpressionForm, expression_form};
use src_tree::SyntaxNode;

/// A number as it is written.
#[derive(Clone, Copy)]
pub struct Digits {
    pub value: u64,
    pub suffix: Option<IntKind>,
}

/// The number that a node is, if it is one.
#[tactic(auto, using(crate::proofs::Shapes::literal_seen, crate::proofs::Numbers::no_literal))]
pub fn literal_in(node: &SyntaxNode) -> Option<Digits>
    ensures { option_map digits_of result ≡ rules.literal_in (syn_of node.now) }
{
    match expression_form(node) {
        ExpressionForm::Number { value, suffix } => Some(Digits { value, suffix }),
        _ => None,
    }
}

fn is_plain_number(node: &SyntaxNode) -> bool
    ensures { result ≡ is_plain_literal (rules.literal_in (syn_of node.now)) }
{
    match literal_in(node) {
        Some(digits) => digits.suffix.is_none(),
        None => false,
    }
}

/// Whether a node is a number without a suffix, with a `-` before it or not, in parentheses or not.
#[tactic(auto, using(crate::proofs::Shapes::plain_seen, crate::proofs::Numbers::not_plain))]
pub fn is_plain(node: &SyntaxNode) -> bool
    ensures { result ≡ rules.is_plain (syn_of node.now) }
{
    match expression_form(node) {
        ExpressionForm::Parens(inside) => is_plain(inside),
        ExpressionForm::Negate(operand) => is_plain_number(operand),
        ExpressionForm::Number { suffix, .. } => suffix.is_none(),
        _ => false,
    }
}
