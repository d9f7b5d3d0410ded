//! How a method takes `self` (The Rust Reference, "Methods").
ghost use Rattle.std.specs.Prelude.{◌≡◌};
ghost use Rattle.src_ast.specs.Seen.{nodes_of, syn_of};
ghost use Rattle.src_ast.specs.Sorts.{param_part};
ghost use Rattle.src_ast.specs.Syntax.{shape_of};
ghost use Rattle.typing_rules.specs.Program as rules;
ghost use Rattle.typeck_items.specs.Forms.{is_self_by, is_unique_by};

use src_ast::{Nodes, ParamForm, Receiver, param_form};
use src_tree::SyntaxNode;

/// Whether a parameter is `&self` or `&mut self`.
#[tactic(auto, using(crate::proofs::ParamForms::reference_seen))]
fn is_by_reference(node: &SyntaxNode) -> bool
    ensures { result ≡ rules.is_by_reference (syn_of node.now) }
{
    match param_form(node) {
        ParamForm::SelfValue(receiver) => match receiver {
            Receiver::Value => false,
            Receiver::Shared => true,
            Receiver::Unique => true,
        },
        ParamForm::Pattern { pattern: _, ty: _ } => false,
        ParamForm::Other => false,
    }
}

/// Whether a parameter is `&mut self`.
fn is_by_unique(node: &SyntaxNode) -> bool
    ensures { result ≡ is_unique_by (param_part (shape_of (syn_of node.now))) }
{
    match param_form(node) {
        ParamForm::SelfValue(receiver) => match receiver {
            Receiver::Value => false,
            Receiver::Shared => false,
            Receiver::Unique => true,
        },
        ParamForm::Pattern { pattern: _, ty: _ } => false,
        ParamForm::Other => false,
    }
}

/// Whether a parameter is `self`, however it is taken.
fn is_self(node: &SyntaxNode) -> bool
    ensures { result ≡ is_self_by (param_part (shape_of (syn_of node.now))) }
{
    match param_form(node) {
        ParamForm::SelfValue(_) => true,
        ParamForm::Pattern { pattern: _, ty: _ } => false,
        ParamForm::Other => false,
    }
}

/// Whether the first parameter is `&self` or `&mut self`.
pub fn takes_reference(params: Nodes) -> bool
    ensures { result ≡ rules.takes_reference (nodes_of params.entry) }
{
    match params.split_first() {
        Some(split) => is_by_reference(split.first),
        None => false,
    }
}

/// Whether the first parameter is `&mut self`.
#[tactic(auto, using(crate::proofs::ParamForms::unique_seen))]
pub fn takes_unique(params: Nodes) -> bool
    ensures { result ≡ rules.takes_unique (nodes_of params.entry) }
{
    match params.split_first() {
        Some(split) => is_by_unique(split.first),
        None => false,
    }
}

/// The parameters behind `self`, where it is the first.
#[tactic(auto, using(crate::proofs::ParamForms::behind_seen))]
pub fn behind_self(params: Nodes) -> Nodes
    ensures { nodes_of result ≡ rules.behind_self (nodes_of params.entry) }
{
    match params.split_first() {
        Some(split) => {
            if is_self(split.first) {
                split.rest
            } else {
                params
            }
        }
        None => params,
    }
}
