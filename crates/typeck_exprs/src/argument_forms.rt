//! What may be passed as a reference (The Rust Reference, "Borrow operators").
ghost use Rattle.std.specs.Prelude.{◌≡◌};
ghost use Rattle.src_ast.specs.Seen.{syn_of, word_of};
ghost use Rattle.src_ast.specs.Syntax.{AnExpression, Path, syn};
ghost use Rattle.typeck_exprs.specs.Forms.{IsArgumentOf, reference_among};
ghost use Rattle.typeck_checker.specs.Stand.{env, state};

use crate::place_forms::{NamedVariable, variable_of};
use mir_base::Pos;
use src_ast::{ExpressionForm, PathForm, expression_form};
use src_tree::SyntaxNode;
use typeck_checker::Checker;
use typeck_env::is_reference;

/// What an argument for a reference is, through parentheses.
#[derive(Clone, Copy)]
pub enum ArgumentForm<'a> {
    /// `&e` or `&mut e`.
    Borrow {
        at: Pos,
        unique: bool,
        base: &'a SyntaxNode,
    },
    /// A reference variable.
    Passed {
        at: Pos,
        variable: NamedVariable<'a>,
    },
    /// A value.
    Value(&'a SyntaxNode),
}

/// A variable, where it is a reference.
fn reference_in<'a>(
    checker: &Checker,
    variable: Option<NamedVariable<'a>>,
) -> Option<NamedVariable<'a>>
    ensures { result ≡ reference_among checker.now.walk.items variable.entry }
{
    match variable {
        Some(variable) => {
            if is_reference(&checker.walk.items, variable.found.ty) {
                Some(variable)
            } else {
                None
            }
        }
        None => None,
    }
}

/// A path as an argument for a reference.
#[tactic(auto, using(crate::proofs::Referring::by_path))]
fn path_argument<'a>(
    checker: &Checker,
    node: &'a SyntaxNode,
    path: PathForm<'a>,
) -> ArgumentForm<'a>
    requires { syn_of node.now ≡ syn node.now.at (AnExpression (Path (word_of path.first) (word_of path.second))) }
    ensures { IsArgumentOf (env checker.now) (syn_of node.entry.now) (state checker.now) result }
{
    match reference_in(checker, variable_of(checker, path)) {
        Some(variable) => ArgumentForm::Passed {
            at: node.at,
            variable,
        },
        None => ArgumentForm::Value(node),
    }
}

/// What an argument for a reference is, through parentheses.
pub fn argument_form<'a>(checker: &Checker, node: &'a SyntaxNode) -> ArgumentForm<'a>
    ensures { IsArgumentOf (env checker.now) (syn_of node.entry.now) (state checker.now) result }
{
    match expression_form(node) {
        ExpressionForm::Borrow { unique, operand } => ArgumentForm::Borrow {
            at: node.at,
            unique,
            base: operand,
        },
        ExpressionForm::Path(path) => path_argument(checker, node, path),
        ExpressionForm::SelfValue => path_argument(
            checker,
            node,
            PathForm {
                first: Some("self"),
                second: None,
            },
        ),
        ExpressionForm::Parens(inside) => argument_form(checker, inside),
        _ => ArgumentForm::Value(node),
    }
}
