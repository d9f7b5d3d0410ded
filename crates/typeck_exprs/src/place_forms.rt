//! Places by their forms (The Rust Reference, "Place Expressions and Value Expressions").
ghost use Rattle.std.specs.Prelude.{◌≡◌, Some, None, option_map};
ghost use Rattle.src_ast.specs.Expressions.{expression_of};
ghost use Rattle.src_ast.specs.Seen.{syn_of, word_of};
ghost use Rattle.src_ast.specs.Syntax.{Path};
ghost use Rattle.typing_rules.specs.Typed as rules;
ghost use Rattle.typeck_exprs.specs.Forms.{IsPlaceAs, IsPlaceOf, entry_named};
ghost use Rattle.typeck_checker.specs.Stand.{env};

use mir_base::Pos;
use src_ast::{ExpressionForm, PathForm, expression_form};
use src_tree::SyntaxNode;
use typeck_checker::{Checker, FoundVariable, variable};

/// A variable by its name.
#[derive(Clone, Copy)]
pub struct NamedVariable<'a> {
    pub name: &'a str,
    pub found: FoundVariable,
}

/// A place by its form.
#[derive(Clone, Copy)]
pub enum PlaceForm<'a> {
    Variable {
        at: Pos,
        variable: NamedVariable<'a>,
    },
    Field {
        at: Pos,
        base: &'a SyntaxNode,
        name: &'a str,
    },
    /// A part of a tuple, or of a struct by its number.
    Part {
        at: Pos,
        base: &'a SyntaxNode,
        number: u64,
    },
    Element {
        at: Pos,
        base: &'a SyntaxNode,
        index: &'a SyntaxNode,
    },
    Deref {
        at: Pos,
        base: &'a SyntaxNode,
    },
}

fn named_variable<'a>(checker: &Checker, name: &'a str) -> Option<NamedVariable<'a>>
    ensures { option_map entry_named result ≡ rules.variable_of (env checker.now) (Some name.entry.now) None }
{
    match variable(checker, name) {
        Some(found) => Some(NamedVariable { name, found }),
        None => None,
    }
}

/// The variable that a path is, if it is one.
pub fn variable_of<'a>(checker: &Checker, path: PathForm<'a>) -> Option<NamedVariable<'a>>
    ensures { option_map entry_named result ≡ rules.variable_of (env checker.now) (word_of path.entry.first) (word_of path.entry.second) }
{
    match (path.first, path.second) {
        (Some(name), None) => named_variable(checker, name),
        _ => None,
    }
}

/// A path as a place, where it is a variable.
#[tactic(auto, using(crate::proofs::PlaceForms::by_variable))]
fn variable_form<'a>(checker: &Checker, at: Pos, path: PathForm<'a>) -> Option<PlaceForm<'a>>
    ensures { IsPlaceAs (env checker.now) at (Some (Path (word_of path.entry.first) (word_of path.entry.second))) result }
{
    match variable_of(checker, path) {
        Some(variable) => Some(PlaceForm::Variable { at, variable }),
        None => None,
    }
}

#[cycle(places)]
fn place_of<'a>(checker: &Checker, at: Pos, form: ExpressionForm<'a>) -> Option<PlaceForm<'a>>
    ensures { IsPlaceAs (env checker.now) at (expression_of form.entry) result }
{
    match form {
        ExpressionForm::Path(path) => variable_form(checker, at, path),
        ExpressionForm::SelfValue => variable_form(
            checker,
            at,
            PathForm {
                first: Some("self"),
                second: None,
            },
        ),
        ExpressionForm::Field { base, name } => Some(PlaceForm::Field { at, base, name }),
        ExpressionForm::Part { base, number } => Some(PlaceForm::Part { at, base, number }),
        ExpressionForm::Index { base, index } => Some(PlaceForm::Element { at, base, index }),
        ExpressionForm::Deref(base) => Some(PlaceForm::Deref { at, base }),
        ExpressionForm::Parens(inside) => place_form(checker, inside),
        _ => None,
    }
}

/// A place by its form, through parentheses; `None` where a node is no place.
#[cycle(places)]
pub fn place_form<'a>(checker: &Checker, node: &'a SyntaxNode) -> Option<PlaceForm<'a>>
    ensures { IsPlaceOf (env checker.now) (syn_of node.entry.now) result }
{
    place_of(checker, node.at, expression_form(node))
}
