//! An expression by its form.
ghost use Rattle.std.specs.Prelude.{◌≡◌};
ghost use Rattle.src_ast.specs.Expressions.{expression_of};
ghost use Rattle.src_ast.specs.Seen.{syn_of};
ghost use Rattle.typing_rules.specs.Typed as rules;
ghost use Rattle.typeck_walk.specs.Bases as bases;
ghost use Rattle.typeck_exprs.specs.Forms.{place_by, value_as};
ghost use Rattle.typeck_checker.specs.Stand.{Gives, KeepsStack, env, stack, state};

use crate::aggregates::{check_array, check_tuple};
use crate::blocks::check_block;
use crate::branches::check_if;
use crate::calls::{check_call, check_method_call};
use crate::closures::check_closure;
use crate::loops::{check_break, check_continue, check_loop, check_return, check_while};
use crate::matches::{check_if_let, check_match, check_while_let};
use crate::operators::{
    check_arithmetic, check_assignment, check_comparison, check_logic, check_minus, check_not,
};
use crate::places::{check_borrow, check_deref, check_field, check_index, check_part};
use crate::structs::check_struct;
use mir_base::{Pos, Rule, RuleError};
use mir_ty::{BOOL, NEVER, TyId};
use src_ast::{ExpressionForm, PathForm, expression_form};
use src_tree::SyntaxNode;
use typeck_calls::path_alone;
use typeck_checker::{Checker, Leaf, TwoParts, put_variable};
use typeck_exprs::{PlaceForm, place_form};
use typeck_heads::broken_rule;
use typeck_patterns::place_for_parts;

/// An expression whose value is used, of the type that is required, if one is.
#[cycle(check_expr)]
#[tactic(auto, using(typeck_exprs::proofs::Shapes::typed_place, typeck_exprs::proofs::Shapes::typed_value))]
pub fn check_expr(
    checker: &mut Checker,
    node: &SyntaxNode,
    expected: Option<TyId>,
) -> Result<(), RuleError>
    ensures gives { Gives (rules.typed (env checker.old) (syn_of node.now) expected (state checker.old)) result checker.new }
    ensures kept { KeepsStack (stack checker.old) checker.old result checker.new }
{
    match place_form(checker, node) {
        Some(form) => {
            check_place(checker, form)?;
            checker.use_value(expected)
        }
        None => check_value(checker, node.at, expression_form(node), expected),
    }
}

/// An expression whose place is gone through: a place, or a value that becomes a temporary.
#[cycle(check_expr)]
#[tactic(auto, using(typeck_exprs::proofs::Shapes::base_value))]
pub fn check_place_base(checker: &mut Checker, node: &SyntaxNode) -> Result<(), RuleError>
    ensures gives { Gives (rules.base_of (env checker.old) (syn_of node.now) (state checker.old)) result checker.new }
    ensures kept { KeepsStack (stack checker.old) checker.old result checker.new }
{
    match place_form(checker, node) {
        Some(form) => check_place(checker, form),
        None => check_value(checker, node.at, expression_form(node), None),
    }
}

/// The initialiser of `_`, or of another pattern that is not one name: a place is taken apart where it stands.
#[cycle(check_expr)]
#[tactic(auto, using(crate::proofs::Lets::parts_of_place, crate::proofs::Lets::parts_of_value))]
pub fn check_for_parts(
    checker: &mut Checker,
    any: bool,
    node: &SyntaxNode,
    expected: Option<TyId>,
) -> Result<(), RuleError>
    ensures gives { Gives (rules.for_parts (env checker.old) any expected (syn_of node.now) (state checker.old)) result checker.new }
    ensures kept { KeepsStack (stack checker.old) checker.old result checker.new }
{
    match place_form(checker, node) {
        Some(form) => {
            check_place(checker, form)?;
            place_for_parts(checker, any, expected)
        }
        None => check_value(checker, node.at, expression_form(node), expected),
    }
}

/// The same, where it is no reference variable.
#[cycle(check_expr)]
pub fn check_plain_base(checker: &mut Checker, node: &SyntaxNode) -> Result<(), RuleError>
    ensures gives { Gives (bases.plain_base (env checker.old) (syn_of node.now) (state checker.old)) result checker.new }
    ensures kept { KeepsStack (stack checker.old) checker.old result checker.new }
{
    check_place_base(checker, node)?;
    checker.no_reference()
}

/// A place.
#[cycle(check_expr)]
fn check_place(checker: &mut Checker, form: PlaceForm) -> Result<(), RuleError>
    ensures gives { Gives (place_by (env checker.old) form.entry (state checker.old)) result checker.new }
    ensures kept { KeepsStack (stack checker.old) checker.old result checker.new }
{
    match form {
        PlaceForm::Variable { at, variable } => {
            put_variable(checker, at, variable.name, variable.found)
        }
        PlaceForm::Field { at, base, name } => check_field(checker, at, base, name),
        PlaceForm::Part { at, base, number } => check_part(checker, at, base, number),
        PlaceForm::Element { at, base, index } => check_index(checker, at, base, index),
        PlaceForm::Deref { at, base } => check_deref(checker, at, base),
    }
}

/// A value.
#[cycle(check_expr)]
fn check_value(
    checker: &mut Checker,
    at: Pos,
    form: ExpressionForm,
    expected: Option<TyId>,
) -> Result<(), RuleError>
    ensures gives { Gives (value_as (env checker.old) at (expression_of form.entry) expected (state checker.old)) result checker.new }
    ensures kept { KeepsStack (stack checker.old) checker.old result checker.new }
{
    match form {
        ExpressionForm::Number { value, suffix } => checker.literal(
            at, false, value, suffix, expected,
        ),
        ExpressionForm::Truth(truth) => checker.leaf(at, BOOL, Leaf::Truth(truth), expected),
        ExpressionForm::Path(path) => path_alone(checker, at, path, expected),
        ExpressionForm::SelfValue => path_alone(
            checker,
            at,
            PathForm {
                first: Some("self"),
                second: None,
            },
            expected,
        ),
        ExpressionForm::Negate(operand) => check_minus(checker, at, operand, expected),
        ExpressionForm::Not(operand) => check_not(checker, at, operand, expected),
        ExpressionForm::Borrow { unique, operand } => check_borrow(
            checker, at, unique, operand, expected,
        ),
        ExpressionForm::Math {
            operator,
            left,
            right,
        } => check_arithmetic(checker, at, operator, left, right, expected),
        ExpressionForm::Compare {
            operator,
            left,
            right,
        } => check_comparison(checker, at, operator, left, right, expected),
        ExpressionForm::And { left, right } => check_logic(
            checker,
            at,
            TwoParts::And,
            left,
            right,
            expected,
        ),
        ExpressionForm::Or { left, right } => check_logic(
            checker,
            at,
            TwoParts::Or,
            left,
            right,
            expected,
        ),
        ExpressionForm::Assign { place, value } => check_assignment(
            checker, at, place, value, expected,
        ),
        ExpressionForm::Parens(inside) => check_expr(checker, inside, expected),
        ExpressionForm::Tuple(parts) => check_tuple(checker, at, parts, expected),
        ExpressionForm::Array(elements) => check_array(checker, at, elements, expected),
        ExpressionForm::Block { statements, tail } => check_block(
            checker, at, statements, tail, expected,
        ),
        ExpressionForm::If {
            condition,
            body,
            otherwise,
        } => check_if(checker, at, condition, body, otherwise, expected),
        ExpressionForm::Loop { label, body } => check_loop(checker, at, label, body, expected),
        ExpressionForm::While {
            label,
            condition,
            body,
        } => check_while(checker, at, label, condition, body, expected),
        ExpressionForm::Break { label, value } => check_break(checker, at, label, value, expected),
        ExpressionForm::Continue { label } => check_continue(checker, at, label, expected),
        ExpressionForm::Return(value) => check_return(checker, at, value, expected),
        ExpressionForm::Panic => checker.leaf(at, NEVER, Leaf::Panic, expected),
        ExpressionForm::Call { callee, args } => check_call(checker, at, callee, args, expected),
        ExpressionForm::MethodCall {
            receiver,
            name,
            args,
        } => check_method_call(checker, at, receiver, name, args, expected),
        ExpressionForm::IfLet {
            pattern,
            scrutinee,
            body,
            otherwise,
        } => check_if_let(checker, at, pattern, scrutinee, body, otherwise, expected),
        ExpressionForm::Match { scrutinee, arms } => check_match(
            checker, at, scrutinee, arms, expected,
        ),
        ExpressionForm::WhileLet {
            label,
            pattern,
            scrutinee,
            body,
        } => check_while_let(checker, at, label, pattern, scrutinee, body, expected),
        ExpressionForm::Struct { path, fields } => check_struct(
            checker, at, path, fields, expected,
        ),
        ExpressionForm::Closure {
            captures,
            params,
            answer,
            block,
        } => check_closure(checker, at, captures, params, answer, block, expected),
        ExpressionForm::Field { .. }
        | ExpressionForm::Part { .. }
        | ExpressionForm::Index { .. }
        | ExpressionForm::Deref(_)
        | ExpressionForm::Other => Err(broken_rule(Rule::T20, at)),
    }
}
