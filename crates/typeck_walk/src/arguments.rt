//! Arguments of calls (The Rust Reference, "Call expressions").
ghost use Rattle.std.specs.Prelude.{◌≡◌, IfOk};
ghost use Rattle.src_ast.specs.Seen.{nodes_of, syn_of};
ghost use Rattle.typing_rules.specs.Patterns.{count_of};
ghost use Rattle.typing_rules.specs.Rows as rows;
ghost use Rattle.typing_rules.specs.Typed as rules;
ghost use Rattle.typeck_exprs.specs.Forms.{referred_by};
ghost use Rattle.typeck_exprs.specs.Lists.{GivesNodes, KeepsBelow, argument_at};
ghost use Rattle.typeck_checker.specs.Stand.{Gives, KeepsStack, env, stack, state};

use crate::expressions::{check_expr, check_plain_base};
use mir_base::{Pos, RuleError};
use mir_ty::TyId;
use src_ast::Nodes;
use src_tree::SyntaxNode;
use typeck_checker::Checker;
use typeck_env::reference_of;
use typeck_exprs::{ArgumentForm, argument_form, borrow_end, one_more, passed_on, wanted_at};

/// `&e` and `&mut e` for a parameter that is a reference to this type.
#[cycle(check_expr)]
fn borrow(
    checker: &mut Checker,
    at: Pos,
    unique: bool,
    base: &SyntaxNode,
    is_unique: bool,
    to: TyId,
) -> Result<(), RuleError>
    ensures gives { Gives (rows.borrow at unique (rules.base_of (env checker.old) (syn_of base.now)) to is_unique to (state checker.old)) result checker.new }
    ensures kept { KeepsStack (stack checker.old) checker.old result checker.new }
{
    let id = checker.number()?;
    check_plain_base(checker, base)?;
    borrow_end(checker, id, at, unique, is_unique, to)
}

#[cycle(check_expr)]
fn check_reference(
    checker: &mut Checker,
    form: ArgumentForm,
    expected: TyId,
    is_unique: bool,
    to: TyId,
) -> Result<(), RuleError>
    ensures gives { Gives (referred_by (env checker.old) form.entry expected is_unique to (state checker.old)) result checker.new }
    ensures kept { KeepsStack (stack checker.old) checker.old result checker.new }
{
    match form {
        ArgumentForm::Borrow { at, unique, base } => {
            borrow(checker, at, unique, base, is_unique, to)
        }
        ArgumentForm::Passed { at, variable } => {
            passed_on(checker, at, variable.name, variable.found, is_unique, to)
        }
        ArgumentForm::Value(node) => check_expr(checker, node, Some(expected)),
    }
}

/// An argument for a parameter that is a reference to this type.
#[cycle(check_expr)]
fn by_reference(
    checker: &mut Checker,
    node: &SyntaxNode,
    expected: TyId,
    is_unique: bool,
    to: TyId,
) -> Result<(), RuleError>
    ensures gives { Gives (rules.by_reference (env checker.old) (syn_of node.now) expected is_unique to (state checker.old)) result checker.new }
    ensures kept { KeepsStack (stack checker.old) checker.old result checker.new }
{
    let form = argument_form(checker, node);
    check_reference(checker, form, expected, is_unique, to)
}

#[cycle(check_expr)]
fn check_argument(checker: &mut Checker, node: &SyntaxNode, param: TyId) -> Result<(), RuleError>
    ensures gives { Gives (rows.argument param (rules.typed (env checker.old) (syn_of node.now)) (rules.by_reference (env checker.old) (syn_of node.now)) (state checker.old)) result checker.new }
    ensures kept { KeepsStack (stack checker.old) checker.old result checker.new }
{
    match reference_of(&checker.walk.items, param) {
        Some((is_unique, to)) => by_reference(checker, node, param, is_unique, to),
        None => check_expr(checker, node, Some(param)),
    }
}

/// An argument for a parameter, or one for which there is none.
#[cycle(check_expr)]
fn check_argument_if(
    checker: &mut Checker,
    node: &SyntaxNode,
    param: Option<TyId>,
) -> Result<(), RuleError>
    ensures gives { Gives (argument_at (env checker.old) param (syn_of node.now) (state checker.old)) result checker.new }
    ensures kept { KeepsStack (stack checker.old) checker.old result checker.new }
{
    match param {
        Some(param) => check_argument(checker, node, param),
        None => check_expr(checker, node, None),
    }
}

/// Arguments for parameters of these types; answers how many there are.
#[cycle(check_expr)]
pub fn check_arguments(
    checker: &mut Checker,
    params: &[TyId],
    args: Nodes,
) -> Result<usize, RuleError>
    ensures gives { GivesNodes (rules.typed_args (env checker.old) params.now (nodes_of args.entry) (state checker.old)) result checker.new }
    ensures kept { KeepsBelow (stack checker.old) checker.old result checker.new }
    ensures counted { IfOk result (λ count. count ≡ count_of (nodes_of args.entry)) }
{
    let mut count: usize = 0;
    let mut rest = args;
    while let Some(split) = rest.split_first() {
        check_argument_if(checker, split.first, wanted_at(params, count))?;
        count = one_more(count)?;
        rest = split.rest;
    }
    Ok(count)
}
