//! Tuples and arrays (The Rust Reference, "Tuple expressions", "Array expressions").
ghost use Rattle.std.specs.Prelude.{◌≡◌, Some, length, map, IfOk};
ghost use Rattle.src_ast.specs.Seen.{nodes_of};
ghost use Rattle.typing_rules.specs.Patterns.{count_of as count_of_};
ghost use Rattle.typing_rules.specs.Rows as rows;
ghost use Rattle.typing_rules.specs.Typed as rules;
ghost use Rattle.typeck_exprs.specs.Lists.{GivesParts, GivesTyped, KeepsBelow, KeepsBelowParts};
ghost use Rattle.typeck_checker.specs.Stand.{Gives, KeepsStack, env, stack, state};

use crate::expressions::check_expr;
use mir_base::{List, Pos, RuleError};
use mir_ty::{TyId, UNIT};
use src_ast::Nodes;
use typeck_checker::{Checker, Leaf};
use typeck_exprs::{
    count_of, element_wanted, elements_end, one_more, part_ty, parts_wanted, tuple_end, wanted_at,
};
use typeck_heads::push_to;

/// Parts, each of the type that is required of it, if one is; answers their types.
#[cycle(check_expr)]
fn check_parts(checker: &mut Checker, wants: &[TyId], parts: Nodes) -> Result<List<TyId>, RuleError>
    ensures gives { GivesParts (rules.typed_parts (env checker.old) (map Some wants.now) (nodes_of parts.entry) (state checker.old)) result checker.new }
    ensures kept { KeepsBelowParts (stack checker.old) checker.old result checker.new }
    ensures counted { IfOk result (λ types. length types ≡ count_of_ (nodes_of parts.entry)) }
{
    let mut types = List::new(checker.alloc);
    let mut rest = parts;
    while let Some(split) = rest.split_first() {
        let expected = wanted_at(wants, types.len());
        check_expr(checker, split.first, expected)?;
        push_to(&mut types, part_ty(checker, expected))?;
        rest = split.rest;
    }
    Ok(types)
}

#[cycle(check_expr)]
fn tuple_row(
    checker: &mut Checker,
    at: Pos,
    parts: Nodes,
    count: usize,
    expected: Option<TyId>,
) -> Result<(), RuleError>
    requires { count ≡ count_of_ (nodes_of parts) }
    ensures gives { Gives (rows.tuple_row at count (λ wants. rules.typed_parts (env checker.old) wants (nodes_of parts.entry)) expected (state checker.old)) result checker.new }
    ensures kept { KeepsStack (stack checker.old) checker.old result checker.new }
{
    let id = checker.number()?;
    let wants = parts_wanted(checker, count, expected)?;
    let types = check_parts(checker, wants.as_slice(), parts)?;
    tuple_end(checker, id, at, types, count, expected)
}

/// `(a, b)`, and `()`.
#[cycle(check_expr)]
#[tactic(auto, using(crate::proofs::Tuples::no_parts, crate::proofs::Tuples::some_parts))]
pub fn check_tuple(
    checker: &mut Checker,
    at: Pos,
    parts: Nodes,
    expected: Option<TyId>,
) -> Result<(), RuleError>
    ensures gives { Gives (rules.tuple at (nodes_of parts.entry) (λ wants. rules.typed_parts (env checker.old) wants (nodes_of parts.entry)) expected (state checker.old)) result checker.new }
    ensures kept { KeepsStack (stack checker.old) checker.old result checker.new }
{
    if parts.is_empty() {
        return checker.leaf(at, UNIT, Leaf::UnitValue, expected);
    }
    let count = count_of(parts)?;
    tuple_row(checker, at, parts, count, expected)
}

/// Elements, each of the type that is required of them, if one is; answers how many there are.
#[cycle(check_expr)]
fn check_elements(
    checker: &mut Checker,
    expected: Option<TyId>,
    elements: Nodes,
) -> Result<usize, RuleError>
    ensures gives { GivesTyped (rules.typed_elements (env checker.old) expected (nodes_of elements.entry) (state checker.old)) result checker.new }
    ensures kept { KeepsBelow (stack checker.old) checker.old result checker.new }
    ensures counted { IfOk result (λ count. count ≡ count_of_ (nodes_of elements.entry)) }
{
    let mut count: usize = 0;
    let mut rest = elements;
    while let Some(split) = rest.split_first() {
        check_expr(checker, split.first, expected)?;
        count = one_more(count)?;
        rest = split.rest;
    }
    Ok(count)
}

/// `[a, b]`.
#[cycle(check_expr)]
pub fn check_array(
    checker: &mut Checker,
    at: Pos,
    elements: Nodes,
    expected: Option<TyId>,
) -> Result<(), RuleError>
    ensures gives { Gives (rows.array_row at (count_of_ (nodes_of elements.entry)) (λ wants. rules.typed_elements (env checker.old) wants (nodes_of elements.entry)) expected (state checker.old)) result checker.new }
    ensures kept { KeepsStack (stack checker.old) checker.old result checker.new }
{
    let id = checker.number()?;
    let wanted = element_wanted(&checker.walk.items, expected);
    let count = check_elements(checker, wanted, elements)?;
    elements_end(checker, id, at, wanted, count, expected)
}
