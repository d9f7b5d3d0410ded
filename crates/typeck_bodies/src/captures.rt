//! What a closure captures (The Rust Reference, "Closure expressions", "Closure types").
ghost use Rattle.std.specs.Prelude.{◌≡◌, ◌∷◌, ◌+◌, is_some, not, reverse, None, IfErr, IfOk, OnOk};
ghost use Rattle.mir_base.specs.declared.rule.RuleError.{RuleError};
ghost use Rattle.src_ast.specs.Seen.{nodes_of};
ghost use Rattle.src_ast.specs.Syntax.{syn, AName};
ghost use Rattle.src_ast.specs.View.{idents, syns_of};
ghost use Rattle.typeck_checker.specs.Variables.{found_as};
ghost use Rattle.typeck_bodies.specs.CaptureAnswers.{GivesCaptures, KeepsBelow};
ghost use Rattle.typeck_patterns.specs.PatternContext.{GivesBound};
ghost use Rattle.typeck_checker.specs.Stand.{Gives, KeepsStack, env, stack, state};
ghost use Rattle.typing_rules.specs.Bodies as bodies;
ghost use Rattle.mir_base.specs.declared.rule.Rule as rules;
ghost use Rattle.typing_rules.specs.Check as told;
ghost use Rattle.typing_rules.specs.Places.{variable_place};
ghost use Rattle.typing_rules.specs.Rows.{taken};
ghost use Rattle.typing_rules.specs.Scope.{Capture};

use crate::names::first_name;
use mir_base::{Key, Name, NoMemory, Pos, Rule, RuleError};
use mir_ty::TyId;
use src_ast::Nodes;
use typeck_checker::{Checker, FoundVariable, put_variable, variable};
use typeck_env::{Variable, VariableMeaning, Variables};
use typeck_heads::{broken_rule, obeys};

/// A variable as a value, of whatever type.
fn take_variable(
    checker: &mut Checker,
    at: Pos,
    name: &str,
    found: FoundVariable,
) -> Result<(), RuleError>
    ensures gives { Gives (told.and_then (variable_place at (found_as name.now found) (state checker.old)) (taken (env checker.old) None)) result checker.new }
    ensures kept { KeepsStack (stack checker.old) checker.old result checker.new }
{
    put_variable(checker, at, name, found)?;
    checker.use_value(None)
}

/// One capture more, the youngest, which is a part of the closure's value.
fn note(
    checker: &Checker,
    bound: &mut Variables,
    name: &str,
    ty: TyId,
    part: u32,
) -> Result<(), RuleError>
    ensures entered { OnOk result (bound.new ≡ record { name = name.now; ty = ty; meaning = Capture 0 part } ∷ bound.old) }
    ensures short { IfErr result (λ e. e ≡ RuleError.Memory) }
{
    let Ok(name) = Name::from_str(checker.alloc, name) else {
        return Err(RuleError::Memory);
    };
    let meaning = VariableMeaning::Capture {
        closure: Key(0),
        part,
    };
    match bound.enter(checker.alloc, Variable { name, ty, meaning }) {
        Ok(()) => Ok(()),
        Err(NoMemory) => Err(RuleError::Memory),
    }
}

#[tactic(auto, using(typeck_patterns::proofs::Youngest::last_one))]
fn capture_as(
    checker: &mut Checker,
    bound: &mut Variables,
    part: u32,
    at: Pos,
    name: &str,
    found: FoundVariable,
) -> Result<(), RuleError>
    ensures gives { GivesBound (bodies.capture_end (env checker.old) part at name.now (found_as name.now found) (reverse bound.old) (state checker.old)) result bound.new checker.new }
    ensures kept { KeepsStack (stack checker.old) checker.old result checker.new }
{
    take_variable(checker, at, name, found)?;
    note(checker, bound, name, found.ty, part)
}

/// Whether a name is captured already.
#[tactic(auto, using(typeck_patterns::proofs::Youngest::known_same))]
fn is_captured(bound: &Variables, name: &str) -> bool
    ensures { result ≡ bodies.is_captured name.now (reverse bound.now) }
{
    bound.find(name).is_some()
}

/// A capture of a variable that is there: it has a name of its own among the captures.
fn capture_found(
    checker: &mut Checker,
    bound: &mut Variables,
    part: u32,
    at: Pos,
    name: &str,
    found: FoundVariable,
) -> Result<(), RuleError>
    ensures gives { GivesBound (told.and_then (told.obeys rules.Rule.T02 at (not (bodies.is_captured name.now (reverse bound.old))) (state checker.old)) (λ done. bodies.capture_end (env checker.old) part at name.now (found_as name.now found) (reverse bound.old))) result bound.new checker.new }
    ensures kept { KeepsStack (stack checker.old) checker.old result checker.new }
{
    let is_new = !is_captured(bound, name);
    obeys(Rule::T02, at, is_new)?;
    capture_as(checker, bound, part, at, name, found)
}

/// A capture: a use of a variable outside.
fn capture(
    checker: &mut Checker,
    bound: &mut Variables,
    part: u32,
    at: Pos,
    name: &str,
) -> Result<(), RuleError>
    ensures gives { GivesBound (bodies.capture (env checker.old) part (syn at (AName name.now)) (reverse bound.old) (state checker.old)) result bound.new checker.new }
    ensures kept { KeepsStack (stack checker.old) checker.old result checker.new }
{
    match variable(checker, name) {
        Some(found) => capture_found(checker, bound, part, at, name, found),
        None => Err(broken_rule(Rule::T01, at)),
    }
}

fn one_more(count: u32) -> Result<u32, RuleError>
    ensures more { IfOk result (λ more. more ≡ count + 1) }
    ensures short { IfErr result (λ e. e ≡ RuleError.Memory) }
{
    match count.checked_add(1) {
        Some(more) => Ok(more),
        None => Err(RuleError::past_32_bits()),
    }
}

/// The captures of a closure, typed outside of it: each is a use of a variable, and as many nodes as are answered are
/// made. Inside the closure the names stand for the parts of its value, which are noted behind the names in `bound`.
///
/// # Errors
///
/// T01 at a name that no variable has; T02 at one that is captured already; T07 where its variable may not be moved out
/// of, T08 where it is a reference, at the name; [`RuleError::Memory`] where memory is wanted.
pub fn check_captures(
    checker: &mut Checker,
    bound: &mut Variables,
    captures: Nodes,
) -> Result<u32, RuleError>
    ensures gives { GivesCaptures (bodies.captured (env checker.old) 0 (syns_of (idents (nodes_of captures.entry))) (reverse bound.old) (state checker.old)) result bound.new checker.new }
    ensures kept { KeepsBelow (stack checker.old) checker.old result checker.new }
{
    let mut count: u32 = 0;
    let mut rest = captures;
    while let Some(first) = first_name(rest) {
        capture(checker, bound, count, first.at, first.name)?;
        count = one_more(count)?;
        rest = first.rest;
    }
    Ok(count)
}
