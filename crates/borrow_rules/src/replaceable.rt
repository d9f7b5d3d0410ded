//! The parameters that a call may replace as a whole: the least set, which is found in sweeps over what is known of
//! each parameter by itself.
ghost use Rattle.std.specs.Prelude.{◌≡◌, ◌<◌, ◌+◌, IfOk, List, length, map};
ghost use Rattle.std.specs.List.{list_any};
ghost use Rattle.typed_tree.specs.View.{program_of};
ghost use Rattle.typing_rules.specs.Replaced as rules;
ghost use Rattle.typing_rules.specs.Replaced.{BodyParameter};
ghost use Rattle.borrow_rules.specs.Found.{IsFound, IsSound, Notes, Swept, index_of, is_shown, method_found};
ghost use Rattle.borrow_rules.specs.View.{fact_in, params_in, passing_in};

use crate::facts::{ParamNo, ParameterFact, all_facts};
use crate::passings::{CalledBody, Passing};
use mir_base::NoMemory;
use mir_ty::{ImplDef, Items};
use std::alloc::Global;
use std::collections::HashSet;
use typed_tree::Typed;

/// Whether a parameter is among those that were found.
fn is_found(found: &HashSet<ParamNo>, body: u32, number: u32) -> bool
    ensures { result ≡ rules.is_among (params_in found.now.keys) number body }
{
    found.contains(&ParamNo { body, number })
}

/// Whether a parameter of the method that an impl has for one of a trait was found.
fn is_method_found(
    found: &HashSet<ParamNo>,
    def: &ImplDef,
    trait_no: u32,
    method: u32,
    number: u32,
) -> bool
    ensures { result ≡ method_found (params_in found.now.keys) trait_no method number def.now }
{
    if def.trait_no != trait_no {
        return false;
    }
    match def.bodies.get(method as usize) {
        Some(body) => is_found(found, *body, number),
        None => false,
    }
}

/// Whether any impl has such a method.
fn is_any_found(
    items: &Items,
    found: &HashSet<ParamNo>,
    trait_no: u32,
    method: u32,
    number: u32,
) -> bool
    ensures { result ≡ list_any (method_found (params_in found.now.keys) trait_no method number) items.now.impls }
{
    let mut n: u32 = 0;
    while let Some(def) = items.impl_def(n) {
        if is_method_found(found, def, trait_no, method, number) {
            return true;
        }
        n += 1;
    }
    false
}

/// Whether a variable is passed for a parameter that was found.
pub fn is_replaced(items: &Items, found: &HashSet<ParamNo>, passing: &Passing) -> bool
    ensures { result ≡ rules.is_replaced items.now (params_in found.now.keys) (passing_in passing.now) }
{
    match passing.callee {
        CalledBody::OfBody(body) => is_found(found, body, passing.number),
        CalledBody::OfTrait { trait_no, method } => {
            is_any_found(items, found, trait_no, method, passing.number)
        }
    }
}

fn is_any_replaced(items: &Items, found: &HashSet<ParamNo>, passed: &[Passing]) -> bool
    ensures { result ≡ list_any (rules.is_replaced items.now (params_in found.now.keys)) (map passing_in passed.now) }
{
    for passing in passed {
        if is_replaced(items, found, passing) {
            return true;
        }
    }
    false
}

/// Whether what was found shows that a parameter may be replaced.
fn is_told(items: &Items, found: &HashSet<ParamNo>, fact: &ParameterFact) -> bool
    ensures { result ≡ is_shown items.now (params_in found.now.keys) (fact_in fact.now) }
{
    fact.is_stored || is_any_replaced(items, found, fact.passed.as_slice())
}

/// Notes a parameter that is shown and was not found yet. Answers whether it did.
fn note(items: &Items, fact: &ParameterFact, found: &mut HashSet<ParamNo>) -> Result<bool, NoMemory>
    ensures { IfOk result (λ is_news. Notes items.now (fact_in fact.now) (params_in found.old.keys) (params_in found.new.keys) is_news) }
{
    let param = fact.param;
    if is_found(found, param.body, param.number) || !is_told(items, found, fact) {
        return Ok(false);
    }
    found.insert(param)?;
    Ok(true)
}

/// The index of what is looked at in a turn: from the last back, or from the first on.
fn index_at(turn: usize, count: usize, is_back: bool) -> usize
    requires { turn < count }
    ensures { result ≡ index_of turn count is_back }
{
    if is_back { count - 1 - turn } else { turn }
}

/// One turn of a sweep, in which what is known of one parameter is looked at. Answers whether the sweep has found any.
fn take_turn(
    items: &Items,
    facts: &[ParameterFact],
    is_back: bool,
    turn: usize,
    grew: bool,
    found: &mut HashSet<ParamNo>,
) -> Result<bool, NoMemory>
    requires { turn < length facts.now }
    ensures { IfOk result (λ grows. (start : List BodyParameter) → Swept items.now (map fact_in facts.now) start is_back turn grew (params_in found.old.keys) →
        Swept items.now (map fact_in facts.now) start is_back (turn + 1) grows (params_in found.new.keys)) }
{
    let n = index_at(turn, facts.len(), is_back);
    if note(items, &facts[n], found)? {
        return Ok(true);
    }
    Ok(grew)
}

/// Goes once over what is known of parameters, and notes which are shown. Answers whether it found any.
fn sweep(
    items: &Items,
    facts: &[ParameterFact],
    is_back: bool,
    found: &mut HashSet<ParamNo>,
) -> Result<bool, NoMemory>
    requires sound { IsSound items.now (map fact_in facts.now) (params_in found.old.keys) }
    ensures { IfOk result (λ grew. Swept items.now (map fact_in facts.now) (params_in found.old.keys) is_back (length facts.now) grew (params_in found.new.keys)) }
{
    let mut grew = false;
    for turn in 0..facts.len() {
        grew = take_turn(items, facts, is_back, turn, grew, found)?;
    }
    Ok(grew)
}

/// The parameters that a call may replace as a whole. It goes over what is known of them, from the last to the first
/// and then from the first to the last, as long as it finds any.
pub fn replaceable(alloc: Global, typed: &Typed) -> Result<HashSet<ParamNo>, NoMemory>
    ensures { IfOk result (λ found. IsFound (program_of typed.now) (params_in found.keys)) }
{
    let listed = all_facts(alloc, typed.bodies.as_slice())?;
    let facts = listed.as_slice();
    let mut found = HashSet::new(alloc);
    let mut is_back = true;
    'sweeps: loop {
        if !sweep(&typed.items, facts, is_back, &mut found)? {
            return Ok(found);
        }
        is_back = !is_back;
    }
}
