//! The two rules, and the first that is broken.
ghost use Rattle.std.specs.Prelude.{◌≡◌, ◌++◌, IfOk, OnOk, map, option_map};
ghost use Rattle.std.specs.List.{filter_map, flat_map};
ghost use Rattle.typed_tree.specs.View.{body_of, program_of};
ghost use Rattle.typing_rules.specs.Borrows as rules;
ghost use Rattle.borrow_rules.specs.Answers.{Answers, fault_in, faults_of};
ghost use Rattle.borrow_rules.specs.Found.{HasDropBodies};
ghost use Rattle.borrow_rules.specs.View.{params_in, passing_in};

use crate::drop_bodies::is_drop_body;
use crate::facts::ParamNo;
use crate::passings::{Passing, passings, stores};
use crate::replaceable::{is_replaced, replaceable};
use crate::{CollectedAccesses, collect_accesses};
use mir_base::{Key, NoMemory, Pos, Rule, RuleError};
use mir_ty::Items;
use std::alloc::Global;
use std::collections::HashSet;
use typed_tree::{TBody, Typed, nodes_of};

/// A rule that is broken, and where.
#[derive(Clone, Copy)]
pub struct BrokenRule {
    pub rule: Rule,
    pub at: Pos,
}

/// One rule is broken at places.
fn add_faults(rule: Rule, places: &[Pos], faults: &mut Vec<BrokenRule>) -> Result<(), NoMemory>
    ensures { OnOk result (map fault_in faults.new.items ≡
        map fault_in faults.old.items ++ map (rules.broken rule) places.now) }
{
    for at in places {
        faults.push(BrokenRule { rule, at: *at })?;
    }
    Ok(())
}

/// Where references overlap in a body.
fn add_overlaps(alloc: Global, body: &TBody, faults: &mut Vec<BrokenRule>) -> Result<(), NoMemory>
    ensures { OnOk result (map fault_in faults.new.items ≡
        map fault_in faults.old.items ++ rules.overlaps (body_of body.now)) }
{
    let mut told = CollectedAccesses::quiet(alloc);
    collect_accesses(alloc, &[], &body.block, &mut told)?;
    add_faults(Rule::T14, told.conflicts.as_slice(), faults)
}

/// Where a variable is passed for a parameter that may be replaced.
fn add_replacing(
    items: &Items,
    found: &HashSet<ParamNo>,
    passed: &[Passing],
    places: &mut Vec<Pos>,
) -> Result<(), NoMemory>
    ensures { OnOk result (places.new.items ≡ places.old.items ++
        filter_map (rules.replacing items.now (params_in found.now.keys)) (map passing_in passed.now)) }
{
    for passing in passed {
        if is_replaced(items, found, passing) {
            places.push(passing.at)?;
        }
    }
    Ok(())
}

/// Where a body replaces what its first parameter names.
fn add_replacements(
    alloc: Global,
    items: &Items,
    found: &HashSet<ParamNo>,
    key: Key,
    body: &TBody,
    faults: &mut Vec<BrokenRule>,
) -> Result<(), NoMemory>
    ensures { OnOk result (map fault_in faults.new.items ≡ map fault_in faults.old.items ++
        rules.replacements items.now (params_in found.now.keys) key.0 (body_of body.now)) }
{
    let nodes = nodes_of(alloc, &body.block)?;
    let mut places = stores(alloc, key, nodes.as_slice())?;
    let passed = passings(alloc, key, nodes.as_slice())?;
    add_replacing(items, found, passed.as_slice(), &mut places)?;
    add_faults(Rule::T15, places.as_slice(), faults)
}

/// Where a `Drop` body replaces its `self`.
fn add_replaced_self(
    alloc: Global,
    items: &Items,
    drops: &HashSet<u32>,
    found: &HashSet<ParamNo>,
    body: &TBody,
    faults: &mut Vec<BrokenRule>,
) -> Result<(), NoMemory>
    requires { HasDropBodies items.now drops.now.keys }
    ensures { OnOk result (map fault_in faults.new.items ≡ map fault_in faults.old.items ++
        rules.replaced_self items.now (params_in found.now.keys) (body_of body.now)) }
{
    if !is_drop_body(items, drops, body.number) {
        return Ok(());
    }
    match body.params.get(0) {
        Some(param) => {
            let key = Key(param.pattern.id.0);
            add_replacements(alloc, items, found, key, body, faults)
        }
        None => Ok(()),
    }
}

/// All that is broken in bodies.
fn add_bodies(
    alloc: Global,
    items: &Items,
    drops: &HashSet<u32>,
    found: &HashSet<ParamNo>,
    bodies: &[TBody],
    faults: &mut Vec<BrokenRule>,
) -> Result<(), NoMemory>
    requires { HasDropBodies items.now drops.now.keys }
    ensures { OnOk result (map fault_in faults.new.items ≡ map fault_in faults.old.items ++
        faults_of items.now (params_in found.now.keys) (map body_of bodies.now)) }
{
    for body in bodies {
        add_overlaps(alloc, body, faults)?;
        add_replaced_self(alloc, items, drops, found, body, faults)?;
    }
    Ok(())
}

/// All that is broken in a program.
fn all_faults(alloc: Global, typed: &Typed) -> Result<Vec<BrokenRule>, NoMemory>
    ensures { IfOk result (λ faults. map fault_in faults.items ≡ rules.all_broken (program_of typed.now)) }
{
    let found = replaceable(alloc, typed)?;
    let drops = typed.items.drop_bodies(alloc)?;
    let mut faults = Vec::new(alloc);
    add_bodies(
        alloc,
        &typed.items,
        &drops,
        &found,
        typed.bodies.as_slice(),
        &mut faults,
    )?;
    Ok(faults)
}

fn is_before(a: Pos, b: Pos) -> bool
    ensures { result ≡ rules.is_before a b }
{
    a.line < b.line || (a.line == b.line && a.col < b.col)
}

fn is_overlap(rule: Rule) -> bool
    ensures { result ≡ rules.is_overlap rule }
{
    match rule {
        Rule::T14 => true,
        _ => false,
    }
}

/// Whether a fault is told before another one: it stands before it, or at its place and is of the lower rule.
fn comes_first(a: BrokenRule, b: BrokenRule) -> bool
    ensures { result ≡ rules.comes_first (fault_in a) (fault_in b) }
{
    is_before(a.at, b.at) || (!is_before(b.at, a.at) && is_overlap(a.rule))
}

fn earlier(a: BrokenRule, b: Option<BrokenRule>) -> BrokenRule
    ensures { fault_in result ≡ rules.earlier (fault_in a) (option_map fault_in b) }
{
    match b {
        Some(b) => { if comes_first(a, b) { a } else { b } }
        None => a,
    }
}

/// The first fault in the text.
fn first_of(faults: &[BrokenRule]) -> Option<BrokenRule>
    ensures { option_map fault_in result ≡ rules.first_of (map fault_in faults.now) }
{
    let mut first = None;
    for n in (0..faults.len()).rev() {
        first = Some(earlier(faults[n], first));
    }
    first
}

fn answer(first: Option<BrokenRule>) -> Result<(), RuleError>
    ensures { Answers (option_map fault_in first) result }
{
    match first {
        Some(fault) => Err(RuleError::Broken {
            rule: fault.rule,
            at: fault.at,
        }),
        None => Ok(()),
    }
}

/// The first broken rule of borrows in the text, with its place: T14 where references that are passed together overlap
/// or a guard reaches into its scrutinee, T15 where a `Drop` body replaces what its `self` names as a whole; at one
/// place the lower rule. It answers `Ok` exactly where none is broken.
///
/// It costs by the number of nodes, each call by the number of its arguments, each guard by the bindings around it, and
/// for each parameter by the nodes of its body; and then sweeps over all parameters, most programs two or three.
///
/// # Errors
///
/// [`RuleError::Broken`] with the first broken rule, and [`RuleError::Memory`] where memory is wanted.
pub fn borrow_check(alloc: Global, typed: &Typed) -> Result<(), RuleError>
    ensures { Answers (rules.broken_borrow (program_of typed.now)) result }
{
    match all_faults(alloc, typed) {
        Ok(faults) => answer(first_of(faults.as_slice())),
        Err(NoMemory) => Err(RuleError::Memory),
    }
}
