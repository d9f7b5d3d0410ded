//! Which fields of a struct or a variant are given.
ghost use Rattle.std.specs.Prelude.{◌≡◌, ◌==◌, ◌&&◌, ◌||◌, ℕ, length, IfErr, IfOk, OnOk};
ghost use Rattle.mir_base.specs.declared.rule.RuleError.{RuleError};
ghost use Rattle.typeck_calls.specs.Given.{has, has_all as has_all_of, is_number};
ghost use Rattle.typing_rules.specs.Rows as rows;

use mir_base::RuleError;
use std::alloc::Global;
use std::collections::HashSet;

/// Notes the number of a field.
fn note(seen: &mut HashSet<usize>, number: usize) -> Result<(), RuleError>
    ensures noted { OnOk result ((n : ℕ) → has n seen.new.keys ≡ (number == n || has n seen.old.keys)) }
    ensures short { IfErr result (λ e. e ≡ RuleError.Memory) }
{
    match seen.insert(number) {
        Ok(_) => Ok(()),
        Err(_) => Err(RuleError::Memory),
    }
}

/// Notes the number of a field, if it is one.
fn note_if(seen: &mut HashSet<usize>, number: Option<u32>) -> Result<(), RuleError>
    ensures noted { OnOk result ((n : ℕ) → has n seen.new.keys ≡ (is_number n number || has n seen.old.keys)) }
    ensures short { IfErr result (λ e. e ≡ RuleError.Memory) }
{
    match number {
        Some(number) => note(seen, number as usize),
        None => Ok(()),
    }
}

fn note_given(alloc: Global, given: &[Option<u32>]) -> Result<HashSet<usize>, RuleError>
    ensures noted { IfOk result (λ seen. (n : ℕ) → has n seen.keys ≡ rows.is_given n given.now) }
    ensures short { IfErr result (λ e. e ≡ RuleError.Memory) }
{
    let mut seen = HashSet::new(alloc);
    for number in given {
        note_if(&mut seen, *number)?;
    }
    Ok(seen)
}

/// Whether all numbers below one are there.
fn has_all(seen: &HashSet<usize>, count: usize) -> bool
    ensures { result ≡ has_all_of count seen.now.keys }
{
    let mut all = true;
    for number in 0..count {
        let is_there = seen.contains(&number);
        all = is_there & all;
    }
    all
}

/// Whether so many fields are given, each of them once.
#[tactic(auto, using(crate::proofs::GivenOnes::all_there))]
pub fn is_whole(alloc: Global, given: &[Option<u32>], count: usize) -> Result<bool, RuleError>
    ensures whole { IfOk result (λ whole. whole ≡ (rows.all_given count given.now && length given.now == count)) }
    ensures short { IfErr result (λ e. e ≡ RuleError.Memory) }
{
    let seen = note_given(alloc, given)?;
    let is_all = has_all(&seen, count);
    let is_count = given.len() == count;
    Ok(is_all & is_count)
}

/// Whether each name is one of a field.
pub fn are_known(given: &[Option<u32>]) -> bool
    ensures { result ≡ rows.are_known given.now }
{
    given.iter().all(|number| number.is_some())
}
