//! Which fields of a struct or a variant a pattern gives.
ghost use Rattle.std.specs.Prelude.{◌≡◌, ◌==◌, ◌&&◌, ◌||◌, [], ℕ, length, not, IfErr, IfOk, OnOk};
ghost use Rattle.mir_base.specs.declared.rule.RuleError.{RuleError};
ghost use Rattle.typing_rules.specs.Patterns as rules;
ghost use Rattle.typing_rules.specs.Rows as rows;
ghost use Rattle.typeck_patterns.specs.Given.{has, has_all as has_all_of, is_new_among, is_number};

use mir_base::RuleError;
use std::alloc::Global;
use std::collections::HashSet;

/// Notes the number of a field; answers whether it is new.
fn note(seen: &mut HashSet<usize>, number: usize) -> Result<bool, RuleError>
    ensures news { IfOk result (λ is_new. is_new ≡ not (has number seen.old.keys)) }
    ensures noted { OnOk result ((n : ℕ) → has n seen.new.keys ≡ (number == n || has n seen.old.keys)) }
    ensures short { IfErr result (λ e. e ≡ RuleError.Memory) }
{
    match seen.insert(number) {
        Ok(is_new) => Ok(is_new),
        Err(_) => Err(RuleError::Memory),
    }
}

/// Notes the number of a field, if it is one; answers whether it is new.
fn note_if(seen: &mut HashSet<usize>, number: Option<u32>) -> Result<bool, RuleError>
    ensures news { IfOk result (λ is_new. is_new ≡ is_new_among number seen.old.keys) }
    ensures noted { OnOk result ((n : ℕ) → has n seen.new.keys ≡ (is_number n number || has n seen.old.keys)) }
    ensures short { IfErr result (λ e. e ≡ RuleError.Memory) }
{
    match number {
        Some(number) => note(seen, number as usize),
        None => Ok(true),
    }
}

/// Whether no field is given twice; notes all of them.
fn are_given_once(seen: &mut HashSet<usize>, given: &[Option<u32>]) -> Result<bool, RuleError>
    requires { seen.old.keys ≡ [] }
    ensures once { IfOk result (λ once. once ≡ rules.are_given_once given.now) }
    ensures noted { OnOk result ((n : ℕ) → has n seen.new.keys ≡ rows.is_given n given.now) }
    ensures short { IfErr result (λ e. e ≡ RuleError.Memory) }
{
    let mut once = true;
    for number in given {
        once &= note_if(seen, *number)?;
    }
    Ok(once)
}

/// Whether a number is there.
fn has_number(seen: &HashSet<usize>, number: usize) -> bool
    ensures { result ≡ has number seen.now.keys }
{
    seen.contains(&number)
}

/// Whether all numbers below one are there.
fn has_all(seen: &HashSet<usize>, count: usize) -> bool
    ensures { result ≡ has_all_of count seen.now.keys }
{
    let mut all = true;
    for number in 0..count {
        all &= has_number(seen, number);
    }
    all
}

/// Whether these are as many as there are fields, and all of these were noted; or whether `..` stands for the others.
fn are_enough(seen: &HashSet<usize>, given: &[Option<u32>], count: usize, dots: bool) -> bool
    ensures { result ≡ (dots || (length given.now == count && has_all_of count seen.now.keys)) }
{
    dots || (given.len() == count && has_all(seen, count))
}

/// Whether no field is given twice, and all of them, so many, and nothing beside are where no `..` stands last.
pub fn is_whole(
    alloc: Global,
    given: &[Option<u32>],
    count: usize,
    dots: bool,
) -> Result<bool, RuleError>
    ensures whole { IfOk result (λ is_whole. is_whole ≡
        (rules.are_given_once given.now && (dots || rules.are_all_given count given.now))) }
    ensures short { IfErr result (λ e. e ≡ RuleError.Memory) }
{
    let mut seen = HashSet::new(alloc);
    let once = are_given_once(&mut seen, given)?;
    Ok(once && are_enough(&seen, given, count, dots))
}

/// Whether each name is one of a field.
pub fn are_known(given: &[Option<u32>]) -> bool
    ensures { result ≡ rows.are_known given.now }
{
    given.iter().all(|number| number.is_some())
}
