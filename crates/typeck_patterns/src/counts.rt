//! How many patterns there are.
ghost use Rattle.std.specs.Prelude.{◌≡◌, ◌+◌, nat_lt, IfErr, IfOk};
ghost use Rattle.mir_base.specs.declared.rule.RuleError.{RuleError};
ghost use Rattle.src_ast.specs.Seen.{nodes_of};
ghost use Rattle.typing_rules.specs.Patterns as rules;

use mir_base::RuleError;
use src_ast::Nodes;

/// One more.
pub fn one_more(count: u32) -> Result<u32, RuleError>
    ensures more { IfOk result (λ more. more ≡ count + 1) }
    ensures short { IfErr result (λ e. e ≡ RuleError.Memory) }
{
    match count.checked_add(1) {
        Some(more) => Ok(more),
        None => Err(RuleError::past_32_bits()),
    }
}

/// How many nodes there are.
pub fn count_of(nodes: Nodes) -> Result<u32, RuleError>
    ensures counted { IfOk result (λ count. count ≡ rules.count_of (nodes_of nodes.entry)) }
    ensures short { IfErr result (λ e. e ≡ RuleError.Memory) }
{
    let mut count: u32 = 0;
    let mut rest = nodes;
    while let Some(split) = rest.split_first() {
        count = one_more(count)?;
        rest = split.rest;
    }
    Ok(count)
}

/// Whether there are as many as there have to be: no more where `..` stands last.
pub fn is_count(dots: bool, given: u32, count: usize) -> bool
    ensures { result ≡ rules.is_count dots given count }
{
    if dots {
        given as usize <= count
    } else {
        given as usize == count
    }
}

/// Whether there are several.
pub fn are_several(nodes: Nodes) -> bool
    ensures { result ≡ nat_lt 1 (rules.count_of (nodes_of nodes.entry)) }
{
    match nodes.split_first() {
        Some(split) => !split.rest.is_empty(),
        None => false,
    }
}
