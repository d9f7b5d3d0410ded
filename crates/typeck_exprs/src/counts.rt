//! How many nodes there are.
ghost use Rattle.std.specs.Prelude.{◌≡◌, ◌+◌, IfErr, IfOk};
ghost use Rattle.mir_base.specs.declared.rule.RuleError.{RuleError};
ghost use Rattle.src_ast.specs.Seen.{nodes_of};
ghost use Rattle.typing_rules.specs.Patterns as rules;

use mir_base::RuleError;
use src_ast::Nodes;

/// One more; want of memory where no more can be counted.
pub fn one_more(count: usize) -> Result<usize, RuleError>
    ensures counted { IfOk result (λ more. more ≡ count + 1) }
    ensures short { IfErr result (λ e. e ≡ RuleError.Memory) }
{
    match count.checked_add(1) {
        Some(more) => Ok(more),
        None => Err(RuleError::past_32_bits()),
    }
}

/// How many nodes there are.
pub fn count_of(nodes: Nodes) -> Result<usize, RuleError>
    ensures counted { IfOk result (λ count. count ≡ rules.count_of (nodes_of nodes.entry)) }
    ensures short { IfErr result (λ e. e ≡ RuleError.Memory) }
{
    let mut count: usize = 0;
    let mut rest = nodes;
    while let Some(split) = rest.split_first() {
        count = one_more(count)?;
        rest = split.rest;
    }
    Ok(count)
}

/// A count as the length of an array; want of memory where it is too large for one.
pub fn as_length(count: usize) -> Result<u32, RuleError>
    ensures same { IfOk result (λ length. length ≡ count) }
    ensures short { IfErr result (λ e. e ≡ RuleError.Memory) }
{
    if count > u32::MAX as usize {
        return Err(RuleError::past_32_bits());
    }
    Ok(count as u32)
}
