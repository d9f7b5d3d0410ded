//! How patterns with parts end, once their parts are checked.
ghost use Rattle.typeck_patterns.specs.NodeEnds.{counted_node, target_node};
ghost use Rattle.std.specs.Prelude.{◌≡◌, ◌&&◌, ◌||◌, true, IfErr, IfOk};
ghost use Rattle.typeck_checker.specs.Lists.{below_all, last_nodes, many_form};
ghost use Rattle.mir_base.specs.declared.rule.RuleError.{RuleError};
ghost use Rattle.typeck_patterns.specs.Fields.{below_given, last_fields};
ghost use Rattle.typeck_patterns.specs.Targets.{target_of as target_in};
ghost use Rattle.src_ast.specs.ItemForms.{kind_seen};
ghost use Rattle.typeck_checker.specs.Stand.{Gives, KeepsStack, env, stack, state};
ghost use Rattle.typing_rules.specs.Patterns as rules;
ghost use Rattle.typing_rules.specs.Patterns.{are_given_once, fields_from};
ghost use Rattle.typing_rules.specs.Rows as rows;
ghost use Rattle.typeck_patterns.specs.Numbers.{numbers_below};

use crate::counts::is_count;
use crate::{PatternTarget, are_known, is_whole, target_end};
use mir_base::{List, NodeId, Pos, Rule, RuleError};
use mir_ty::TyId;
use src_ast::FieldKind;
use std::alloc::Global;
use typeck_checker::{Checker, Many, kind_at, wrap_many};
use typeck_heads::{obeys, push_to};

fn has_ordered_parts(kind: FieldKind, dots: bool) -> bool
    ensures { result ≡ rules.has_ordered_parts (kind_seen kind) dots }
{
    match kind {
        FieldKind::Unit => !dots,
        FieldKind::Tuple => true,
        FieldKind::Named => false,
    }
}

/// Whether a struct or a variant may have a pattern with parts in parentheses.
fn are_ordered(checker: &Checker, target: PatternTarget, dots: bool) -> bool
    ensures { result ≡ rules.are_ordered (env checker.now) (target_in target) dots }
{
    has_ordered_parts(kind_at(checker, target.adt, target.variant), dots)
}

/// A pattern whose parts, the last nodes, so many, stand in their order; `is_count` where there are as many as there
/// have to be.
pub fn counted_end(
    checker: &mut Checker,
    id: NodeId,
    at: Pos,
    ty: TyId,
    many: Many,
    count: u32,
    is_count: bool,
) -> Result<(), RuleError>
    ensures gives { Gives (counted_node id.0 at ty (many_form many (last_nodes count (stack checker.old))) is_count (state checker.old)) result checker.new }
    ensures kept { KeepsStack (below_all count (stack checker.old)) checker.old result checker.new }
{
    obeys(Rule::T04, at, is_count)?;
    wrap_many(checker, id, at, ty, many, count as usize)
}

/// Whether a struct or a variant with so many fields has a pattern with so many parts in parentheses.
pub fn is_tuple_count(
    checker: &Checker,
    target: PatternTarget,
    given: u32,
    count: usize,
    dots: bool,
) -> bool
    ensures { result ≡ rules.is_tuple_count (env checker.now) (target_in target) given count dots }
{
    is_count(dots, given, count) && are_ordered(checker, target, dots)
}

/// The numbers of the first fields, so many.
fn numbers_up(alloc: Global, count: u32) -> Result<List<Option<u32>>, RuleError>
    ensures made { IfOk result (λ numbers. numbers ≡ numbers_below count) }
    ensures short { IfErr result (λ e. e ≡ RuleError.Memory) }
{
    let mut numbers = List::new(alloc);
    for number in 0..count {
        push_to(&mut numbers, Some(number))?;
    }
    Ok(numbers)
}

/// The pattern of a struct or a variant whose parts, the last nodes, so many, stand in the order of its fields.
pub fn ordered_end(
    checker: &mut Checker,
    id: NodeId,
    at: Pos,
    takes_all: bool,
    ty: TyId,
    target: PatternTarget,
    count: u32,
    is_count: bool,
) -> Result<(), RuleError>
    ensures gives { Gives (target_node id.0 at takes_all ty (target_in target) (fields_from 0 (last_nodes count (stack checker.old))) is_count true (state checker.old)) result checker.new }
    ensures kept { KeepsStack (below_all count (stack checker.old)) checker.old result checker.new }
{
    let given = numbers_up(checker.alloc, count)?;
    target_end(
        checker, id, at, takes_all, ty, target, given, is_count, true,
    )
}

/// The pattern of a struct or a variant with so many fields, whose parts, of these numbers, are the last nodes.
pub fn named_end(
    checker: &mut Checker,
    id: NodeId,
    at: Pos,
    takes_all: bool,
    ty: TyId,
    target: PatternTarget,
    given: List<Option<u32>>,
    count: usize,
    dots: bool,
) -> Result<(), RuleError>
    ensures gives { Gives (target_node id.0 at takes_all ty (target_in target) (last_fields given (stack checker.old))
        (are_given_once given && (dots || rules.are_all_given count given)) (rows.are_known given) (state checker.old)) result checker.new }
    ensures kept { KeepsStack (below_given given (stack checker.old)) checker.old result checker.new }
{
    let is_count = is_whole(checker.alloc, given.as_slice(), count, dots)?;
    let is_known = are_known(given.as_slice());
    target_end(
        checker, id, at, takes_all, ty, target, given, is_count, is_known,
    )
}
