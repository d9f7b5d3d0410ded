//! Calls and `match` (The Rust Reference, "Call expressions", "Method call expressions", "match expressions").
ghost use Rattle.std.specs.Prelude.{◌≡◌};
ghost use Rattle.mir_base.specs.declared.rule.Rule.{Rule};
ghost use Rattle.typed_tree.specs.Tree as tree;
ghost use Rattle.typing_rules.specs.Places.{a_node_of};
ghost use Rattle.typing_rules.specs.Rows as rows;
ghost use Rattle.typeck_checker.specs.Lists.{behind_form, below_all, last_nodes, last_types, many_form};
ghost use Rattle.typeck_checker.specs.Stand.{Gives, KeepsStack, below, stack, state, top};
ghost use Rattle.typing_rules.specs.Rows.{call_end, counted_call_end, match_end};

use mir_base::{NodeId, Pos, Rule, RuleError};
use mir_ty::TyId;
use typeck_checker::{Behind, Checker, Many, coerce_many, one_type_of, wrap_behind};
use typeck_heads::{broken_rule, obeys};

fn coerce_behind(
    checker: &mut Checker,
    id: NodeId,
    at: Pos,
    ty: TyId,
    behind: Behind,
    count: usize,
    expected: Option<TyId>,
) -> Result<(), RuleError>
    ensures gives { Gives (rows.fitted expected (a_node_of id.0 at ty
        (behind_form behind (top (below_all count (stack checker.old))) (last_nodes count (stack checker.old)))) (state checker.old)) result checker.new }
    ensures kept { KeepsStack (below (below_all count (stack checker.old))) checker.old result checker.new }
{
    wrap_behind(checker, id, at, ty, behind, count)?;
    checker.coerce(expected)
}

/// A call whose arguments are the last nodes, so many: whether there are as many as parameters, and whether it may be
/// called, are asked behind them.
pub fn call_end(
    checker: &mut Checker,
    id: NodeId,
    at: Pos,
    answer: TyId,
    many: Many,
    count: usize,
    is_count: bool,
    may_be_called: bool,
    expected: Option<TyId>,
) -> Result<(), RuleError>
    ensures gives { Gives (call_end id.0 at answer (many_form many (last_nodes count (stack checker.old))) is_count may_be_called expected (state checker.old)) result checker.new }
    ensures kept { KeepsStack (below_all count (stack checker.old)) checker.old result checker.new }
{
    coerce_many(checker, id, at, answer, many, count, expected)?;
    if !is_count {
        return Err(broken_rule(Rule::T04, at));
    }
    obeys(Rule::T13, at, may_be_called)
}

/// A value that is called is the node before its arguments.
pub fn counted_end(
    checker: &mut Checker,
    id: NodeId,
    at: Pos,
    answer: TyId,
    behind: Behind,
    count: usize,
    is_count: bool,
    expected: Option<TyId>,
) -> Result<(), RuleError>
    ensures gives { Gives (counted_call_end id.0 at answer (behind_form behind (top (below_all count (stack checker.old))) (last_nodes count (stack checker.old))) Rule.T04 is_count expected (state checker.old)) result checker.new }
    ensures kept { KeepsStack (below (below_all count (stack checker.old))) checker.old result checker.new }
{
    coerce_behind(checker, id, at, answer, behind, count, expected)?;
    obeys(Rule::T04, at, is_count)
}

fn unify_match(
    checker: &mut Checker,
    id: NodeId,
    at: Pos,
    ty: TyId,
    count: usize,
    expected: Option<TyId>,
) -> Result<(), RuleError>
    ensures gives { Gives (rows.settled expected (a_node_of id.0 at ty
        (tree.Match (top (below_all count (stack checker.old))) (last_nodes count (stack checker.old)))) (state checker.old)) result checker.new }
    ensures kept { KeepsStack (below (below_all count (stack checker.old))) checker.old result checker.new }
{
    wrap_behind(checker, id, at, ty, Behind::Match, count)?;
    checker.unify(expected)
}

/// `match`, whose arms are the last nodes, so many, behind its scrutinee: they have one type.
pub fn match_end(
    checker: &mut Checker,
    id: NodeId,
    at: Pos,
    count: usize,
    expected: Option<TyId>,
) -> Result<(), RuleError>
    ensures gives { Gives (match_end id.0 at expected (top (below_all count (stack checker.old))) (last_nodes count (stack checker.old)) (last_types count (stack checker.old)) (state checker.old)) result checker.new }
    ensures kept { KeepsStack (below (below_all count (stack checker.old))) checker.old result checker.new }
{
    match one_type_of(checker, count) {
        Some(ty) => unify_match(checker, id, at, ty, count, expected),
        None => Err(broken_rule(Rule::T03, at)),
    }
}
