//! How a call ends behind its arguments.
ghost use Rattle.std.specs.Prelude.{◌≡◌, ◌<◌, ◌-◌, ◌==◌, ◌∷◌, true, IfErr, IfOk, OnOk};
ghost use Rattle.mir_base.specs.declared.int_kind.IntKind.{IntKind};
ghost use Rattle.mir_base.specs.declared.rule.Rule.{Rule};
ghost use Rattle.mir_base.specs.declared.rule.RuleError.{RuleError};
ghost use Rattle.typeck_checker.specs.Lists.{below_all, last_nodes};
ghost use Rattle.typeck_calls.specs.Numbers.{numbers_from};
ghost use Rattle.typeck_calls.specs.Endings.{resolved_end, ending_end};
ghost use Rattle.typeck_checker.specs.Forms.{one_form};
ghost use Rattle.typeck_checker.specs.Stand.{Gives, KeepsStack, Stays, stack, state};
ghost use Rattle.typed_tree.specs.Tree as tree;
ghost use Rattle.typing_rules.specs.Places as places;
ghost use Rattle.typing_rules.specs.Rows as rows;
ghost use Rattle.typing_rules.specs.Rows.{call_end, counted_call_end};

use crate::resolve::{CallEnding, ResolvedCall};
use crate::wrap_make;
use mir_base::{List, NodeId, Pos, Rule, RuleError};
use mir_ty::{I32, TyId, UNIT};
use std::alloc::Global;
use typeck_checker::{Checker, Leaf, Many, One, let_go};
use typeck_exprs::{box_end, call_end as body_end};
use typeck_heads::{broken_rule, obeys, push_to};

/// So many numbers from 0 on.
#[tactic(auto, using(crate::proofs::Numbers::one_more))]
fn numbers(alloc: Global, count: usize) -> Result<List<Option<u32>>, RuleError>
    ensures numbers { IfOk result (λ numbers. numbers ≡ numbers_from 0 count) }
    ensures short { IfErr result (λ e. e ≡ RuleError.Memory) }
{
    let mut numbers = List::new(alloc);
    for number in 0..count {
        if number > u32::MAX as usize {
            return Err(RuleError::past_32_bits());
        }
        push_to(&mut numbers, Some(number as u32))?;
    }
    Ok(numbers)
}

/// A value of a struct or a variant, without a use, whose parts are the last nodes, so many, in the order of its fields.
fn wrap_parts(
    checker: &mut Checker,
    id: NodeId,
    at: Pos,
    ty: TyId,
    adt: u32,
    variant: u32,
    count: usize,
) -> Result<(), RuleError>
    ensures made { OnOk result (stack checker.new ≡
        places.a_node_of id.0 at ty (rows.make adt variant (last_nodes count (stack checker.old))) ∷ below_all count (stack checker.old)) }
    ensures state { OnOk result (state checker.new ≡ state checker.old) }
    ensures place { OnOk result (Stays checker.old checker.new) }
    ensures short { IfErr result (λ e. e ≡ RuleError.Memory) }
{
    let numbers = numbers(checker.alloc, count)?;
    wrap_make(checker, id, at, ty, adt, variant, numbers.as_slice())?;
    Ok(())
}

fn coerce_make(
    checker: &mut Checker,
    id: NodeId,
    at: Pos,
    ty: TyId,
    adt: u32,
    variant: u32,
    count: usize,
    expected: Option<TyId>,
) -> Result<(), RuleError>
    ensures gives { Gives (rows.fitted expected (places.a_node_of id.0 at ty (rows.make adt variant (last_nodes count (stack checker.old)))) (state checker.old)) result checker.new }
    ensures kept { KeepsStack (below_all count (stack checker.old)) checker.old result checker.new }
{
    wrap_parts(checker, id, at, ty, adt, variant, count)?;
    checker.coerce(expected)
}

/// A value of a struct or a variant, whose parts are the last nodes, so many, in the order of its fields.
fn make_end(
    checker: &mut Checker,
    id: NodeId,
    at: Pos,
    ty: TyId,
    adt: u32,
    variant: u32,
    count: usize,
    is_count: bool,
    expected: Option<TyId>,
) -> Result<(), RuleError>
    ensures gives { Gives (call_end id.0 at ty (rows.make adt variant (last_nodes count (stack checker.old))) is_count true expected (state checker.old)) result checker.new }
    ensures kept { KeepsStack (below_all count (stack checker.old)) checker.old result checker.new }
{
    coerce_make(checker, id, at, ty, adt, variant, count, expected)?;
    obeys(Rule::T04, at, is_count)
}

/// The first of the last nodes, so many, becomes the last one.
fn first_alone(checker: &mut Checker, count: usize) -> Result<(), RuleError>
    requires { 0 < count }
    ensures left { OnOk result (stack checker.new ≡ below_all (count - 1) (stack checker.old)) }
    ensures state { OnOk result (state checker.new ≡ state checker.old) }
    ensures place { OnOk result (Stays checker.old checker.new) }
    ensures short { IfErr result (λ e. e ≡ RuleError.Memory) }
{
    let_go(checker, count - 1)
}

/// A node around the first of the last nodes, so many; `()` where there is none.
#[tactic(auto, using(crate::proofs::Numbers::with_first, crate::proofs::Numbers::below_first))]
fn coerce_given(
    checker: &mut Checker,
    id: NodeId,
    at: Pos,
    one: One,
    count: usize,
    expected: Option<TyId>,
) -> Result<(), RuleError>
    ensures gives { Gives (rows.fitted expected (places.a_node_of id.0 at places.unit (rows.with_one (last_nodes count (stack checker.old)) (one_form one))) (state checker.old)) result checker.new }
    ensures kept { KeepsStack (below_all count (stack checker.old)) checker.old result checker.new }
{
    if count == 0 {
        return checker.coerce_leaf(id, at, UNIT, Leaf::UnitValue, expected);
    }
    first_alone(checker, count)?;
    checker.coerce_one(id, at, UNIT, one, expected)
}

/// A built-in with one parameter.
fn one_end(
    checker: &mut Checker,
    id: NodeId,
    at: Pos,
    one: One,
    count: usize,
    expected: Option<TyId>,
) -> Result<(), RuleError>
    ensures gives { Gives (counted_call_end id.0 at places.unit (rows.with_one (last_nodes count (stack checker.old)) (one_form one)) Rule.T04 (count == 1) expected (state checker.old)) result checker.new }
    ensures kept { KeepsStack (below_all count (stack checker.old)) checker.old result checker.new }
{
    coerce_given(checker, id, at, one, count, expected)?;
    obeys(Rule::T04, at, count == 1)
}

/// `ask()`.
fn ask_end(
    checker: &mut Checker,
    id: NodeId,
    at: Pos,
    count: usize,
    expected: Option<TyId>,
) -> Result<(), RuleError>
    ensures gives { Gives (counted_call_end id.0 at (places.int IntKind.I32) tree.Ask Rule.T04 (count == 0) expected (state checker.old)) result checker.new }
    ensures kept { KeepsStack (below_all count (stack checker.old)) checker.old result checker.new }
{
    let_go(checker, count)?;
    checker.coerce_leaf(id, at, I32, Leaf::Ask, expected)?;
    obeys(Rule::T04, at, count == 0)
}

/// `Box::new(e)`.
#[tactic(auto, using(crate::proofs::Numbers::below_first))]
fn new_box_end(
    checker: &mut Checker,
    id: NodeId,
    at: Pos,
    content: Option<TyId>,
    count: usize,
    expected: Option<TyId>,
) -> Result<(), RuleError>
    ensures gives { Gives (rows.box_by at id.0 count expected content (rows.first_node (last_nodes count (stack checker.old))) (state checker.old)) result checker.new }
    ensures kept { KeepsStack (below_all count (stack checker.old)) checker.old result checker.new }
{
    if count == 0 {
        return Err(broken_rule(Rule::T04, at));
    }
    first_alone(checker, count)?;
    box_end(checker, id, at, count, content, expected)
}

fn end_call(
    checker: &mut Checker,
    id: NodeId,
    at: Pos,
    ending: CallEnding,
    is_count: bool,
    count: usize,
    expected: Option<TyId>,
) -> Result<(), RuleError>
    ensures gives { Gives (ending_end id.0 at expected ending is_count count (last_nodes count (stack checker.old)) (state checker.old)) result checker.new }
    ensures kept { KeepsStack (below_all count (stack checker.old)) checker.old result checker.new }
{
    match ending {
        CallEnding::Function {
            body,
            answer,
            is_drop,
        } => {
            let many = Many::Call(body);
            body_end(
                checker, id, at, answer, many, count, is_count, !is_drop, expected,
            )
        }
        CallEnding::Make { adt, variant, ty } => {
            make_end(checker, id, at, ty, adt, variant, count, is_count, expected)
        }
        CallEnding::Print => one_end(checker, id, at, One::Print, count, expected),
        CallEnding::Ask => ask_end(checker, id, at, count, expected),
        CallEnding::DropValue => one_end(checker, id, at, One::DropValue, count, expected),
        CallEnding::Forget => one_end(checker, id, at, One::Forget, count, expected),
        CallEnding::NewBox(content) => new_box_end(checker, id, at, content, count, expected),
        CallEnding::Refused => Err(broken_rule(Rule::T13, at)),
    }
}

/// How a call ends behind its arguments, which are the last nodes, so many.
pub fn call_end(
    checker: &mut Checker,
    at: Pos,
    begun: &ResolvedCall,
    count: usize,
    expected: Option<TyId>,
) -> Result<(), RuleError>
    ensures gives { (last : tree.Node) → Gives (resolved_end at expected begun.now last count (last_nodes count (stack checker.old)) (state checker.old)) result checker.new }
    ensures kept { KeepsStack (below_all count (stack checker.old)) checker.old result checker.new }
{
    let is_count = count == begun.params.len();
    end_call(
        checker,
        begun.id,
        at,
        begun.ending,
        is_count,
        count,
        expected,
    )
}
