//! Tuples, arrays and boxes (The Rust Reference, "Tuple expressions", "Array expressions").
ghost use Rattle.std.specs.Prelude.{◌≡◌};
ghost use Rattle.typing_rules.specs.Rows as rows;
ghost use Rattle.typeck_checker.specs.Lists.{below_all, last_nodes};
ghost use Rattle.typeck_checker.specs.Stand.{Gives, KeepsStack, below, stack, state, top};
ghost use Rattle.typing_rules.specs.Rows.{array_end, box_end, box_of_end, tuple_end};

use mir_base::limits::{MAX_ARRAY_LENGTH, MAX_TUPLE_PARTS};
use mir_base::{List, NodeId, Pos, Rule, RuleError};
use mir_ty::{Ty, TyId};
use typeck_checker::{Checker, Many, One, coerce_many};
use typeck_heads::obeys;

/// `(a, b)`, whose parts are the last nodes, of these types.
pub fn tuple_end(
    checker: &mut Checker,
    id: NodeId,
    at: Pos,
    types: List<TyId>,
    count: usize,
    expected: Option<TyId>,
) -> Result<(), RuleError>
    ensures gives { Gives (tuple_end id.0 at count types (last_nodes count (stack checker.old)) expected (state checker.old)) result checker.new }
    ensures kept { KeepsStack (below_all count (stack checker.old)) checker.old result checker.new }
{
    let ty = checker.intern(Ty::Tuple(types))?;
    coerce_many(checker, id, at, ty, Many::Tuple, count, expected)?;
    obeys(Rule::T19, at, count <= MAX_TUPLE_PARTS)
}

/// `[a, b]`, whose elements are the last nodes, of one type.
pub fn array_end(
    checker: &mut Checker,
    id: NodeId,
    at: Pos,
    element: TyId,
    count: u32,
    expected: Option<TyId>,
) -> Result<(), RuleError>
    ensures gives { Gives (array_end id.0 at count element (last_nodes count (stack checker.old)) expected (state checker.old)) result checker.new }
    ensures kept { KeepsStack (below_all count (stack checker.old)) checker.old result checker.new }
{
    let ty = checker.intern(Ty::Array(element, count))?;
    coerce_many(checker, id, at, ty, Many::Array, count as usize, expected)?;
    obeys(Rule::T19, at, count <= MAX_ARRAY_LENGTH)
}

/// A part has the type that is required of it, else its own.
fn part_ty(checker: &Checker, content: Option<TyId>) -> TyId
    ensures { result ≡ rows.part_ty content (top (stack checker.now)) }
{
    match content {
        Some(ty) => ty,
        None => checker.last_ty(),
    }
}

fn box_of(
    checker: &mut Checker,
    id: NodeId,
    at: Pos,
    count: usize,
    inside: TyId,
    expected: Option<TyId>,
) -> Result<(), RuleError>
    ensures gives { Gives (box_of_end id.0 at count expected inside (top (stack checker.old)) (state checker.old)) result checker.new }
    ensures kept { KeepsStack (below (stack checker.old)) checker.old result checker.new }
{
    let ty = checker.intern(Ty::Boxed(inside))?;
    checker.coerce_one(id, at, ty, One::NewBox, expected)?;
    obeys(Rule::T04, at, count == 1)
}

/// `Box::new(e)`, whose argument is the last node.
pub fn box_end(
    checker: &mut Checker,
    id: NodeId,
    at: Pos,
    count: usize,
    content: Option<TyId>,
    expected: Option<TyId>,
) -> Result<(), RuleError>
    ensures gives { Gives (box_end id.0 at count expected content (top (stack checker.old)) (state checker.old)) result checker.new }
    ensures kept { KeepsStack (below (stack checker.old)) checker.old result checker.new }
{
    let inside = part_ty(checker, content);
    box_of(checker, id, at, count, inside, expected)
}
