//! Closures before and behind their bodies (The Rust Reference, "Closure expressions", "Closure types").
ghost use Rattle.std.specs.Prelude.{◌≡◌, reverse};
ghost use Rattle.typeck_checker.specs.Lists.{below_all, last_nodes};
ghost use Rattle.src_ast.specs.Seen.{nodes_of};
ghost use Rattle.src_ast.specs.View.{idents, syns_of};
ghost use Rattle.typed_tree.specs.Tree as tree;
ghost use Rattle.typing_rules.specs.Bodies as bodies;
ghost use Rattle.typing_rules.specs.Places.{a_node_of};
ghost use Rattle.typing_rules.specs.Rows as rows;
ghost use Rattle.typeck_checker.specs.Stand.{Gives, GivesValue, KeepsStack, ChangesNothing, env, stack, state};
ghost use Rattle.typeck_bodies.specs.Closures.{GivesStart, KeepsStart, closure_ty as closure_ty_of, started, started_at, ty_seen};

use crate::numbers::{body_number, closure_added};
use crate::{capture_types, check_captures};
use mir_base::{NodeId, Pos, Rule, RuleError};
use mir_ty::{Ty, TyId};
use src_ast::Nodes;
use typeck_checker::{Checker, Many, coerce_many};
use typeck_env::{Variables, agrees};

/// A closure whose body is still to come. The nodes of its captures are the last ones.
#[derive(Drop)]
pub struct ClosureBegun {
    /// The number of its node.
    pub id: NodeId,
    /// The number of its body.
    pub body: u32,
    /// How many captures it has.
    pub count: u32,
    /// What the captured names stand for inside, the last of them the youngest.
    pub captures: Variables,
    pub closure: u32,
    pub ty: TyId,
}

/// A closure and its type by their numbers.
#[derive(Clone, Copy)]
pub struct ClosureTy {
    pub closure: u32,
    pub ty: TyId,
}

fn closure_ty(
    checker: &mut Checker,
    captures: &Variables,
    body: u32,
) -> Result<ClosureTy, RuleError>
    ensures gives { GivesValue ty_seen (closure_ty_of (reverse captures.now) body (state checker.old)) result checker.new }
    ensures same { ChangesNothing checker.old checker.new }
{
    let types = capture_types(checker.alloc, captures)?;
    let closure = closure_added(checker, types, body)?;
    let ty = checker.intern(Ty::Closure(closure))?;
    Ok(ClosureTy { closure, ty })
}

fn numbered_closure(
    checker: &mut Checker,
    id: NodeId,
    body: u32,
    captures: Nodes,
) -> Result<ClosureBegun, RuleError>
    ensures gives { GivesStart (started_at (env checker.old) id.0 body (syns_of (idents (nodes_of captures.entry))) (state checker.old)) result checker.new }
    ensures kept { KeepsStart (stack checker.old) checker.old result checker.new }
{
    let mut bound = Variables::new(checker.alloc);
    let count = check_captures(checker, &mut bound, captures)?;
    let made = closure_ty(checker, &bound, body)?;
    Ok(ClosureBegun {
        id,
        body,
        count,
        captures: bound,
        closure: made.closure,
        ty: made.ty,
    })
}

/// A closure up to its body: its numbers, its captures, which are typed outside of it, and its type.
///
/// # Errors
///
/// The first rule that a capture breaks, as in [`captured`]; [`RuleError::Memory`] where memory is wanted.
pub fn closure_begin(checker: &mut Checker, captures: Nodes) -> Result<ClosureBegun, RuleError>
    ensures gives { GivesStart (started (env checker.old) (syns_of (idents (nodes_of captures.entry))) (state checker.old)) result checker.new }
    ensures kept { KeepsStart (stack checker.old) checker.old result checker.new }
{
    let id = checker.number()?;
    let body = body_number(checker)?;
    numbered_closure(checker, id, body, captures)
}

/// The rule that a closure of this type breaks by too many nodes.
pub fn too_many_rule(checker: &Checker, expected: Option<TyId>, ty: TyId) -> Rule
    ensures { result ≡ bodies.too_many_rule checker.now.walk.items expected ty }
{
    if agrees(&checker.walk.items, expected, ty) {
        Rule::T19
    } else {
        Rule::T03
    }
}

/// A closure whose body is whole, as a value that is fitted to the type that is required.
///
/// # Errors
///
/// T03 at its place where it does not fit; [`RuleError::Memory`] where memory is wanted.
pub fn closure_end(
    checker: &mut Checker,
    at: Pos,
    begun: &ClosureBegun,
    expected: Option<TyId>,
) -> Result<(), RuleError>
    ensures gives { Gives (rows.fitted expected (a_node_of begun.now.id.0 at begun.now.ty (tree.Closure begun.now.closure (last_nodes begun.now.count (stack checker.old)))) (state checker.old)) result checker.new }
    ensures kept { KeepsStack (below_all begun.now.count (stack checker.old)) checker.old result checker.new }
{
    coerce_many(
        checker,
        begun.id,
        at,
        begun.ty,
        Many::Closure(begun.closure),
        begun.count as usize,
        expected,
    )
}
