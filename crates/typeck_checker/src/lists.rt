//! The nodes that were made last, as the parts of a node around them.
ghost use Rattle.std.specs.Prelude.{◌≡◌, ◌∷◌, map, option_and_then, reverse, IfErr, IfOk, OnOk};
ghost use Rattle.mir_base.specs.declared.rule.RuleError.{RuleError};
ghost use Rattle.typed_tree.specs.View.{form_of, nodes_from, tree_of};
ghost use Rattle.typing_rules.specs.Places.{a_node_of};
ghost use Rattle.typing_rules.specs.Rows as rows;
ghost use Rattle.well_typed.specs.Places.{ty_of};
ghost use Rattle.typeck_checker.specs.Lists.{behind_form, below_all, last_nodes, last_types, many_form, nodes_on};
ghost use Rattle.typeck_checker.specs.Stand.{Gives, KeepsStack, Stays, below, node_if_any, stack, state, top};

use crate::checker::Checker;
use mir_base::{List, NoMemory, NodeId, Pos, RuleError};
use mir_ty::{Items, NEVER, TyId, UNIT};
use std::alloc::Global;
use typeck_env::one_of_two;
use typed_tree::{Form, Node, discard_nodes, push_node};

/// A form with a list of parts.
#[derive(Clone, Copy)]
pub enum Many {
    Call(u32),
    Tuple,
    Array,
    Closure(u32),
    TuplePattern,
    ArrayPattern,
    OrPattern,
}

/// A form with one part before a list of parts.
#[derive(Clone, Copy)]
pub enum Behind {
    MethodCall(u32),
    VirtualCall { trait_no: u32, method: u32 },
    ClosureCall(u32),
    Match,
}

fn form_of_many(many: Many, given: List<Node>) -> Form
    ensures { form_of result ≡ many_form many (nodes_from (map tree_of given)) }
{
    match many {
        Many::Call(body) => Form::Call { body, args: given },
        Many::Tuple => Form::Tuple(given),
        Many::Array => Form::Array(given),
        Many::Closure(closure) => Form::Closure {
            closure,
            captures: given,
        },
        Many::TuplePattern => Form::TuplePattern(given),
        Many::ArrayPattern => Form::ArrayPattern(given),
        Many::OrPattern => Form::OrPattern(given),
    }
}

fn form_of_behind(behind: Behind, first: Box<Node, Global>, given: List<Node>) -> Form
    ensures { form_of result ≡ behind_form behind (tree_of first.value) (nodes_from (map tree_of given)) }
{
    match behind {
        Behind::MethodCall(body) => Form::MethodCall {
            body,
            receiver: first,
            args: given,
        },
        Behind::VirtualCall { trait_no, method } => Form::VirtualCall {
            trait_no,
            method,
            receiver: first,
            args: given,
        },
        Behind::ClosureCall(body) => Form::ClosureCall {
            body,
            callee: first,
            args: given,
        },
        Behind::Match => Form::Match {
            scrutinee: first,
            arms: given,
        },
    }
}

fn reverse_nodes(nodes: List<Node>) -> List<Node>
    ensures { result ≡ reverse nodes }
{
    let mut nodes = nodes.into_vec();
    nodes.reverse();
    List::from_vec(nodes)
}

fn take_one(checker: &mut Checker, taken: &mut List<Node>) -> Result<(), RuleError>
    ensures made { OnOk result (map tree_of (reverse taken.new) ≡ top (stack checker.old) ∷ map tree_of (reverse taken.old)) }
    ensures left { OnOk result (stack checker.new ≡ below (stack checker.old)) }
    ensures state { OnOk result (state checker.new ≡ state checker.old) }
    ensures place { OnOk result (Stays checker.old checker.new) }
    ensures short { IfErr result (λ e. e ≡ RuleError.Memory) }
{
    let node = checker.pop()?;
    match push_node(taken, node) {
        Ok(()) => Ok(()),
        Err(NoMemory) => Err(RuleError::Memory),
    }
}

/// The last nodes, so many, the last one first, taken off onto others.
#[tactic(auto, using(crate::proofs::LastOnes::one_taken, crate::proofs::LastOnes::one_left))]
fn take_each(checker: &mut Checker, taken: &mut List<Node>, count: usize) -> Result<(), RuleError>
    ensures made { OnOk result (nodes_from (map tree_of (reverse taken.new)) ≡
        nodes_on count (stack checker.old) (nodes_from (map tree_of (reverse taken.old)))) }
    ensures left { OnOk result (stack checker.new ≡ below_all count (stack checker.old)) }
    ensures state { OnOk result (state checker.new ≡ state checker.old) }
    ensures place { OnOk result (Stays checker.old checker.new) }
    ensures short { IfErr result (λ e. e ≡ RuleError.Memory) }
{
    for _n in 0..count {
        take_one(checker, taken)?;
    }
    Ok(())
}

/// The last nodes, so many, the first of them first, taken off.
pub fn take_nodes(checker: &mut Checker, count: usize) -> Result<List<Node>, RuleError>
    ensures taken { IfOk result (λ nodes. nodes_from (map tree_of nodes) ≡ last_nodes count (stack checker.old)) }
    ensures left { OnOk result (stack checker.new ≡ below_all count (stack checker.old)) }
    ensures state { OnOk result (state checker.new ≡ state checker.old) }
    ensures place { OnOk result (Stays checker.old checker.new) }
    ensures short { IfErr result (λ e. e ≡ RuleError.Memory) }
{
    let mut taken = checker.list_for(count)?;
    match take_each(checker, &mut taken, count) {
        Ok(()) => Ok(reverse_nodes(taken)),
        Err(error) => {
            discard_nodes(taken);
            Err(error)
        }
    }
}

/// The last nodes, so many, taken off and let go.
pub fn let_go(checker: &mut Checker, count: usize) -> Result<(), RuleError>
    ensures left { OnOk result (stack checker.new ≡ below_all count (stack checker.old)) }
    ensures state { OnOk result (state checker.new ≡ state checker.old) }
    ensures place { OnOk result (Stays checker.old checker.new) }
    ensures short { IfErr result (λ e. e ≡ RuleError.Memory) }
{
    let nodes = take_nodes(checker, count)?;
    discard_nodes(nodes);
    Ok(())
}

/// A node without a use around the last ones, so many.
pub fn wrap_many(
    checker: &mut Checker,
    id: NodeId,
    at: Pos,
    ty: TyId,
    many: Many,
    count: usize,
) -> Result<(), RuleError>
    ensures made { OnOk result (stack checker.new ≡
        a_node_of id.0 at ty (many_form many (last_nodes count (stack checker.old))) ∷ below_all count (stack checker.old)) }
    ensures state { OnOk result (state checker.new ≡ state checker.old) }
    ensures place { OnOk result (Stays checker.old checker.new) }
    ensures short { IfErr result (λ e. e ≡ RuleError.Memory) }
{
    let given = take_nodes(checker, count)?;
    checker.put(id, at, ty, form_of_many(many, given))
}

/// A node without a use around the last ones, so many, and the one before them.
pub fn wrap_behind(
    checker: &mut Checker,
    id: NodeId,
    at: Pos,
    ty: TyId,
    behind: Behind,
    count: usize,
) -> Result<(), RuleError>
    ensures made { OnOk result (stack checker.new ≡
        a_node_of id.0 at ty (behind_form behind (top (below_all count (stack checker.old))) (last_nodes count (stack checker.old)))
        ∷ below (below_all count (stack checker.old))) }
    ensures state { OnOk result (state checker.new ≡ state checker.old) }
    ensures place { OnOk result (Stays checker.old checker.new) }
    ensures short { IfErr result (λ e. e ≡ RuleError.Memory) }
{
    let given = take_nodes(checker, count)?;
    match checker.part() {
        Ok(first) => checker.put(id, at, ty, form_of_behind(behind, first, given)),
        Err(error) => {
            discard_nodes(given);
            Err(error)
        }
    }
}

#[tactic(auto, using(crate::proofs::Nodes::ty_same))]
fn ty_if_any(node: Option<&Node>) -> TyId
    ensures { result ≡ ty_of (node_if_any node.entry) }
{
    match node {
        Some(node) => node.ty,
        None => UNIT,
    }
}

/// The type of the node that was made before so many later ones.
#[tactic(auto, using(crate::proofs::LastOnes::node_at))]
fn ty_at(checker: &Checker, back: usize) -> TyId
    ensures { result ≡ ty_of (top (below_all back (stack checker.now))) }
{
    ty_if_any(checker.made_at(back))
}

fn with_one(items: &Items, ty: TyId, others: Option<TyId>) -> Option<TyId>
    ensures { result ≡ option_and_then (rows.one_of_two items.now ty) others }
{
    match others {
        Some(other) => one_of_two(items, ty, other),
        None => None,
    }
}

/// The one type of the last nodes, so many, `!` where there is none.
#[tactic(auto, using(crate::proofs::LastOnes::with_first))]
pub fn one_type_of(checker: &Checker, count: usize) -> Option<TyId>
    ensures { result ≡ rows.one_type checker.now.walk.items (last_types count (stack checker.now)) }
{
    let mut ty = Some(NEVER);
    for back in 0..count {
        ty = with_one(&checker.walk.items, ty_at(checker, back), ty);
    }
    ty
}

/// A node around the last ones, so many, fitted to the type that is required.
pub fn coerce_many(
    checker: &mut Checker,
    id: NodeId,
    at: Pos,
    ty: TyId,
    many: Many,
    count: usize,
    expected: Option<TyId>,
) -> Result<(), RuleError>
    ensures gives { Gives (rows.fitted expected (a_node_of id.0 at ty (many_form many (last_nodes count (stack checker.old)))) (state checker.old)) result checker.new }
    ensures kept { KeepsStack (below_all count (stack checker.old)) checker.old result checker.new }
{
    wrap_many(checker, id, at, ty, many, count)?;
    checker.coerce(expected)
}
