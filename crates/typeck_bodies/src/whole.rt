//! A body of the nodes that were made last.
ghost use Rattle.std.specs.Prelude.{◌≡◌, ◌++◌, length, map, IfErr, IfOk, OnOk};
ghost use Rattle.mir_base.specs.declared.rule.RuleError.{RuleError};
ghost use Rattle.typeck_checker.specs.Lists.{below_all};
ghost use Rattle.typeck_checker.specs.Stand.{GivesValue, Stays, below, stack, state};
ghost use Rattle.typed_tree.specs.Nodes.{numbers_of};
ghost use Rattle.typed_tree.specs.View.{body_of, nodes_from, param_tree, tree_of};
ghost use Rattle.typing_rules.specs.Check.{TypingState};
ghost use Rattle.typing_rules.specs.Numbered.{in_text_order};
ghost use Rattle.typeck_bodies.specs.Whole.{IsWithin, body_on, one_param, params_from, plain_body_on};

use crate::number_in_text_order;
use mir_base::limits::MAX_BODY_NODES;
use mir_base::{List, Pos, Rule, RuleError};
use mir_ty::TyId;
use std::alloc::Global;
use typeck_checker::{Checker, take_nodes};
use typeck_heads::{broken_rule, push_to};
use typed_tree::{Node, Param, TBody, all_nodes};

/// A pattern as one more parameter, where it has a type.
fn add_param(params: &mut List<Param>, pattern: Node, ty: Option<TyId>) -> Result<(), RuleError>
    ensures added { OnOk result (map param_tree params.new ≡ map param_tree params.old ++ one_param (tree_of pattern) ty) }
    ensures short { IfErr result (λ e. e ≡ RuleError.Memory) }
{
    match ty {
        Some(ty) => push_to(params, Param { pattern, ty }),
        None => {
            drop(pattern);
            Ok(())
        }
    }
}

/// Patterns as parameters, each with its type.
fn params(alloc: Global, patterns: List<Node>, tys: &List<TyId>) -> Result<List<Param>, RuleError>
    ensures params { IfOk result (λ params. map param_tree params ≡ params_from (nodes_from (map tree_of patterns)) tys.now) }
    ensures short { IfErr result (λ e. e ≡ RuleError.Memory) }
{
    let mut params = List::new(alloc);
    let mut k = 0;
    for pattern in patterns {
        add_param(&mut params, pattern, tys.get(k).copied())?;
        k += 1;
    }
    Ok(params)
}

/// A body whose nodes are numbered in text order.
fn number_nodes(alloc: Global, body: TBody) -> Result<TBody, RuleError>
    ensures ordered { IfOk result (λ made. body_of made ≡ in_text_order (body_of body)) }
    ensures short { IfErr result (λ e. e ≡ RuleError.Memory) }
{
    let mut body = body;
    match number_in_text_order(alloc, &mut body) {
        Ok(()) => Ok(body),
        Err(_) => {
            drop(body);
            Err(RuleError::Memory)
        }
    }
}

fn count_of(alloc: Global, body: &TBody) -> Result<usize, RuleError>
    ensures count { IfOk result (λ count. count ≡ length (numbers_of (body_of body.now))) }
    ensures short { IfErr result (λ e. e ≡ RuleError.Memory) }
{
    match all_nodes(alloc, body) {
        Ok(nodes) => Ok(nodes.len()),
        Err(_) => Err(RuleError::Memory),
    }
}

/// A body of at most 2,048 nodes, which has so many.
fn of_count(too_many: Rule, at: Pos, body: TBody, count: usize) -> Result<TBody, RuleError>
    requires { count ≡ length (numbers_of (body_of body)) }
    ensures { (s : TypingState) → IsWithin too_many at (body_of body) s result }
{
    if count > MAX_BODY_NODES {
        drop(body);
        Err(broken_rule(too_many, at))
    } else {
        Ok(body)
    }
}

/// A body of at most 2,048 nodes.
fn check_node_limit(alloc: Global, too_many: Rule, at: Pos, body: TBody) -> Result<TBody, RuleError>
    ensures { (s : TypingState) → IsWithin too_many at (body_of body) s result }
{
    match count_of(alloc, &body) {
        Ok(count) => of_count(too_many, at, body, count),
        Err(_) => {
            drop(body);
            Err(RuleError::Memory)
        }
    }
}

fn body_of_parts(number: u32, params: List<Param>, answer: TyId, block: Box<Node, Global>) -> TBody
    ensures { body_of result ≡ record { number = number; params = map param_tree params; answer = answer; block = tree_of block.value } }
{
    TBody {
        number,
        params,
        result: answer,
        block: Box::into_inner(block),
    }
}

/// The last node as the block of a body, and the nodes before it as the patterns of its parameters, taken off.
fn take_block_and_params(
    checker: &mut Checker,
    number: u32,
    tys: &List<TyId>,
    answer: TyId,
) -> Result<TBody, RuleError>
    ensures made { IfOk result (λ body. body_of body ≡ plain_body_on number tys.now answer (stack checker.old)) }
    ensures left { OnOk result (stack checker.new ≡ below_all (length tys.now) (below (stack checker.old))) }
    ensures state { OnOk result (state checker.new ≡ state checker.old) }
    ensures place { OnOk result (Stays checker.old checker.new) }
    ensures short { IfErr result (λ e. e ≡ RuleError.Memory) }
{
    let block = checker.part()?;
    let patterns = take_nodes(checker, tys.len())?;
    let params = params(checker.alloc, patterns, tys)?;
    Ok(body_of_parts(number, params, answer, block))
}

/// The body whose block is the last node, behind the patterns of its parameters, which have these types. They are taken
/// off, and the nodes of the body numbered in text order.
///
/// # Errors
///
/// The rule `too_many` at the place of the body where it has more than 2,048 nodes; [`RuleError::Memory`] where memory is
/// wanted.
pub fn take_body(
    checker: &mut Checker,
    too_many: Rule,
    at: Pos,
    number: u32,
    tys: &List<TyId>,
    answer: TyId,
) -> Result<TBody, RuleError>
    ensures gives { GivesValue body_of (body_on too_many at number tys.now answer (stack checker.old) (state checker.old)) result checker.new }
    ensures left { OnOk result (stack checker.new ≡ below_all (length tys.now) (below (stack checker.old))) }
    ensures place { OnOk result (Stays checker.old checker.new) }
{
    let body = take_block_and_params(checker, number, tys, answer)?;
    let body = number_nodes(checker.alloc, body)?;
    check_node_limit(checker.alloc, too_many, at, body)
}
