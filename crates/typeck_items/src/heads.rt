//! The heads of functions and methods: what is asked of parameters and of the result by themselves. The patterns of the
//! parameters are nodes of no body here; the body of the function looks at them again.
ghost use Rattle.std.specs.Prelude.{◌≡◌, [], map, OnOk};
ghost use Rattle.src_ast.specs.Seen.{maybe_of, nodes_of};
ghost use Rattle.typeck_env.specs.Walked.{break_of};
ghost use Rattle.typeck_checker.specs.Stand.{GivesValue, ChangesNothing, env, state};
ghost use Rattle.typing_rules.specs.Bodies as bodies;
ghost use Rattle.typing_rules.specs.Check.{in_new_body};
ghost use Rattle.typing_rules.specs.Program as rules;
ghost use Rattle.typing_rules.specs.Written.{written_param};
ghost use Rattle.typeck_items.specs.Forms.{done, fresh, with_outside};

use mir_base::{List, RuleError};
use src_ast::Nodes;
use src_tree::SyntaxNode;
use std::mem;
use typeck_bodies::params_of;
use typeck_checker::{Checker, answer_of, let_go};
use typeck_env::{BreakOut, Variables};

/// What is put aside of a walk while a head is gone over: the next number of a node, and the breaks so far.
#[derive(Drop)]
struct Outside {
    next_node: u32,
    breaks: List<BreakOut>,
}

fn begin_head(checker: &mut Checker) -> Outside
    ensures state { state checker.new ≡ fresh (state checker.old) }
    ensures number { result.next_node ≡ (state checker.old).next_node }
    ensures breaks { map break_of result.breaks ≡ (state checker.old).breaks }
    ensures same { ChangesNothing checker.old checker.new }
{
    let alloc = checker.alloc;
    Outside {
        next_node: mem::replace(&mut checker.walk.next_node, 0),
        breaks: mem::replace(&mut checker.walk.breaks, List::new(alloc)),
    }
}

fn end_head(checker: &mut Checker, outside: Outside)
    ensures state { state checker.new ≡ with_outside outside.next_node (map break_of outside.breaks) (state checker.old) }
    ensures same { ChangesNothing checker.old checker.new }
{
    let Outside { next_node, breaks } = outside;
    checker.walk.next_node = next_node;
    checker.walk.breaks = breaks;
}

/// Parameters, whose patterns are not kept.
fn params_alone(checker: &mut Checker, params: Nodes) -> Result<(), RuleError>
    ensures gives { GivesValue (λ u. u) (done (bodies.params_of (env checker.old) (written_param (bodies.all_rules (env checker.old))) (nodes_of params.entry) []) (state checker.old)) result checker.new }
    ensures same { OnOk result (ChangesNothing checker.old checker.new) }
{
    let mut bound = Variables::new(checker.alloc);
    let tys = params_of(checker, &mut bound, true, params)?;
    let_go(checker, tys.len())
}

/// The parameters of a head.
fn head_params(checker: &mut Checker, params: Nodes) -> Result<(), RuleError>
    ensures gives { GivesValue (λ u. u) (done (in_new_body (bodies.params_of (env checker.old) (written_param (bodies.all_rules (env checker.old))) (nodes_of params.entry) [])) (state checker.old)) result checker.new }
    ensures same { OnOk result (ChangesNothing checker.old checker.new) }
{
    let outside = begin_head(checker);
    params_alone(checker, params)?;
    end_head(checker, outside);
    Ok(())
}

/// The head of a function or a method: its parameters, and the type of its result.
///
/// # Errors
///
/// The first rule that one of them breaks, with its place; [`RuleError::Memory`] where memory is wanted.
pub fn head_rules(
    checker: &mut Checker,
    params: Nodes,
    answer: Option<&SyntaxNode>,
) -> Result<(), RuleError>
    ensures gives { GivesValue (λ u. u) (rules.head_rules (env checker.old) (nodes_of params.entry) (maybe_of answer.entry) (state checker.old)) result checker.new }
    ensures same { OnOk result (ChangesNothing checker.old checker.new) }
{
    head_params(checker, params)?;
    answer_of(checker, answer)?;
    Ok(())
}
