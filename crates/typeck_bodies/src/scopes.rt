//! What is put aside where a body begins, and the scope of its block.
ghost use Rattle.std.specs.Prelude.{◌≡◌, reverse};
ghost use Rattle.typeck_bodies.specs.Around.{in_body, with_outer};
ghost use Rattle.typeck_bodies.specs.ParamAnswers.{last_params};
ghost use Rattle.src_ast.specs.Seen.{maybe_of};
ghost use Rattle.typeck_checker.specs.Stand.{env, env_in, stack, state};
ghost use Rattle.typeck_bodies.specs.Aside.{alone, with_loops};
ghost use Rattle.typeck_bodies.specs.Heads.{GivesBlock, KeepsBlock, answered};

use crate::saved_scope::{begin_block, put_aside};
use crate::{Outer, begin_body};
use mir_base::{List, Pos, Rule, RuleError};
use mir_ty::TyId;
use src_tree::SyntaxNode;
use typeck_checker::{BodyScope, Checker, answer_of};
use typeck_env::Variables;
use typeck_patterns::enter_bound;

/// What is put aside of the body around another: of the walk, and where it stands.
#[derive(Drop)]
pub struct BegunBody {
    pub outer: Outer,
    pub aside: BodyScope,
}

/// A body whose block is to be checked next: the patterns of its parameters are the last nodes.
#[derive(Drop)]
pub struct BodyHead {
    /// The rule that more than 2,048 nodes break.
    pub too_many: Rule,
    pub at: Pos,
    pub number: u32,
    /// The types of its parameters.
    pub params: List<TyId>,
    /// The type of its result.
    pub answer: TyId,
    /// What is put aside of the walk while this body is gone over.
    pub outer: Outer,
    /// Where the body around stands.
    pub aside: BodyScope,
}

/// A body of its own begins, without the variables around.
pub fn begin(checker: &mut Checker) -> BegunBody
    ensures state { state checker.new ≡ in_body (state checker.old) }
    ensures outer { with_outer result.outer (state checker.new) ≡ state checker.old }
    ensures alone { env checker.new ≡ alone (env checker.old) }
    ensures aside { with_loops (env checker.old).loops (env_in checker.old.tables result.aside) ≡ env checker.old }
    ensures stack { stack checker.new ≡ stack checker.old }
    ensures tables { checker.new.tables ≡ checker.old.tables }
{
    let outer = begin_body(checker);
    let aside = put_aside(checker);
    BegunBody { outer, aside }
}

/// The type of a body's result, and the scope of its block, in which its parameters are.
pub fn block_scope(
    checker: &mut Checker,
    begun: BegunBody,
    too_many: Rule,
    at: Pos,
    number: u32,
    params: List<TyId>,
    bound: &Variables,
    answer: Option<&SyntaxNode>,
) -> Result<BodyHead, RuleError>
    ensures gives { GivesBlock (answered too_many at number (last_params params (stack checker.old)) (env checker.old) (maybe_of answer.entry) (reverse bound.now)) (state checker.old) result checker.new }
    ensures kept { KeepsBlock begun params checker.old result checker.new }
{
    let ty = answer_of(checker, answer)?;
    let around = begin_block(checker, begun.aside, ty);
    enter_bound(checker, bound)?;
    Ok(BodyHead {
        too_many,
        at,
        number,
        params,
        answer: ty,
        outer: begun.outer,
        aside: around,
    })
}
