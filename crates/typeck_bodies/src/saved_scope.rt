//! Where the body around stands, put aside while another body is gone over.
ghost use Rattle.std.specs.Prelude.{◌≡◌, []};
ghost use Rattle.typeck_checker.specs.Scopes.{OnlyPlace};
ghost use Rattle.typeck_checker.specs.Stand.{env, env_in};
ghost use Rattle.typeck_bodies.specs.Aside.{IsAlone, IsAside, IsBlock, alone, in_block, with_loops};
ghost use Rattle.typeck_checker.specs.declared.tables.Tables.{Tables};

use mir_base::List;
use mir_ty::TyId;
use std::alloc::Global;
use std::mem;
use typeck_checker::{BodyScope, Checker};
use typeck_env::{LoopAround, Variables};

fn without_variables(alloc: Global, self_adt: Option<u32>, answer: TyId) -> BodyScope
    ensures self_adt { result.self_adt ≡ self_adt }
    ensures variables { result.variables ≡ [] }
    ensures answer { result.answer ≡ answer }
{
    BodyScope {
        self_adt,
        variables: Variables::new(alloc),
        loops: List::new(alloc),
        guards: List::new(alloc),
        answer,
    }
}

/// The same place without variables; the one with them is answered, without its loops.
fn put_variables_aside(around: &mut BodyScope, alloc: Global) -> BodyScope
    ensures alone { IsAlone around.old around.new }
    ensures aside { IsAside around.old result }
{
    let own = without_variables(alloc, around.self_adt, around.answer);
    let mut aside = mem::replace(around, own);
    around.loops = mem::replace(&mut aside.loops, List::new(alloc));
    aside
}

/// The variables around a body are put aside: inside it none of them is in scope. The loops around stay, until its block
/// begins.
#[tactic(auto, using(crate::proofs::ParamPlaces::alone_is, crate::proofs::ParamPlaces::aside_is))]
pub fn put_aside(checker: &mut Checker) -> BodyScope
    ensures alone { env checker.new ≡ alone (env checker.old) }
    ensures aside { with_loops (env checker.old).loops (env_in checker.old.tables result) ≡ env checker.old }
    ensures others { OnlyPlace checker.old checker.new }
{
    put_variables_aside(&mut checker.around, checker.alloc)
}

fn put_loops_aside(around: &mut BodyScope, alloc: Global, answer: TyId) -> List<LoopAround>
    ensures block { IsBlock answer around.old around.new }
    ensures loops { result ≡ around.old.loops }
{
    around.answer = answer;
    mem::replace(&mut around.loops, List::new(alloc))
}

fn with_own_loops(aside: BodyScope, loops: List<LoopAround>) -> BodyScope
    ensures others { IsAside aside result }
    ensures loops { result.loops ≡ loops }
{
    let mut aside = aside;
    aside.loops = loops;
    aside
}

/// The block of a body begins: no loop is around it, and its result has this type. The loops around stand with what was
/// put aside.
#[tactic(auto, using(crate::proofs::ParamPlaces::block_is, crate::proofs::ParamPlaces::loops_are))]
pub fn begin_block(checker: &mut Checker, aside: BodyScope, answer: TyId) -> BodyScope
    ensures block { env checker.new ≡ in_block answer (env checker.old) }
    ensures aside { env_in checker.old.tables result ≡ with_loops (env checker.old).loops (env_in checker.old.tables aside) }
    ensures others { OnlyPlace checker.old checker.new }
{
    let loops = put_loops_aside(&mut checker.around, checker.alloc, answer);
    with_own_loops(aside, loops)
}

/// The walk stands again where it stood.
pub fn put_back(checker: &mut Checker, aside: BodyScope)
    ensures place { env checker.new ≡ env_in checker.old.tables aside }
    ensures others { OnlyPlace checker.old checker.new }
{
    checker.around = aside;
}
