//! What is put aside of the body around another, and put back behind it.
ghost use Rattle.std.specs.Prelude.{◌≡◌, ◌++◌, ◌∷◌, [], IfErr, IfOk, OnOk, map};
ghost use Rattle.mir_base.specs.declared.rule.RuleError.{RuleError};
ghost use Rattle.typed_tree.specs.View.{body_of};
ghost use Rattle.typeck_checker.specs.Stand.{ChangesNothing, state};
ghost use Rattle.typeck_bodies.specs.Around.{behind_body, in_body, with_outer};

use mir_base::{List, RuleError};
use std::alloc::Global;
use std::mem;
use typeck_checker::Checker;
use typeck_env::BreakOut;
use typeck_heads::push_to;
use typed_tree::TBody;

/// What is put aside of a walk while another body is gone over: the next number of a node, the breaks so far, and the
/// bodies that are whole.
pub struct Outer {
    pub next_node: u32,
    pub breaks: List<BreakOut>,
    pub bodies: List<TBody>,
}

/// As a derived one; but written here, it is proved here, and not again in each crate in which such a value ends.
impl Drop for Outer {
    fn drop(self) {
        let Outer {
            next_node: _,
            breaks,
            bodies,
        } = self;
        drop(breaks);
        drop(bodies);
    }
}

impl Outer {
    fn into_parts(self) -> (u32, List<BreakOut>, List<TBody>)
        ensures { result ≡ (self.next_node, self.breaks, self.bodies) }
    {
        let Outer {
            next_node,
            breaks,
            bodies,
        } = self;
        (next_node, breaks, bodies)
    }
}

/// A body of its own begins: its nodes are numbered from 0, and no `break` of the body around is one of its own.
pub fn begin_body(checker: &mut Checker) -> Outer
    ensures state { state checker.new ≡ in_body (state checker.old) }
    ensures outer { with_outer result (state checker.new) ≡ state checker.old }
    ensures same { ChangesNothing checker.old checker.new }
{
    let alloc = checker.alloc;
    Outer {
        next_node: mem::replace(&mut checker.walk.next_node, 0),
        breaks: mem::replace(&mut checker.walk.breaks, List::new(alloc)),
        bodies: mem::replace(&mut checker.walk.bodies, List::new(alloc)),
    }
}

/// A body, and then others, behind those before it.
fn join_bodies(
    earlier: List<TBody>,
    body: TBody,
    inner: List<TBody>,
) -> Result<List<TBody>, RuleError>
    ensures joined { IfOk result (λ all. map body_of all ≡ map body_of earlier ++ body_of body ∷ map body_of inner) }
    ensures short { IfErr result (λ e. e ≡ RuleError.Memory) }
{
    let mut all = earlier;
    push_to(&mut all, body)?;
    let mut all = all.into_vec();
    let mut inner = inner.into_vec();
    match all.append(&mut inner) {
        Ok(()) => Ok(List::from_vec(all)),
        Err(_) => Err(RuleError::Memory),
    }
}

/// A body ends: it stands behind those that were whole before it, and before those of the closures in it. The walk goes
/// on in the body around it.
///
/// # Errors
///
/// [`RuleError::Memory`] alone, where memory is wanted.
pub fn end_body(checker: &mut Checker, outer: Outer, body: TBody) -> Result<(), RuleError>
    ensures state { OnOk result (state checker.new ≡ behind_body outer (body_of body) (state checker.old)) }
    ensures same { OnOk result (ChangesNothing checker.old checker.new) }
    ensures short { IfErr result (λ e. e ≡ RuleError.Memory) }
{
    let (next_node, breaks, bodies) = outer.into_parts();
    let inner = mem::replace(&mut checker.walk.bodies, List::new(checker.alloc));
    checker.walk.next_node = next_node;
    checker.walk.breaks = breaks;
    checker.walk.bodies = join_bodies(bodies, body, inner)?;
    Ok(())
}
