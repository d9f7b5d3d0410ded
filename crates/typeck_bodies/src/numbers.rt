//! Numbers of bodies and of closures.
ghost use Rattle.std.specs.Prelude.{◌≡◌, true};
ghost use Rattle.mir_ty.specs.AreItems.{AreTypes};
ghost use Rattle.typeck_env.specs.Walked.{Gives, HasOnlyTypes, state_of};
ghost use Rattle.typeck_checker.specs.Stand.{GivesValue, ChangesNothing, state};
ghost use Rattle.typing_rules.specs.Check as steps;

use mir_base::{List, NoMemory, RuleError};
use mir_ty::{ClosureDef, Items, TyId};
use typeck_checker::Checker;
use typeck_env::Walk;

/// The next number of a body.
///
/// # Errors
///
/// [`RuleError::Memory`] alone, where there are 2^32 bodies.
pub fn body_number(checker: &mut Checker) -> Result<u32, RuleError>
    ensures gives { GivesValue (λ n. n) (steps.body_number (state checker.old)) result checker.new }
    ensures same { ChangesNothing checker.old checker.new }
{
    let Some(next) = checker.walk.next_body.checked_add(1) else {
        return Err(RuleError::past_32_bits());
    };
    let number = checker.walk.next_body;
    checker.walk.next_body = next;
    Ok(number)
}

fn are_known(items: &Items, ids: &[TyId]) -> bool
    ensures { result ≡ true → AreTypes items.now.types ids.now }
{
    ids.iter().all(|id| items.ty(*id).is_some())
}

fn add_closure(walk: &mut Walk, captures: List<TyId>, body: u32) -> Result<u32, RuleError>
    requires { AreTypes walk.old.items.types captures }
    ensures gives { Gives (λ k. k) (steps.closure_added captures body (state_of walk.old)) result walk.new }
    ensures made { walk.new.made ≡ walk.old.made }
    ensures items { HasOnlyTypes walk.old.items walk.new.items }
{
    match walk.items.add_closure(ClosureDef { captures, body }) {
        Ok(number) => Ok(number),
        Err(NoMemory) => Err(RuleError::Memory),
    }
}

/// A closure is added to the items, with captures of these types and this body; answers its number. The tables of names
/// stay those of the items.
///
/// # Errors
///
/// [`RuleError::Memory`] alone, where memory is wanted, or a type is none of the items.
pub fn closure_added(
    checker: &mut Checker,
    captures: List<TyId>,
    body: u32,
) -> Result<u32, RuleError>
    ensures gives { GivesValue (λ k. k) (steps.closure_added captures body (state checker.old)) result checker.new }
    ensures same { ChangesNothing checker.old checker.new }
{
    if !are_known(&checker.walk.items, captures.as_slice()) {
        return Err(RuleError::cannot_be());
    }
    add_closure(&mut checker.walk, captures, body)
}
