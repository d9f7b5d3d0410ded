//! Methods of a value by their names.
ghost use Rattle.std.specs.Prelude.{◌≡◌, IfErr, IfOk, option_and_then, option_copied, option_map, slice_get};
ghost use Rattle.mir_base.specs.declared.rule.RuleError.{RuleError};
ghost use Rattle.typeck_calls.specs.Methods.{GivesMethod, IsMethod, is_drop_of, method_seen};
ghost use Rattle.typeck_checker.specs.Stand.{KeepsStack, below, stack, state, top};
ghost use Rattle.typing_rules.specs.Named as named;
ghost use Rattle.typing_rules.specs.Places as places;
ghost use Rattle.typing_rules.specs.Rows as rows;
ghost use Rattle.typing_rules.specs.Scope as scope;

use crate::autoderef::{go_inside, most_steps};
use mir_base::{Pos, RuleError};
use mir_ty::{Items, Sig, Ty, TyId};
use typeck_checker::{Checker, method_of};
use typeck_env::inside_of;

/// A method of a struct or an enum by its body, or of a trait object by its trait and number.
#[derive(Clone, Copy)]
pub enum Method {
    OfAdt(u32),
    OfTrait { trait_no: u32, method: u32 },
}

/// The head of a method.
pub fn head(items: &Items, method: Method) -> Option<&Sig>
    ensures { option_copied result ≡ option_map rows.head_of (method_seen items.now method) }
{
    match method {
        Method::OfAdt(body) => items.body_sig(body),
        Method::OfTrait { trait_no, method } => match items.trait_def(trait_no) {
            Some(def) => def.methods.get(method as usize),
            None => None,
        },
    }
}

/// A method that has a head.
#[tactic(auto, using(crate::proofs::Heads::with_head, crate::proofs::Heads::without_head))]
fn with_head(items: &Items, method: Method) -> Option<Method>
    ensures { IsMethod items.now result (method_seen items.now method) }
{
    match head(items, method) {
        Some(_) => Some(method),
        None => None,
    }
}

fn adt_method(checker: &Checker, adt: u32, name: &str) -> Result<Option<Method>, RuleError>
    ensures found { IfOk result (λ method. IsMethod checker.now.walk.items method
        (option_and_then (λ body. named.with_head checker.now.walk.items body (slice_get checker.now.walk.items.bodies body)) (scope.method_of checker.now.walk.items adt name.now))) }
    ensures short { IfErr result (λ e. e ≡ RuleError.Memory) }
{
    match method_of(checker, adt, name)? {
        Some(body) => Ok(with_head(&checker.walk.items, Method::OfAdt(body))),
        None => Ok(None),
    }
}

#[tactic(auto, using(crate::proofs::Heads::trait_some, crate::proofs::Heads::trait_none, crate::proofs::Heads::trait_nothing))]
fn trait_method(checker: &Checker, trait_no: u32, name: &str) -> Option<Method>
    ensures { IsMethod checker.now.walk.items result (named.trait_method trait_no name.now (slice_get checker.now.walk.items.traits trait_no)) }
{
    match checker.tables.methods.get(trait_no as usize) {
        Some(names) => match names.find(name) {
            Some(method) => with_head(&checker.walk.items, Method::OfTrait { trait_no, method }),
            None => None,
        },
        None => None,
    }
}

/// The method of a type with a name.
fn method_named(checker: &Checker, ty: TyId, name: &str) -> Result<Option<Method>, RuleError>
    ensures found { IfOk result (λ method. IsMethod checker.now.walk.items method (named.method_named name.now checker.now.walk.items ty)) }
    ensures short { IfErr result (λ e. e ≡ RuleError.Memory) }
{
    match checker.walk.items.ty(ty) {
        Some(Ty::Adt(adt)) => adt_method(checker, *adt, name),
        Some(Ty::Dyn(trait_no)) => Ok(trait_method(checker, *trait_no, name)),
        _ => Ok(None),
    }
}

/// The last node through boxes and references, up to the first type that has a method of this name.
pub fn through(checker: &mut Checker, at: Pos, name: &str) -> Result<Option<Method>, RuleError>
    ensures gives { GivesMethod (places.through (named.method_named name.now) at (top (stack checker.old)) (state checker.old)) result checker.new }
    ensures kept { KeepsStack (below (stack checker.old)) checker.old result checker.new }
{
    let count = most_steps(checker);
    for _step in 0..count {
        let ty = checker.last_ty();
        let found = method_named(checker, ty, name)?;
        if found.is_some() {
            return Ok(found);
        }
        match inside_of(&checker.walk.items, ty) {
            Some(inside) => go_inside(checker, at, inside)?,
            None => return Ok(None),
        }
    }
    Err(RuleError::cannot_be())
}

/// Whether it is the body of a `Drop` impl, which is not called by its name.
pub fn is_drop(checker: &Checker, method: Method) -> bool
    ensures { result ≡ is_drop_of checker.now.walk.items method }
{
    match method {
        Method::OfAdt(body) => checker.tables.drop_bodies.contains(&body),
        Method::OfTrait { .. } => false,
    }
}
