//! How a call begins, before its arguments: the types of its parameters are copied, since the arguments change the items
//! in which they stand.
ghost use Rattle.std.specs.Prelude.{◌≡◌, ◌∷◌, [], IfErr, IfOk, Option, slice_get};
ghost use Rattle.std.specs.Option.{option_map_or};
ghost use Rattle.mir_base.specs.declared.int_kind.IntKind.{IntKind};
ghost use Rattle.mir_base.specs.declared.place_in_text.Pos.{Pos};
ghost use Rattle.mir_base.specs.declared.rule.RuleError.{RuleError};
ghost use Rattle.mir_ty.specs.declared.ty.TyId.{TyId};
ghost use Rattle.typeck_calls.specs.Callees.{callee_seen};
ghost use Rattle.typeck_calls.specs.Endings.{resolved_end};
ghost use Rattle.typeck_calls.specs.Calls.{GivesCall};
ghost use Rattle.typeck_checker.specs.Stand.{GivesValue, ChangesNothing, state};
ghost use Rattle.typed_tree.specs.Tree as tree;
ghost use Rattle.typing_rules.specs.Check.{Check, number};
ghost use Rattle.typing_rules.specs.Named as named;
ghost use Rattle.typing_rules.specs.Places as places;
ghost use Rattle.typing_rules.specs.Rows as rows;
ghost use Rattle.typing_rules.specs.Typed as typed;
ghost use Rattle.mir_ty.specs.DropBodies.{is_drop_body};
ghost use Rattle.well_typed.specs.Types as types;

use crate::callees::Callee;
use crate::{copy_types, variant_types};
use mir_base::{List, NodeId, Pos, Rule, RuleError};
use mir_ty::{I32, Items, Ty, TyId};
use std::alloc::Global;
use typeck_checker::Checker;
use typeck_env::{boxed_of, is_dyn};
use typeck_heads::{broken_rule, push_to};

/// How a call ends behind its arguments.
#[derive(Clone, Copy)]
pub enum CallEnding {
    /// A call of a body, which answers this type.
    Function {
        body: u32,
        answer: TyId,
        is_drop: bool,
    },
    /// A value of a struct or a variant, of this type.
    Make {
        adt: u32,
        variant: u32,
        ty: TyId,
    },
    Print,
    Ask,
    DropValue,
    Forget,
    /// `Box::new`, with the type that is required of its content.
    NewBox(Option<TyId>),
    /// It cannot be called.
    Refused,
}

/// A call that waits for its arguments.
#[derive(Drop)]
pub struct ResolvedCall {
    /// The number of its node.
    pub id: NodeId,
    /// The types of its parameters, as far as one is required of an argument.
    pub params: List<TyId>,
    pub ending: CallEnding,
}

fn start_call(
    checker: &mut Checker,
    params: List<TyId>,
    ending: CallEnding,
) -> Result<ResolvedCall, RuleError>
    ensures number { GivesValue (λ b. b.id.0) (number (state checker.old)) result checker.new }
    ensures params { IfOk result (λ b. b.params ≡ params) }
    ensures ending { IfOk result (λ b. b.ending ≡ ending) }
    ensures same { ChangesNothing checker.old checker.new }
{
    let id = checker.number()?;
    Ok(ResolvedCall { id, params, ending })
}

/// A call that is refused behind its arguments.
fn refused_call(checker: &Checker) -> ResolvedCall
    ensures params { result.params ≡ [] }
    ensures ending { result.ending ≡ CallEnding.Refused }
{
    ResolvedCall {
        id: NodeId(0),
        params: List::new(checker.alloc),
        ending: CallEnding::Refused,
    }
}

/// Whether a body is that of a `Drop` impl.
fn is_drop(checker: &Checker, body: u32) -> bool
    ensures { result ≡ is_drop_body checker.now.walk.items body }
{
    checker.tables.drop_bodies.contains(&body)
}

fn function(checker: &mut Checker, body: u32) -> Result<ResolvedCall, RuleError>
    ensures gives { (at : Pos) (expected : Option TyId) (value : Check tree.Node) →
        GivesCall (λ count args. typed.called_by at count value args (named.function_by checker.old.walk.items body (slice_get checker.old.walk.items.bodies body)) expected) (state checker.old) (λ b. b.params) (resolved_end at expected) result checker.new }
    ensures same { ChangesNothing checker.old checker.new }
{
    match checker.walk.items.body_sig(body) {
        Some(sig) => {
            let params = copy_types(checker.alloc, sig.params.as_slice())?;
            let answer = sig.result;
            let is_drop = is_drop(checker, body);
            let ending = CallEnding::Function {
                body,
                answer,
                is_drop,
            };
            start_call(checker, params, ending)
        }
        None => Ok(refused_call(checker)),
    }
}

fn constructor(checker: &mut Checker, adt: u32, variant: u32) -> Result<ResolvedCall, RuleError>
    ensures gives { (at : Pos) (expected : Option TyId) (value : Check tree.Node) →
        GivesCall (λ count args. typed.called_by at count value args (named.Constructor adt variant (option_map_or (λ v. v.fields) (types.variant_at checker.old.walk.items adt variant) [])) expected) (state checker.old) (λ b. b.params) (resolved_end at expected) result checker.new }
    ensures same { ChangesNothing checker.old checker.new }
{
    let params = variant_types(checker, adt, variant)?;
    let ty = checker.intern(Ty::Adt(adt))?;
    start_call(checker, params, CallEnding::Make { adt, variant, ty })
}

/// The types of parameters, of which there is one or none.
fn list_of_one(alloc: Global, ty: Option<TyId>) -> Result<List<TyId>, RuleError>
    ensures list { IfOk result (λ types. types ≡ rows.listed ty) }
    ensures short { IfErr result (λ e. e ≡ RuleError.Memory) }
{
    let mut types = List::new(alloc);
    if let Some(ty) = ty {
        push_to(&mut types, ty)?;
    }
    Ok(types)
}

fn built_in(
    checker: &mut Checker,
    ending: CallEnding,
    param: Option<TyId>,
) -> Result<ResolvedCall, RuleError>
    ensures number { GivesValue (λ b. b.id.0) (number (state checker.old)) result checker.new }
    ensures params { IfOk result (λ b. b.params ≡ rows.listed param) }
    ensures ending { IfOk result (λ b. b.ending ≡ ending) }
    ensures same { ChangesNothing checker.old checker.new }
{
    let params = list_of_one(checker.alloc, param)?;
    start_call(checker, params, ending)
}

fn inside_wanted(items: &Items, ty: TyId) -> Option<TyId>
    ensures { result ≡ rows.box_wanted items.now ty }
{
    match boxed_of(items, ty) {
        Some(inside) => {
            if is_dyn(items, inside) {
                None
            } else {
                Some(inside)
            }
        }
        None => None,
    }
}

/// The type that is required of the content of a box.
fn content_wanted(items: &Items, expected: Option<TyId>) -> Option<TyId>
    ensures { result ≡ places.wanted rows.box_wanted items.now expected }
{
    match expected {
        Some(expected) => inside_wanted(items, expected),
        None => None,
    }
}

fn new_box(checker: &mut Checker, expected: Option<TyId>) -> Result<ResolvedCall, RuleError>
    ensures gives { (at : Pos) → GivesCall (λ count args. rows.new_box at count args expected) (state checker.old) (λ b. b.params) (resolved_end at expected) result checker.new }
    ensures same { ChangesNothing checker.old checker.new }
{
    let content = content_wanted(&checker.walk.items, expected);
    built_in(checker, CallEnding::NewBox(content), content)
}

/// How a call begins, before its arguments. A value that is called begins by [`crate::closure_callee`], and is answered
/// here as want of memory.
pub fn begin(
    checker: &mut Checker,
    at: Pos,
    callee: Callee,
    expected: Option<TyId>,
) -> Result<ResolvedCall, RuleError>
    ensures gives { (value : Check tree.Node) → GivesCall (λ count args. typed.called_by at count value args (callee_seen checker.old.walk.items callee) expected) (state checker.old) (λ b. b.params) (resolved_end at expected) result checker.new }
    ensures same { ChangesNothing checker.old checker.new }
{
    match callee {
        Callee::Function(body) => function(checker, body),
        Callee::Constructor { adt, variant } => constructor(checker, adt, variant),
        Callee::Prints => built_in(checker, CallEnding::Print, Some(I32)),
        Callee::Asks => built_in(checker, CallEnding::Ask, None),
        Callee::Drops => built_in(checker, CallEnding::DropValue, None),
        Callee::Forgets => built_in(checker, CallEnding::Forget, None),
        Callee::Boxes => new_box(checker, expected),
        Callee::Unnamed(rule) => Err(broken_rule(rule, at)),
        Callee::NoCallee => Ok(refused_call(checker)),
        Callee::Value => Err(RuleError::cannot_be()),
    }
}
