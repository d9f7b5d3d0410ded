//! Parameters that are one name, `self` among them (The Rust Reference, "Functions", "Methods").
ghost use Rattle.std.specs.Prelude.{◌≡◌, ◌∷◌, reverse, IfErr, OnOk};
ghost use Rattle.mir_base.specs.declared.rule.RuleError.{RuleError};
ghost use Rattle.src_ast.specs.PartForms.{receiver_seen};
ghost use Rattle.src_ast.specs.View.{self_name};
ghost use Rattle.typeck_checker.specs.Stand.{GivesValue, KeepsStack, ChangesNothing, Stays, env, stack, state};
ghost use Rattle.typed_tree.specs.Tree as tree;
ghost use Rattle.typing_rules.specs.Bodies as bodies;
ghost use Rattle.typing_rules.specs.Places.{a_node_of, used};
ghost use Rattle.typing_rules.specs.Rows as rows;
ghost use Rattle.typeck_bodies.specs.ParamAnswers.{GivesNamed, GivesParam};
ghost use Rattle.typing_rules.specs.Bodies.{receiver_end, self_param, self_param_end};

use mir_base::{Key, Name, NoMemory, NodeId, Pos, Rule, RuleError};
use mir_ty::{Ty, TyId};
use src_ast::Receiver;
use typeck_checker::{Checker, adt_at_head};
use typeck_env::{Variable, VariableMeaning, Variables, taking};
use typeck_heads::broken_rule;
use typed_tree::Form;

/// The pattern of a parameter that is one name.
fn put_name(
    checker: &mut Checker,
    id: NodeId,
    at: Pos,
    name: &str,
    ty: TyId,
) -> Result<(), RuleError>
    ensures made { OnOk result (stack checker.new ≡
        used (rows.taking checker.old.walk.items ty) (a_node_of id.0 at ty (tree.Binding name.now)) ∷ stack checker.old) }
    ensures state { OnOk result (state checker.new ≡ state checker.old) }
    ensures place { OnOk result (Stays checker.old checker.new) }
    ensures short { IfErr result (λ e. e ≡ RuleError.Memory) }
{
    let by = taking(&checker.walk.items, ty);
    let Ok(name) = Name::from_str(checker.alloc, name) else {
        return Err(RuleError::Memory);
    };
    checker.put(id, at, ty, Form::Binding(name))?;
    checker.use_last(by)
}

/// A parameter that is one name: its pattern is the last node, and its entry has the number of that node, which is
/// answered.
///
/// # Errors
///
/// [`RuleError::Memory`] alone, where memory is wanted.
pub fn name_param(checker: &mut Checker, at: Pos, name: &str, ty: TyId) -> Result<NodeId, RuleError>
    ensures gives { GivesNamed (bodies.name_param at name.now ty (state checker.old)) name.now ty result checker.new }
    ensures kept { KeepsStack (stack checker.old) checker.old result checker.new }
{
    let id = checker.number()?;
    put_name(checker, id, at, name, ty)?;
    Ok(id)
}

/// `self` is entered under its key.
fn enter_self(
    checker: &Checker,
    bound: &mut Variables,
    id: NodeId,
    ty: TyId,
) -> Result<(), RuleError>
    ensures entered { OnOk result (bound.new ≡ bodies.name_entry self_name ty id.0 ∷ bound.old) }
    ensures short { IfErr result (λ e. e ≡ RuleError.Memory) }
{
    let Ok(name) = Name::from_str(checker.alloc, "self") else {
        return Err(RuleError::Memory);
    };
    let variable = Variable {
        name,
        ty,
        meaning: VariableMeaning::Local(Key(id.0)),
    };
    match bound.enter(checker.alloc, variable) {
        Ok(()) => Ok(()),
        Err(NoMemory) => Err(RuleError::Memory),
    }
}

#[tactic(auto, using(typeck_patterns::proofs::Youngest::last_one))]
fn self_named(
    checker: &mut Checker,
    bound: &mut Variables,
    at: Pos,
    ty: TyId,
) -> Result<TyId, RuleError>
    ensures gives { GivesParam (self_param_end at ty (reverse bound.old) (state checker.old)) result bound.new checker.new }
    ensures kept { KeepsStack (stack checker.old) checker.old result checker.new }
{
    let id = name_param(checker, at, "self", ty)?;
    enter_self(checker, bound, id, ty)?;
    Ok(ty)
}

fn self_ty(checker: &mut Checker, receiver: Receiver, own: TyId) -> Result<TyId, RuleError>
    ensures gives { GivesValue (λ ty. ty) (bodies.self_ty (receiver_seen receiver) own (state checker.old)) result checker.new }
    ensures same { ChangesNothing checker.old checker.new }
{
    match receiver {
        Receiver::Value => Ok(own),
        Receiver::Shared => checker.intern(Ty::Shared(own)),
        Receiver::Unique => checker.intern(Ty::Unique(own)),
    }
}

fn receiver_of(checker: &mut Checker, receiver: Receiver, adt: u32) -> Result<TyId, RuleError>
    ensures gives { GivesValue (λ ty. ty) (receiver_end (receiver_seen receiver) adt (state checker.old)) result checker.new }
    ensures same { ChangesNothing checker.old checker.new }
{
    let own = checker.intern(Ty::Adt(adt))?;
    self_ty(checker, receiver, own)
}

fn receiver_ty(checker: &mut Checker, at: Pos, receiver: Receiver) -> Result<TyId, RuleError>
    ensures gives { GivesValue (λ ty. ty) (bodies.receiver_ty (env checker.old) at (receiver_seen receiver) (state checker.old)) result checker.new }
    ensures same { ChangesNothing checker.old checker.new }
{
    match adt_at_head(checker, None) {
        Some(adt) => receiver_of(checker, receiver, adt),
        None => Err(broken_rule(Rule::T01, at)),
    }
}

/// `self`, `&self` or `&mut self`: its pattern is the last node, its type is answered, and its binding is noted.
///
/// # Errors
///
/// T01 at the place of the parameter where no `impl` is around; [`RuleError::Memory`] where memory is wanted.
pub fn self_param(
    checker: &mut Checker,
    bound: &mut Variables,
    at: Pos,
    receiver: Receiver,
) -> Result<TyId, RuleError>
    ensures gives { GivesParam (self_param (env checker.old) at (receiver_seen receiver) (reverse bound.old) (state checker.old)) result bound.new checker.new }
    ensures kept { KeepsStack (stack checker.old) checker.old result checker.new }
{
    let ty = receiver_ty(checker, at, receiver)?;
    self_named(checker, bound, at, ty)
}
