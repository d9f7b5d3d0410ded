//! What a node does with its operands, behind their code.
ghost use Rattle.std.specs.Prelude.{◌≡◌, ℕ, [], ◌∷◌, ◌++◌, IfOk, OnOk, IsErr, map};
ghost use Rattle.cfg_meaning.specs.Actions.{action_of, site_of, operands_of};
ghost use Rattle.store_model.specs.Effects as effects;
ghost use Rattle.src_meaning.specs.Evaluation.{in_number_order};
ghost use Rattle.src_meaning.specs.Forms.{moved, site_in};
ghost use Rattle.src_meaning.specs.FieldKeys as field_operands;
ghost use Rattle.src_meaning.specs.FieldKeys.{field_keys};
ghost use Rattle.typed_tree.specs.View.{field_of, fields_from};
ghost use Rattle.lower_code.specs.Forms as forms;
ghost use Rattle.lower_code.specs.Ops as ops;
ghost use Rattle.lower_code.specs.Ops.{onto, operated_onto};
ghost use Rattle.lower_code.specs.View.{ops_of, effect_of, destination_of, keys_seen, built_of, numbered};

use crate::context::{Context, result_place};
use crate::field_order::{FieldNode, in_order};
use crate::parts::{moved_from, put_unit};
use crate::sequences::delivers;
use crate::values::unit_after;
use crate::{Action, Change, Code, CodeWord, Destination};
use cfg_graph::{Operand, Place, Stmt};
use mir_base::{Cmp, Key, List, Math, NoMemory, NodeId};
use std::alloc::Global;
use typed_tree::{Node, NumberedField};

/// Operands are taken, before what their node does with them; all of it is in a scope of the node.
fn take_operands(at: Context, keys: List<Key>, code: &mut Code) -> Result<(), NoMemory>
    ensures { OnOk result (ops_of code.new ≡ operated_onto at.entry.head.id.0 at.entry.own (keys_seen keys) (ops_of code.old)) }
{
    code.push(CodeWord::From(Change::Takes(keys)))?;
    code.push(CodeWord::Then)?;
    code.push(CodeWord::InScope {
        node: at.head.id,
        for_temporaries: at.own,
    })
}

/// Operands are taken, and an action of them goes to the destination.
pub fn on_operands(
    alloc: Global,
    at: Context,
    keys: List<Key>,
    action: Action,
    code: &mut Code,
) -> Result<(), NoMemory>
    ensures { OnOk result (ops_of code.new ≡ operated_onto at.entry.head.id.0 at.entry.own (keys_seen keys)
        (onto (forms.delivers at.entry.head.id.0 at.entry.head.id.0 (effect_of at.entry.head.id.0 action) (destination_of at.entry.to))
        (ops_of code.old))) }
{
    delivers(alloc, at.head.id, at.head.id, action, at.to, code)?;
    take_operands(at, keys, code)
}

/// The key of one operand.
pub fn one_key(alloc: Global, id: NodeId) -> Result<List<Key>, NoMemory>
    ensures { IfOk result (λ keys. keys_seen keys ≡ id.0 ∷ []) }
{
    let mut keys = List::new(alloc);
    keys.push(Key(id.0))?;
    Ok(keys)
}

/// One operand, behind which there is none, and its key.
fn one_operand(alloc: Global, id: NodeId, code: &mut Code) -> Result<List<Key>, NoMemory>
    ensures words { IfOk result (λ keys. ops_of code.new ≡ ops.Then ∷ ops.Nothing ∷ ops_of code.old) }
    ensures keys { IfOk result (λ keys. keys_seen keys ≡ id.0 ∷ []) }
{
    code.push(CodeWord::Nothing)?;
    code.push(CodeWord::Then)?;
    one_key(alloc, id)
}

/// Two operands, behind which there is none, and their keys.
fn two_operands(
    alloc: Global,
    left: NodeId,
    right: NodeId,
    code: &mut Code,
) -> Result<List<Key>, NoMemory>
    ensures words { IfOk result (λ keys. ops_of code.new ≡ ops.Then ∷ ops.Then ∷ ops.Nothing ∷ ops_of code.old) }
    ensures keys { IfOk result (λ keys. keys_seen keys ≡ left.0 ∷ right.0 ∷ []) }
{
    code.push(CodeWord::Nothing)?;
    code.push(CodeWord::Then)?;
    code.push(CodeWord::Then)?;
    let mut keys = one_key(alloc, left)?;
    keys.push(Key(right.0))?;
    Ok(keys)
}

/// The keys of nodes are put behind those before them.
fn add_keys(keys: &mut List<Key>, nodes: &[Node]) -> Result<(), NoMemory>
    ensures { OnOk result (keys_seen keys.new ≡ keys_seen keys.old ++ map (λ n. n.id.0) nodes.now) }
{
    for node in nodes {
        keys.push(Key(node.id.0))?;
    }
    Ok(())
}

/// The keys of nodes in order.
pub fn keys_of(alloc: Global, nodes: &[Node]) -> Result<List<Key>, NoMemory>
    ensures { IfOk result (λ keys. keys_seen keys ≡ map (λ n. n.id.0) nodes.now) }
{
    let mut keys = List::new(alloc);
    add_keys(&mut keys, nodes)?;
    Ok(keys)
}

/// The key of a node, and those of others behind it.
pub fn keys_behind(alloc: Global, first: NodeId, rest: &[Node]) -> Result<List<Key>, NoMemory>
    ensures { IfOk result (λ keys. keys_seen keys ≡ first.0 ∷ map (λ n. n.id.0) rest.now) }
{
    let mut keys = one_key(alloc, first)?;
    add_keys(&mut keys, rest)?;
    Ok(keys)
}

/// What stands under each key, moved out of it.
fn moved_keys(alloc: Global, keys: &[Key]) -> Result<List<Operand>, NoMemory>
    ensures { IfOk result (λ operands. (node : ℕ) →
        operands_of node operands ≡ map (moved node) (keys_seen keys.now)) }
{
    let mut operands = List::new(alloc);
    for key in keys {
        operands.push(moved_from(alloc, NodeId(key.0)))?;
    }
    Ok(operands)
}

/// An action is let go where there was no memory. (Let go in place, it would be so form by form.)
fn let_go(action: Action, why: NoMemory) -> Result<(), NoMemory>
    ensures { IsErr result }
{
    drop(action);
    Err(why)
}

/// One operand, and an action of it.
pub fn on_one(
    alloc: Global,
    at: Context,
    operand: NodeId,
    action: Action,
    code: &mut Code,
) -> Result<(), NoMemory>
    ensures { OnOk result (ops_of code.new ≡ operated_onto at.entry.head.id.0 at.entry.own (operand.0 ∷ [])
        (onto (forms.delivers at.entry.head.id.0 at.entry.head.id.0 (effect_of at.entry.head.id.0 action) (destination_of at.entry.to))
        (ops.Then ∷ ops.Nothing ∷ ops_of code.old))) }
{
    match one_operand(alloc, operand, code) {
        Ok(keys) => on_operands(alloc, at, keys, action, code),
        Err(why) => let_go(action, why),
    }
}

/// Two operands, and an action of them.
pub fn on_two(
    alloc: Global,
    at: Context,
    left: NodeId,
    right: NodeId,
    action: Action,
    code: &mut Code,
) -> Result<(), NoMemory>
    ensures { OnOk result (ops_of code.new ≡ operated_onto at.entry.head.id.0 at.entry.own (left.0 ∷ right.0 ∷ [])
        (onto (forms.delivers at.entry.head.id.0 at.entry.head.id.0 (effect_of at.entry.head.id.0 action) (destination_of at.entry.to))
        (ops.Then ∷ ops.Then ∷ ops.Nothing ∷ ops_of code.old))) }
{
    match two_operands(alloc, left, right, code) {
        Ok(keys) => on_operands(alloc, at, keys, action, code),
        Err(why) => let_go(action, why),
    }
}

/// The action of an arithmetic operator.
pub fn computing(alloc: Global, to: Destination, op: Math, left: NodeId, right: NodeId) -> Action
    ensures { (node : ℕ) → effect_of node result ≡ effects.Compute (site_in node (forms.key_in (destination_of to)))
        op (moved node left.0) (moved node right.0) }
{
    Action::Math {
        to: result_place(alloc, to),
        op,
        left: moved_from(alloc, left),
        right: moved_from(alloc, right),
    }
}

/// The action of a comparison.
pub fn comparing(alloc: Global, to: Destination, op: Cmp, left: NodeId, right: NodeId) -> Action
    ensures { (node : ℕ) → effect_of node result ≡ effects.Compare (site_in node (forms.key_in (destination_of to)))
        op (moved node left.0) (moved node right.0) }
{
    let left = moved_from(alloc, left);
    let right = moved_from(alloc, right);
    Action::Stmt(Stmt::Compare(result_place(alloc, to), op, left, right))
}

/// One operand, an action of it, and `()` behind it.
pub fn one_gives_unit(
    alloc: Global,
    at: Context,
    operand: NodeId,
    action: Action,
    code: &mut Code,
) -> Result<(), NoMemory>
    ensures { OnOk result (ops_of code.new ≡ operated_onto at.entry.head.id.0 at.entry.own (operand.0 ∷ [])
        (onto (forms.unit_after at.entry.head.id.0 (effect_of at.entry.head.id.0 action) (destination_of at.entry.to))
        (ops.Then ∷ ops.Nothing ∷ ops_of code.old))) }
{
    match one_operand(alloc, operand, code) {
        Ok(keys) => {
            unit_after(alloc, at.head.id, action, at.to, code)?;
            take_operands(at, keys, code)
        }
        Err(why) => let_go(action, why),
    }
}

/// `drop(e)` leaves its operand in the scope, which drops it.
pub fn dropping(alloc: Global, at: Context, code: &mut Code) -> Result<(), NoMemory>
    ensures { OnOk result (ops_of code.new ≡ ops.InScope at.entry.head.id.0 at.entry.own ∷ ops.Then ∷
        onto (forms.put_unit at.entry.head.id.0 (destination_of at.entry.to)) (ops_of code.old)) }
{
    put_unit(alloc, at.head.id, at.to, code)?;
    code.push(CodeWord::Then)?;
    code.push(CodeWord::InScope {
        node: at.head.id,
        for_temporaries: at.own,
    })
}

/// A body is called with operands.
pub fn call_body(
    alloc: Global,
    at: Context,
    body: u32,
    keys: List<Key>,
    code: &mut Code,
) -> Result<(), NoMemory>
    ensures { OnOk result (ops_of code.new ≡ operated_onto at.entry.head.id.0 at.entry.own (keys_seen keys)
        (onto (forms.deliver at.entry.head.id.0 (λ site. effects.Call site body (map (moved at.entry.head.id.0) (keys_seen keys)))
        (destination_of at.entry.to)) (ops_of code.old))) }
{
    let args = moved_keys(alloc, keys.as_slice())?;
    let to = result_place(alloc, at.to);
    on_operands(alloc, at, keys, Action::Call { to, body, args }, code)
}

/// A method of a trait object is called with operands.
pub fn called_virtual(
    alloc: Global,
    at: Context,
    trait_no: u32,
    method: u32,
    keys: List<Key>,
    code: &mut Code,
) -> Result<(), NoMemory>
    ensures { OnOk result (ops_of code.new ≡ operated_onto at.entry.head.id.0 at.entry.own (keys_seen keys)
        (onto (forms.deliver at.entry.head.id.0
        (λ site. effects.CallVirtual site trait_no method (map (moved at.entry.head.id.0) (keys_seen keys)))
        (destination_of at.entry.to)) (ops_of code.old))) }
{
    let args = moved_keys(alloc, keys.as_slice())?;
    let action = Action::Virtual {
        to: result_place(alloc, at.to),
        trait_no,
        method,
        args,
    };
    on_operands(alloc, at, keys, action, code)
}

/// What is made of operands.
#[derive(Clone, Copy)]
pub enum Built {
    Tuple,
    Array,
    Closure(u32),
    Variant { adt: u32, variant: u32 },
}

/// The statement that makes it.
fn building(to: Place, built: Built, parts: List<Operand>) -> Stmt
    ensures { (node : ℕ) → action_of node result ≡
        effects.Build (site_of node to) (built_of built) (operands_of node parts) }
{
    match built {
        Built::Tuple => Stmt::Tuple(to, parts),
        Built::Array => Stmt::Array(to, parts),
        Built::Closure(closure) => Stmt::Close { to, closure, parts },
        Built::Variant { adt, variant } => Stmt::Make {
            to,
            adt,
            variant,
            parts,
        },
    }
}

/// A value is made of operands, whose parts are these.
fn built_of_parts(
    alloc: Global,
    at: Context,
    built: Built,
    keys: List<Key>,
    parts: List<Operand>,
    code: &mut Code,
) -> Result<(), NoMemory>
    ensures { OnOk result (ops_of code.new ≡ operated_onto at.entry.head.id.0 at.entry.own (keys_seen keys)
        (onto (forms.deliver at.entry.head.id.0 (λ site. effects.Build site (built_of built) (operands_of at.entry.head.id.0 parts))
        (destination_of at.entry.to)) (ops_of code.old))) }
{
    let stmt = building(result_place(alloc, at.to), built, parts);
    on_operands(alloc, at, keys, Action::Stmt(stmt), code)
}

/// A value is made of operands, whose parts are what stands under their keys.
pub fn built_of_keys(
    alloc: Global,
    at: Context,
    built: Built,
    keys: List<Key>,
    code: &mut Code,
) -> Result<(), NoMemory>
    ensures { OnOk result (ops_of code.new ≡ operated_onto at.entry.head.id.0 at.entry.own (keys_seen keys)
        (onto (forms.deliver at.entry.head.id.0
        (λ site. effects.Build site (built_of built) (map (moved at.entry.head.id.0) (keys_seen keys)))
        (destination_of at.entry.to)) (ops_of code.old))) }
{
    let parts = moved_keys(alloc, keys.as_slice())?;
    built_of_parts(alloc, at, built, keys, parts, code)
}

/// The keys of the values of fields, in the order in which they are written.
fn keys_of_fields(alloc: Global, fields: &[NumberedField]) -> Result<List<Key>, NoMemory>
    ensures { IfOk result (λ keys.
        keys_seen keys ≡ map (λ f. f.1) (field_keys (fields_from (map field_of fields.now)))) }
{
    let mut keys = List::new(alloc);
    for field in fields {
        keys.push(Key(field.value.id.0))?;
    }
    Ok(keys)
}

/// What stands under the key of each field, moved out of it.
fn moved_fields(alloc: Global, fields: &[FieldNode]) -> Result<List<Operand>, NoMemory>
    ensures { IfOk result (λ operands. (node : ℕ) →
        operands_of node operands ≡ field_operands.moved_fields node (map numbered fields.now)) }
{
    let mut operands = List::new(alloc);
    for field in fields {
        operands.push(moved_from(alloc, field.node))?;
    }
    Ok(operands)
}

/// The parts of a struct or a variant: what stands under the keys of its fields, in the order of their numbers.
fn parts_of_fields(alloc: Global, fields: &[NumberedField]) -> Result<List<Operand>, NoMemory>
    ensures { IfOk result (λ operands. (node : ℕ) → operands_of node operands ≡
        field_operands.moved_fields node (in_number_order (field_keys (fields_from (map field_of fields.now))))) }
{
    let ordered = in_order(alloc, fields)?;
    moved_fields(alloc, ordered.as_slice())
}

/// A struct or a variant is made of its fields, which are made in the order in which they are written.
pub fn make_adt(
    alloc: Global,
    at: Context,
    adt: u32,
    variant: u32,
    fields: &[NumberedField],
    code: &mut Code,
) -> Result<(), NoMemory>
    ensures { OnOk result (ops_of code.new ≡ operated_onto at.entry.head.id.0 at.entry.own
        (map (λ f. f.1) (field_keys (fields_from (map field_of fields.now))))
        (onto (forms.deliver at.entry.head.id.0 (λ site. effects.Build site (effects.OfVariant adt variant)
        (field_operands.moved_fields at.entry.head.id.0 (in_number_order (field_keys (fields_from (map field_of fields.now))))))
        (destination_of at.entry.to)) (ops_of code.old))) }
{
    let keys = keys_of_fields(alloc, fields)?;
    let parts = parts_of_fields(alloc, fields)?;
    built_of_parts(
        alloc,
        at,
        Built::Variant { adt, variant },
        keys,
        parts,
        code,
    )
}
