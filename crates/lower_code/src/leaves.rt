//! The code of what has no parts that are evaluated, and what comes behind the code of a form.
ghost use Rattle.std.specs.Prelude.{◌≡◌, OnOk, IfOk};
ghost use Rattle.src_meaning.specs.Shape.{head, kind_of, shape};
ghost use Rattle.typed_tree.specs.View.{tree_of, form_of};
ghost use Rattle.lower_code.specs.Groups.{IsCodeIn, is_leaf};
ghost use Rattle.lower_code.specs.View.{ops_of, around_of, wanted_of};
ghost use Rattle.lower_code.specs.Wanted.{finished_onto, used_onto, taken_onto};

use crate::categories::{is_made_in_destination, is_place, place_of};
use crate::context::{Category, Context, destination_in, is_own_scope, result_place};
use crate::parts::{entry_at, own_destination};
use crate::sequences::made_entry;
use crate::values::{as_operand, effect, jump, leaf, use_of_place};
use crate::{Action, Code, CodeWord, Exit, LoopsAndGuards, ScopeAt};
use cfg_graph::Operand;
use mir_base::{IntKind, NoMemory, Why};
use mir_ty::{Items, Ty, TyId};
use std::alloc::Global;
use typed_tree::{Form, Node};

/// The integer type of a literal, and `i32` where it has none.
fn kind_of_ty(items: &Items, ty: TyId) -> IntKind
    ensures { result ≡ kind_of items.now ty }
{
    match items.ty(ty) {
        Some(Ty::Int(kind)) => *kind,
        _ => IntKind::I32,
    }
}

/// Of literals, names, and what else has no parts that are evaluated.
pub fn leaf_code(
    alloc: Global,
    items: &Items,
    form: &Form,
    at: Context,
    code: &mut Code,
) -> Result<bool, NoMemory>
    ensures { IfOk result (λ is. IsCodeIn is_leaf items.now (form_of form.now) at.entry code.old code.new is) }
{
    match form {
        Form::Number(value) => {
            let kind = kind_of_ty(items, at.head.ty);
            leaf(alloc, at, Operand::Number(*value, kind), code)?;
        }
        Form::Truth(value) => leaf(alloc, at, Operand::Truth(*value), code)?,
        Form::UnitValue => leaf(alloc, at, Operand::Unit, code)?,
        Form::Variable(_) | Form::Captured { .. } => code.push(CodeWord::Nothing)?,
        Form::Ask => {
            let to = result_place(alloc, at.to);
            effect(alloc, at, Action::Ask { to }, code)?;
        }
        Form::Panic => code.push(CodeWord::Panics {
            node: at.head.id,
            why: Why::Explicit,
        })?,
        Form::Continue { from } => {
            code.push(CodeWord::Nothing)?;
            jump(at.head.id, Exit::Continues(*from), code)?;
        }
        _ => return Ok(false),
    }
    Ok(true)
}

/// The value of a place that has been reached is used, for what is wanted.
fn use_place(
    alloc: Global,
    items: &Items,
    node: &Node,
    around: LoopsAndGuards,
    wanted: Category,
    code: &mut Code,
) -> Result<(), NoMemory>
    ensures { OnOk result (ops_of code.new ≡ used_onto items.now (wanted_of wanted)
        (head node.now.id.0 node.now.ty node.now.by) (shape items.now (tree_of node.now)) (around_of around.entry)
        (ops_of code.old)) }
{
    let place = place_of(alloc, items, node, around.aliases)?;
    let to = own_destination(items, node, destination_in(wanted, node.id));
    use_of_place(alloc, node, is_own_scope(wanted), to, place, code)
}

/// What was made is taken for what it is wanted.
fn taken_for(items: &Items, node: &Node, wanted: Category, code: &mut Code) -> Result<(), NoMemory>
    ensures { OnOk result (ops_of code.new ≡ taken_onto (wanted_of wanted)
        (head node.now.id.0 node.now.ty node.now.by) (shape items.now (tree_of node.now)) (ops_of code.old)) }
{
    match wanted {
        Category::Value { .. } | Category::UnderOwnKey => Ok(()),
        Category::AsOperand => as_operand(items, node, code),
        Category::Alone(_) | Category::AloneUnderOwnKey => code.push(CodeWord::BackIn),
        Category::AsPlace => {
            let pends = is_made_in_destination(items, node);
            made_entry(pends, ScopeAt::NearestTemporary, entry_at(node), code)
        }
    }
}

/// What comes behind the code of the form of a node, for what it is wanted.
pub fn finish_node(
    alloc: Global,
    items: &Items,
    node: &Node,
    around: LoopsAndGuards,
    wanted: Category,
    code: &mut Code,
) -> Result<(), NoMemory>
    ensures { OnOk result (ops_of code.new ≡ finished_onto items.now (wanted_of wanted)
        (shape items.now (tree_of node.now)).is_place (head node.now.id.0 node.now.ty node.now.by)
        (shape items.now (tree_of node.now)) (around_of around.entry) (ops_of code.old)) }
{
    let place = is_place(items, node);
    if place && matches!(wanted, Category::AsPlace) {
        return Ok(());
    }
    if place {
        use_place(alloc, items, node, around, wanted, code)?;
    }
    taken_for(items, node, wanted, code)
}
