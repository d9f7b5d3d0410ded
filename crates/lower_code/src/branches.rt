//! Conditions, and the patterns of branches, around the code of their parts.
ghost use Rattle.std.specs.Prelude.{◌≡◌, ◌∷◌, true, false, IfOk, OnOk};
ghost use Rattle.cfg_graph.specs.Places.{named};
ghost use Rattle.src_meaning.specs.Shape.{shape};
ghost use Rattle.typed_tree.specs.View.{tree_of};
ghost use Rattle.lower_code.specs.Code as plain;
ghost use Rattle.lower_code.specs.Forms as forms;
ghost use Rattle.lower_code.specs.Ops as ops;
ghost use Rattle.lower_code.specs.Ops.{onto};
ghost use Rattle.lower_code.specs.View.{condition_of, ops_of, destination_of, head_of, maybe_key, place_seen};

use crate::bindings::bind;
use crate::categories::{is_place, place_of};
use crate::context::{Context, result_place};
use crate::loops_and_guards::copy_place;
use crate::sequences::delivers;
use crate::values::touch_place;
use crate::{Action, Change, Code, CodeWord, Condition, LoopsAndGuards, ScopeAt};
use cfg_graph::{Operand, Place, Stmt};
use mir_base::{Key, NoMemory, NodeId};
use mir_ty::Items;
use pattern_lower::{bindings, tests};
use std::alloc::Global;
use typed_tree::Node;

/// A branch by a condition, behind its code and that of the two ways on.
pub fn conditional(id: NodeId, code: &mut Code) -> Result<(), NoMemory>
    ensures { OnOk result (ops_of code.new ≡
        ops.Then ∷ ops.Branches id.0 (plain.IsTrue id.0) ∷ ops_of code.old) }
{
    code.push(CodeWord::Branches {
        node: id,
        on: Condition::IsTrue(Key(id.0)),
    })?;
    code.push(CodeWord::Then)
}

/// The value of `&&` or `||` where the right operand is not evaluated.
pub fn shortcut(alloc: Global, at: Context, truth: bool, code: &mut Code) -> Result<(), NoMemory>
    ensures { OnOk result (ops_of code.new ≡
        onto (forms.shortcut (head_of at.entry.head) truth (destination_of at.entry.to)) (ops_of code.old)) }
{
    let action = Action::Stmt(Stmt::Put(result_place(alloc, at.to), Operand::Truth(truth)));
    delivers(alloc, at.head.id, at.head.id, action, at.to, code)
}

/// A scrutinee that has been reached is borrowed whole, if it is a place.
pub fn borrow_scrutinee(
    alloc: Global,
    items: &Items,
    node: &Node,
    place: &Place,
    code: &mut Code,
) -> Result<(), NoMemory>
    ensures { OnOk result (ops_of code.new ≡ ops.Then ∷
        onto (forms.touched (shape items.now (tree_of node.now)).is_place
        (record { node = node.now.id.0; place = named place.now })) (ops_of code.old)) }
{
    let place = copy_place(alloc, place)?;
    touch_place(alloc, is_place(items, node), node.id, place, code)?;
    code.push(CodeWord::Then)
}

/// The names of a pattern for the place of a scrutinee, which has been reached.
pub fn names_taken(
    alloc: Global,
    items: &Items,
    pattern: &Node,
    scrutinee: &Node,
    around: LoopsAndGuards,
    code: &mut Code,
) -> Result<(), NoMemory>
    ensures { OnOk result (ops_of code.new ≡
        onto (forms.bind plain.Innermost
        ((shape items.now (tree_of pattern.now)).bindings (place_seen items.now scrutinee.now around.entry)))
        (ops.Then ∷ onto (forms.touched (shape items.now (tree_of scrutinee.now)).is_place
        (record { node = scrutinee.now.id.0; place = place_seen items.now scrutinee.now around.entry }))
        (ops_of code.old))) }
{
    let place = place_of(alloc, items, scrutinee, around.aliases)?;
    borrow_scrutinee(alloc, items, scrutinee, &place, code)?;
    let names = bindings(alloc, pattern, &place)?;
    bind(alloc, ScopeAt::Innermost, names.as_slice(), code)
}

/// The end of what happens where a pattern takes its scrutinee, and the beginning of what happens where it does not.
pub fn otherwise_leaves(code: &mut Code) -> Result<(), NoMemory>
    ensures { OnOk result (ops_of code.new ≡
        ops.Leaves ∷ ops.Then ∷ ops.Leaves ∷ ops.Then ∷ ops_of code.old) }
{
    code.push(CodeWord::Then)?;
    code.push(CodeWord::Leaves)?;
    code.push(CodeWord::Then)?;
    code.push(CodeWord::Leaves)
}

/// That the value of a scrutinee, which has been reached, passes the tests of a pattern.
fn passing(
    alloc: Global,
    items: &Items,
    pattern: &Node,
    scrutinee: &Node,
    around: LoopsAndGuards,
) -> Result<Condition, NoMemory>
    ensures { IfOk result (λ on. condition_of on ≡ plain.Passes
        ((shape items.now (tree_of pattern.now)).tests (place_seen items.now scrutinee.now around.entry))) }
{
    let place = place_of(alloc, items, scrutinee, around.aliases)?;
    Ok(Condition::Passes(tests(alloc, items, pattern, &place)?))
}

/// A branch by a pattern, behind the code of the two ways on.
pub fn taken_if(
    alloc: Global,
    items: &Items,
    id: NodeId,
    pattern: &Node,
    scrutinee: &Node,
    around: LoopsAndGuards,
    code: &mut Code,
) -> Result<(), NoMemory>
    ensures { OnOk result (ops_of code.new ≡ ops.From (plain.NewScope id.0 true) ∷ ops.Then
        ∷ ops.Branches id.0 (plain.Passes
        ((shape items.now (tree_of pattern.now)).tests (place_seen items.now scrutinee.now around.entry)))
        ∷ ops.Then ∷ ops_of code.old) }
{
    code.push(CodeWord::Then)?;
    let on = passing(alloc, items, pattern, scrutinee, around)?;
    code.push(CodeWord::Branches { node: id, on })?;
    code.push(CodeWord::Then)?;
    code.push(CodeWord::From(Change::NewScope {
        node: id,
        for_temporaries: true,
    }))
}

/// The body of an arm, behind its names: its scope, its tests and its guard.
pub fn taken_arm(
    alloc: Global,
    items: &Items,
    id: NodeId,
    pattern: &Node,
    matched: &Place,
    guard: Option<Key>,
    code: &mut Code,
) -> Result<(), NoMemory>
    ensures { OnOk result (ops_of code.new ≡
        ops.IsArm ((shape items.now (tree_of pattern.now)).tests (named matched.now)) (maybe_key guard)
        ∷ ops.InScope id.0 false ∷ ops.Then ∷ ops_of code.old) }
{
    code.push(CodeWord::Then)?;
    code.push(CodeWord::InScope {
        node: id,
        for_temporaries: false,
    })?;
    let tests = tests(alloc, items, pattern, matched)?;
    code.push(CodeWord::Arm { tests, guard })
}
