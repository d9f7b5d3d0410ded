//! Code by its last word.
ghost use Rattle.std.specs.Prelude.{◌≡◌, ℕ, suc, OnOk};
ghost use Rattle.lower_rules.specs.Codes.{lowers, lowers_arm, lowers_arms, guarded};
ghost use Rattle.lower_code.specs.Code as plain;
ghost use Rattle.lower_code.specs.View.{change_of, condition_of};
ghost use Rattle.lower_blocks.specs.Builds as builds;
ghost use Rattle.lower_blocks.specs.Builds.{StandsAt, OneAt, TwoAt, ArmsStandAt, ArmStandsAt, IsBuilt, IsBuiltBehind, IsBuiltBehindGuard, IsBuiltToward, ArmsAreBuilt, ArmIsBuiltBefore, IsReached, frame_at};

use crate::arms::arm_before;
use crate::joins::{close_exit, join, leave_behind, one_has_end};
use crate::words::build_word;
use crate::{Blocks, BuildContext, LoopWay, Ways, branch_by, if_true, in_loop, panic, tests};
use cfg_graph::{Kind, Term};
use lower_code::{Change, CodeWord, Condition};
use lower_passes::{after, change, depth, enter, has_end, two_before, word_at};
use mir_base::{Key, NoMemory, NodeId, Why};
use std::alloc::Global;

/// The blocks of the code that ends with a word, before what is open.
///
/// It is as deep as code nests. Scopes are made in the arena, and never copied.
///
/// # Errors
///
/// [`NoMemory`] where memory is wanted, and where there are more blocks than 32 bits count.
#[cycle(building)]
pub fn build(
    alloc: Global,
    at: &BuildContext,
    end: usize,
    blocks: &mut Blocks,
) -> Result<(), NoMemory>
    requires { IsReached at.now }
    ensures { OnOk result ((c : plain.Code) (start : ℕ) →
        StandsAt at.entry.now c start end → IsBuilt at.entry.now c blocks.old blocks.new) }
{
    let Some(word) = word_at(at.code, end) else {
        return Ok(());
    };
    match word {
        CodeWord::From(by) => build_from(alloc, at, by, end, blocks),
        CodeWord::Then => build_both(alloc, at, end, blocks),
        CodeWord::BackIn => build_one(alloc, at, end, blocks),
        CodeWord::InScope {
            node,
            for_temporaries,
        } => build_scope(alloc, at, *node, *for_temporaries, end, blocks),
        CodeWord::Branches { node, on } => build_branches(alloc, at, *node, on, end, blocks),
        CodeWord::Loops(id) => build_loop(alloc, at, *id, end, blocks),
        CodeWord::Matches(node) => build_match(alloc, at, *node, end, blocks),
        _ => build_word(alloc, at, word, has_end(at.code, end), blocks),
    }
}

/// Of the code before a word.
#[cycle(building)]
fn build_one(
    alloc: Global,
    at: &BuildContext,
    end: usize,
    blocks: &mut Blocks,
) -> Result<(), NoMemory>
    requires { IsReached at.now }
    ensures { OnOk result ((c : plain.Code) (start : ℕ) →
        OneAt at.entry.now c start end → IsBuilt at.entry.now c blocks.old blocks.new) }
{
    match end.checked_sub(1) {
        Some(inner) => build(alloc, at, inner, blocks),
        None => Ok(()),
    }
}

/// Of the code before a word, in scopes that are changed first.
#[cycle(building)]
#[inline(never)]
fn build_from(
    alloc: Global,
    at: &BuildContext,
    by: &Change,
    end: usize,
    blocks: &mut Blocks,
) -> Result<(), NoMemory>
    requires { IsReached at.now }
    ensures { OnOk result ((c : plain.Code) (start : ℕ) → OneAt at.entry.now c start end →
        IsBuilt at.entry.now (plain.From (change_of by.now) c) blocks.old blocks.new) }
{
    let scopes = change(at.arena, by, at.scopes)?;
    let changed = BuildContext { scopes, ..*at };
    build_one(alloc, &changed, end, blocks)
}

/// Of code behind another, if that has an end, in the scopes behind it.
#[cycle(building)]
fn build_behind(
    alloc: Global,
    at: &BuildContext,
    one: usize,
    another: usize,
    blocks: &mut Blocks,
) -> Result<(), NoMemory>
    requires { IsReached at.now }
    ensures { OnOk result ((c d : plain.Code) (start : ℕ) →
        StandsAt at.entry.now c start one → StandsAt at.entry.now d (suc one) another →
        IsBuiltBehind at.entry.now (lowers (frame_at at.entry.now) c) (lowers (frame_at at.entry.now) d) blocks.old blocks.new) }
{
    if !has_end(at.code, one) {
        return Ok(());
    }
    let scopes = after(at.arena, at.code, at.reaches, one, at.scopes)?;
    let behind = BuildContext { scopes, ..*at };
    build(alloc, &behind, another, blocks)
}

/// Of two codes, one after the other: the other is built first.
#[cycle(building)]
fn build_both(
    alloc: Global,
    at: &BuildContext,
    end: usize,
    blocks: &mut Blocks,
) -> Result<(), NoMemory>
    requires { IsReached at.now }
    ensures { OnOk result ((one another : plain.Code) (start : ℕ) → TwoAt at.entry.now one another start end →
        IsBuilt at.entry.now (plain.Then one another) blocks.old blocks.new) }
{
    match two_before(at.code, end) {
        Some(two) => {
            build_behind(alloc, at, two.one, two.another, blocks)?;
            build(alloc, at, two.one, blocks)
        }
        None => Ok(()),
    }
}

/// Of code in a scope of its own, which is left behind it.
#[cycle(building)]
#[inline(never)]
fn build_scope(
    alloc: Global,
    at: &BuildContext,
    node: NodeId,
    for_temporaries: bool,
    end: usize,
    blocks: &mut Blocks,
) -> Result<(), NoMemory>
    requires { IsReached at.now }
    ensures { OnOk result ((c : plain.Code) (start : ℕ) → OneAt at.entry.now c start end →
        IsBuilt at.entry.now (plain.InScope node.0 for_temporaries c) blocks.old blocks.new) }
{
    let scopes = enter(at.arena, node, for_temporaries, at.scopes)?;
    let inner = BuildContext { scopes, ..*at };
    leave_behind(alloc, &inner, end, blocks)?;
    build_one(alloc, &inner, end, blocks)
}

/// Of code behind which a block is entered.
#[cycle(building)]
fn build_toward(
    alloc: Global,
    at: &BuildContext,
    end: usize,
    to: u32,
    node: NodeId,
    blocks: &mut Blocks,
) -> Result<(), NoMemory>
    requires { IsReached at.now }
    ensures { OnOk result ((c : plain.Code) (start : ℕ) → StandsAt at.entry.now c start end →
        IsBuiltToward at.entry.now c to node.0 blocks.old blocks.new) }
{
    blocks.end(alloc, Term::Goto(to), node);
    build(alloc, at, end, blocks)
}

/// Of one of two codes: the first where a condition holds. The test is built last.
#[cycle(building)]
#[inline(never)]
fn build_branches(
    alloc: Global,
    at: &BuildContext,
    node: NodeId,
    on: &Condition,
    end: usize,
    blocks: &mut Blocks,
) -> Result<(), NoMemory>
    requires { IsReached at.now }
    ensures { OnOk result ((one another : plain.Code) (start : ℕ) → TwoAt at.entry.now one another start end →
        IsBuilt at.entry.now (plain.Branches node.0 (condition_of on.now) one another) blocks.old blocks.new) }
{
    match two_before(at.code, end) {
        Some(two) => {
            let to = join(alloc, one_has_end(at, two), blocks)?;
            build_toward(alloc, at, two.another, to, node, blocks)?;
            let no = blocks.close(alloc, Kind::Plain)?;
            build_toward(alloc, at, two.one, to, node, blocks)?;
            let yes = blocks.close(alloc, Kind::Plain)?;
            branch_by(alloc, at.frame, on, yes, no, blocks)
        }
        None => Ok(()),
    }
}

/// Of a loop, whose turn stands before the word: its turn block gets its number before its code is built.
#[cycle(building)]
#[inline(never)]
fn build_loop(
    alloc: Global,
    at: &BuildContext,
    id: NodeId,
    end: usize,
    blocks: &mut Blocks,
) -> Result<(), NoMemory>
    requires { IsReached at.now }
    ensures { OnOk result ((turn : plain.Code) (start : ℕ) → StandsAt at.entry.now (plain.Loops id.0 turn) start end →
        IsBuilt at.entry.now (plain.Loops id.0 turn) blocks.old blocks.new) }
{
    let base = depth(at.scopes)?;
    let is_left = has_end(at.code, end);
    let exit = blocks.next_number()?;
    close_exit(alloc, is_left, blocks)?;
    let turn = blocks.reserve()?;
    let way = LoopWay {
        id,
        base,
        exit,
        turn,
        is_left,
    };
    build_turn(alloc, at, way, end, blocks)
}

/// Of the turn of a loop.
#[cycle(building)]
fn build_turn(
    alloc: Global,
    at: &BuildContext,
    way: LoopWay,
    end: usize,
    blocks: &mut Blocks,
) -> Result<(), NoMemory>
    requires { IsReached at.now }
    ensures { OnOk result ((turn : plain.Code) (start : ℕ) → OneAt at.entry.now turn start end →
        builds.IsTurnBuilt at.entry.now way turn blocks.old blocks.new) }
{
    let loops = in_loop(alloc, way, at.ways.loops)?;
    let ways = Ways {
        returns: at.ways.returns,
        loops: loops.as_slice(),
    };
    blocks.end(alloc, Term::Goto(way.turn), NodeId(0));
    let in_turn = BuildContext { ways, ..*at };
    build_one(alloc, &in_turn, end, blocks)?;
    blocks.fill(alloc, Kind::Turn, way.turn)?;
    blocks.end(alloc, Term::Goto(way.turn), NodeId(0));
    Ok(())
}

/// Of the arms before a word: the last is built first, and behind it a panic.
#[cycle(building)]
#[inline(never)]
fn build_match(
    alloc: Global,
    at: &BuildContext,
    node: NodeId,
    end: usize,
    blocks: &mut Blocks,
) -> Result<(), NoMemory>
    requires { IsReached at.now }
    ensures { OnOk result ((arms : plain.Arms) (start : ℕ) → StandsAt at.entry.now (plain.Matches node.0 arms) start end →
        IsBuilt at.entry.now (plain.Matches node.0 arms) blocks.old blocks.new) }
{
    let to = join(alloc, has_end(at.code, end), blocks)?;
    panic(alloc, at.frame, node, Why::Match, at.scopes, blocks)?;
    build_arms(alloc, at, node, to, end, blocks)
}

/// Of the arms before a word, before those that are built already.
#[cycle(building)]
fn build_arms(
    alloc: Global,
    at: &BuildContext,
    node: NodeId,
    to: u32,
    end: usize,
    blocks: &mut Blocks,
) -> Result<(), NoMemory>
    requires { IsReached at.now }
    ensures { OnOk result ((arms : plain.Arms) (begin : ℕ) → ArmsStandAt at.entry.now arms begin end →
        ArmsAreBuilt at.entry.now node.0 to (lowers_arms (frame_at at.entry.now) arms) blocks.old blocks.new) }
{
    match arm_before(at.code, end) {
        Some(last) => {
            let otherwise = blocks.close(alloc, Kind::Plain)?;
            blocks.end(alloc, Term::Goto(to), node);
            build_arm(alloc, at, otherwise, last.end, blocks)?;
            build_arms(alloc, at, node, to, last.start, blocks)
        }
        None => Ok(()),
    }
}

/// Of an arm, before what is open: its tests, which lead to it or to what is done otherwise; its guard, if it has one;
/// and its code.
#[cycle(building)]
fn build_arm(
    alloc: Global,
    at: &BuildContext,
    otherwise: u32,
    end: usize,
    blocks: &mut Blocks,
) -> Result<(), NoMemory>
    requires { IsReached at.now }
    ensures { OnOk result ((one : plain.Arm) (start : ℕ) → ArmStandsAt at.entry.now one start end →
        ArmIsBuiltBefore at.entry.now (lowers_arm (frame_at at.entry.now) one) otherwise blocks.old blocks.new) }
{
    let Some(word) = word_at(at.code, end) else {
        return Ok(());
    };
    match word {
        CodeWord::Arm { tests: all, guard } => {
            build_taken(alloc, at, *guard, otherwise, end, blocks)?;
            let yes = blocks.close(alloc, Kind::Plain)?;
            tests(alloc, at.frame, all.as_slice(), yes, otherwise, blocks)
        }
        _ => Ok(()),
    }
}

/// Of an arm behind its tests.
#[cycle(building)]
fn build_taken(
    alloc: Global,
    at: &BuildContext,
    guard: Option<Key>,
    otherwise: u32,
    end: usize,
    blocks: &mut Blocks,
) -> Result<(), NoMemory>
    requires { IsReached at.now }
    ensures { OnOk result ((asked : plain.Guard) (inner : plain.Code) (start : ℕ) →
        builds.TakenStandsAt at.entry.now guard asked inner start end →
        ArmIsBuiltBefore at.entry.now (guarded (frame_at at.entry.now) asked (lowers (frame_at at.entry.now) inner)) otherwise blocks.old blocks.new) }
{
    match guard {
        Some(key) => build_guarded(alloc, at, key, otherwise, end, blocks),
        None => build_one(alloc, at, end, blocks),
    }
}

/// Of a guard and the code behind it: where it does not hold, what is done otherwise follows.
#[cycle(building)]
fn build_guarded(
    alloc: Global,
    at: &BuildContext,
    key: Key,
    otherwise: u32,
    end: usize,
    blocks: &mut Blocks,
) -> Result<(), NoMemory>
    requires { IsReached at.now }
    ensures { OnOk result ((guard code : plain.Code) (start : ℕ) → TwoAt at.entry.now guard code start end →
        ArmIsBuiltBefore at.entry.now (builds.guarded_by at.entry.now key.0 guard code) otherwise blocks.old blocks.new) }
{
    match two_before(at.code, end) {
        Some(two) => {
            build_behind_guard(alloc, at, key, otherwise, two.one, two.another, blocks)?;
            build(alloc, at, two.one, blocks)
        }
        None => Ok(()),
    }
}

/// Of the code behind a guard, and the test of the guard, if that has an end.
#[cycle(building)]
fn build_behind_guard(
    alloc: Global,
    at: &BuildContext,
    key: Key,
    otherwise: u32,
    one: usize,
    another: usize,
    blocks: &mut Blocks,
) -> Result<(), NoMemory>
    requires { IsReached at.now }
    ensures { OnOk result ((guard code : plain.Code) (start : ℕ) →
        StandsAt at.entry.now guard start one → StandsAt at.entry.now code (suc one) another →
        IsBuiltBehindGuard at.entry.now key.0 guard code otherwise blocks.old blocks.new) }
{
    if !has_end(at.code, one) {
        return Ok(());
    }
    build(alloc, at, another, blocks)?;
    let yes = blocks.close(alloc, Kind::Plain)?;
    if_true(alloc, at.frame, key, yes, otherwise, blocks)
}
