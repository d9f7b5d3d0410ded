//! Tests.
ghost use Rattle.std.specs.Prelude.{◌≡◌, ℕ, IfOk, OnOk, map};
ghost use Rattle.lower_rules.specs.Build as build;
ghost use Rattle.lower_rules.specs.Codes.{asked};
ghost use Rattle.cfg_graph.specs.Places.{named};
ghost use Rattle.lower_passes.specs.Framed.{frame_of};
ghost use Rattle.pattern_lower.specs.Seen.{test_of, tests_in, alternatives_from};
ghost use Rattle.lower_code.specs.View.{condition_of};
ghost use Rattle.src_meaning.specs.Forms.{moved, site_of_key};
ghost use Rattle.store_model.specs.Effects as effects;
ghost use Rattle.lower_blocks.specs.Building.{built_of, rest_of, building_of};

use crate::blocks::Blocks;
use cfg_graph::{Kind, Operand, Place, Stmt, Term};
use lower_code::Condition;
use lower_passes::{LoweringFrame, place, whole_place};
use mir_base::{Cmp, Key, List, NoMemory, NodeId};
use pattern_lower::Test;
use std::alloc::Global;

/// One of two blocks by the truth value under a key, which is taken.
pub fn if_true(
    alloc: Global,
    frame: LoweringFrame,
    key: Key,
    yes: u32,
    no: u32,
    blocks: &mut Blocks,
) -> Result<(), NoMemory>
    ensures { OnOk result (built_of blocks.new ≡
        build.if_true (frame_of frame.entry) (moved key.0 key.0) key.0 yes no (building_of blocks.old)) }
{
    let on = Operand::Moved(whole_place(alloc, frame, key)?);
    blocks.end(alloc, Term::If { on, yes, no }, NodeId(key.0));
    Ok(())
}

/// One of two blocks by the truth value under the key of a node; its place, and the place that it is about.
fn asked_about(
    alloc: Global,
    frame: LoweringFrame,
    node: NodeId,
    at: &Place,
    yes: u32,
    no: u32,
    blocks: &mut Blocks,
) -> Result<(Place, Place), NoMemory>
    ensures { IfOk result (λ places. (places.0 ≡ build.place_of (frame_of frame.entry) (site_of_key node.0))
        × ((places.1 ≡ build.place_of (frame_of frame.entry) (record { node = node.0; place = named at.now }))
        × (built_of blocks.new ≡ build.if_true (frame_of frame.entry) (moved node.0 node.0) node.0 yes no
        (building_of blocks.old)))) }
{
    if_true(alloc, frame, Key(node.0), yes, no, blocks)?;
    let truth = whole_place(alloc, frame, Key(node.0))?;
    match place(alloc, frame, at) {
        Ok(at) => Ok((truth, at)),
        Err(error) => {
            drop(truth);
            Err(error)
        }
    }
}

/// One of two blocks by whether a place has a value.
fn equals(
    alloc: Global,
    frame: LoweringFrame,
    node: NodeId,
    at: &Place,
    value: Operand,
    yes: u32,
    no: u32,
    blocks: &mut Blocks,
) -> Result<(), NoMemory>
    ensures { OnOk result ((plain : effects.Operand) → build.operand_of (frame_of frame.entry) plain ≡ value →
        built_of blocks.new ≡ build.equals (frame_of frame.entry) (record { node = node.0; place = named at.now }) plain
        yes no (building_of blocks.old)) }
{
    match asked_about(alloc, frame, node, at, yes, no, blocks) {
        Ok((truth, at)) => {
            let stmt = Stmt::Compare(truth, Cmp::Eq, Operand::Copied(at), value);
            blocks.add_line(stmt, node)
        }
        Err(error) => {
            drop(value);
            Err(error)
        }
    }
}

/// One of two blocks by a test.
#[cycle(tests)]
fn test(
    alloc: Global,
    frame: LoweringFrame,
    test: &Test,
    yes: u32,
    no: u32,
    blocks: &mut Blocks,
) -> Result<(), NoMemory>
    ensures { OnOk result (built_of blocks.new ≡
        build.test (frame_of frame.entry) (test_of test.now) yes no (building_of blocks.old)) }
{
    match test {
        Test::Variant { node, at, number } => {
            let on = place(alloc, frame, at)?;
            let variant = *number;
            let term = Term::Case {
                on,
                variant,
                yes,
                no,
            };
            blocks.end(alloc, term, *node);
            Ok(())
        }
        Test::Equal {
            node,
            at,
            value,
            kind,
        } => {
            let value = Operand::Number(*value, *kind);
            equals(alloc, frame, *node, at, value, yes, no, blocks)
        }
        Test::Truth { node, at, value } => {
            let value = Operand::Truth(*value);
            equals(alloc, frame, *node, at, value, yes, no, blocks)
        }
        Test::Any(alternatives) => {
            any_test(alloc, frame, alternatives.as_slice(), yes, no, blocks)
        }
    }
}

/// One of two blocks by whether all tests hold: the code of the last is built first.
#[cycle(tests)]
pub fn tests(
    alloc: Global,
    frame: LoweringFrame,
    all: &[Test],
    yes: u32,
    no: u32,
    blocks: &mut Blocks,
) -> Result<(), NoMemory>
    ensures { OnOk result (built_of blocks.new ≡
        build.tests (frame_of frame.entry) (tests_in all.now) yes no (building_of blocks.old)) }
{
    match all.split_first() {
        Some((first, rest)) => {
            tests(alloc, frame, rest, yes, no, blocks)?;
            let later = blocks.close(alloc, Kind::Plain)?;
            test(alloc, frame, first, later, no, blocks)
        }
        None => {
            blocks.end(alloc, Term::Goto(yes), NodeId(0));
            Ok(())
        }
    }
}

/// One of two blocks by whether all tests of one of the alternatives hold.
#[cycle(tests)]
fn any_test(
    alloc: Global,
    frame: LoweringFrame,
    alternatives: &[List<Test>],
    yes: u32,
    no: u32,
    blocks: &mut Blocks,
) -> Result<(), NoMemory>
    ensures { OnOk result (built_of blocks.new ≡ build.any_test (frame_of frame.entry)
        (alternatives_from (map tests_in alternatives.now)) yes no (building_of blocks.old)) }
{
    match alternatives.split_first() {
        Some((one, rest)) => {
            any_test(alloc, frame, rest, yes, no, blocks)?;
            let later = blocks.close(alloc, Kind::Plain)?;
            tests(alloc, frame, one.as_slice(), yes, later, blocks)
        }
        None => {
            blocks.end(alloc, Term::Goto(no), NodeId(0));
            Ok(())
        }
    }
}

/// One of two blocks by what a branch goes by.
///
/// # Errors
///
/// [`NoMemory`] where memory is wanted.
pub fn branch_by(
    alloc: Global,
    frame: LoweringFrame,
    on: &Condition,
    yes: u32,
    no: u32,
    blocks: &mut Blocks,
) -> Result<(), NoMemory>
    ensures { OnOk result ((node : ℕ) → built_of blocks.new ≡
        asked (frame_of frame.entry) node (condition_of on.now) yes no (building_of blocks.old)) }
{
    match on {
        Condition::IsTrue(key) => if_true(alloc, frame, *key, yes, no, blocks),
        Condition::Passes(all) => tests(alloc, frame, all.as_slice(), yes, no, blocks),
    }
}
