//! Code that is one word.
ghost use Rattle.std.specs.Prelude.{◌≡◌, Some, OnOk};
ghost use Rattle.lower_code.specs.Code as plain;
ghost use Rattle.lower_code.specs.View.{op_of};
ghost use Rattle.lower_rules.specs.Codes.{lowers};
ghost use Rattle.lower_blocks.specs.Builds.{IsBuilt, leaf_of, frame_at};

use crate::{Blocks, BuildContext, act, drop_under, exit, leave, panic, replace};
use lower_code::CodeWord;
use mir_base::NoMemory;
use std::alloc::Global;

/// The blocks of code that is one word, before what is open, by whether a run comes behind it.
#[tactic(auto, using(crate::proofs::Steps::by_end))]
#[inline(never)]
pub fn build_word(
    alloc: Global,
    at: &BuildContext,
    word: &CodeWord,
    ends: bool,
    blocks: &mut Blocks,
) -> Result<(), NoMemory>
    ensures { OnOk result ((c : plain.Code) → leaf_of (op_of word.now) ≡ Some c →
        ends ≡ (lowers (frame_at at.entry.now) c).has_end → IsBuilt at.entry.now c blocks.old blocks.new) }
{
    let frame = at.frame;
    let scopes = at.scopes;
    match word {
        CodeWord::Acts { node, action } => {
            act(alloc, frame, *node, action, !ends, at.ways, scopes, blocks)
        },
        CodeWord::Leaves => leave(alloc, frame, scopes, blocks),
        CodeWord::Exits { node, exit: to } => exit(
            alloc, frame, *node, *to, at.ways, scopes, blocks,
        ),
        CodeWord::Panics { node, why } => panic(alloc, frame, *node, *why, scopes, blocks),
        CodeWord::Replaces { node, place, key } => {
            replace(alloc, at.arena, frame, *node, place, *key, scopes, blocks)
        }
        CodeWord::Drops(key) => drop_under(alloc, frame, *key, scopes, blocks),
        _ => Ok(()),
    }
}
