//! Where jumps go.
ghost use Rattle.std.specs.Prelude.{◌≡◌, ◌∷◌, IfOk};
ghost use Rattle.lower_rules.specs.Build.{way_of};
ghost use Rattle.lower_rules.specs.Spots as spots;
ghost use Rattle.lower_code.specs.View.{exit_of};
ghost use Rattle.lower_blocks.specs.Building.{ways_of};

use lower_code::Exit;
use mir_base::{List, NoMemory, NodeId};
use std::alloc::Global;

/// A loop around code: how many scopes stay, the block behind it, its turn block, and whether a `break` leaves it.
#[derive(Clone, Copy)]
pub struct LoopWay {
    pub id: NodeId,
    pub base: usize,
    pub exit: u32,
    pub turn: u32,
    pub is_left: bool,
}

/// The block that returns, and the loops around code, the innermost first.
#[derive(Clone, Copy)]
pub struct Ways<'a> {
    pub returns: u32,
    pub loops: &'a [LoopWay],
}

/// How many scopes stay after a jump, and the block where it goes.
#[derive(Clone, Copy)]
pub struct JumpWay {
    pub base: usize,
    pub block: u32,
}

/// Where a jump goes. One that names no loop around it, which there is not, returns.
pub fn way_for(exit: Exit, ways: Ways) -> JumpWay
    ensures { (result.base ≡ (way_of (exit_of exit) (ways_of ways.entry)).base)
        × (result.block ≡ (way_of (exit_of exit) (ways_of ways.entry)).block) }
{
    match exit {
        Exit::Returns => JumpWay {
            base: 1,
            block: ways.returns,
        },
        Exit::Breaks(id) => out_of_loop(id, ways),
        Exit::Continues(id) => to_turn(id, ways),
    }
}

fn out_of_loop(id: NodeId, ways: Ways) -> JumpWay
    ensures { (result.base ≡ (spots.ways_of id.0 (ways_of ways.entry)).breaks.base)
        × (result.block ≡ (spots.ways_of id.0 (ways_of ways.entry)).breaks.block) }
{
    let loops = ways.loops;
    for around in loops {
        if around.id == id {
            return JumpWay {
                base: around.base,
                block: around.exit,
            };
        }
    }
    JumpWay {
        base: 1,
        block: ways.returns,
    }
}

fn to_turn(id: NodeId, ways: Ways) -> JumpWay
    ensures { (result.base ≡ (spots.ways_of id.0 (ways_of ways.entry)).continues.base)
        × (result.block ≡ (spots.ways_of id.0 (ways_of ways.entry)).continues.block) }
{
    let loops = ways.loops;
    for around in loops {
        if around.id == id {
            return JumpWay {
                base: around.base,
                block: around.turn,
            };
        }
    }
    JumpWay {
        base: 1,
        block: ways.returns,
    }
}

/// The loops in one more loop.
///
/// # Errors
///
/// [`NoMemory`] where memory is wanted.
pub fn in_loop(alloc: Global, way: LoopWay, loops: &[LoopWay]) -> Result<List<LoopWay>, NoMemory>
    ensures { IfOk result (λ inner. inner ≡ way ∷ loops.now) }
{
    let mut inner = List::new(alloc);
    inner.push(way)?;
    for around in loops {
        inner.push(*around)?;
    }
    Ok(inner)
}
