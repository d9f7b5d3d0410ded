//! Bodies whose lists are counted by 32 bits.
ghost use Rattle.std.specs.Prelude.{◌≡◌, true};
ghost use Rattle.cfg_graph.specs.WellFormed.Faults.{IsCountedBody};

use cfg_graph::Body;

/// A list with as many members is not counted.
const MANY: usize = u32::MAX as usize;

/// Whether the locals, the blocks and the lines of each block are fewer than that.
pub fn is_counted(body: &Body) -> bool
    ensures { result ≡ true → IsCountedBody body.now }
{
    if body.locals.len() >= MANY || body.blocks.len() >= MANY {
        return false;
    }
    for block in body.blocks.as_slice() {
        if block.stmts.len() >= MANY {
            return false;
        }
    }
    true
}
