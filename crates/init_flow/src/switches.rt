//! Analyses whose ways turn bits on and off.
ghost use Rattle.std.specs.Prelude.{◌≡◌, map};
ghost use Rattle.init_flow.specs.Switches.{all_switched, result_switch, switch_by, taken, passed_by};

use crate::masks::Masks;
use bit_rows::BitRow;
use mir_base::List;

/// The bits of a path and of all paths below it turn on or off, where bits say what is gone.
#[derive(Clone, Copy)]
pub struct Switch {
    pub path: u32,
    pub on: bool,
}

/// What a block switches: its uses in order, and then the store of its result on the first way out of it, and on the
/// second.
#[derive(Drop)]
pub struct BlockSwitches {
    pub uses: List<Switch>,
    pub first: Option<Switch>,
    pub second: Option<Switch>,
}

impl BlockSwitches {
    fn result(&self, way: u32) -> Option<Switch>
        ensures { result ≡ result_switch self.now way }
    {
        if way == 0 { self.first } else { self.second }
    }
}

/// What is gone as a body starts, for each path the mask of the paths at or below it, and what each block switches.
#[derive(Drop)]
pub struct Switches {
    pub first: BitRow,
    pub below: Masks,
    pub blocks: List<BlockSwitches>,
}

impl Switches {
    fn switch(&self, gone: bool, switch: Switch, row: &mut BitRow)
        ensures { row.new ≡ switch_by self.now.below (taken gone switch) row.old }
    {
        let on = if gone { switch.on } else { !switch.on };
        self.below.turn(switch.path, on, row);
    }

    fn all(&self, gone: bool, switches: &[Switch], row: &mut BitRow)
        ensures { row.new ≡ all_switched self.now.below (map (taken gone) switches.now) row.old }
    {
        for switch in switches {
            self.switch(gone, *switch, row);
        }
    }

    /// Makes the row at the start of a block the one at the end of a way out of it. The row says what is gone, or what is
    /// present.
    pub fn pass(&self, gone: bool, block: u32, way: u32, row: &mut BitRow)
        ensures { row.new ≡ passed_by self.now gone block way row.old }
    {
        let Some(found) = self.blocks.get(block as usize) else {
            return;
        };
        self.all(gone, found.uses.as_slice(), row);
        if let Some(switch) = found.result(way) {
            self.switch(gone, switch, row);
        }
    }
}
