//! How a drop begins, and how it goes on after a `Drop` body.
ghost use Rattle.machine_steps.specs.Turns.{IsDropOf, IsResumedBy};

use crate::{Drops, Turn};
use machine_store::Dynamic;
use mir_base::List;
use std::alloc::Global;
use store_model::Addr;

impl Drops {
    /// The drop of what stands at an address; `unwinds` where it is made while a panic unwinds. Its first turn visits
    /// the address, and expects what was found there.
    pub fn of(alloc: Global, address: Addr, unwinds: bool) -> Drops
        ensures { IsDropOf address unwinds result }
    {
        Drops {
            address,
            levels: List::new(alloc),
            unwinds,
            panicked: false,
            sweeps: true,
        }
    }

    /// Goes on after the `Drop` body of what stands at the address, found so, has ended, by unwinding where it
    /// panicked. `None` comes exactly where that is a panic while a panic unwinds.
    pub fn resume(&mut self, dynamic: Dynamic, panicked: bool) -> Option<Turn>
        ensures { IsResumedBy dynamic panicked self.old self.new result }
    {
        if panicked {
            if self.unwinds {
                return None;
            }
            self.unwinds = true;
            self.panicked = true;
        }
        Some(Turn::Visits {
            has_run: true,
            expected: Some(dynamic),
        })
    }
}
