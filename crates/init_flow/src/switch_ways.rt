//! What each way out of a block switches.
ghost use Rattle.std.specs.Prelude.{◌≡◌, ◌<◌, ◌*◌, ◌+◌, ◌++◌, ℕ, [], ◌∷◌, Some, true, map, flat_map, length, slice_get, slice_index_or, IfOk, OnOk};
ghost use Rattle.std.specs.Option.{option_copied};
ghost use Rattle.cfg_graph.specs.declared.graph.Block.{Block as GraphBlock};
ghost use Rattle.cfg_graph.specs.Moves.Gone.{leaves_gone};
ghost use Rattle.cfg_graph.specs.Uses as graph;
ghost use Rattle.move_paths.specs.Uses.{inner_uses, listed, use_of, optional};
ghost use Rattle.init_flow.specs.Fits.{Fits, FitsBlock, IsSwitch, AreSwitched, way_result, leads_on};
ghost use Rattle.init_flow.specs.Switches.{at_most_one};

use crate::switches::{BlockSwitches, Switch};
use cfg_graph::{Block, Place, Term, Unwind};
use mir_base::{List, NoMemory};
use move_paths::{Forest, Use, Used};
use std::alloc::Global;

fn leaves(how: Use) -> Option<bool>
    ensures { result ≡ leaves_gone (use_of how) }
{
    match how {
        Use::Moves | Use::Drops | Use::Frees => Some(true),
        Use::Stores => Some(false),
        _ => None,
    }
}

/// What a use of a place switches, where bits say what is gone or what is not.
pub fn switch_of(forest: &Forest, how: Use, place: &Place, gone: bool) -> Option<Switch>
    ensures { IsSwitch forest.now.paths gone (use_of how, place.now) result }
{
    let takes = leaves(how)?;
    let path = forest.exact(place)?;
    Some(Switch {
        path,
        on: if gone { takes } else { !takes },
    })
}

fn add_use(
    switches: &mut List<Switch>,
    forest: &Forest,
    how: Use,
    place: &Place,
) -> Result<(), NoMemory>
    ensures { OnOk result (AreSwitched forest.now.paths true switches.old switches.new ((use_of how, place.now) ∷ [])) }
{
    match switch_of(forest, how, place, true) {
        Some(switch) => switches.push(switch),
        None => Ok(()),
    }
}

fn add_uses(switches: &mut List<Switch>, forest: &Forest, uses: &[Used<'_>]) -> Result<(), NoMemory>
    ensures { OnOk result (AreSwitched forest.now.paths true switches.old switches.new (listed uses.now)) }
{
    for used in uses {
        add_use(switches, forest, used.how, used.place)?;
    }
    Ok(())
}

/// What uses switch, one use after another.
fn use_switches(alloc: Global, forest: &Forest, uses: &[Used<'_>]) -> Result<List<Switch>, NoMemory>
    ensures { IfOk result (λ switches. Fits forest.now.paths true switches (listed uses.now)) }
{
    let mut switches = List::new(alloc);
    add_uses(&mut switches, forest, uses)?;
    Ok(switches)
}

/// Whether a way of a terminator that stores its result leads to where it goes on.
fn is_onward(then: u32, unwind: &Unwind, way: u32) -> bool
    ensures { result ≡ leads_on then unwind.now way }
{
    way == 0 || (way == 1 && matches!(unwind, Unwind::Block(block) if *block == then))
}

/// Where a way out of a terminator stores its result.
fn result_on(term: &Term, way: u32) -> Option<&Place>
    ensures { optional (option_copied result) ≡ way_result term.now way }
{
    match term {
        Term::Math {
            to,
            then,
            unwind,
            ..
        }
        | Term::Negate {
            to,
            then,
            unwind,
            ..
        }
        | Term::Call {
            to,
            then,
            unwind,
            ..
        }
        | Term::Virtual {
            to,
            then,
            unwind,
            ..
        }
        | Term::Ask { to, then, unwind } => {
            if is_onward(*then, unwind, way) {
                Some(to)
            } else {
                None
            }
        }
        _ => None,
    }
}

/// What the store of a result on a way out of a terminator switches.
fn result_switch(forest: &Forest, term: &Term, way: u32) -> Option<Switch>
    ensures { Fits forest.now.paths true (at_most_one result) (map (λ place. (graph.Stores, place)) (way_result term.now way)) }
{
    match result_on(term, way) {
        Some(place) => switch_of(forest, Use::Stores, place, true),
        None => None,
    }
}

/// What a block switches, by the uses within it.
pub fn block_switches(
    alloc: Global,
    forest: &Forest,
    block: &Block,
    uses: &[Used<'_>],
) -> Result<BlockSwitches, NoMemory>
    requires { listed uses.now ≡ inner_uses block.now }
    ensures { IfOk result (λ made. FitsBlock forest.now.paths (Some made) block.now) }
{
    let uses = use_switches(alloc, forest, uses)?;
    Ok(BlockSwitches {
        uses,
        first: result_switch(forest, &block.term, 0),
        second: result_switch(forest, &block.term, 1),
    })
}
