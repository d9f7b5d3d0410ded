//! How many drops are of each kind.
ghost use Rattle.std.specs.Prelude.{◌≡◌, ◌+◌, ◌≤◌, IfOk, OnOk, length};
ghost use Rattle.cfg_graph.specs.Places.{named};
ghost use Rattle.move_paths.specs.Trie.{AreOnce};
ghost use Rattle.drop_bodies.specs.Counts as counted;
ghost use Rattle.drop_bodies.specs.Counts.{totals_of, with_kind, kind_by, kind_at, AreCounts};
ghost use Rattle.drop_flags.specs.Flags.{HasRoom};

use cfg_graph::{Body, Place, Term};
use drop_ends::Decided;
use drop_flags::Flags;
use mir_base::NoMemory;
use move_paths::Forest;

/// How many drops of a body or a graph are of each kind, and how many flags it has.
#[derive(Clone, Copy)]
pub struct DropCounts {
    /// Nothing can be there: it is left out.
    pub dead: u32,
    /// All is there: it stays.
    pub plain: u32,
    /// Its flag tells whether it is there.
    pub conditional: u32,
    /// Parts of it are paths of their own, which are dropped one by one.
    pub opened: u32,
    pub flags: u32,
}

fn sum(one: u32, other: u32) -> Result<u32, NoMemory>
    ensures { IfOk result (λ sum. sum ≡ one + other) }
{
    one.checked_add(other).ok_or(NoMemory::past_32_bits())
}

/// Whether a path of the body lies a step below a place.
fn is_opened(forest: &Forest, place: &Place) -> bool
    requires { AreOnce forest.now.paths }
    ensures { result ≡ counted.is_opened forest.now.paths (named place.now) }
{
    match forest.exact(place) {
        Some(path) => !forest.children(path).is_empty(),
        None => false,
    }
}

impl DropCounts {
    /// No drop, and so many flags.
    pub fn new(flags: u32) -> DropCounts
        ensures { totals_of result ≡ counted.no_drops flags }
    {
        DropCounts {
            dead: 0,
            plain: 0,
            conditional: 0,
            opened: 0,
            flags,
        }
    }

    /// One drop more, by what is decided of it.
    fn count(&mut self, forest: &Forest, how: &Decided, place: &Place) -> Result<(), NoMemory>
        requires { AreOnce forest.now.paths }
        ensures { OnOk result (totals_of self.new
            ≡ with_kind (kind_by forest.now.paths (named place.now) how.now) (totals_of self.old)) }
    {
        match how {
            Decided::Dead => self.dead = sum(self.dead, 1)?,
            Decided::Plain => self.plain = sum(self.plain, 1)?,
            Decided::Planned(_) => {
                if is_opened(forest, place) {
                    self.opened = sum(self.opened, 1)?;
                } else {
                    self.conditional = sum(self.conditional, 1)?;
                }
            }
        }
        Ok(())
    }

    /// The drops and flags of another body besides.
    ///
    /// # Errors
    ///
    /// [`NoMemory`] where 32 bits do not count them.
    pub fn add(&mut self, other: DropCounts) -> Result<(), NoMemory>
        ensures { OnOk result (totals_of self.new ≡ counted.both (totals_of self.old) (totals_of other)) }
    {
        self.dead = sum(self.dead, other.dead)?;
        self.plain = sum(self.plain, other.plain)?;
        self.conditional = sum(self.conditional, other.conditional)?;
        self.opened = sum(self.opened, other.opened)?;
        self.flags = sum(self.flags, other.flags)?;
        Ok(())
    }
}

/// How many drops of a body are of each kind, by what is decided of the drop of each block, and how many flags it has.
pub fn counts_of(
    forest: &Forest,
    flags: &Flags,
    decided: &[Decided],
    body: &Body,
) -> Result<DropCounts, NoMemory>
    requires forest { AreOnce forest.now.paths }
    requires room { HasRoom flags.now }
    requires count { length decided.now ≡ length body.now.blocks }
    ensures { IfOk result (λ counts. AreCounts (kind_at forest.now.paths decided.now body.now.blocks) (length body.now.blocks)
        (length flags.now.paths) (totals_of counts)) }
{
    let mut counts = DropCounts::new(flags.paths.len() as u32);
    let mut number: usize = 0;
    for block in body.blocks.as_slice() {
        if let Term::DropAt { place, .. } = &block.term {
            counts.count(forest, &decided[number], place)?;
        }
        number += 1;
    }
    Ok(counts)
}
