//! The search for the least list of choices that reaches a bad use.
//!
//! Runs wait in the order of their lists of choices, shorter ones first, and of one length in order. The first of them
//! is visited where its row has a path gone that no run before it brought to its point, or none was there; else what it
//! could meet is met along a lesser list.
ghost use Rattle.std.specs.Prelude.{◌≡◌, ◌≢◌, ◌⊎◌, ◌↔◌, ◌<◌, ◌≤◌, ◌+◌, ◌*◌, ◌∷◌, ◌++◌, [], IsTrue, IsFalse, IfOk, OnOk, IfSome, None, Some, option_map, length, replicate, slice_index_or, slice_set, true, false};
ghost use Rattle.bit_rows.specs.Words.{union};
ghost use Rattle.move_errors.specs.Rows.{IsWatched, after, first_by, state};
ghost use Rattle.move_errors.specs.Runs.{action_of, acts_at, problem};
ghost use Rattle.move_errors.specs.Stands.{Stands, IsFound, MeetsNoBad, remaining, pushed_items, chosen_items};

use crate::{Act, Acts, Onward, Point, Stage, Watch, first_bad, goes_on};
use bit_rows::BitRow;
use mir_base::{List, NoMemory};
use std::alloc::Global;
use std::collections::VecDeque;

/// A run as it comes to a point: from which visit, and the choice that it gave on the way.
#[derive(Clone, Copy)]
pub struct Visit {
    pub at: Point,
    pub from: Option<u32>,
    pub choice: Option<bool>,
}

/// A run that waits, and what is gone there.
#[derive(Drop)]
pub struct Waiting {
    pub visit: Visit,
    pub row: BitRow,
}

/// What was brought to each point, whether it was reached, the visits, and the runs that wait.
#[derive(Drop)]
pub struct Search {
    pub seen: List<BitRow>,
    pub reached: List<bool>,
    pub visits: List<Visit>,
    pub queue: VecDeque<Waiting>,
}

/// A bad use, and the number of the visit of the run that meets it.
#[derive(Clone, Copy)]
pub struct FoundUse<'a> {
    pub visit: u32,
    pub act: Act<'a>,
}

fn empty_rows(alloc: Global, bits: u32, count: usize) -> Result<List<BitRow>, NoMemory>
    ensures { IfOk result (λ rows. rows ≡ replicate count (replicate bits false)) }
{
    let mut rows = List::new(alloc);
    for _ in 0..count {
        rows.push(BitRow::new(alloc, bits)?)?;
    }
    Ok(rows)
}

fn copy_of(alloc: Global, row: &BitRow) -> Result<BitRow, NoMemory>
    ensures { IfOk result (λ copy. copy ≡ row.now) }
{
    let mut copy = BitRow::new(alloc, row.len())?;
    row.copy_into(&mut copy);
    Ok(copy)
}

impl Search {
    fn new(alloc: Global, bits: u32, points: usize) -> Result<Search, NoMemory>
        ensures seen { IfOk result (λ search. search.seen ≡ replicate points (replicate bits false)) }
        ensures reached { IfOk result (λ search. search.reached ≡ replicate points false) }
        ensures visits { IfOk result (λ search. search.visits ≡ []) }
        ensures queue { IfOk result (λ search. search.queue.items ≡ []) }
    {
        Ok(Search {
            seen: empty_rows(alloc, bits, points)?,
            reached: List::from_vec(vec![in alloc; false; points]?),
            visits: List::new(alloc),
            queue: VecDeque::new(alloc),
        })
    }

    fn unite(&mut self, at: usize, row: &BitRow) -> bool
        requires at { at < length self.old.seen }
        requires row { length row.now ≡ length (slice_index_or self.old.seen at []) }
        ensures seen { self.new.seen ≡ slice_set self.old.seen at (union row.now (slice_index_or self.old.seen at [])) }
        ensures change { IsFalse result ↔ (union row.now (slice_index_or self.old.seen at []) ≡ slice_index_or self.old.seen at []) }
        ensures reached { self.new.reached ≡ self.old.reached }
        ensures visits { self.new.visits ≡ self.old.visits }
        ensures queue { self.new.queue ≡ self.old.queue }
    {
        row.or_into(self.seen.element_mut(at))
    }

    fn was_reached(&self, at: usize) -> bool
        requires { at < length self.now.reached }
        ensures { result ≡ slice_index_or self.now.reached at false }
    {
        self.reached.as_slice()[at]
    }

    /// Brings a row to a point, and says whether it brought a path that is gone, or was the first.
    fn bring(&mut self, at: usize, row: &BitRow) -> bool
        requires seen { at < length self.old.seen }
        requires reached { at < length self.old.reached }
        requires row { length row.now ≡ length (slice_index_or self.old.seen at []) }
        ensures seen { self.new.seen ≡ slice_set self.old.seen at (union row.now (slice_index_or self.old.seen at [])) }
        ensures reached { self.new.reached ≡ slice_set self.old.reached at true }
        ensures visits { self.new.visits ≡ self.old.visits }
        ensures queue { self.new.queue ≡ self.old.queue }
        ensures old { IsFalse result → (union row.now (slice_index_or self.old.seen at []) ≡ slice_index_or self.old.seen at []) × (slice_index_or self.old.reached at false ≡ true) }
        ensures fresh { IsTrue result → (union row.now (slice_index_or self.old.seen at []) ≢ slice_index_or self.old.seen at []) ⊎ (slice_index_or self.old.reached at false ≡ false) }
    {
        let was_reached = self.was_reached(at);
        let changed = self.unite(at, row);
        self.reached.set(at, true);
        changed || !was_reached
    }

    fn visit(&mut self, visit: Visit) -> Result<u32, NoMemory>
        ensures number { IfOk result (λ number. number ≡ length self.old.visits) }
        ensures visits { OnOk result (self.new.visits ≡ self.old.visits ++ visit ∷ []) }
        ensures seen { self.new.seen ≡ self.old.seen }
        ensures reached { self.new.reached ≡ self.old.reached }
        ensures queue { self.new.queue ≡ self.old.queue }
    {
        let Ok(number) = u32::try_from(self.visits.len()) else {
            return Err(NoMemory::past_32_bits());
        };
        self.visits.push(visit)?;
        Ok(number)
    }

    fn wait_first(&mut self, waiting: Waiting) -> Result<(), NoMemory>
        ensures queue { OnOk result (self.new.queue.items ≡ waiting ∷ self.old.queue.items) }
        ensures seen { self.new.seen ≡ self.old.seen }
        ensures reached { self.new.reached ≡ self.old.reached }
        ensures visits { self.new.visits ≡ self.old.visits }
    {
        match self.queue.push_front(waiting) {
            Ok(()) => Ok(()),
            Err(_) => Err(NoMemory),
        }
    }

    fn wait_last(&mut self, waiting: Waiting) -> Result<(), NoMemory>
        ensures queue { OnOk result (self.new.queue.items ≡ self.old.queue.items ++ waiting ∷ []) }
        ensures seen { self.new.seen ≡ self.old.seen }
        ensures reached { self.new.reached ≡ self.old.reached }
        ensures visits { self.new.visits ≡ self.old.visits }
    {
        match self.queue.push_back(waiting) {
            Ok(()) => Ok(()),
            Err(_) => Err(NoMemory),
        }
    }

    /// Lets a choice wait, if there is a way by it.
    fn choose(
        &mut self,
        alloc: Global,
        from: u32,
        row: &BitRow,
        to: Option<Point>,
        choice: bool,
    ) -> Result<(), NoMemory>
        ensures queue { OnOk result (self.new.queue.items ≡ self.old.queue.items ++ chosen_items from row.now to choice) }
        ensures seen { self.new.seen ≡ self.old.seen }
        ensures reached { self.new.reached ≡ self.old.reached }
        ensures visits { self.new.visits ≡ self.old.visits }
    {
        let Some(at) = to else {
            return Ok(());
        };
        self.wait_last(Waiting {
            visit: Visit {
                at,
                from: Some(from),
                choice: Some(choice),
            },
            row: copy_of(alloc, row)?,
        })
    }

    /// Goes on from a visit: without a choice at once, by choices after all that wait.
    fn go_on(
        &mut self,
        alloc: Global,
        from: u32,
        row: BitRow,
        onward: Onward,
    ) -> Result<(), NoMemory>
        ensures queue { OnOk result (self.new.queue.items ≡ pushed_items onward from row self.old.queue.items) }
        ensures seen { self.new.seen ≡ self.old.seen }
        ensures reached { self.new.reached ≡ self.old.reached }
        ensures visits { self.new.visits ≡ self.old.visits }
    {
        match onward {
            Onward::Nowhere => Ok(()),
            Onward::Silent(at) => self.wait_first(Waiting {
                visit: Visit {
                    at,
                    from: Some(from),
                    choice: None,
                },
                row,
            }),
            Onward::Choices(none, one) => {
                self.choose(alloc, from, &row, none, false)?;
                self.choose(alloc, from, &row, one, true)
            }
        }
    }
}

/// The first of what is done at a point that is bad. Where there is none, the row becomes the one behind all of it.
fn bad_at<'a>(
    alloc: Global,
    watch: &Watch<'a>,
    at: Point,
    row: &mut BitRow,
) -> Result<Option<Act<'a>>, NoMemory>
    requires watched { IsWatched watch.now.items.now watch.now.body.now watch.now.forest watch.now.below }
    requires row { length row.old ≡ length watch.now.forest.paths }
    ensures first { IfOk result (λ bad. option_map (action_of at.block) bad ≡ first_by watch.now.items.now watch.now.body.now
        watch.now.forest.paths (acts_at watch.now.items.now watch.now.body.now at.block at.stage) row.old) }
    ensures after { IfOk result (λ bad. bad ≡ None → row.new ≡ after watch.now.items.now watch.now.body.now
        watch.now.forest.paths (acts_at watch.now.items.now watch.now.body.now at.block at.stage) row.old) }
{
    let mut done = Acts::new(alloc);
    done.fill(watch.items, watch.body, at)?;
    Ok(first_bad(watch, done.acts.as_slice(), row))
}

/// Takes up a run that waited.
fn turn<'a>(
    alloc: Global,
    watch: &Watch<'a>,
    search: &mut Search,
    item: Waiting,
) -> Result<Option<FoundUse<'a>>, NoMemory>
    requires watched { IsWatched watch.now.items.now watch.now.body.now watch.now.forest watch.now.below }
    requires stands { Stands (problem watch.now.items.now watch.now.body.now watch.now.forest.paths) search.old (item ∷ search.old.queue.items) }
    ensures stands { IfOk result (λ found. found ≡ None → Stands (problem watch.now.items.now watch.now.body.now watch.now.forest.paths) search.new search.new.queue.items) }
    ensures found { IfOk result (λ found. IfSome found (λ bad. IsFound watch.now.items.now watch.now.body.now watch.now.forest.paths search.new.visits bad)) }
    ensures less { OnOk result (remaining search.new ≤ remaining search.old) }
{
    if !search.bring(item.visit.at.index(), &item.row) {
        return Ok(None);
    }
    let number = search.visit(item.visit)?;
    let mut row = item.row;
    if let Some(act) = bad_at(alloc, watch, item.visit.at, &mut row)? {
        return Ok(Some(FoundUse { visit: number, act }));
    }
    let onward = goes_on(watch.items, watch.body, item.visit.at);
    search.go_on(alloc, number, row, onward)?;
    Ok(None)
}

/// The run that waits at the beginning.
fn begin(
    alloc: Global,
    watch: &Watch<'_>,
    search: &mut Search,
    first: BitRow,
) -> Result<(), NoMemory>
    requires seen { search.old.seen ≡ replicate (length watch.now.body.now.blocks * 4) (replicate (length watch.now.forest.paths) false) }
    requires reached { search.old.reached ≡ replicate (length watch.now.body.now.blocks * 4) false }
    requires visits { search.old.visits ≡ [] }
    requires queue { search.old.queue.items ≡ [] }
    requires watched { IsWatched watch.now.items.now watch.now.body.now watch.now.forest watch.now.below }
    requires row { first ≡ state watch.now.items.now watch.now.body.now watch.now.forest.paths [] }
    ensures { OnOk result (Stands (problem watch.now.items.now watch.now.body.now watch.now.forest.paths) search.new search.new.queue.items) }
{
    search.wait_first(Waiting {
        visit: Visit {
            at: Point {
                block: 0,
                stage: Stage::Entry,
            },
            from: None,
            choice: None,
        },
        row: first,
    })
}

/// A bad use, and the visits by which a least run comes to it.
#[derive(Drop)]
pub struct Trace<'a> {
    pub visits: List<Visit>,
    pub found: FoundUse<'a>,
}

/// The bad use that the first of the runs meets that wait, or come from those.
fn first_found<'a>(
    alloc: Global,
    watch: &Watch<'a>,
    search: &mut Search,
) -> Result<Option<FoundUse<'a>>, NoMemory>
    requires watched { IsWatched watch.now.items.now watch.now.body.now watch.now.forest watch.now.below }
    requires stands { Stands (problem watch.now.items.now watch.now.body.now watch.now.forest.paths) search.old search.old.queue.items }
    ensures found { IfOk result (λ found. IfSome found (λ bad. IsFound watch.now.items.now watch.now.body.now watch.now.forest.paths search.new.visits bad)) }
    ensures none { IfOk result (λ found. found ≡ None → MeetsNoBad (problem watch.now.items.now watch.now.body.now watch.now.forest.paths)) }
{
    while let Some(item) = search.queue.pop_front() {
        if let Some(found) = turn(alloc, watch, search, item)? {
            return Ok(Some(found));
        }
    }
    Ok(None)
}

/// How many points the blocks of a body have.
fn point_count(blocks: usize) -> Result<usize, NoMemory>
    ensures { IfOk result (λ count. count ≡ blocks * 4) }
{
    blocks.checked_mul(4).ok_or(NoMemory::past_32_bits())
}

/// The first bad use that a body meets along the least of the shortest lists of choices that reach one; `None` where
/// none does. Time is in proportion to the points times the paths of the body, each time with the words of a row.
pub fn least_bad<'a>(
    alloc: Global,
    watch: &Watch<'a>,
    first: BitRow,
) -> Result<Option<Trace<'a>>, NoMemory>
    requires watched { IsWatched watch.now.items.now watch.now.body.now watch.now.forest watch.now.below }
    requires row { first ≡ state watch.now.items.now watch.now.body.now watch.now.forest.paths [] }
    ensures found { IfOk result (λ trace. IfSome trace (λ way. IsFound watch.now.items.now watch.now.body.now watch.now.forest.paths way.visits way.found)) }
    ensures none { IfOk result (λ trace. trace ≡ None → MeetsNoBad (problem watch.now.items.now watch.now.body.now watch.now.forest.paths)) }
{
    let count = point_count(watch.body.blocks.len())?;
    let mut search = Search::new(alloc, watch.forest.len(), count)?;
    begin(alloc, watch, &mut search, first)?;
    match first_found(alloc, watch, &mut search) {
        Ok(Some(found)) => Ok(Some(Trace {
            visits: search.visits,
            found,
        })),
        Ok(None) => {
            drop(search);
            Ok(None)
        }
        Err(error) => {
            drop(search);
            Err(error)
        }
    }
}
