//! The paths that have flags, and where those of a local stand among them.
ghost use Rattle.std.specs.Prelude.{◌≡◌, ◌+◌, ◌<◌, ◌^◌, ◌↔◌, [], IfOk, OnOk, IsTrue, length, slice_index_or};
ghost use Rattle.drop_flags.specs.Spans.{AreSpans, IsLonger, IsNear, IsWider, nowhere};

use cfg_graph::Place;
use mir_base::{List, NoMemory};
use std::alloc::Global;
use std::marker::Model;

/// The numbers from one up to another one, without that.
#[derive(Clone, Copy)]
pub struct Span {
    from: usize,
    end: usize,
}

/// The paths that have flags, in the order of these. Of each local it is known between which numbers its paths stand.
#[derive(Drop)]
pub struct FlagPaths {
    list: List<Place>,
    spans: List<Span>,
}

impl Model for FlagPaths {
    ghost use Rattle.std.specs.Prelude.{List as Listed};
    ghost use Rattle.cfg_graph.specs.declared.place.Place.{Place as GraphPlace};
    ghost use Rattle.drop_flags.specs.Spans.{AreSpans};

    ghost Value = { Listed GraphPlace };

    ghost view = { λ paths. paths.list };

    ghost invariant = { λ paths. AreSpans paths.list paths.spans };
}

/// Paths that stand side by side among those that have flags.
#[derive(Clone, Copy)]
pub struct Near<'a> {
    /// The number of the first one.
    pub first: usize,
    pub paths: &'a [Place],
}

fn span_at(spans: &[Span], local: u32) -> Span
    ensures { result ≡ slice_index_or spans.now local nowhere }
{
    match spans.get(local as usize) {
        Some(span) => *span,
        None => Span { from: 0, end: 0 },
    }
}

/// Makes room for the span of a local.
fn reach(spans: &mut List<Span>, local: u32) -> Result<(), NoMemory>
    ensures { OnOk result (IsLonger spans.old spans.new local) }
{
    while spans.len() <= local as usize {
        spans.push(Span { from: 0, end: 0 })?;
    }
    Ok(())
}

/// The next path is of this local.
fn widen(spans: &mut List<Span>, local: u32, number: usize) -> Result<(), NoMemory>
    requires { number + 1 < 2 ^ 64 }
    ensures { OnOk result (IsWider spans.old spans.new local number) }
{
    reach(spans, local)?;
    let span = span_at(spans.as_slice(), local);
    let from = if span.from < span.end {
        span.from
    } else {
        number
    };
    let end = number + 1;
    spans.set(local as usize, Span { from, end });
    Ok(())
}

fn spans_of(alloc: Global, paths: &[Place]) -> Result<List<Span>, NoMemory>
    ensures { IfOk result (λ spans. AreSpans paths.now spans) }
{
    let mut spans = List::new(alloc);
    let mut number: usize = 0;
    for path in paths {
        widen(&mut spans, path.local, number)?;
        number += 1;
    }
    Ok(spans)
}

impl FlagPaths {
    /// These paths, in their order. Where they stand is kept in memory of the same allocator.
    pub fn new(list: List<Place>) -> Result<FlagPaths, NoMemory>
        ensures { IfOk result (λ paths. paths ≡ list) }
    {
        let list = list.into_vec();
        let spans = spans_of(*list.allocator(), list.as_slice())?;
        Ok(FlagPaths {
            list: List::from_vec(list),
            spans,
        })
    }

    pub fn as_slice(&self) -> &[Place]
        ensures { result.now ≡ self.now }
    {
        self.list.as_slice()
    }

    pub fn len(&self) -> usize
        ensures { result ≡ length self.now }
    {
        self.list.len()
    }

    pub fn is_empty(&self) -> bool
        ensures { IsTrue result ↔ (self.now ≡ []) }
    {
        self.list.is_empty()
    }

    /// Paths among which are all that begin with a local.
    pub fn near(&self, local: u32) -> Near<'_>
        ensures { IsNear self.now local result.first result.paths.now }
    {
        let span = span_at(self.spans.as_slice(), local);
        Near {
            first: span.from,
            paths: &self.list.as_slice()[span.from..span.end],
        }
    }
}
