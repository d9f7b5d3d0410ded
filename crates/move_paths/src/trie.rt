//! A forest of places as it grows: the locals, and the parts of paths.
ghost use Rattle.std.specs.Prelude.{◌≡◌, ℕ, ◌<◌, ◌⊎◌, ◌↔◌, [], ◌∷◌, Contains, length, slice_get, MatchOption, IfOk, OnOk, Some, true};
ghost use Rattle.std.specs.Option.{option_copied};
ghost use Rattle.store_model.specs.Places.Place.{Place as Named, whole_local};
ghost use Rattle.cfg_graph.specs.Places.{named};
ghost use Rattle.cfg_graph.specs.Moves.Gone.{is_at_or_above};
ghost use Rattle.move_paths.specs.Trie.{AreOnce, Reaches, Grows, roots, place_of};
ghost use Rattle.move_paths.specs.Forest.{IsRoot, IsStepBelow, IsPartOf, IsPathBelow, path_at};

use crate::parts::{Parts, PathPart};
use cfg_graph::{Place, Step};
use mir_base::NoMemory;
use std::alloc::Global;
use std::marker::Model;
use store_model::Path;

/// How far paths lead along a place: the last path, and how many steps of the place lead to it.
#[derive(Clone, Copy)]
pub struct Near {
    pub path: u32,
    pub depth: usize,
}

/// Places: the locals, and places that are a step below an earlier one.
#[derive(Drop)]
pub struct Trie {
    locals: u32,
    parts: Parts,
}

impl Model for Trie {
    ghost use Rattle.std.specs.Prelude.{List};
    ghost use Rattle.store_model.specs.Places.Place.{Place};
    ghost use Rattle.move_paths.specs.Trie.{IsTrie, places};

    ghost Value = { List Place };

    ghost view = { λ trie. places trie.locals trie.parts };

    ghost invariant = { λ trie. IsTrie trie.locals trie.parts };
}

impl Trie {
    /// So many locals, and nothing else.
    pub fn new(alloc: Global, locals: u32) -> Trie
        ensures { result ≡ roots locals }
    {
        Trie {
            locals,
            parts: Parts::new(alloc),
        }
    }

    /// How many paths there are.
    pub fn len(&self) -> u32
        ensures len { result ≡ length self.now }
        ensures once { AreOnce self.now }
    {
        self.locals + self.parts.len() as u32
    }

    /// The part that a path is; `None` exactly for a local.
    fn part(&self, path: u32) -> Option<&PathPart>
        requires { path < length self.now }
        ensures { MatchOption (option_copied result) (IsRoot self.now path) (IsPartOf self.now path) }
    {
        if path < self.locals {
            return None;
        }
        self.parts.get((path - self.locals) as usize)
    }

    /// The path above a path.
    pub fn parent(&self, path: u32) -> Option<u32>
        requires { path < length self.now }
        ensures { MatchOption result (IsRoot self.now path) (λ upper. IsStepBelow self.now upper path) }
    {
        let part = self.part(path)?;
        Some(part.of)
    }

    /// The path a step below a path, if there is one.
    pub fn child(&self, path: u32, step: Step) -> Option<u32>
        requires { path < length self.now }
        ensures { IsPathBelow self.now path step result }
    {
        let part = PathPart { of: path, step };
        let Some(n) = self.parts.find(&part) else {
            return None;
        };
        Some(self.locals + n as u32)
    }

    /// The place of a path.
    pub fn place(&self, alloc: Global, path: u32) -> Result<Place, NoMemory>
        requires { path < length self.now }
        ensures { IfOk result (λ place. named place ≡ path_at self.entry.now path) }
    {
        let Some(part) = self.part(path) else {
            return Ok(Place {
                local: path,
                steps: Path::new(alloc),
            });
        };
        let mut place = self.place(alloc, part.of)?;
        place.steps.push(part.step)?;
        Ok(place)
    }

    /// How far paths lead along a place.
    pub fn nearest(&self, place: &Place) -> Near
        requires { slice_get self.now place.now.local ≡ Some (whole_local place.now.local) }
        ensures { Reaches self.now (named place.now) result }
    {
        let mut path = place.local;
        let mut depth = 0;
        for step in place.steps.as_slice() {
            let part = PathPart {
                of: path,
                step: *step,
            };
            let Some(n) = self.parts.find(&part) else {
                return Near { path, depth };
            };
            path = self.locals + n as u32;
            depth += 1;
        }
        Near { path, depth }
    }

    fn step_from(&mut self, of: u32, step: Step) -> Result<u32, NoMemory>
        requires { of < length self.old }
        ensures path { IfOk result (λ path. slice_get self.new path ≡ Some (place_of self.old (record { of = of; step = step }))) }
        ensures grows { OnOk result (Grows self.old self.new (place_of self.old (record { of = of; step = step }))) }
    {
        if self.locals as usize + self.parts.len() >= u32::MAX as usize {
            return Err(NoMemory::past_32_bits());
        }
        let n = self.parts.number(PathPart { of, step })?;
        Ok(self.locals + n as u32)
    }

    /// Makes a place and its containers paths.
    pub fn insert(&mut self, place: &Place) -> Result<(), NoMemory>
        requires { slice_get self.old place.now.local ≡ Some (whole_local place.now.local) }
        ensures kept { OnOk result ((n : ℕ) (q : Named) → slice_get self.old n ≡ Some q → slice_get self.new n ≡ Some q) }
        ensures paths { OnOk result ((q : Named) → Contains self.new q ↔ (Contains self.old q ⊎ (is_at_or_above q (named place.now) ≡ true))) }
    {
        let mut path = place.local;
        for step in place.steps.as_slice() {
            path = self.step_from(path, *step)?;
        }
        Ok(())
    }
}
