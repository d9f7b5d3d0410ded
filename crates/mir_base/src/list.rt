ghost use Rattle.std.specs.Prelude.{◌≡◌, ◌<◌, ◌≤◌, ◌^◌, [], ◌∷◌, ◌++◌, ◌↔◌, length, take, slice_get, slice_set, IsTrue, MatchOption, OnOk, OnErr, Some};
ghost use Rattle.std.specs.Option.{option_copied};
ghost use Rattle.std.specs.Borrow.{sem};
ghost use Rattle.std.specs.Iterator.Adapters.{IterYieldsInOrder};
ghost use Rattle.std.specs.Iterator.Runs.{EveryRun, ItemsAre};
ghost use Rattle.std.specs.Slice.Iter.{iter_rest};
ghost use Rattle.std.specs.Vec.Iter.{into_iter_items, into_iter_len, into_iter_steps};
ghost use Rattle.std.specs.declared.alloc.Global.{Global as heap};
ghost use Rattle.std.specs.Cmp.Lexicographic.{pointwise, lists_per, lists_equiv};
ghost use Rattle.std.specs.Hash as fed;
ghost use Rattle.std.specs.Hash.{items_Alike};
ghost use Rattle.mir_base.specs.Lending.{LendsElement};

use crate::NoMemory;
use std::alloc::Global;
use std::hash::{Hash, Hasher};
use std::marker::Model;
use std::slice::Iter;
use std::vec::IntoIter;

/// A `Vec` that contracts see as the list of its elements: two of them are equal where their elements
/// are, wherever they lie and however much room they have.
#[derive(Drop)]
pub struct List<T> {
    elements: Vec<T>,
}

impl<T> Model for List<T> {
    ghost use Rattle.std.specs.Prelude.{List as Listed};
    ghost use Rattle.std.specs.Coded.{coded_list};

    ghost Value = { Listed T };

    ghost coded = { coded_list T.code };

    ghost view = { λ list. list.elements.items };
}

impl<T> List<T> {
    /// A list without elements. It takes no memory.
    pub fn new(alloc: Global) -> List<T>
        ensures { result ≡ [] }
    {
        List {
            elements: Vec::new(alloc),
        }
    }

    /// The elements of a `Vec`, without taking memory.
    pub fn from_vec(elements: Vec<T>) -> List<T>
        ensures { result ≡ elements.items }
    {
        List { elements }
    }

    /// The elements as a `Vec`, without taking memory.
    pub fn into_vec(self) -> Vec<T>
        ensures { result.items ≡ self }
    {
        let List { elements } = self;
        elements
    }

    pub fn as_slice(&self) -> &[T]
        ensures { result.now ≡ self.now }
    {
        self.elements.as_slice()
    }

    pub fn len(&self) -> usize
        ensures { result ≡ length self.now }
    {
        self.elements.len()
    }

    pub fn is_empty(&self) -> bool
        ensures { IsTrue result ↔ (self.now ≡ []) }
    {
        self.elements.is_empty()
    }

    /// The element at an index from 0, and `None` past the end.
    pub fn get(&self, index: usize) -> Option<&T>
        ensures { option_copied result ≡ slice_get self.now index }
    {
        self.elements.get(index)
    }

    /// The element at an index from 0, to be changed in its place.
    pub fn element_mut(&mut self, index: usize) -> &mut T
        requires { index < length self.old }
        ensures* writes_back { sem 𝓛 (LendsElement T.row self.entry index result) }
        ensures value { slice_get self.old index ≡ Some result.now }
    {
        &mut self.elements[index]
    }

    /// The elements in order.
    pub fn iter(&self) -> Iter<'_, T>
        ensures rest { iter_rest result ≡ self.now }
        ensures bound { length (iter_rest result) < 2 ^ 64 }
        ensures runs { IterYieldsInOrder T }
    {
        self.elements.as_slice().iter()
    }

    /// Takes the last element away; `None` comes where there is none.
    pub fn pop(&mut self) -> Option<T>
        ensures { MatchOption result ((self.old ≡ []) × (self.new ≡ [])) (λ last. self.old ≡ self.new ++ last ∷ []) }
    {
        self.elements.pop()
    }
}

impl<T: Drop> List<T> {
    /// Puts an element in the place of the one at an index from 0, which is dropped.
    pub fn set(&mut self, index: usize, element: T)
        requires { index < length self.old }
        ensures { self.new ≡ slice_set self.old index element }
    {
        self.elements[index] = element;
    }

    /// Keeps the first `count` elements, or all where there are no more, and drops the others.
    pub fn truncate(&mut self, count: usize)
        ensures { self.new ≡ take count self.old }
    {
        self.elements.truncate(count);
    }

    /// Makes the element the last one. Where memory is wanted the list is as it was, and the element is
    /// dropped.
    pub fn push(&mut self, element: T) -> Result<(), NoMemory>
        ensures pushed { OnOk result (self.new ≡ self.old ++ element ∷ []) }
        ensures refused { OnErr result (self.new ≡ self.old) }
    {
        self.elements.push(element)?;
        Ok(())
    }
}

impl<'a, T> IntoIterator for &'a List<T> {
    type Item = &'a T;

    type IntoIter = Iter<'a, T>;

    ghost into_iter_gives = { λ list it. (iter_rest it ≡ list.now) × (length (iter_rest it) < 2 ^ 64) × IterYieldsInOrder T };

    fn into_iter(self) -> Iter<'a, T> {
        self.iter()
    }
}

impl<T: Drop> IntoIterator for List<T> {
    type Item = T;

    type IntoIter = IntoIter<T>;

    ghost into_iter_gives = { λ list it. (into_iter_items it ≡ list) × (into_iter_len it ≡ length list) × (into_iter_len it < 2 ^ 64) × EveryRun (into_iter_steps {X = T} {Z = heap}) (λ run. ItemsAre run (into_iter_items run.from)) };

    fn into_iter(self) -> IntoIter<T> {
        self.into_vec().into_iter()
    }
}

impl<T> From<Vec<T>> for List<T> {
    ghost from_gives = { λ elements list. list ≡ elements.items };

    fn from(elements: Vec<T>) -> List<T> {
        List::from_vec(elements)
    }
}

impl<T> From<List<T>> for Vec<T> {
    ghost from_gives = { λ list elements. elements.items ≡ list };

    fn from(list: List<T>) -> Vec<T> {
        list.into_vec()
    }
}

impl<T: PartialEq> PartialEq for List<T> {
    ghost eq = { pointwise T.eq };

    ghost laws = { lists_per T.laws };

    fn eq(&self, other: &List<T>) -> bool {
        self.elements == other.elements
    }
}

impl<T: Eq> Eq for List<T> {
    ghost laws = { lists_equiv T.Eq.laws };
}

impl<T: Hash> Hash for List<T> {
    ghost hash_input = { fed.slice T.hash_input };

    ghost respects_eq = { (items_Alike (record { fed = T.respects_eq })).fed };

    fn hash<H: Hasher>(&self, state: &mut H) {
        self.elements.hash(state);
    }
}
