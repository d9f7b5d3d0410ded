//! The path type of values and of places.
ghost use Rattle.std.specs.Prelude.{◌≡◌, [], ◌∷◌, ◌++◌, IfOk, OnOk, OnErr};

use mir_base::NoMemory;
use smallvec::SmallVec;
use std::alloc::Global;
use std::marker::Model;

/// A path: the steps from a value, or from a local, to a part of it, outermost first. Up to one of them takes no memory:
/// most places of a program are a local, or one step from it, and a graph holds many. Contracts see it as the list of its
/// steps.
pub struct Path<S: Drop> {
    steps: SmallVec<S, 1, Global>,
}

/// As a derived one; but written here, it is proved here, and not again in each crate in which a path ends.
impl<S: Drop> Drop for Path<S> {
    fn drop(self) {
        let Path { steps } = self;
        drop(steps);
    }
}

impl<S: Drop> Model for Path<S> {
    ghost use Rattle.std.specs.Prelude.{List};

    ghost Value = { List S };

    ghost view = { λ path. path.steps.items };
}

impl<S: Copy + Default + Drop> Path<S> {
    /// The path without steps, which takes no memory.
    pub fn new(alloc: Global) -> Path<S>
        ensures { result ≡ [] }
    {
        Path {
            steps: SmallVec::new(alloc),
        }
    }

    /// The path of these steps, outermost first. It takes memory for more than one.
    pub fn from_slice(alloc: Global, steps: &[S]) -> Result<Path<S>, NoMemory>
        ensures { IfOk result (λ path. path ≡ steps.now) }
    {
        Ok(Path {
            steps: SmallVec::from_slice(alloc, steps)?,
        })
    }

    /// The steps, outermost first.
    pub fn as_slice(&self) -> &[S]
        ensures { result.now ≡ self.now }
    {
        self.steps.as_slice()
    }

    /// Makes a step the last one. Where memory is wanted and cannot be had, the path is as it was.
    pub fn push(&mut self, step: S) -> Result<(), NoMemory>
        ensures pushed { OnOk result (self.new ≡ self.old ++ step ∷ []) }
        ensures refused { OnErr result (self.new ≡ self.old) }
    {
        self.steps.push(step)?;
        Ok(())
    }

    /// A second path with the same steps.
    pub fn copy(&self, alloc: Global) -> Result<Path<S>, NoMemory>
        ensures { IfOk result (λ path. path ≡ self.now) }
    {
        Path::from_slice(alloc, self.as_slice())
    }
}
