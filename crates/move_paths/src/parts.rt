//! The paths that are not locals, each by the path above it and the step from there.
ghost use Rattle.std.specs.Prelude.{◌≡◌, [], ◌∷◌, ◌++◌, Contains, length, slice_get, IfOk, OnOk, OnErr, Some};
ghost use Rattle.std.specs.Option.{option_copied};
ghost use Rattle.mir_ty.specs.AreItems.{IsNumberOf};
ghost use Rattle.move_paths.specs.Trie.{AreOnce, Adds};

use cfg_graph::Step;
use indexmap::IndexSet;
use mir_base::NoMemory;
use std::alloc::Global;
use std::marker::Model;

/// A path below another: the number of that one, and the step from it.
#[derive(Clone, Copy, PartialEq, Eq, Hash)]
pub struct PathPart {
    pub of: u32,
    pub step: Step,
}

/// The parts in the order of their numbers, each of them once. A look-up costs about the same for all.
pub struct Parts {
    parts: IndexSet<PathPart>,
}

/// As a derived one; but written here, it is proved here, and not again in each crate in which parts end.
impl Drop for Parts {
    fn drop(self) {
        let Parts { parts } = self;
        drop(parts);
    }
}

impl Model for Parts {
    ghost use Rattle.std.specs.Prelude.{List};
    ghost use Rattle.move_paths.specs.declared.parts.PathPart.{PathPart};
    ghost use Rattle.move_paths.specs.Trie.{AreOnce};

    ghost Value = { List PathPart };

    ghost view = { λ parts. parts.parts.keys };

    ghost invariant = { λ parts. AreOnce parts.parts.keys };
}

impl Parts {
    pub fn new(alloc: Global) -> Parts
        ensures { result ≡ [] }
    {
        Parts {
            parts: IndexSet::new(alloc),
        }
    }

    pub fn len(&self) -> usize
        ensures { result ≡ length self.now }
    {
        self.parts.len()
    }

    /// The part with a number.
    pub fn get(&self, n: usize) -> Option<&PathPart>
        ensures { option_copied result ≡ slice_get self.now n }
    {
        self.parts.get_index(n)
    }

    /// The number of a part, if it has one.
    pub fn find(&self, part: &PathPart) -> Option<usize>
        ensures found { IsNumberOf self.now part.now result }
        ensures once { AreOnce self.now }
    {
        self.parts.get_index_of(part)
    }

    /// Gives a part that has no number the next one. Where memory is wanted the parts are as they were.
    fn push(&mut self, part: PathPart) -> Result<(), NoMemory>
        requires { ¬ Contains self.old part }
        ensures pushed { OnOk result (self.new ≡ self.old ++ part ∷ []) }
        ensures refused { OnErr result (self.new ≡ self.old) }
    {
        self.parts.insert(part)?;
        Ok(())
    }

    /// The number of a part, which is the next one where the part had none.
    pub fn number(&mut self, part: PathPart) -> Result<usize, NoMemory>
        ensures number { IfOk result (λ n. slice_get self.new n ≡ Some part) }
        ensures parts { OnOk result (Adds self.old self.new part) }
        ensures refused { OnErr result (self.new ≡ self.old) }
    {
        match self.find(&part) {
            Some(n) => Ok(n),
            None => {
                let n = self.len();
                self.push(part)?;
                Ok(n)
            }
        }
    }
}
