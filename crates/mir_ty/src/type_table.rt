ghost use Rattle.std.specs.Prelude.{◌≡◌, [], ◌∷◌, ◌++◌, ◌<◌, Contains, length, slice_get, OnOk, OnErr};
ghost use Rattle.std.specs.Option.{option_copied};
ghost use Rattle.mir_ty.specs.AreItems.{AreDistinct, IsNumberOf};

use crate::Ty;
use crate::duplicate::Duplicate;
use indexmap::IndexSet;
use mir_base::NoMemory;
use std::alloc::Global;
use std::marker::Model;

/// The types of a program in the order of their numbers, each of them once. A look-up costs about the same for all.
pub struct TypeTable {
    types: IndexSet<Ty>,
}

/// As a derived one; but written here, it is proved here, and not again in each crate in which a table ends.
impl Drop for TypeTable {
    fn drop(self) {
        let TypeTable { types } = self;
        drop(types);
    }
}

impl Model for TypeTable {
    ghost use Rattle.std.specs.Prelude.{List};
    ghost use Rattle.mir_ty.specs.declared.ty.Ty.{Ty};
    ghost use Rattle.mir_ty.specs.AreItems.{AreDistinct};

    ghost Value = { List Ty };

    ghost view = { λ table. table.types.keys };

    ghost invariant = { λ table. AreDistinct table.types.keys };
}

impl TypeTable {
    pub fn new(alloc: Global) -> TypeTable
        ensures { result ≡ [] }
    {
        TypeTable {
            types: IndexSet::new(alloc),
        }
    }

    pub fn as_slice(&self) -> &[Ty]
        ensures types { result.now ≡ self.now }
        ensures distinct { AreDistinct self.now }
    {
        self.types.as_slice()
    }

    pub fn len(&self) -> usize
        ensures { result ≡ length self.now }
    {
        self.types.len()
    }

    /// The type with a number, and `None` where the number is not in the table.
    pub fn get(&self, n: usize) -> Option<&Ty>
        ensures { option_copied result ≡ slice_get self.now n }
    {
        self.types.get_index(n)
    }

    /// The number of a type, and `None` where it has none.
    pub fn find(&self, ty: &Ty) -> Option<usize>
        ensures { IsNumberOf self.now ty.now result }
    {
        self.types.get_index_of(ty)
    }

    /// Gives a type that has no number the next one. Where memory is wanted the table is as it was.
    pub fn push(&mut self, ty: Ty) -> Result<(), NoMemory>
        requires { ¬ Contains self.old ty }
        ensures pushed { OnOk result (self.new ≡ self.old ++ ty ∷ []) }
        ensures refused { OnErr result (self.new ≡ self.old) }
    {
        self.types.insert(ty)?;
        Ok(())
    }
}

impl Duplicate for TypeTable {
    fn duplicate(&self, alloc: Global) -> Result<TypeTable, NoMemory> {
        let mut copy = TypeTable::new(alloc);
        for ty in self.as_slice() {
            copy.push(ty.duplicate(alloc)?)?;
        }
        Ok(copy)
    }
}
