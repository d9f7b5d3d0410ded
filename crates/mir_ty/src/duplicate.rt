ghost use Rattle.std.specs.Prelude.{◌≡◌, IfOk};

use crate::{Adt, ClosureDef, ImplDef, Sig, TraitDef, Ty, TyId, Variant};
use mir_base::{List, Name, NoMemory};
use std::alloc::Global;

/// What can be made a second time, where there is memory for it.
pub trait Duplicate: Drop {
    fn duplicate(&self, alloc: Global) -> Result<Self, NoMemory>
        ensures { IfOk result (λ copy. copy ≡ self.now) };
}

impl Duplicate for u32 {
    fn duplicate(&self, _alloc: Global) -> Result<u32, NoMemory> {
        Ok(*self)
    }
}

impl Duplicate for TyId {
    fn duplicate(&self, _alloc: Global) -> Result<TyId, NoMemory> {
        Ok(*self)
    }
}

impl Duplicate for Name {
    fn duplicate(&self, alloc: Global) -> Result<Name, NoMemory> {
        self.copy(alloc)
    }
}

impl<T: Duplicate> Duplicate for List<T> {
    fn duplicate(&self, alloc: Global) -> Result<List<T>, NoMemory> {
        let mut copy = List::new(alloc);
        for element in self.as_slice() {
            copy.push(element.duplicate(alloc)?)?;
        }
        Ok(copy)
    }
}

impl Duplicate for Ty {
    fn duplicate(&self, alloc: Global) -> Result<Ty, NoMemory> {
        match self {
            Ty::Int(kind) => Ok(Ty::Int(*kind)),
            Ty::Bool => Ok(Ty::Bool),
            Ty::Unit => Ok(Ty::Unit),
            Ty::Never => Ok(Ty::Never),
            Ty::Adt(n) => Ok(Ty::Adt(*n)),
            Ty::Tuple(parts) => Ok(Ty::Tuple(parts.duplicate(alloc)?)),
            Ty::Array(element, count) => Ok(Ty::Array(*element, *count)),
            Ty::Boxed(inside) => Ok(Ty::Boxed(*inside)),
            Ty::Dyn(n) => Ok(Ty::Dyn(*n)),
            Ty::Shared(to) => Ok(Ty::Shared(*to)),
            Ty::Unique(to) => Ok(Ty::Unique(*to)),
            Ty::Closure(n) => Ok(Ty::Closure(*n)),
        }
    }
}

impl Duplicate for Variant {
    fn duplicate(&self, alloc: Global) -> Result<Variant, NoMemory> {
        Ok(Variant {
            name: self.name.duplicate(alloc)?,
            fields: self.fields.duplicate(alloc)?,
            field_names: self.field_names.duplicate(alloc)?,
        })
    }
}

impl Duplicate for Adt {
    fn duplicate(&self, alloc: Global) -> Result<Adt, NoMemory> {
        Ok(Adt {
            name: self.name.duplicate(alloc)?,
            is_enum: self.is_enum,
            variants: self.variants.duplicate(alloc)?,
            copy: self.copy,
            drop_body: self.drop_body,
        })
    }
}

impl Duplicate for Sig {
    fn duplicate(&self, alloc: Global) -> Result<Sig, NoMemory> {
        Ok(Sig {
            name: self.name.duplicate(alloc)?,
            params: self.params.duplicate(alloc)?,
            result: self.result,
        })
    }
}

impl Duplicate for TraitDef {
    fn duplicate(&self, alloc: Global) -> Result<TraitDef, NoMemory> {
        Ok(TraitDef {
            name: self.name.duplicate(alloc)?,
            methods: self.methods.duplicate(alloc)?,
        })
    }
}

impl Duplicate for ImplDef {
    fn duplicate(&self, alloc: Global) -> Result<ImplDef, NoMemory> {
        Ok(ImplDef {
            trait_no: self.trait_no,
            adt: self.adt,
            bodies: self.bodies.duplicate(alloc)?,
        })
    }
}

impl Duplicate for ClosureDef {
    fn duplicate(&self, alloc: Global) -> Result<ClosureDef, NoMemory> {
        Ok(ClosureDef {
            captures: self.captures.duplicate(alloc)?,
            body: self.body,
        })
    }
}
