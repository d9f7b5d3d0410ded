//! The bodies of `Drop` impls, in one set.
ghost use Rattle.std.specs.Prelude.{◌≡◌, ◌==◌, ◌||◌, ℕ, IfOk, OnOk};
ghost use Rattle.std.specs.List.{list_any};
ghost use Rattle.mir_ty.specs.DropBodies.{is_drop_body, is_its_drop_body};

use crate::{Adt, Items};
use mir_base::NoMemory;
use std::alloc::Global;
use std::collections::HashSet;

/// Adds the body of the `Drop` impl of a struct or an enum, if it has one.
fn add_drop_body(adt: &Adt, bodies: &mut HashSet<u32>) -> Result<(), NoMemory>
    ensures { OnOk result ((body : ℕ) → list_any (λ k. k == body) bodies.new.keys ≡ (list_any (λ k. k == body) bodies.old.keys || is_its_drop_body body adt.now)) }
{
    match adt.drop_body {
        Some(body) => {
            bodies.insert(body)?;
            Ok(())
        }
        None => Ok(()),
    }
}

impl Items {
    /// The bodies of all `Drop` impls.
    pub fn drop_bodies(&self, alloc: Global) -> Result<HashSet<u32>, NoMemory>
        ensures { IfOk result (λ bodies. (body : ℕ) → list_any (λ k. k == body) bodies.keys ≡ is_drop_body self.now body) }
    {
        let mut bodies = HashSet::new(alloc);
        let mut n: u32 = 0;
        while let Some(adt) = self.adt(n) {
            add_drop_body(adt, &mut bodies)?;
            n += 1;
        }
        Ok(bodies)
    }
}
