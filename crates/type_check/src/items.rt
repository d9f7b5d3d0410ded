//! The names of structs and enums, of bodies, and of the methods of each trait, as the items have them.
ghost use Rattle.std.specs.Prelude.{◌≡◌, IfOk, map};
ghost use Rattle.typeck_checker.specs.Tables.{adt_words, body_words, method_words, trait_words};

use mir_base::{List, NoMemory};
use mir_ty::{Items, TraitDef};
use std::alloc::Global;
use typeck_heads::NameTable;

pub fn adt_names(alloc: Global, items: &Items) -> Result<NameTable, NoMemory>
    ensures { IfOk result (λ names. names ≡ adt_words items.now) }
{
    let mut names = NameTable::new(alloc);
    let mut n: u32 = 0;
    while let Some(adt) = items.adt(n) {
        names = names.with(alloc, adt.name.as_str())?;
        n += 1;
    }
    Ok(names)
}

pub fn trait_names(alloc: Global, items: &Items) -> Result<NameTable, NoMemory>
    ensures { IfOk result (λ names. names ≡ trait_words items.now) }
{
    let mut names = NameTable::new(alloc);
    let mut n: u32 = 0;
    while let Some(def) = items.trait_def(n) {
        names = names.with(alloc, def.name.as_str())?;
        n += 1;
    }
    Ok(names)
}

pub fn body_names(alloc: Global, items: &Items) -> Result<NameTable, NoMemory>
    ensures { IfOk result (λ names. names ≡ body_words items.now) }
{
    let mut names = NameTable::new(alloc);
    let mut n: u32 = 0;
    while let Some(sig) = items.body_sig(n) {
        names = names.with(alloc, sig.name.as_str())?;
        n += 1;
    }
    Ok(names)
}

fn methods_of(alloc: Global, def: &TraitDef) -> Result<NameTable, NoMemory>
    ensures { IfOk result (λ names. names ≡ method_words def.now) }
{
    let mut names = NameTable::new(alloc);
    for sig in def.methods.as_slice() {
        names = names.with(alloc, sig.name.as_str())?;
    }
    Ok(names)
}

pub fn method_names(alloc: Global, items: &Items) -> Result<List<NameTable>, NoMemory>
    ensures { IfOk result (λ names. names ≡ map method_words items.now.traits) }
{
    let mut names = List::new(alloc);
    let mut n: u32 = 0;
    while let Some(def) = items.trait_def(n) {
        names.push(methods_of(alloc, def)?)?;
        n += 1;
    }
    Ok(names)
}
