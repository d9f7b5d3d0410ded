//! The structs, enums and traits whose names the lines of a listing may name.
ghost use Rattle.std.specs.Prelude.{◌≡◌, IfOk, OnOk, List as Listed, ℕ, Some, if◌then◌else◌, length, slice_get};
ghost use Rattle.std.specs.Option.{option_copied};
ghost use Rattle.cfg_graph.specs.WellFormed.NameFaults.{same_name};
ghost use Rattle.mir_ty.specs.AreItems.{AreItems};
ghost use Rattle.listing_parts.specs.Numbers.{adt_no, trait_no, noted, number_in};

use mir_base::NoMemory;
use mir_ty::{Adt, Items, TraitDef};
use std::alloc::Global;
use std::collections::HashMap;
use std::marker::Model;

/// Items whose structs, enums and traits a listing may name, with tables of these names: contracts see the items alone.
/// Looking up a name costs about the same for all names, and as much more as the name is long.
#[derive(Drop)]
pub struct Heads {
    items: Items,
    /// For each name the first struct or enum that has it.
    adts: HashMap<Vec<u8>, u32>,
    adt_count: u32,
    /// For each name the first trait that has it.
    traits: HashMap<Vec<u8>, u32>,
    trait_count: u32,
}

impl Model for Heads {
    ghost use Rattle.mir_ty.specs.ItemTable.{ItemTable};
    ghost use Rattle.listing_parts.specs.HeadTables.{AreNumbered};

    ghost Value = { ItemTable };

    ghost view = { λ heads. heads.items };

    ghost invariant = { AreNumbered };
}

impl Heads {
    /// These items, with tables of their names.
    pub fn of(alloc: Global, items: Items) -> Result<Heads, NoMemory>
        ensures { IfOk result (λ heads. heads ≡ items) }
    {
        let adt_count = adt_count(&items);
        let trait_count = trait_count(&items);
        match numbers_of_both(alloc, &items, adt_count, trait_count) {
            Ok((adts, traits)) => Ok(Heads {
                items,
                adts,
                adt_count,
                traits,
                trait_count,
            }),
            Err(error) => {
                drop(items);
                Err(error)
            }
        }
    }

    /// The items without their tables.
    pub fn items(&self) -> &Items
        ensures { result.now ≡ self.now }
    {
        &self.items
    }

    /// The struct or enum with a number, and `None` where there is none.
    pub fn adt(&self, n: u32) -> Option<&Adt>
        ensures { option_copied result ≡ slice_get self.now.adts n }
    {
        self.items.adt(n)
    }

    /// The trait with a number, and `None` where there is none.
    pub fn trait_def(&self, n: u32) -> Option<&TraitDef>
        ensures { option_copied result ≡ slice_get self.now.traits n }
    {
        self.items.trait_def(n)
    }

    /// How many structs and enums there are.
    pub fn adt_count(&self) -> u32
        ensures { result ≡ length self.now.adts }
    {
        self.adt_count
    }

    /// How many traits there are.
    pub fn trait_count(&self) -> u32
        ensures { result ≡ length self.now.traits }
    {
        self.trait_count
    }

    /// The number of the first struct or enum of this name, and how many there are where there is none.
    pub fn adt_number(&self, name: &[u8]) -> u32
        ensures { result ≡ adt_no self.now name.now }
    {
        match self.adts.get(name) {
            Some(n) => *n,
            None => self.adt_count,
        }
    }

    /// The number of the first trait of this name, and how many there are where there is none.
    pub fn trait_number(&self, name: &[u8]) -> u32
        ensures { result ≡ trait_no self.now name.now }
    {
        match self.traits.get(name) {
            Some(n) => *n,
            None => self.trait_count,
        }
    }
}

/// How many structs and enums there are.
pub fn adt_count(items: &Items) -> u32
    ensures { result ≡ length items.now.adts }
{
    let mut n: u32 = 0;
    while let Some(_) = items.adt(n) {
        n += 1;
    }
    n
}

/// How many traits there are.
pub fn trait_count(items: &Items) -> u32
    ensures { result ≡ length items.now.traits }
{
    let mut n: u32 = 0;
    while let Some(_) = items.trait_def(n) {
        n += 1;
    }
    n
}

/// Notes the number of a name, in the place of the one that it has.
fn note(
    alloc: Global,
    numbers: &mut HashMap<Vec<u8>, u32>,
    name: &[u8],
    n: u32,
) -> Result<(), NoMemory>
    ensures { OnOk result ((q : Listed ℕ) → noted numbers.new q ≡ if same_name q name.now then Some n else noted numbers.old q) }
{
    numbers.insert(Vec::from_slice(alloc, name)?, n)?;
    Ok(())
}

/// The numbers of the names of structs and enums, of which there are so many. They are put in from the last to the first,
/// so that the first of a name stays.
fn adt_numbers(alloc: Global, items: &Items, count: u32) -> Result<HashMap<Vec<u8>, u32>, NoMemory>
    requires { count ≡ length items.now.adts }
    ensures { IfOk result (λ numbers. (name : Listed ℕ) → number_in numbers count name ≡ adt_no items.now name) }
{
    let mut numbers = HashMap::new(alloc);
    for n in (0..count).rev() {
        if let Some(adt) = items.adt(n) {
            note(alloc, &mut numbers, adt.name.as_bytes(), n)?;
        }
    }
    Ok(numbers)
}

/// The same of traits.
fn trait_numbers(
    alloc: Global,
    items: &Items,
    count: u32,
) -> Result<HashMap<Vec<u8>, u32>, NoMemory>
    requires { count ≡ length items.now.traits }
    ensures { IfOk result (λ numbers. (name : Listed ℕ) → number_in numbers count name ≡ trait_no items.now name) }
{
    let mut numbers = HashMap::new(alloc);
    for n in (0..count).rev() {
        if let Some(def) = items.trait_def(n) {
            note(alloc, &mut numbers, def.name.as_bytes(), n)?;
        }
    }
    Ok(numbers)
}

/// The numbers of the names of structs and enums, and those of the names of traits.
fn numbers_of_both(
    alloc: Global,
    items: &Items,
    adt_count: u32,
    trait_count: u32,
) -> Result<(HashMap<Vec<u8>, u32>, HashMap<Vec<u8>, u32>), NoMemory>
    requires adts { adt_count ≡ length items.now.adts }
    requires traits { trait_count ≡ length items.now.traits }
    ensures adts { IfOk result (λ both. (name : Listed ℕ) → number_in both.0 adt_count name ≡ adt_no items.now name) }
    ensures traits { IfOk result (λ both. (name : Listed ℕ) → number_in both.1 trait_count name ≡ trait_no items.now name) }
{
    let adts = adt_numbers(alloc, items, adt_count)?;
    let traits = trait_numbers(alloc, items, trait_count)?;
    Ok((adts, traits))
}
