//! Variants and fields by their names, which cost one look-up each.
ghost use Rattle.std.specs.Prelude.{◌≡◌, IfOk, map};
ghost use Rattle.mir_ty.specs.declared.adt.Variant.{Variant};
ghost use Rattle.typeck_env.specs.Members.{adt_names as names_of, all_names};
ghost use Rattle.typing_rules.specs.Scope.{variant_named as variant_by};

use mir_base::{List, Name, NoMemory};
use mir_ty::{Adt, Items, Variant};
use std::alloc::Global;
use typeck_heads::NameTable;

/// The names of the variants of a struct or an enum, and of the fields of each.
#[derive(Drop)]
pub struct AdtNames {
    pub variants: NameTable,
    pub fields: List<NameTable>,
}

fn table_of(alloc: Global, names: &[Name]) -> Result<NameTable, NoMemory>
    ensures { IfOk result (λ table. table ≡ names.now) }
{
    let mut table = NameTable::new(alloc);
    for name in names {
        table = table.with(alloc, name.as_str())?;
    }
    Ok(table)
}

fn variant_names(alloc: Global, variants: &[Variant]) -> Result<NameTable, NoMemory>
    ensures { IfOk result (λ table. table ≡ map (λ (v : Variant). v.name) variants.now) }
{
    let mut table = NameTable::new(alloc);
    for variant in variants {
        table = table.with(alloc, variant.name.as_str())?;
    }
    Ok(table)
}

fn field_names(alloc: Global, variants: &[Variant]) -> Result<List<NameTable>, NoMemory>
    ensures { IfOk result (λ tables. tables ≡ map (λ (v : Variant). v.field_names) variants.now) }
{
    let mut tables = List::new(alloc);
    for variant in variants {
        tables.push(table_of(alloc, variant.field_names.as_slice())?)?;
    }
    Ok(tables)
}

fn adt_names(alloc: Global, adt: &Adt) -> Result<AdtNames, NoMemory>
    ensures { IfOk result (λ names. names ≡ names_of adt.now) }
{
    let variants = variant_names(alloc, adt.variants.as_slice())?;
    let fields = field_names(alloc, adt.variants.as_slice())?;
    Ok(AdtNames { variants, fields })
}

/// The names of the variants and fields of all structs and enums.
pub fn member_names(alloc: Global, items: &Items) -> Result<List<AdtNames>, NoMemory>
    ensures { IfOk result (λ names. names ≡ all_names items.now.adts) }
{
    let mut names = List::new(alloc);
    let mut n: u32 = 0;
    while let Some(adt) = items.adt(n) {
        names.push(adt_names(alloc, adt)?)?;
        n += 1;
    }
    Ok(names)
}

/// The number of a variant by its name.
pub fn variant_named(names: &List<AdtNames>, items: &Items, adt: u32, name: &str) -> Option<u32>
    requires { names.now ≡ all_names items.now.adts }
    ensures { result ≡ variant_by items.now adt name.now }
{
    match names.get(adt as usize) {
        Some(of_adt) => of_adt.variants.find(name),
        None => None,
    }
}
