ghost use Rattle.std.specs.Prelude.{◌≡◌, ◌++◌, OnOk, codes, flat_map, map};
ghost use Rattle.std.specs.Fmt.{decimal};
ghost use Rattle.std.specs.String.{string_bytes};
ghost use Rattle.std.specs.Prelude.{slice_get};
ghost use Rattle.mir_ty.specs.Parts.{fields_of};
ghost use Rattle.listing_write.specs.Items.{adt_line, trait_line, impl_line, closure_line, types_text, copy_text, counted, drop_text, items_text, method_text, shape_text, variant_text};
ghost use Rattle.listing_write.specs.Lists.{behind_commas, in_braces};

use crate::statements::{put_adt_name, put_trait_name};
use crate::types::{put_type, put_types};
use crate::words::{put, put_number};
use mir_ty::{Adt, ClosureDef, ImplDef, Items, Sig, TraitDef, Variant};
use std::alloc::AllocError;

fn put_variant(out: &mut String, items: &Items, variant: &Variant) -> Result<(), AllocError>
    ensures { OnOk result (string_bytes out.new ≡ string_bytes out.old ++ variant_text items.now variant.now) }
{
    put(out, variant.name.as_str())?;
    put(out, " ")?;
    put_types(out, items, variant.fields.as_slice())
}

fn put_more_variants(
    out: &mut String,
    items: &Items,
    variants: &[Variant],
) -> Result<(), AllocError>
    ensures { OnOk result (string_bytes out.new ≡ string_bytes out.old ++ behind_commas (map (variant_text items.now) variants.now)) }
{
    for variant in variants {
        put(out, ", ")?;
        put_variant(out, items, variant)?;
    }
    Ok(())
}

fn put_variants(out: &mut String, items: &Items, variants: &[Variant]) -> Result<(), AllocError>
    ensures { OnOk result (string_bytes out.new ≡ string_bytes out.old ++ in_braces (map (variant_text items.now) variants.now)) }
{
    match variants {
        [] => put(out, "{ }"),
        [first, others @ ..] => {
            put(out, "{ ")?;
            put_variant(out, items, first)?;
            put_more_variants(out, items, others)?;
            put(out, " }")
        }
    }
}

fn put_fields(out: &mut String, items: &Items, adt: &Adt) -> Result<(), AllocError>
    ensures { OnOk result (string_bytes out.new ≡ string_bytes out.old ++ types_text items.now (fields_of (slice_get adt.now.variants 0))) }
{
    match adt.variants.get(0) {
        Some(variant) => put_types(out, items, variant.fields.as_slice()),
        None => put(out, "()"),
    }
}

fn put_shape(out: &mut String, items: &Items, adt: &Adt) -> Result<(), AllocError>
    ensures { OnOk result (string_bytes out.new ≡ string_bytes out.old ++ shape_text items.now adt.now.is_enum adt.now) }
{
    if adt.is_enum {
        put(out, "enum ")?;
        put(out, adt.name.as_str())?;
        put(out, " ")?;
        put_variants(out, items, adt.variants.as_slice())
    } else {
        put(out, "struct ")?;
        put(out, adt.name.as_str())?;
        put(out, " ")?;
        put_fields(out, items, adt)
    }
}

fn put_copy(out: &mut String, copy: bool) -> Result<(), AllocError>
    ensures { OnOk result (string_bytes out.new ≡ string_bytes out.old ++ copy_text copy) }
{
    if copy { put(out, " copy") } else { Ok(()) }
}

fn put_drop(out: &mut String, body: Option<u32>) -> Result<(), AllocError>
    ensures { OnOk result (string_bytes out.new ≡ string_bytes out.old ++ drop_text body) }
{
    match body {
        Some(body) => {
            put(out, " drop ")?;
            put_number(out, body)
        }
        None => Ok(()),
    }
}

fn put_adt(out: &mut String, items: &Items, adt: &Adt) -> Result<(), AllocError>
    ensures { OnOk result (string_bytes out.new ≡ string_bytes out.old ++ adt_line items.now adt.now) }
{
    put_shape(out, items, adt)?;
    put_copy(out, adt.copy)?;
    put_drop(out, adt.drop_body)?;
    put(out, "\n")
}

fn put_method(out: &mut String, items: &Items, sig: &Sig) -> Result<(), AllocError>
    ensures { OnOk result (string_bytes out.new ≡ string_bytes out.old ++ method_text items.now sig.now) }
{
    put(out, sig.name.as_str())?;
    put(out, " ")?;
    put_types(out, items, sig.params.as_slice())?;
    put(out, " ")?;
    put_type(out, items, sig.result)
}

fn put_more_methods(out: &mut String, items: &Items, methods: &[Sig]) -> Result<(), AllocError>
    ensures { OnOk result (string_bytes out.new ≡ string_bytes out.old ++ behind_commas (map (method_text items.now) methods.now)) }
{
    for method in methods {
        put(out, ", ")?;
        put_method(out, items, method)?;
    }
    Ok(())
}

fn put_methods(out: &mut String, items: &Items, methods: &[Sig]) -> Result<(), AllocError>
    ensures { OnOk result (string_bytes out.new ≡ string_bytes out.old ++ in_braces (map (method_text items.now) methods.now)) }
{
    match methods {
        [] => put(out, "{ }"),
        [first, others @ ..] => {
            put(out, "{ ")?;
            put_method(out, items, first)?;
            put_more_methods(out, items, others)?;
            put(out, " }")
        }
    }
}

fn put_trait(out: &mut String, items: &Items, def: &TraitDef) -> Result<(), AllocError>
    ensures { OnOk result (string_bytes out.new ≡ string_bytes out.old ++ trait_line items.now def.now) }
{
    put(out, "trait ")?;
    put(out, def.name.as_str())?;
    put(out, " ")?;
    put_methods(out, items, def.methods.as_slice())?;
    put(out, "\n")
}

fn put_bodies(out: &mut String, bodies: &[u32]) -> Result<(), AllocError>
    ensures { OnOk result (string_bytes out.new ≡ string_bytes out.old ++ flat_map (λ body. codes " " ++ decimal body) bodies.now) }
{
    for body in bodies {
        put(out, " ")?;
        put_number(out, *body)?;
    }
    Ok(())
}

fn put_impl(out: &mut String, items: &Items, def: &ImplDef) -> Result<(), AllocError>
    ensures { OnOk result (string_bytes out.new ≡ string_bytes out.old ++ impl_line items.now def.now) }
{
    put(out, "impl ")?;
    put_trait_name(out, items, def.trait_no)?;
    put(out, " for ")?;
    put_adt_name(out, items, def.adt)?;
    put_bodies(out, def.bodies.as_slice())?;
    put(out, "\n")
}

fn put_closure(out: &mut String, items: &Items, n: u32, def: &ClosureDef) -> Result<(), AllocError>
    ensures { OnOk result (string_bytes out.new ≡ string_bytes out.old ++ closure_line items.now n def.now) }
{
    put(out, "closure ")?;
    put_number(out, n)?;
    put(out, " ")?;
    put_types(out, items, def.captures.as_slice())?;
    put(out, " ")?;
    put_number(out, def.body)?;
    put(out, "\n")
}

fn put_adts(out: &mut String, items: &Items) -> Result<(), AllocError>
    ensures { OnOk result (string_bytes out.new ≡ string_bytes out.old ++ flat_map (adt_line items.now) items.now.adts) }
{
    let mut n: u32 = 0;
    while let Some(adt) = items.adt(n) {
        put_adt(out, items, adt)?;
        n += 1;
    }
    Ok(())
}

fn put_traits(out: &mut String, items: &Items) -> Result<(), AllocError>
    ensures { OnOk result (string_bytes out.new ≡ string_bytes out.old ++ flat_map (trait_line items.now) items.now.traits) }
{
    let mut n: u32 = 0;
    while let Some(def) = items.trait_def(n) {
        put_trait(out, items, def)?;
        n += 1;
    }
    Ok(())
}

fn put_impls(out: &mut String, items: &Items) -> Result<(), AllocError>
    ensures { OnOk result (string_bytes out.new ≡ string_bytes out.old ++ flat_map (impl_line items.now) items.now.impls) }
{
    let mut n: u32 = 0;
    while let Some(def) = items.impl_def(n) {
        put_impl(out, items, def)?;
        n += 1;
    }
    Ok(())
}

fn put_closures(out: &mut String, items: &Items) -> Result<(), AllocError>
    ensures { OnOk result (string_bytes out.new ≡ string_bytes out.old ++ counted (closure_line items.now) 0 items.now.closures) }
{
    let mut n: u32 = 0;
    while let Some(def) = items.closure_def(n) {
        put_closure(out, items, n, def)?;
        n += 1;
    }
    Ok(())
}

/// The lines of all structs, enums, traits, impls and closures.
pub fn put_items(out: &mut String, items: &Items) -> Result<(), AllocError>
    ensures { OnOk result (string_bytes out.new ≡ string_bytes out.old ++ items_text items.now) }
{
    put_adts(out, items)?;
    put_traits(out, items)?;
    put_impls(out, items)?;
    put_closures(out, items)
}
