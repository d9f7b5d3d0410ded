ghost use Rattle.std.specs.Prelude.{◌≡◌, ◌++◌, OnOk, codes, map};
ghost use Rattle.std.specs.Fmt.{decimal};
ghost use Rattle.std.specs.String.{string_bytes};
ghost use Rattle.listing_write.specs.Lists.{behind_commas, joined};
ghost use Rattle.listing_write.specs.Types.{type_within, type_text, form_text, tuple_text, deepest};
ghost use Rattle.listing_write.specs.Items.{types_text};

use crate::statements::{put_adt_name, put_trait_name};
use crate::words::{put, put_number, word_of_int};
use mir_ty::{Items, Ty, TyId};
use std::alloc::AllocError;

/// No type has so many types in one another.
const DEEPEST: u32 = 4294967295;

/// The length of an array, and the end of its type.
fn put_length(out: &mut String, length: u32) -> Result<(), AllocError>
    ensures { OnOk result (string_bytes out.new ≡ string_bytes out.old ++ (codes "; " ++ decimal length ++ codes "]")) }
{
    put(out, "; ")?;
    put_number(out, length)?;
    put(out, "]")
}

/// A type, with no more than `depth` types in one another.
#[cycle(types)]
fn put_within(out: &mut String, items: &Items, id: TyId, depth: u32) -> Result<(), AllocError>
    ensures { OnOk result (string_bytes out.new ≡ string_bytes out.old ++ type_within items.now depth id) }
{
    if depth == 0 {
        return Ok(());
    }
    match items.ty(id) {
        Some(ty) => put_form(out, items, ty, depth - 1),
        None => Ok(()),
    }
}

/// A type behind a word.
#[cycle(types)]
fn put_behind(
    out: &mut String,
    items: &Items,
    word: &str,
    id: TyId,
    depth: u32,
) -> Result<(), AllocError>
    ensures { OnOk result (string_bytes out.new ≡ string_bytes out.old ++ (word.now ++ type_within items.now depth id)) }
{
    put(out, word)?;
    put_within(out, items, id, depth)
}

#[cycle(types)]
fn put_form(out: &mut String, items: &Items, ty: &Ty, depth: u32) -> Result<(), AllocError>
    ensures { OnOk result (string_bytes out.new ≡ string_bytes out.old ++ form_text items.now (type_within items.now depth) ty.now) }
{
    match ty {
        Ty::Int(kind) => put(out, word_of_int(*kind)),
        Ty::Bool => put(out, "bool"),
        Ty::Unit => put(out, "()"),
        Ty::Never => put(out, "!"),
        Ty::Adt(n) => put_adt_name(out, items, *n),
        Ty::Tuple(parts) => put_tuple(out, items, parts.as_slice(), depth),
        Ty::Array(element, length) => {
            put_behind(out, items, "[", *element, depth)?;
            put_length(out, *length)
        }
        Ty::Boxed(inside) => {
            put_behind(out, items, "Box<", *inside, depth)?;
            put(out, ">")
        }
        Ty::Dyn(n) => {
            put(out, "dyn ")?;
            put_trait_name(out, items, *n)
        }
        Ty::Shared(to) => put_behind(out, items, "&", *to, depth),
        Ty::Unique(to) => put_behind(out, items, "&mut ", *to, depth),
        Ty::Closure(n) => {
            put(out, "closure#")?;
            put_number(out, *n)
        }
    }
}

#[cycle(types)]
fn put_tuple(out: &mut String, items: &Items, parts: &[TyId], depth: u32) -> Result<(), AllocError>
    ensures { OnOk result (string_bytes out.new ≡ string_bytes out.old ++ tuple_text (map (type_within items.now depth) parts.now)) }
{
    match parts {
        [] => put(out, "()"),
        [only] => {
            put_behind(out, items, "(", *only, depth)?;
            put(out, ",)")
        }
        [first, others @ ..] => {
            put_behind(out, items, "(", *first, depth)?;
            put_more_types(out, items, others, depth)?;
            put(out, ")")
        }
    }
}

#[cycle(types)]
fn put_more_types(
    out: &mut String,
    items: &Items,
    ids: &[TyId],
    depth: u32,
) -> Result<(), AllocError>
    ensures { OnOk result (string_bytes out.new ≡ string_bytes out.old ++ behind_commas (map (type_within items.now depth) ids.now)) }
{
    for id in ids {
        put_behind(out, items, ", ", *id, depth)?;
    }
    Ok(())
}

/// A type.
#[tactic(auto, unfolding(crate::specs::Types::type_text))]
pub fn put_type(out: &mut String, items: &Items, id: TyId) -> Result<(), AllocError>
    ensures { OnOk result (string_bytes out.new ≡ string_bytes out.old ++ type_text items.now id) }
{
    put_within(out, items, id, DEEPEST)
}

/// Types in parentheses.
pub fn put_types(out: &mut String, items: &Items, ids: &[TyId]) -> Result<(), AllocError>
    ensures { OnOk result (string_bytes out.new ≡ string_bytes out.old ++ types_text items.now ids.now) }
{
    put(out, "(")?;
    put_joined_types(out, items, ids)?;
    put(out, ")")
}

fn put_joined_types(out: &mut String, items: &Items, ids: &[TyId]) -> Result<(), AllocError>
    ensures { OnOk result (string_bytes out.new ≡ string_bytes out.old ++ joined (map (type_text items.now) ids.now)) }
{
    match ids {
        [] => Ok(()),
        [first, others @ ..] => {
            put_type(out, items, *first)?;
            put_types_behind(out, items, others)
        }
    }
}

fn put_types_behind(out: &mut String, items: &Items, ids: &[TyId]) -> Result<(), AllocError>
    ensures { OnOk result (string_bytes out.new ≡ string_bytes out.old ++ behind_commas (map (type_text items.now) ids.now)) }
{
    for id in ids {
        put(out, ", ")?;
        put_type(out, items, *id)?;
    }
    Ok(())
}
