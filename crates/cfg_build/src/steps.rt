//! Steps of places in words.
ghost use Rattle.std.specs.Prelude.{◌≡◌, ◌++◌, OnOk, codes, map, option_and_then, slice_get};
ghost use Rattle.std.specs.Fmt.{decimal};
ghost use Rattle.std.specs.Option.{option_copied};
ghost use Rattle.std.specs.String.{string_bytes};
ghost use Rattle.cfg_graph.specs.Places.{named_step};
ghost use Rattle.mir_ty.specs.ItemTable.{type_at};
ghost use Rattle.cfg_build.specs.Words.{named_field, step_words, steps_words, variant_name};

use crate::types::variant_at;
use cfg_graph::{Step, step_ty};
use mir_base::NoMemory;
use mir_ty::{Items, TyId, Variant};
use std::fmt::Write;

/// A word is put behind a text.
pub fn put(out: &mut String, word: &str) -> Result<(), NoMemory>
    ensures { OnOk result (string_bytes out.new ≡ string_bytes out.old ++ word.now) }
{
    out.push_str(word)?;
    Ok(())
}

/// A number is put behind a text.
fn put_number(out: &mut String, number: u32) -> Result<(), NoMemory>
    ensures { OnOk result (string_bytes out.new ≡ string_bytes out.old ++ decimal number) }
{
    write!(out, "{number}")?;
    Ok(())
}

/// The name of a field of a variant, and its number where it has none.
fn put_field(out: &mut String, variant: Option<&Variant>, part: u32) -> Result<(), NoMemory>
    ensures { OnOk result (string_bytes out.new ≡
        string_bytes out.old ++ named_field (option_copied variant.entry) part) }
{
    if let Some(variant) = variant {
        if let Some(name) = variant.field_names.get(part as usize) {
            return put(out, name.as_str());
        }
    }
    put_number(out, part)
}

/// The name of a variant, if there is one.
fn put_variant(out: &mut String, variant: Option<&Variant>) -> Result<(), NoMemory>
    ensures { OnOk result (string_bytes out.new ≡
        string_bytes out.old ++ variant_name (option_copied variant.entry)) }
{
    match variant {
        Some(variant) => put(out, variant.name.as_str()),
        None => Ok(()),
    }
}

/// A step from a value of a type.
fn put_step(out: &mut String, items: &Items, ty: Option<TyId>, step: Step) -> Result<(), NoMemory>
    ensures { OnOk result (string_bytes out.new ≡
        string_bytes out.old ++ step_words items.now (option_and_then (type_at items.now) ty) (named_step step)) }
{
    match step {
        Step::Part(part) => {
            put(out, ".")?;
            put_field(out, variant_at(items, ty, 0), part)
        }
        Step::Field { variant, part } => {
            put(out, ".")?;
            put_variant(out, variant_at(items, ty, variant))?;
            put(out, ".")?;
            put_number(out, part)
        }
        Step::Inside => put(out, ".*"),
        Step::Index(_) => Ok(()),
    }
}

/// Steps from a value of a type, up to the first to an element.
pub fn put_steps(
    out: &mut String,
    items: &Items,
    ty: Option<TyId>,
    steps: &[Step],
) -> Result<(), NoMemory>
    ensures { OnOk result (string_bytes out.new ≡
        string_bytes out.old ++ steps_words items.now ty (map named_step steps.now)) }
{
    let Some((step, rest)) = steps.split_first() else {
        return Ok(());
    };
    if let Step::Index(_) = step {
        return Ok(());
    }
    put_step(out, items, ty, *step)?;
    put_steps(out, items, step_ty(items, *step, ty), rest)
}
