ghost use Rattle.std.specs.Prelude.{◌≡◌, ◌++◌, OnOk, map, flat_map};
ghost use Rattle.std.specs.String.{string_bytes};
ghost use Rattle.listing_write.specs.Lists.{behind_commas, joined};
ghost use Rattle.listing_write.specs.Parts as text;
ghost use Rattle.listing_write.specs.Parts.{step_text, operands_text, ways_text};

use crate::words::{put, put_number, put_signed, put_unwind, word_of_int, word_of_truth};
use cfg_graph::{Operand, Place, Step, Unwind};
use std::alloc::AllocError;

fn put_step(out: &mut String, step: Step) -> Result<(), AllocError>
    ensures { OnOk result (string_bytes out.new ≡ string_bytes out.old ++ step_text step) }
{
    match step {
        Step::Part(n) => {
            put(out, ".")?;
            put_number(out, n)
        }
        Step::Field { variant, part } => {
            put(out, ".")?;
            put_number(out, variant)?;
            put(out, ":")?;
            put_number(out, part)
        }
        Step::Inside => put(out, ".*"),
        Step::Index(local) => {
            put(out, "[_")?;
            put_number(out, local)?;
            put(out, "]")
        }
    }
}

fn put_steps(out: &mut String, steps: &[Step]) -> Result<(), AllocError>
    ensures { OnOk result (string_bytes out.new ≡ string_bytes out.old ++ flat_map step_text steps.now) }
{
    for step in steps {
        put_step(out, *step)?;
    }
    Ok(())
}

pub fn put_place(out: &mut String, place: &Place) -> Result<(), AllocError>
    ensures { OnOk result (string_bytes out.new ≡ string_bytes out.old ++ text.place_text place.now) }
{
    put(out, "_")?;
    put_number(out, place.local)?;
    put_steps(out, place.steps.as_slice())
}

pub fn put_operand(out: &mut String, operand: &Operand) -> Result<(), AllocError>
    ensures { OnOk result (string_bytes out.new ≡ string_bytes out.old ++ text.operand_text operand.now) }
{
    match operand {
        Operand::Copied(place) => {
            put(out, "copy ")?;
            put_place(out, place)
        }
        Operand::Moved(place) => {
            put(out, "move ")?;
            put_place(out, place)
        }
        Operand::Number(value, kind) => {
            put(out, "const ")?;
            put_signed(out, *value)?;
            put(out, "_")?;
            put(out, word_of_int(*kind))
        }
        Operand::Truth(value) => put(out, word_of_truth(*value)),
        Operand::Unit => put(out, "const ()"),
    }
}

fn put_more_operands(out: &mut String, operands: &[Operand]) -> Result<(), AllocError>
    ensures { OnOk result (string_bytes out.new ≡ string_bytes out.old ++ behind_commas (map text.operand_text operands.now)) }
{
    for operand in operands {
        put(out, ", ")?;
        put_operand(out, operand)?;
    }
    Ok(())
}

fn put_joined_operands(out: &mut String, operands: &[Operand]) -> Result<(), AllocError>
    ensures { OnOk result (string_bytes out.new ≡ string_bytes out.old ++ joined (map text.operand_text operands.now)) }
{
    match operands {
        [] => Ok(()),
        [first, others @ ..] => {
            put_operand(out, first)?;
            put_more_operands(out, others)
        }
    }
}

pub fn put_operands(out: &mut String, operands: &[Operand]) -> Result<(), AllocError>
    ensures { OnOk result (string_bytes out.new ≡ string_bytes out.old ++ operands_text operands.now) }
{
    put(out, "(")?;
    put_joined_operands(out, operands)?;
    put(out, ")")
}

/// The ways out of a terminator that may panic.
pub fn put_ways(out: &mut String, then: u32, unwind: Unwind) -> Result<(), AllocError>
    ensures { OnOk result (string_bytes out.new ≡ string_bytes out.old ++ ways_text then unwind) }
{
    put(out, " then ")?;
    put_number(out, then)?;
    put(out, " unwind ")?;
    put_unwind(out, unwind)
}
