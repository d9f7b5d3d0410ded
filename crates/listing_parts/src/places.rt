//! Places.
ghost use Rattle.std.specs.Prelude.{◌≡◌, ℕ, List, IfOk};
ghost use Rattle.cfg_graph.specs.declared.place.Step.{Step as step_form};
ghost use Rattle.listing_write.specs.Reading.Parts as reading;
ghost use Rattle.listing_write.specs.Reading.Rows.{many};
ghost use Rattle.listing_parts.specs.Found.{Finds, seen};

use crate::ReadError;
use crate::words::{number, strip};
use cfg_graph::{Place, Step, Steps};
use mir_base::NoMemory;
use std::alloc::Global;

/// A step to a part with this number, or to a part of the variant with it.
fn part(n: u32, text: &[u8]) -> Option<(Step, &[u8])>
    ensures { seen result ≡ reading.part_from (n, text.now) }
{
    match strip(text, ":") {
        Some(rest) => {
            let (part, rest) = number(rest)?;
            Some((Step::Field { variant: n, part }, rest))
        }
        None => Some((Step::Part(n), text)),
    }
}

fn behind_dot(text: &[u8]) -> Option<(Step, &[u8])>
    ensures { seen result ≡ reading.behind_dot text.now }
{
    match strip(text, "*") {
        Some(rest) => Some((Step::Inside, rest)),
        None => {
            let (n, rest) = number(text)?;
            part(n, rest)
        }
    }
}

fn behind_bracket(text: &[u8]) -> Option<(Step, &[u8])>
    ensures { seen result ≡ reading.behind_bracket text.now }
{
    let (local, rest) = number(text)?;
    let rest = strip(rest, "]")?;
    Some((Step::Index(local), rest))
}

fn step(text: &[u8]) -> Option<(Step, &[u8])>
    ensures { seen result ≡ reading.step_read text.now }
{
    match strip(text, ".") {
        Some(rest) => behind_dot(rest),
        None => behind_bracket(strip(text, "[_")?),
    }
}

/// As many steps as there are. Each has a byte, so there are no more than bytes.
fn steps(alloc: Global, text: &[u8]) -> Result<(Steps, &[u8]), NoMemory>
    ensures { IfOk result (λ found. (found.0, found.1.now) ≡ many reading.step_read text.now) }
{
    let mut steps = Steps::new(alloc);
    let mut rest = text;
    for _ in 0..text.len() {
        match step(rest) {
            Some((step, behind)) => {
                steps.push(step)?;
                rest = behind;
            }
            None => return Ok((steps, rest)),
        }
    }
    Ok((steps, rest))
}

/// A place behind its mark.
pub fn place_behind(alloc: Global, text: &[u8]) -> Result<(Place, &[u8]), ReadError>
    ensures { Finds result (reading.place_from text.now) }
{
    let Some((local, rest)) = number(text) else {
        return Err(ReadError::Unreadable);
    };
    let (steps, rest) = steps(alloc, rest)?;
    Ok((Place { local, steps }, rest))
}

/// A place at the front of a text, and what stands behind it.
pub fn read_place(alloc: Global, text: &[u8]) -> Result<(Place, &[u8]), ReadError>
    ensures { Finds result (reading.place_read text.now) }
{
    let Some(rest) = strip(text, "_") else {
        return Err(ReadError::Unreadable);
    };
    place_behind(alloc, rest)
}
