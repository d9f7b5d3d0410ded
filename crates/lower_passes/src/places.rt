//! Places and operands.
ghost use Rattle.std.specs.Prelude.{◌≡◌, IfOk};
ghost use Rattle.lower_rules.specs.Build as build;
ghost use Rattle.cfg_graph.specs.Places.{named_step};
ghost use Rattle.cfg_meaning.specs.Actions.{site_of, operand_of, operands_of};
ghost use Rattle.src_meaning.specs.Forms.{site_of_key};
ghost use Rattle.lower_passes.specs.Framed.{frame_of};

use crate::frames::{LoweringFrame, local};
use cfg_graph::{Operand, Place, Step};
use mir_base::{Key, List, NoMemory};
use std::alloc::Global;
use store_model::Path;

/// A step; that to an element reads a local.
fn step(frame: LoweringFrame, step: Step) -> Result<Step, NoMemory>
    ensures { IfOk result (λ found. found ≡ build.step_of (frame_of frame.entry) (named_step step)) }
{
    match step {
        Step::Index(index) => Ok(Step::Index(local(frame, Key(index))?)),
        step => Ok(step),
    }
}

/// A place by the keys of entries as a place by locals.
///
/// # Errors
///
/// [`NoMemory`] where memory is wanted.
pub fn place(alloc: Global, frame: LoweringFrame, place: &Place) -> Result<Place, NoMemory>
    ensures { IfOk result (λ found. found ≡ build.place_of (frame_of frame.entry) (site_of 0 place.now)) }
{
    let mut steps = Path::new(alloc);
    for each in place.steps.as_slice() {
        steps.push(step(frame, *each)?)?;
    }
    Ok(Place {
        local: local(frame, Key(place.local))?,
        steps,
    })
}

/// The whole local that a key names.
///
/// # Errors
///
/// [`NoMemory`] where its number is more than 32 bits.
pub fn whole_place(alloc: Global, frame: LoweringFrame, key: Key) -> Result<Place, NoMemory>
    ensures { IfOk result (λ found. found ≡ build.place_of (frame_of frame.entry) (site_of_key key.0)) }
{
    Ok(Place {
        local: local(frame, key)?,
        steps: Path::new(alloc),
    })
}

/// An operand by keys as an operand by locals.
///
/// # Errors
///
/// [`NoMemory`] where memory is wanted.
pub fn operand(alloc: Global, frame: LoweringFrame, operand: &Operand) -> Result<Operand, NoMemory>
    ensures { IfOk result (λ found. found ≡ build.operand_of (frame_of frame.entry) (operand_of 0 operand.now)) }
{
    match operand {
        Operand::Copied(from) => Ok(Operand::Copied(place(alloc, frame, from)?)),
        Operand::Moved(from) => Ok(Operand::Moved(place(alloc, frame, from)?)),
        Operand::Number(value, kind) => Ok(Operand::Number(*value, *kind)),
        Operand::Truth(value) => Ok(Operand::Truth(*value)),
        Operand::Unit => Ok(Operand::Unit),
    }
}

/// Operands in order.
pub(crate) fn operands(
    alloc: Global,
    frame: LoweringFrame,
    all: &[Operand],
) -> Result<List<Operand>, NoMemory>
    ensures { IfOk result (λ found. found ≡ build.operands_of (frame_of frame.entry) (operands_of 0 all.now)) }
{
    let mut found = List::from_vec(Vec::with_capacity(alloc, all.len())?);
    for one in all {
        found.push(operand(alloc, frame, one)?)?;
    }
    Ok(found)
}

/// A place and an operand.
pub(crate) fn place_and_operand(
    alloc: Global,
    frame: LoweringFrame,
    to: &Place,
    from: &Operand,
) -> Result<(Place, Operand), NoMemory>
    ensures { IfOk result (λ found. (found.0 ≡ build.place_of (frame_of frame.entry) (site_of 0 to.now))
        × (found.1 ≡ build.operand_of (frame_of frame.entry) (operand_of 0 from.now))) }
{
    let from = operand(alloc, frame, from)?;
    match place(alloc, frame, to) {
        Ok(to) => Ok((to, from)),
        Err(error) => {
            drop(from);
            Err(error)
        }
    }
}

/// A place and operands in order.
pub(crate) fn place_and_operands(
    alloc: Global,
    frame: LoweringFrame,
    to: &Place,
    parts: &[Operand],
) -> Result<(Place, List<Operand>), NoMemory>
    ensures { IfOk result (λ found. (found.0 ≡ build.place_of (frame_of frame.entry) (site_of 0 to.now))
        × (found.1 ≡ build.operands_of (frame_of frame.entry) (operands_of 0 parts.now))) }
{
    let parts = operands(alloc, frame, parts)?;
    match place(alloc, frame, to) {
        Ok(to) => Ok((to, parts)),
        Err(error) => {
            drop(parts);
            Err(error)
        }
    }
}

/// Two operands.
pub(crate) fn two_operands(
    alloc: Global,
    frame: LoweringFrame,
    left: &Operand,
    right: &Operand,
) -> Result<(Operand, Operand), NoMemory>
    ensures { IfOk result (λ found. (found.0 ≡ build.operand_of (frame_of frame.entry) (operand_of 0 left.now))
        × (found.1 ≡ build.operand_of (frame_of frame.entry) (operand_of 0 right.now))) }
{
    let left = operand(alloc, frame, left)?;
    match operand(alloc, frame, right) {
        Ok(right) => Ok((left, right)),
        Err(error) => {
            drop(left);
            Err(error)
        }
    }
}

/// Two places.
pub(crate) fn two_places(
    alloc: Global,
    frame: LoweringFrame,
    to: &Place,
    of: &Place,
) -> Result<(Place, Place), NoMemory>
    ensures { IfOk result (λ found. (found.0 ≡ build.place_of (frame_of frame.entry) (site_of 0 to.now))
        × (found.1 ≡ build.place_of (frame_of frame.entry) (site_of 0 of.now))) }
{
    let to = place(alloc, frame, to)?;
    match place(alloc, frame, of) {
        Ok(of) => Ok((to, of)),
        Err(error) => {
            drop(to);
            Err(error)
        }
    }
}
