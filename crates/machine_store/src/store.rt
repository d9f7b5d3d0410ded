ghost use Rattle.std.specs.Prelude.{◌≡◌, [], ◌∷◌, length, map, All, IfOk, OnOk, MatchOption};
ghost use Rattle.std.specs.Prelude.{option_map, slice_get};
ghost use Rattle.std.specs.Option.{option_copied};
ghost use Rattle.cfg_meaning.specs.Programs.{arguments_from};
ghost use Rattle.machine_store.specs.Activations.{activations_of, root_in};
ghost use Rattle.machine_store.specs.Frames.{activation_of};
ghost use Rattle.store_model.specs.Concrete.State.{with_cell_at};
ghost use Rattle.store_model.specs.Values.Datum.{Gone, datum_of};
ghost use Rattle.store_model.specs.Values.Access.{value_at, replaced};
ghost use Rattle.store_model.specs.Values.Wholeness.{IsWhole};

use crate::MachineFrame;
use crate::frame::taken_of_nothing;
use mir_base::{List, NoMemory};
use std::alloc::Global;
use store_model::{At, Value};

/// The cells of all activations: what the locals of each body hold that runs or waits for one that it called.
///
/// The depth of an activation is the number of older ones. What a call costs does not depend on the number of
/// activations, nor on the size of values.
#[derive(Drop)]
pub struct Store {
    frames: List<MachineFrame>,
}

/// The locals of a body that is entered: the arguments are those from 1 on.
fn frame_with(alloc: Global, body: u32, args: List<Value>) -> Result<MachineFrame, NoMemory>
    requires { All (λ arg. IsWhole (datum_of arg)) args }
    ensures { IfOk result (λ frame. activation_of frame ≡ record {
      body = body;
      cells = arguments_from 1 (map
          datum_of args);
    }) }
{
    let mut frame = MachineFrame::new(alloc, body);
    let mut key: u32 = 0;
    for arg in args.into_vec() {
        let Some(next) = key.checked_add(1) else {
            drop(arg);
            return Err(NoMemory::past_32_bits());
        };
        key = next;
        frame.put(alloc, key, &[], arg)?;
    }
    Ok(frame)
}

impl Store {
    /// No body runs.
    pub fn new(alloc: Global) -> Store
        ensures { activations_of result ≡ [] }
    {
        Store {
            frames: List::new(alloc),
        }
    }

    /// How many bodies run or wait.
    pub fn len(&self) -> usize
        ensures { result ≡ length (activations_of self.now) }
    {
        self.frames.len()
    }

    /// The locals of the activation of a depth, if one runs.
    pub fn frame(&self, depth: usize) -> Option<&MachineFrame>
        ensures { option_copied result ≡ slice_get self.now.frames depth }
    {
        self.frames.get(depth)
    }

    /// A body is entered with whole arguments, which become its locals from 1 on.
    pub fn enter(&mut self, alloc: Global, body: u32, args: List<Value>) -> Result<(), NoMemory>
        requires { All (λ arg. IsWhole (datum_of arg)) args }
        ensures { OnOk result (activations_of self.new ≡ (record {
          body = body;
          cells = arguments_from 1 (map
              datum_of args);
        }) ∷ activations_of self.old) }
    {
        self.frames.push(frame_with(alloc, body, args)?)
    }

    /// The youngest body ends; what its locals held is handed out.
    pub fn leave(&mut self) -> Option<MachineFrame>
        ensures { MatchOption result ((activations_of self.old ≡ []) × (activations_of self.new ≡ []))
            (λ frame. activations_of self.old ≡ activation_of frame ∷ activations_of self.new) }
    {
        self.frames.pop()
    }

    /// Puts a whole value at a place of a local of the activation of a depth, whatever stood there. Where there is no
    /// such activation nothing changes.
    pub fn put(
        &mut self,
        alloc: Global,
        depth: usize,
        key: u32,
        place: &[At],
        value: Value,
    ) -> Result<(), NoMemory>
        requires { IsWhole (datum_of value) }
        ensures { OnOk result (activations_of self.new ≡
            with_cell_at depth key (replaced place.now (datum_of value) (root_in depth key (activations_of self.old)))
            (activations_of self.old)) }
    {
        if depth < self.frames.len() {
            return self.frames.element_mut(depth).put(alloc, key, place, value);
        }
        Ok(())
    }

    /// Takes what stands at a place of a local of the activation of a depth, and leaves it gone. `None` comes exactly
    /// where there is no such place; where there is no such activation, or nothing was stored into the local, the whole
    /// local is a place, at which nothing stands. Memory is for the mark.
    pub fn take(
        &mut self,
        alloc: Global,
        depth: usize,
        key: u32,
        place: &[At],
    ) -> Result<Option<Value>, NoMemory>
        ensures taken { IfOk result (λ taken. option_map datum_of taken ≡
            value_at place.now (root_in depth key (activations_of self.old))) }
        ensures after { OnOk result (activations_of self.new ≡
            with_cell_at depth key (replaced place.now Gone (root_in depth key (activations_of self.old)))
            (activations_of self.old)) }
    {
        if depth < self.frames.len() {
            return self.frames.element_mut(depth).take(alloc, key, place);
        }
        Ok(taken_of_nothing(place))
    }
}
