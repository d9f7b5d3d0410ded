//! The types of places and operands in the body that runs.
ghost use Rattle.std.specs.Prelude.{◌≡◌, [], slice_get, option_copied};
ghost use Rattle.cfg_meaning.specs.Actions.{site_of};
ghost use Rattle.machine_steps.specs.Typed.{running as running_in, kind_of as kind_by_type, adt_in_box};
ghost use Rattle.machine_steps.specs.Worlds.{state_of, run_setting};
ghost use Rattle.machine_store.specs.Activations.{activations_of};
ghost use Rattle.store_model.specs.Concrete.Effects.{ty_of_place as type_in, never_at};
ghost use Rattle.mir_ty.specs.ItemTable.{type_at};
ghost use Rattle.store_model.specs.Places.TypeForms.{adt_of as adt_of_type, box_content, int_kind};

use crate::World;
use cfg_graph::{Operand, Place, place_ty};
use mir_base::IntKind;
use mir_ty::{Items, Ty, TyId};

impl World<'_> {
    /// The number of the body that runs.
    fn running(&self) -> Option<u32>
        ensures { result ≡ running_in (activations_of self.now.store) }
    {
        let depth = self.store.len().checked_sub(1)?;
        match self.store.frame(depth) {
            Some(frame) => Some(frame.body()),
            None => None,
        }
    }

    /// The type of a place in the body that runs.
    fn ty_of_place(&self, place: &Place) -> Option<&Ty>
        ensures { option_copied result ≡ type_in (run_setting self.now) (state_of [] self.now) (site_of 0 place.now) }
    {
        let number = self.running()?;
        let body = self.graph.bodies.get(number as usize)?;
        let id = place_ty(&self.graph.items, body.locals.as_slice(), place)?;
        self.graph.items.ty(id)
    }

    /// Whether a place of the body that runs has the type `!`.
    pub fn is_never(&self, place: &Place) -> bool
        ensures { result ≡ never_at (run_setting self.now) (state_of [] self.now) (site_of 0 place.now) }
    {
        matches!(self.ty_of_place(place), Some(Ty::Never))
    }

    fn kind_of_place(&self, place: &Place) -> Option<IntKind>
        ensures { result ≡ int_kind (type_in (run_setting self.now) (state_of [] self.now) (site_of 0 place.now)) }
    {
        match self.ty_of_place(place) {
            Some(Ty::Int(kind)) => Some(*kind),
            _ => None,
        }
    }

    /// The integer type of an operand.
    pub fn kind_of(&self, operand: &Operand) -> Option<IntKind>
        ensures { result ≡ kind_by_type (run_setting self.now) (state_of [] self.now) operand.now }
    {
        match operand {
            Operand::Copied(place) | Operand::Moved(place) => self.kind_of_place(place),
            Operand::Number(_, kind) => Some(*kind),
            Operand::Truth(_) | Operand::Unit => None,
        }
    }

    fn content_of_place(&self, place: &Place) -> Option<TyId>
        ensures { result ≡ box_content (type_in (run_setting self.now) (state_of [] self.now) (site_of 0 place.now)) }
    {
        match self.ty_of_place(place) {
            Some(Ty::Boxed(inside)) => Some(*inside),
            _ => None,
        }
    }

    /// The struct or enum in the box that an operand is.
    pub fn adt_in_box(&self, operand: &Operand) -> Option<u32>
        ensures { result ≡ adt_in_box (run_setting self.now) (state_of [] self.now) operand.now }
    {
        let inside = match operand {
            Operand::Copied(place) | Operand::Moved(place) => self.content_of_place(place)?,
            Operand::Number(_, _) | Operand::Truth(_) | Operand::Unit => return None,
        };
        adt_of(&self.graph.items, inside)
    }
}

fn adt_of(items: &Items, id: TyId) -> Option<u32>
    ensures { result ≡ adt_of_type (type_at items.now id) }
{
    match items.ty(id) {
        Some(Ty::Adt(adt)) => Some(*adt),
        _ => None,
    }
}
