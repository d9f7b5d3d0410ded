ghost use Rattle.std.specs.Prelude.{◌≡◌, ℕ, Bool, suc, ◌++◌, ◌∷◌, [], IfOk, OnOk};
ghost use Rattle.machine_steps.specs.Turns.{Begins, GoesOn, GoesOnPart, IsContainer, IsOwn, enters_of, expected_by};
ghost use Rattle.machine_steps.specs.declared.drops.Turn.{Turn as a_turn};
ghost use Rattle.machine_steps.specs.declared.level.Level.{Level as a_level};
ghost use Rattle.machine_steps.specs.declared.found.DropKind.{DropKind as a_kind};
ghost use Rattle.mir_ty.specs.ItemTable.{ItemTable};
ghost use Rattle.store_model.specs.declared.address.At.TheVariants.{Part, Inside};

use crate::Level;
use crate::found::{DropKind, FoundValue, OwnDrop};
use machine_store::{Dynamic, field_ty};
use mir_base::{List, NoMemory};
use mir_ty::Items;
use std::alloc::Global;
use store_model::{Addr, At, AtPath};

/// A drop that is being made: a list of the containers whose drops are not done, so that a deep value does not deepen
/// the stack.
#[derive(Drop)]
pub struct Drops {
    /// Where stands what is dropped now.
    pub address: Addr,
    /// The containers around it, the innermost last.
    pub levels: List<Level>,
    /// Whether what is dropped is dropped while a panic unwinds.
    pub unwinds: bool,
    /// Whether a `Drop` body of this drop panicked.
    pub panicked: bool,
    /// Whether what is read is gone over, to be dropped in one go: not after many parts were gone over in vain, so that
    /// no value is gone over again and again.
    pub sweeps: bool,
}

/// What a drop does next.
#[derive(Clone, Copy)]
pub enum Turn {
    /// What stands at the address is dropped, whose own `Drop` body may have run. Where it is read again it has to be
    /// what was found there.
    Visits {
        has_run: bool,
        expected: Option<Dynamic>,
    },
    /// It goes on with the innermost container, which stands at the address.
    Goes,
    /// What stands at the address was dropped.
    Leaves,
    /// What stands at the address, found so, is gone then.
    Clears(Dynamic),
    /// The box that stands at the address, found so, is freed.
    Frees(Dynamic),
    /// The `Drop` body of what stands at the address, found so, is entered.
    Enters {
        adt: u32,
        serial: u64,
        body: u32,
        dynamic: Dynamic,
    },
    /// The drop ends.
    Ends,
    /// There is no step.
    Stuck,
}

/// The turn that enters a `Drop` body.
fn enters(of: OwnDrop, serial: Option<u64>, dynamic: Dynamic) -> Turn
    ensures { result ≡ enters_of of serial dynamic }
{
    let serial = match serial {
        Some(serial) => serial,
        None => 0,
    };
    Turn::Enters {
        adt: of.adt,
        serial,
        body: of.body,
        dynamic,
    }
}

/// What a part that is read is expected to be: nothing is where it stands as it was read.
fn expected_since(same: bool, dynamic: Dynamic) -> Option<Dynamic>
    ensures { result ≡ expected_by same dynamic }
{
    if same { None } else { Some(dynamic) }
}

/// The path to the container of what stands at a path.
fn container(alloc: Global, path: &AtPath) -> Result<AtPath, NoMemory>
    ensures { IfOk result (λ above. IsContainer path.now above) }
{
    let steps = path.as_slice();
    match steps.len().checked_sub(1) {
        Some(count) => AtPath::from_slice(alloc, &steps[..count]),
        None => Ok(AtPath::new(alloc)),
    }
}

impl Drops {
    /// Begins with the parts of what stands at the address.
    fn enter_parts(
        &mut self,
        dynamic: Dynamic,
        variant: u32,
        total: usize,
        ticks: u64,
    ) -> Result<(), NoMemory>
        ensures { OnOk result (self.new ≡ record self.old {
          levels = self.old.levels ++ (a_level.Parts dynamic variant 0 total ticks) ∷ [];
        }) }
    {
        self.levels.push(Level::Parts {
            dynamic,
            variant,
            next: 0,
            total,
            ticks,
        })
    }

    /// Begins with the content of the box that stands at the address.
    fn enter_content(&mut self, dynamic: Dynamic) -> Result<(), NoMemory>
        ensures { OnOk result (self.new ≡ record self.old {
          levels = self.old.levels ++ (a_level.Content dynamic) ∷ [];
          address = record self.old.address { path = self.old.address.path ++ Inside ∷ [] };
        }) }
    {
        self.levels.push(Level::Content { dynamic })?;
        self.address.path.push(At::Inside)
    }

    /// Begins with the part of what stands at the address that has this number, and then come the next ones.
    fn enter_part(
        &mut self,
        dynamic: Dynamic,
        variant: u32,
        part: u32,
        total: usize,
        ticks: u64,
    ) -> Result<(), NoMemory>
        ensures { OnOk result (self.new ≡ record self.old {
          levels = self.old.levels ++ (a_level.Parts dynamic variant (suc part) total ticks) ∷ [];
          address = record self.old.address { path = self.old.address.path ++ (Part part) ∷ [] };
        }) }
    {
        let next = part.checked_add(1).ok_or(NoMemory::past_32_bits())?;
        self.levels.push(Level::Parts {
            dynamic,
            variant,
            next,
            total,
            ticks,
        })?;
        self.address.path.push(At::Part(part))
    }

    /// Begins with a box; there is no step where its content is found as nothing.
    fn enter_box(&mut self, dynamic: Dynamic, content: Option<Dynamic>) -> Result<Turn, NoMemory>
        ensures { IfOk result (λ turn. (items : ItemTable) (ticks : ℕ) (has_run : Bool) (serial : ℕ) →
            Begins items ticks has_run (record { dynamic = dynamic; kind = a_kind.Boxed serial content }) self.old
            self.new turn) }
    {
        if content.is_none() {
            return Ok(Turn::Stuck);
        }
        self.enter_content(dynamic)?;
        Ok(Turn::Visits {
            has_run: false,
            expected: None,
        })
    }

    /// Begins with a value that was read, and whose own `Drop` body is still to run where there is one.
    pub fn begin(
        &mut self,
        ticks: u64,
        own: Option<OwnDrop>,
        found: FoundValue,
    ) -> Result<Turn, NoMemory>
        ensures { IfOk result (λ turn. (items : ItemTable) (has_run : Bool) → IsOwn items has_run found own →
            Begins items ticks has_run found self.old self.new turn) }
    {
        match found.kind {
            DropKind::Nothing => Ok(Turn::Leaves),
            DropKind::Plain => Ok(Turn::Clears(found.dynamic)),
            DropKind::Boxed { content, .. } => self.enter_box(found.dynamic, content),
            DropKind::Parts {
                variant,
                serial,
                total,
            } => {
                if let Some(of) = own {
                    return Ok(enters(of, serial, found.dynamic));
                }
                self.enter_parts(found.dynamic, variant, total, ticks)?;
                Ok(Turn::Goes)
            }
        }
    }

    /// Goes on after what stands at the address was dropped.
    pub fn leave(&mut self, alloc: Global) -> Result<Turn, NoMemory>
        ensures { IfOk result (λ turn. (items : ItemTable) (ticks : ℕ) →
            GoesOn a_turn.Leaves items ticks self.old self.new turn) }
    {
        if self.levels.is_empty() {
            return Ok(Turn::Ends);
        }
        self.address.path = container(alloc, &self.address.path)?;
        Ok(Turn::Goes)
    }

    /// Goes on with a part of the innermost container, which is left out of the levels.
    fn go_part(
        &mut self,
        items: &Items,
        now: u64,
        dynamic: Dynamic,
        variant: u32,
        part: u32,
        total: usize,
        ticks: u64,
    ) -> Result<Turn, NoMemory>
        ensures { IfOk result (λ turn.
            GoesOnPart items.now now dynamic variant part total ticks self.old self.new turn) }
    {
        if part as usize >= total {
            return Ok(Turn::Clears(dynamic));
        }
        let Some(child) = field_ty(items, dynamic, variant, part) else {
            return Ok(Turn::Stuck);
        };
        self.enter_part(dynamic, variant, part, total, ticks)?;
        Ok(Turn::Visits {
            has_run: false,
            expected: expected_since(now == ticks, Dynamic::OfType(child)),
        })
    }

    /// Goes on with the innermost container.
    pub fn go(&mut self, items: &Items, now: u64) -> Result<Turn, NoMemory>
        ensures { IfOk result (λ turn. GoesOn a_turn.Goes items.now now self.old self.new turn) }
    {
        match self.levels.pop() {
            None => Ok(Turn::Ends),
            Some(Level::Content { dynamic }) => Ok(Turn::Frees(dynamic)),
            Some(
                Level::Parts {
                    dynamic,
                    variant,
                    next,
                    total,
                    ticks,
                },
            ) => self.go_part(items, now, dynamic, variant, next, total, ticks),
        }
    }
}
