//! How many events a run told.
ghost use Rattle.std.specs.Prelude.{◌≡◌, ◌+◌, ◌++◌, ◌∷◌, [], ℤ, IfOk, OnOk};
ghost use Rattle.mir_base.specs.Trace.{Trace};
ghost use Rattle.mir_base.specs.declared.trace.Event.{Event as an_event};
ghost use Rattle.trace_summary.specs.Summary.{counts_of};

use mir_base::{Event, NoMemory};

/// How many events a run told, and how many of them tell how a value with a serial number begins or ends.
#[derive(Clone, Copy)]
pub struct Counts {
    /// All events.
    pub events: u64,
    /// Values and boxes that were made.
    pub made: u64,
    /// Values whose `Drop` body was entered.
    pub dropped: u64,
    /// Boxes that were freed.
    pub freed: u64,
    /// Values and boxes that `forget` met.
    pub forgotten: u64,
}

/// One more, where a number of 64 bits can count so many.
pub(crate) fn one_more(count: u64) -> Result<u64, NoMemory>
    ensures { IfOk result (λ more. more ≡ count + 1) }
{
    count.checked_add(1).ok_or(NoMemory)
}

impl Counts {
    /// No event was told.
    pub fn none() -> Counts
        ensures { result ≡ counts_of [] }
    {
        Counts {
            events: 0,
            made: 0,
            dropped: 0,
            freed: 0,
            forgotten: 0,
        }
    }

    /// One event more is told.
    ///
    /// # Errors
    ///
    /// [`NoMemory`] where there are more events than a number of 64 bits can count.
    pub fn count(&mut self, event: &Event) -> Result<(), NoMemory>
        ensures { OnOk result ((trace : Trace) → self.old ≡ counts_of trace → self.new ≡ counts_of (trace ++ event.now ∷ [])) }
    {
        match event {
            Event::Make { .. } | Event::Boxed(_) => self.made = one_more(self.made)?,
            Event::Dropped { .. } => self.dropped = one_more(self.dropped)?,
            Event::Freed(_) => self.freed = one_more(self.freed)?,
            Event::ForgotMade { .. } | Event::ForgotBox(_) => {
                self.forgotten = one_more(self.forgotten)?;
            }
            _ => {}
        }
        self.events = one_more(self.events)?;
        Ok(())
    }

    /// One event more is told: a number was printed.
    ///
    /// # Errors
    ///
    /// As [`Counts::count`].
    pub fn count_print(&mut self) -> Result<(), NoMemory>
        ensures { OnOk result ((trace : Trace) (number : ℤ) → self.old ≡ counts_of trace →
            self.new ≡ counts_of (trace ++ an_event.Printed number ∷ [])) }
    {
        self.events = one_more(self.events)?;
        Ok(())
    }
}
