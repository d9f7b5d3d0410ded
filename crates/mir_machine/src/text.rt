//! The lines of what a run told.
ghost use Rattle.std.specs.Prelude.{◌≡◌, ◌++◌, OnOk, IfOk, string_bytes};
ghost use Rattle.mir_base.specs.Lines.{event_line, end_line};
ghost use Rattle.machine_steps.specs.Worlds.{event_of};
ghost use Rattle.mir_ty.specs.Named.{adt_name, body_name};

use machine_steps::ToldEvents;
use mir_base::{End, NoMemory};
use mir_ty::{Items, put_event_line};
use std::alloc::Global;
use trace_summary::put_end_line;

fn write_told(out: &mut String, items: &Items, told: &ToldEvents) -> Result<(), NoMemory>
    ensures { OnOk result (string_bytes out.new ≡ string_bytes out.old
        ++ event_line (body_name items.now) (adt_name items.now) (event_of told.now)) }
{
    match told {
        ToldEvents::Event(event) => put_event_line(out, items, event),
        ToldEvents::Printed(number) => {
            write!(out, "print {number}\n")?;
            Ok(())
        }
    }
}

/// The line of an event.
pub fn line_of(alloc: Global, items: &Items, told: &ToldEvents) -> Result<String, NoMemory>
    ensures { IfOk result (λ line. string_bytes line ≡
        event_line (body_name items.now) (adt_name items.now) (event_of told.now)) }
{
    let mut line = String::new(alloc);
    write_told(&mut line, items, told)?;
    Ok(line)
}

/// The last line of a text.
pub fn last_line(alloc: Global, end: &End) -> Result<String, NoMemory>
    ensures { IfOk result (λ line. string_bytes line ≡ end_line end.now) }
{
    let mut line = String::new(alloc);
    put_end_line(&mut line, end)?;
    Ok(line)
}
