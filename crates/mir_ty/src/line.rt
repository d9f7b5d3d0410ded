//! The lines of events, in the text of a trace.
ghost use Rattle.std.specs.Prelude.{◌≡◌, ◌++◌, OnOk, IfOk};
ghost use Rattle.std.specs.String.{string_bytes};
ghost use Rattle.std.specs.Fmt.{signed_decimal};
ghost use Rattle.mir_base.specs.Lines as lines;
ghost use Rattle.mir_base.specs.Lines.{line};
ghost use Rattle.mir_ty.specs.Named.{line_of, IsEventOf, body_name, adt_name};

use crate::Items;
use mir_base::{Event, List, NoMemory};
use std::alloc::Global;

/// The line of an event in the text of a trace, with its line feed. Bodies, structs and enums go by their names
/// in the items, which have all of those that the event numbers.
pub fn event_line(alloc: Global, event: &Event, items: &Items) -> Result<List<u8>, NoMemory>
    requires { IsEventOf items.now event.now }
    ensures { IfOk result (λ line. line ≡ line_of items.now event.now) }
{
    let mut text = String::new(alloc);
    put_event_line(&mut text, items, event)?;
    Ok(List::from_vec(text.into_bytes()))
}

/// Writes that line at the end of a text. A body, a struct or an enum that the items do not have has a name without
/// letters.
pub fn put_event_line(out: &mut String, items: &Items, event: &Event) -> Result<(), NoMemory>
    ensures { OnOk result (string_bytes out.new ≡ string_bytes out.old ++ line_of items.now event.now) }
{
    match event {
        Event::Call(body) => put_named(out, "call ", name_of_body(items, *body)),
        Event::Return(body) => put_named(out, "return ", name_of_body(items, *body)),
        Event::Unwind(body) => put_named(out, "unwind ", name_of_body(items, *body)),
        Event::Make { adt, serial } => {
            put_numbered(out, "make ", name_of_adt(items, *adt), *serial)
        }
        Event::Boxed(serial) => put_numbered(out, "box ", "", *serial),
        Event::Dropped { adt, serial } => {
            put_numbered(out, "drop ", name_of_adt(items, *adt), *serial)
        }
        Event::Freed(serial) => put_numbered(out, "free ", "", *serial),
        Event::ForgotMade { adt, serial } => {
            put_numbered(out, "forget ", name_of_adt(items, *adt), *serial)
        }
        Event::ForgotBox(serial) => put_numbered(out, "forget ", "", *serial),
        Event::Printed(number) => put_counted(out, "print ", *number),
        Event::Asked(number) => put_counted(out, "ask ", *number),
        Event::Panicked(why) => put_named(out, "panic ", why.word()),
    }
}

/// A word and a name, in a line.
fn put_named(out: &mut String, word: &str, name: &str) -> Result<(), NoMemory>
    ensures { OnOk result (string_bytes out.new ≡ string_bytes out.old ++ line (word.now ++ name.now)) }
{
    write!(out, "{word}{name}\n")?;
    Ok(())
}

/// A word and a value, by the name of its type and its serial number, in a line.
fn put_numbered(out: &mut String, word: &str, name: &str, serial: u64) -> Result<(), NoMemory>
    ensures { OnOk result (string_bytes out.new ≡ string_bytes out.old ++ line (word.now ++ lines.numbered name.now serial)) }
{
    write!(out, "{word}{name}#{serial}\n")?;
    Ok(())
}

/// A word and a number, in a line.
fn put_counted(out: &mut String, word: &str, number: i32) -> Result<(), NoMemory>
    ensures { OnOk result (string_bytes out.new ≡ string_bytes out.old ++ line (word.now ++ signed_decimal number)) }
{
    write!(out, "{word}{number}\n")?;
    Ok(())
}

/// The name of a body by its number, and nothing past the end.
fn name_of_body(items: &Items, body: u32) -> &str
    ensures { result.now ≡ body_name items.now body }
{
    match items.body_sig(body) {
        Some(sig) => sig.name.as_str(),
        None => "",
    }
}

/// The name of a struct or an enum by its number, and nothing past the end.
fn name_of_adt(items: &Items, adt: u32) -> &str
    ensures { result.now ≡ adt_name items.now adt }
{
    match items.adt(adt) {
        Some(adt) => adt.name.as_str(),
        None => "",
    }
}
