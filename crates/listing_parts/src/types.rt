//! Types, read into the table of some items.
ghost use Rattle.std.specs.Prelude.{◌≡◌, ◌<◌, ◌-◌, ◌++◌, ◌∷◌, [], Some, IfErr, IfOk, length, map};
ghost use Rattle.mir_ty.specs.AreItems.{AreTypes, HasParts};
ghost use Rattle.listing_write.specs.Reading.Rows.{comma, many, row};
ghost use Rattle.listing_write.specs.Types.{form_text};
ghost use Rattle.listing_write.specs.Reading.Words.{as_};
ghost use Rattle.listing_parts.specs.Leaves.{BeginsLeaf};
ghost use Rattle.listing_parts.specs.OpenTypes.{AreOpen, BeginsAt, ClosesAll, Ends, IsOpen, Steps, end_of_open, goes_on, row_of};
ghost use Rattle.listing_parts.specs.Table.{AreRead, MayStand, text_under, under};
ghost use Rattle.listing_parts.specs.TypeReading as reading;
ghost use Rattle.listing_parts.specs.TypesRead.{FindsRow, FindsType, FindsTypes};

use crate::begin::{Begin, TypeAround, around_end, around_type, row_end, type_begin};
use crate::table::give_number;
use crate::{Heads, ReadError, strip};
use mir_base::{List, NoMemory};
use mir_ty::{Items, Ty, TyId};
use std::alloc::Global;

/// A type of the table, and what stands behind it.
fn read_interned<'a>(
    heads: &Heads,
    items: &mut Items,
    ty: Ty,
    rest: &'a [u8],
) -> Result<(TyId, &'a [u8]), ReadError>
    requires read { AreRead heads.now items.old.types }
    requires stands { MayStand heads.now (length items.old.types) ty }
    requires parts { HasParts ty }
    ensures { FindsType heads.now items.old items.new result (Some (form_text (under heads.now items.old) (text_under heads.now items.old) ty, rest.now)) }
{
    match give_number(heads, items, ty) {
        Ok(id) => Ok((id, rest)),
        Err(NoMemory) => Err(ReadError::NoMemory),
    }
}

/// A type that is still read, around the type that is read next.
#[derive(Drop)]
enum Open {
    /// What stands around it.
    Around(TypeAround),
    /// A row, by the types in it that were read before.
    Row(List<TyId>),
}

/// Where a reader of types has come to.
#[derive(Drop)]
enum Step<'a> {
    /// A type has ended, and this stands behind it.
    Whole(TyId, &'a [u8]),
    /// Another type begins here.
    Next(&'a [u8]),
}

/// What the end of a type leads to in the open one around it.
#[derive(Drop)]
enum Ended<'a> {
    /// That one ends too.
    Whole(TyId, &'a [u8]),
    /// It goes on, and another type in it begins.
    More(Open, &'a [u8]),
}

fn put_open<'a>(opens: &mut List<Open>, one: Open, rest: &'a [u8]) -> Result<Step<'a>, ReadError>
    ensures opened { IfOk result (λ step. BeginsAt rest.now step × (opens.new ≡ opens.old ++ one ∷ [])) }
    ensures refused { IfErr result (λ error. (error ≡ ReadError.NoMemory) × (opens.new ≡ opens.old)) }
{
    match opens.push(one) {
        Ok(()) => Ok(Step::Next(rest)),
        Err(NoMemory) => Err(ReadError::NoMemory),
    }
}

/// A row of types; that of no types ends at once.
fn begin_row<'a>(
    alloc: Global,
    heads: &Heads,
    items: &mut Items,
    opens: &mut List<Open>,
    text: &'a [u8],
) -> Result<Step<'a>, ReadError>
    requires read { AreRead heads.now items.old.types }
    requires opens { AreOpen items.old.types opens.old }
    ensures { Steps heads.now items.old items.new opens.new result (goes_on heads.now items.old opens.old (reading.tuple_from (reading.type_read heads.now) (row (reading.type_read heads.now) text.now))) (length text.now) }
{
    match strip(text, ")") {
        Some(rest) => match read_interned(heads, items, Ty::Unit, rest) {
            Ok((id, rest)) => Ok(Step::Whole(id, rest)),
            Err(error) => Err(error),
        },
        None => put_open(opens, Open::Row(List::new(alloc)), text),
    }
}

/// The beginning of a type. What stands around others is open until these are read.
fn begin<'a>(
    alloc: Global,
    heads: &Heads,
    items: &mut Items,
    opens: &mut List<Open>,
    begin: Begin,
    text: &'a [u8],
) -> Result<Step<'a>, ReadError>
    requires read { AreRead heads.now items.old.types }
    requires opens { AreOpen items.old.types opens.old }
    requires leaf { BeginsLeaf heads.now begin }
    ensures { Steps heads.now items.old items.new opens.new result (goes_on heads.now items.old opens.old (reading.rest_read (reading.type_read heads.now) heads.now (begin, text.now))) (length text.now) }
{
    match begin {
        Begin::Whole(ty) => match read_interned(heads, items, ty, text) {
            Ok((id, rest)) => Ok(Step::Whole(id, rest)),
            Err(error) => Err(error),
        },
        Begin::Around(around) => put_open(opens, Open::Around(around), text),
        Begin::Row => begin_row(alloc, heads, items, opens, text),
    }
}

/// What stands around a type ends behind it.
fn end_around<'a>(
    heads: &Heads,
    items: &mut Items,
    around: TypeAround,
    id: TyId,
    text: &'a [u8],
) -> Result<Ended<'a>, ReadError>
    requires read { AreRead heads.now items.old.types }
    requires within { id.0 < length items.old.types }
    ensures { Ends heads.now items.old items.new result (as_ (reading.around_text around (text_under heads.now items.old id)) (reading.around_end around text.now)) (length text.now) }
{
    match around_end(around, text) {
        Some((n, rest)) => match read_interned(heads, items, around_type(around, id, n), rest) {
            Ok((id, rest)) => Ok(Ended::Whole(id, rest)),
            Err(error) => Err(error),
        },
        None => Err(ReadError::Unreadable),
    }
}

/// Behind a type in a row comes another one, or the row ends.
fn end_row<'a>(
    heads: &Heads,
    items: &mut Items,
    parts: List<TyId>,
    text: &'a [u8],
) -> Result<Ended<'a>, ReadError>
    requires read { AreRead heads.now items.old.types }
    requires within { AreTypes items.old.types parts }
    requires some { 0 < length parts }
    ensures { Ends heads.now items.old items.new result (row_of heads.now (map (text_under heads.now items.old) parts) text.now) (length text.now) }
{
    match strip(text, ", ") {
        Some(rest) => Ok(Ended::More(Open::Row(parts), rest)),
        None => match row_end(parts.as_slice(), text) {
            Some(rest) => match read_interned(heads, items, Ty::Tuple(parts), rest) {
                Ok((id, rest)) => Ok(Ended::Whole(id, rest)),
                Err(error) => Err(error),
            },
            None => Err(ReadError::Unreadable),
        },
    }
}

/// The end of a type that stands in an open one.
fn end_in<'a>(
    heads: &Heads,
    items: &mut Items,
    outer: Open,
    id: TyId,
    text: &'a [u8],
) -> Result<Ended<'a>, ReadError>
    requires read { AreRead heads.now items.old.types }
    requires within { id.0 < length items.old.types }
    requires opens { IsOpen items.old.types outer }
    ensures { Ends heads.now items.old items.new result (end_of_open heads.now items.old outer (text_under heads.now items.old id, text.now)) (length text.now) }
{
    match outer {
        Open::Around(around) => end_around(heads, items, around, id, text),
        Open::Row(mut parts) => match parts.push(id) {
            Ok(()) => end_row(heads, items, parts, text),
            Err(NoMemory) => Err(ReadError::NoMemory),
        },
    }
}

/// A type has ended, and with it the open ones that end there.
fn end_types<'a>(
    heads: &Heads,
    items: &mut Items,
    opens: &mut List<Open>,
    first: TyId,
    text: &'a [u8],
) -> Result<Step<'a>, ReadError>
    requires read { AreRead heads.now items.old.types }
    requires within { first.0 < length items.old.types }
    requires opens { AreOpen items.old.types opens.old }
    ensures steps { Steps heads.now items.old items.new opens.new result (goes_on heads.now items.old opens.old (Some (text_under heads.now items.old first, text.now))) (length text.now) }
    ensures closes { IfOk result (λ step. ClosesAll opens.new step) }
{
    let mut id = first;
    let mut rest = text;
    while let Some(around) = opens.pop() {
        match end_in(heads, items, around, id, rest) {
            Ok(Ended::Whole(next, behind)) => {
                id = next;
                rest = behind;
            }
            Ok(Ended::More(around, behind)) => return put_open(opens, around, behind),
            Err(error) => return Err(error),
        }
    }
    Ok(Step::Whole(id, rest))
}

/// The beginning of a type, and the ends that stand behind it.
fn read_step<'a>(
    alloc: Global,
    heads: &Heads,
    items: &mut Items,
    opens: &mut List<Open>,
    text: &'a [u8],
) -> Result<Step<'a>, ReadError>
    requires read { AreRead heads.now items.old.types }
    requires opens { AreOpen items.old.types opens.old }
    ensures steps { Steps heads.now items.old items.new opens.new result (goes_on heads.now items.old opens.old (reading.type_read heads.now text.now)) (length text.now - 1) }
    ensures closes { IfOk result (λ step. ClosesAll opens.new step) }
    ensures some { IfOk result (λ step. 0 < length text.now) }
{
    match type_begin(heads, text) {
        Some((first, rest)) => match begin(alloc, heads, items, opens, first, rest) {
            Ok(Step::Whole(id, rest)) => end_types(heads, items, opens, id, rest),
            Ok(Step::Next(rest)) => Ok(Step::Next(rest)),
            Err(error) => Err(error),
        },
        None => Err(ReadError::Unreadable),
    }
}

/// The type whose text stands at the front of a text, and what stands behind it. It is read under heads: items whose
/// structs, enums and traits have the names that it may name, by whose numbers it stands in the table. `Unreadable`
/// comes where no type is there; the table may have grown by types then too. However deep types stand in one another,
/// the call goes no deeper itself: those around the type that is read stand in a list.
pub fn read_type<'a>(
    alloc: Global,
    heads: &Heads,
    items: &mut Items,
    text: &'a [u8],
) -> Result<(TyId, &'a [u8]), ReadError>
    requires { AreRead heads.now items.old.types }
    ensures { FindsType heads.now items.old items.new result (reading.type_read heads.now text.now) }
{
    let mut opens = List::new(alloc);
    let mut rest = text;
    for _ in 0..text.len() {
        match read_step(alloc, heads, items, &mut opens, rest) {
            Ok(Step::Whole(id, behind)) => return Ok((id, behind)),
            Ok(Step::Next(behind)) => rest = behind,
            Err(error) => return Err(error),
        }
    }
    Err(ReadError::Unreadable)
}

fn read_behind_comma<'a>(
    alloc: Global,
    heads: &Heads,
    items: &mut Items,
    text: &'a [u8],
) -> Result<(TyId, &'a [u8]), ReadError>
    requires { AreRead heads.now items.old.types }
    ensures { FindsType heads.now items.old items.new result (comma (reading.type_read heads.now) text.now) }
{
    match strip(text, ", ") {
        Some(rest) => read_type(alloc, heads, items, rest),
        None => Err(ReadError::Unreadable),
    }
}

/// As many types as there are behind commas. Each has a byte, so there are no more than bytes.
fn read_more<'a>(
    alloc: Global,
    heads: &Heads,
    items: &mut Items,
    parts: &mut List<TyId>,
    text: &'a [u8],
) -> Result<&'a [u8], NoMemory>
    requires read { AreRead heads.now items.old.types }
    requires within { AreTypes items.old.types parts.old }
    ensures { FindsRow heads.now items.old items.new parts.old parts.new result (many (comma (reading.type_read heads.now)) text.now) }
{
    let mut rest = text;
    for _ in 0..text.len() {
        match read_behind_comma(alloc, heads, items, rest) {
            Ok((id, behind)) => {
                parts.push(id)?;
                rest = behind;
            }
            Err(ReadError::Unreadable) => return Ok(rest),
            Err(ReadError::NoMemory) => return Err(NoMemory),
        }
    }
    Ok(rest)
}

/// A row of types with commas between them, maybe of none.
fn read_row<'a>(
    alloc: Global,
    heads: &Heads,
    items: &mut Items,
    parts: &mut List<TyId>,
    text: &'a [u8],
) -> Result<&'a [u8], NoMemory>
    requires read { AreRead heads.now items.old.types }
    requires within { AreTypes items.old.types parts.old }
    ensures { FindsRow heads.now items.old items.new parts.old parts.new result (row (reading.type_within heads.now (length text.now)) text.now) }
{
    match read_type(alloc, heads, items, text) {
        Ok((id, rest)) => {
            parts.push(id)?;
            read_more(alloc, heads, items, parts, rest)
        }
        Err(ReadError::Unreadable) => Ok(text),
        Err(ReadError::NoMemory) => Err(NoMemory),
    }
}

/// As many types as stand behind commas, put behind those that are there already, and what stands behind them. It reads
/// each as [`read_type`] does.
pub fn more_types<'a>(
    alloc: Global,
    heads: &Heads,
    items: &mut Items,
    parts: &mut List<TyId>,
    text: &'a [u8],
) -> Result<&'a [u8], NoMemory>
    requires read { AreRead heads.now items.old.types }
    requires within { AreTypes items.old.types parts.old }
    ensures { FindsRow heads.now items.old items.new parts.old parts.new result (reading.more_types heads.now text.now) }
{
    read_more(alloc, heads, items, parts, text)
}

/// Types with commas between them, behind the parenthesis that opens.
fn read_types_behind<'a>(
    alloc: Global,
    heads: &Heads,
    items: &mut Items,
    text: &'a [u8],
) -> Result<(List<TyId>, &'a [u8]), ReadError>
    requires { AreRead heads.now items.old.types }
    ensures { FindsTypes heads.now items.old items.new result (reading.types_behind heads.now text.now) }
{
    let mut parts = List::new(alloc);
    match read_row(alloc, heads, items, &mut parts, text) {
        Ok(rest) => match strip(rest, ")") {
            Some(rest) => Ok((parts, rest)),
            None => Err(ReadError::Unreadable),
        },
        Err(NoMemory) => Err(ReadError::NoMemory),
    }
}

/// Types in parentheses at the front of a text, with commas between them, and what stands behind them. It reads each as
/// [`read_type`] does.
pub fn read_types<'a>(
    alloc: Global,
    heads: &Heads,
    items: &mut Items,
    text: &'a [u8],
) -> Result<(List<TyId>, &'a [u8]), ReadError>
    requires { AreRead heads.now items.old.types }
    ensures { FindsTypes heads.now items.old items.new result (reading.types_read heads.now text.now) }
{
    match strip(text, "(") {
        Some(rest) => read_types_behind(alloc, heads, items, rest),
        None => Err(ReadError::Unreadable),
    }
}
