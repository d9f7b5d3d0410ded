//! Methods of traits.
ghost use Rattle.std.specs.Prelude.{◌≡◌, ◌<◌, [], ◌∷◌, All, IfOk, length, map};
ghost use Rattle.mir_ty.specs.AreItems.{AreTypes, IsMethod};
ghost use Rattle.listing_write.specs.Compared.{sig_seen};
ghost use Rattle.listing_write.specs.Reading.Rows.{comma, many};
ghost use Rattle.listing_write.specs.Types.{trait_name};
ghost use Rattle.listing_parts.specs.Table.{AreRead, text_under, under};
ghost use Rattle.listing_lines.specs.TraitReading as reading;
ghost use Rattle.listing_lines.specs.TraitsRead.{BeginWithSelf, FindsMethod, FindsMethods, FindsMore};

use crate::blank_name;
use crate::params::read_params;
use listing_parts::{Heads, ReadError, read_type, strip};
use mir_base::{List, Name, NoMemory};
use mir_ty::{Items, Sig, TyId};
use std::alloc::Global;

fn make_method(alloc: Global, name: &str, params: List<TyId>, answer: TyId) -> Result<Sig, NoMemory>
    ensures { IfOk result (λ sig. sig ≡ reading.sig_of name.now params answer) }
{
    let name = Name::from_str(alloc, name)?;
    Ok(Sig {
        name,
        params,
        result: answer,
    })
}

/// What stands behind the parameters of a method.
fn with_result<'a>(
    alloc: Global,
    heads: &Heads,
    items: &mut Items,
    n: u32,
    name: &str,
    params: List<TyId>,
    text: &'a [u8],
) -> Result<(Sig, &'a [u8]), ReadError>
    requires read { AreRead heads.now items.old.types }
    requires within { AreTypes items.old.types params }
    requires own { BeginWithSelf items.old n params }
    ensures { FindsMethod heads.now items.old items.new n result (reading.result_from heads.now name.now (map (text_under heads.now items.old) params, text.now)) }
{
    match strip(text, " ") {
        Some(rest) => match read_type(alloc, heads, items, rest) {
            Ok((answer, rest)) => match make_method(alloc, name, params, answer) {
                Ok(sig) => Ok((sig, rest)),
                Err(NoMemory) => Err(ReadError::NoMemory),
            },
            Err(error) => Err(error),
        },
        None => Err(ReadError::Unreadable),
    }
}

fn method_behind<'a>(
    alloc: Global,
    heads: &Heads,
    items: &mut Items,
    n: u32,
    own: &str,
    name: &str,
    text: &'a [u8],
) -> Result<(Sig, &'a [u8]), ReadError>
    requires read { AreRead heads.now items.old.types }
    requires head { n < length heads.now.traits }
    requires named { own.now ≡ trait_name heads.now n }
    ensures { FindsMethod heads.now items.old items.new n result (reading.method_from heads.now own.now (name.now, text.now)) }
{
    match read_params(alloc, heads, items, n, own, text) {
        Ok((params, rest)) => with_result(alloc, heads, items, n, name, params, rest),
        Err(error) => Err(error),
    }
}

/// A method of the trait with number `n`.
fn method<'a>(
    alloc: Global,
    heads: &Heads,
    items: &mut Items,
    n: u32,
    own: &str,
    text: &'a [u8],
) -> Result<(Sig, &'a [u8]), ReadError>
    requires read { AreRead heads.now items.old.types }
    requires head { n < length heads.now.traits }
    requires named { own.now ≡ trait_name heads.now n }
    ensures { FindsMethod heads.now items.old items.new n result (reading.method_read heads.now own.now text.now) }
{
    match blank_name(text) {
        Some((name, rest)) => method_behind(alloc, heads, items, n, own, name, rest),
        None => Err(ReadError::Unreadable),
    }
}

fn method_behind_comma<'a>(
    alloc: Global,
    heads: &Heads,
    items: &mut Items,
    n: u32,
    own: &str,
    text: &'a [u8],
) -> Result<(Sig, &'a [u8]), ReadError>
    requires read { AreRead heads.now items.old.types }
    requires head { n < length heads.now.traits }
    requires named { own.now ≡ trait_name heads.now n }
    ensures { FindsMethod heads.now items.old items.new n result (comma (reading.method_read heads.now own.now) text.now) }
{
    match strip(text, ", ") {
        Some(rest) => method(alloc, heads, items, n, own, rest),
        None => Err(ReadError::Unreadable),
    }
}

/// As many methods as there are behind commas. Each has a byte, so there are no more than bytes.
fn more_methods<'a>(
    alloc: Global,
    heads: &Heads,
    items: &mut Items,
    n: u32,
    own: &str,
    methods: &mut List<Sig>,
    text: &'a [u8],
) -> Result<&'a [u8], NoMemory>
    requires read { AreRead heads.now items.old.types }
    requires head { n < length heads.now.traits }
    requires named { own.now ≡ trait_name heads.now n }
    requires within { All (IsMethod items.old.types n) methods.old }
    ensures { FindsMore heads.now items.old items.new n methods.old methods.new result (many (comma (reading.method_read heads.now own.now)) text.now) }
{
    let mut rest = text;
    for _ in 0..text.len() {
        match method_behind_comma(alloc, heads, items, n, own, rest) {
            Ok((method, behind)) => {
                methods.push(method)?;
                rest = behind;
            }
            Err(ReadError::Unreadable) => return Ok(rest),
            Err(ReadError::NoMemory) => return Err(NoMemory),
        }
    }
    Ok(rest)
}

/// A list of one method.
fn only(alloc: Global, method: Sig) -> Result<List<Sig>, NoMemory>
    ensures { IfOk result (λ methods. methods ≡ method ∷ []) }
{
    let mut methods = List::new(alloc);
    methods.push(method)?;
    Ok(methods)
}

/// What stands behind the first method.
fn with_more<'a>(
    alloc: Global,
    heads: &Heads,
    items: &mut Items,
    n: u32,
    own: &str,
    first: Sig,
    text: &'a [u8],
) -> Result<(List<Sig>, &'a [u8]), ReadError>
    requires read { AreRead heads.now items.old.types }
    requires head { n < length heads.now.traits }
    requires named { own.now ≡ trait_name heads.now n }
    requires within { IsMethod items.old.types n first }
    ensures { FindsMethods heads.now items.old items.new n result (reading.with_more heads.now own.now (sig_seen (under heads.now items.old) first, text.now)) }
{
    match only(alloc, first) {
        Ok(mut methods) => match more_methods(alloc, heads, items, n, own, &mut methods, text) {
            Ok(rest) => Ok((methods, rest)),
            Err(NoMemory) => Err(ReadError::NoMemory),
        },
        Err(NoMemory) => Err(ReadError::NoMemory),
    }
}

/// One method, and as many as stand behind commas.
fn some_methods<'a>(
    alloc: Global,
    heads: &Heads,
    items: &mut Items,
    n: u32,
    own: &str,
    text: &'a [u8],
) -> Result<(List<Sig>, &'a [u8]), ReadError>
    requires read { AreRead heads.now items.old.types }
    requires head { n < length heads.now.traits }
    requires named { own.now ≡ trait_name heads.now n }
    ensures { FindsMethods heads.now items.old items.new n result (reading.some_methods heads.now own.now text.now) }
{
    match method(alloc, heads, items, n, own, text) {
        Ok((first, rest)) => with_more(alloc, heads, items, n, own, first, rest),
        Err(error) => Err(error),
    }
}

fn methods_behind<'a>(
    alloc: Global,
    heads: &Heads,
    items: &mut Items,
    n: u32,
    own: &str,
    text: &'a [u8],
) -> Result<(List<Sig>, &'a [u8]), ReadError>
    requires read { AreRead heads.now items.old.types }
    requires head { n < length heads.now.traits }
    requires named { own.now ≡ trait_name heads.now n }
    ensures { FindsMethods heads.now items.old items.new n result (reading.methods_behind heads.now own.now text.now) }
{
    match some_methods(alloc, heads, items, n, own, text) {
        Ok((methods, rest)) => match strip(rest, " }") {
            Some(rest) => Ok((methods, rest)),
            None => Err(ReadError::Unreadable),
        },
        Err(error) => Err(error),
    }
}

/// Variants in braces, maybe none.
pub fn read_methods<'a>(
    alloc: Global,
    heads: &Heads,
    items: &mut Items,
    n: u32,
    own: &str,
    text: &'a [u8],
) -> Result<(List<Sig>, &'a [u8]), ReadError>
    requires read { AreRead heads.now items.old.types }
    requires head { n < length heads.now.traits }
    requires named { own.now ≡ trait_name heads.now n }
    ensures { FindsMethods heads.now items.old items.new n result (reading.methods_read heads.now own.now text.now) }
{
    match strip(text, "{ }") {
        Some(rest) => Ok((List::new(alloc), rest)),
        None => match strip(text, "{ ") {
            Some(rest) => methods_behind(alloc, heads, items, n, own, rest),
            None => Err(ReadError::Unreadable),
        },
    }
}
