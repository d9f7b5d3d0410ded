ghost use Rattle.std.specs.Prelude.{◌≡◌, ◌<◌, ◌+◌, ◌/◌, ◌%◌, [], ◌∷◌, ◌++◌, OnOk, codes};
ghost use Rattle.std.specs.Fmt.{decimal, signed_decimal};
ghost use Rattle.std.specs.String.{string_bytes};
ghost use Rattle.mir_base.specs.Lines.{why_word};
ghost use Rattle.listing_write.specs.Listing.{kind_word};
ghost use Rattle.listing_write.specs.Parts.{comparison_text, math_text, truth_text, borrow_text, unwind_text};
ghost use Rattle.listing_write.specs.Types.{kind_text};

use cfg_graph::{Kind, Unwind};
use itoa::Buffer;
use mir_base::{Cmp, IntKind, Math, Why};
use std::alloc::AllocError;

/// Puts a word behind a text.
pub fn put(out: &mut String, word: &str) -> Result<(), AllocError>
    ensures { OnOk result (string_bytes out.new ≡ string_bytes out.old ++ word.now) }
{
    out.push_str(word)
}

/// Puts a digit behind a text.
fn put_digit(out: &mut String, digit: u32) -> Result<(), AllocError>
    requires { digit < 10 }
    ensures { OnOk result (string_bytes out.new ≡ string_bytes out.old ++ (48 + digit) ∷ []) }
{
    out.push((b'0' + digit as u8) as char)
}

/// Puts two digits behind a text.
fn put_pair(out: &mut String, pair: u32) -> Result<(), AllocError>
    requires { pair < 100 }
    ensures { OnOk result (string_bytes out.new ≡ string_bytes out.old ++ (48 + pair / 10) ∷ (48 + pair % 10) ∷ []) }
{
    put_digit(out, pair / 10)?;
    put_digit(out, pair % 10)
}

/// Puts a number of one or two digits behind a text.
fn put_first(out: &mut String, number: u32) -> Result<(), AllocError>
    requires { number < 100 }
    ensures { OnOk result (string_bytes out.new ≡ string_bytes out.old ++ decimal number) }
{
    if number < 10 {
        put_digit(out, number)
    } else {
        put_pair(out, number)
    }
}

/// Puts a number behind a text. Most numbers of blocks, locals and steps have at most four digits, which are put there one
/// by one.
pub fn put_number(out: &mut String, number: u32) -> Result<(), AllocError>
    ensures { OnOk result (string_bytes out.new ≡ string_bytes out.old ++ decimal number) }
{
    if number < 100 {
        return put_first(out, number);
    }
    if number < 10_000 {
        put_first(out, number / 100)?;
        return put_pair(out, number % 100);
    }
    let mut buffer = Buffer::new();
    out.push_str(buffer.format(number))
}

/// Puts a number with its sign behind a text.
pub fn put_signed(out: &mut String, number: i128) -> Result<(), AllocError>
    ensures { OnOk result (string_bytes out.new ≡ string_bytes out.old ++ signed_decimal number) }
{
    let mut buffer = Buffer::new();
    out.push_str(buffer.format(number))
}

pub fn word_of_int(kind: IntKind) -> &'static str
    ensures { result.now ≡ kind_text kind }
{
    match kind {
        IntKind::I32 => "i32",
        IntKind::I64 => "i64",
        IntKind::U32 => "u32",
        IntKind::U64 => "u64",
        IntKind::Usize => "usize",
    }
}

pub fn word_of_comparison(op: Cmp) -> &'static str
    ensures { result.now ≡ comparison_text op }
{
    match op {
        Cmp::Eq => "eq",
        Cmp::Ne => "ne",
        Cmp::Lt => "lt",
        Cmp::Le => "le",
        Cmp::Gt => "gt",
        Cmp::Ge => "ge",
    }
}

pub fn word_of_math(op: Math) -> &'static str
    ensures { result.now ≡ math_text op }
{
    match op {
        Math::Add => "add",
        Math::Sub => "sub",
        Math::Mul => "mul",
        Math::Div => "div",
        Math::Rem => "rem",
    }
}

pub fn word_of_why(why: Why) -> &'static str
    ensures { result.now ≡ why_word why }
{
    match why {
        Why::Explicit => "explicit",
        Why::Overflow => "overflow",
        Why::Divide => "divide",
        Why::Index => "index",
        Why::Ask => "ask",
        Why::Match => "match",
    }
}

/// Puts the kind of a block behind a text, and the word before its rank.
pub fn put_kind(out: &mut String, kind: Kind) -> Result<(), AllocError>
    ensures { OnOk result (string_bytes out.new ≡ string_bytes out.old ++ (codes " " ++ kind_word kind ++ codes " rank ")) }
{
    match kind {
        Kind::Plain => put(out, " plain rank "),
        Kind::Turn => put(out, " turn rank "),
        Kind::Cleanup => put(out, " cleanup rank "),
    }
}

pub fn word_of_truth(value: bool) -> &'static str
    ensures { result.now ≡ truth_text value }
{
    if value { "const true" } else { "const false" }
}

pub fn word_of_borrow(unique: bool) -> &'static str
    ensures { result.now ≡ borrow_text unique }
{
    if unique { " = &mut " } else { " = & " }
}

/// Puts where a panic goes on behind a text.
pub fn put_unwind(out: &mut String, unwind: Unwind) -> Result<(), AllocError>
    ensures { OnOk result (string_bytes out.new ≡ string_bytes out.old ++ unwind_text unwind) }
{
    match unwind {
        Unwind::Block(block) => put_number(out, block),
        Unwind::Resume => put(out, "resume"),
        Unwind::Abort => put(out, "abort"),
    }
}
